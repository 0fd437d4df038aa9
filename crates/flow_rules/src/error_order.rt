//! When a closing error is told.
use std::fmt;

/// When a subscriber is told the error that its publisher was closed with, if items wait for it
/// (`SubmissionPublisher.closeExceptionally`, Java SE 17, leaves that open).
#[derive(Clone, Copy, Debug, PartialEq, Eq)]
pub enum ErrorOrder {
    /// At the next look: the error overtakes the items that wait, and these are never told.
    Overtake,
    /// Once every accepted item was told, in place of completion: the error waits as long as the subscriber
    /// doesn't request the items before it.
    AfterItems,
}

/// In words, for people.
impl fmt::Display for ErrorOrder {
    fn fmt<W: fmt::Write>(&self, f: &mut fmt::Formatter<W>) -> fmt::Result {
        match self {
            ErrorOrder::Overtake => f.write_str("a closing error overtakes the items that wait"),
            ErrorOrder::AfterItems => f.write_str("a closing error waits for the items"),
        }
    }
}
