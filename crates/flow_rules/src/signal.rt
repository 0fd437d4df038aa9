//! A signal: one call of a subscriber's method.
use crate::item::Item;
use std::fmt;

/// What an `onError` carries.
#[derive(Clone, Copy, Debug, PartialEq, Eq)]
pub enum Fault {
    /// The publisher was closed with this code (`SubmissionPublisher.closeExceptionally`).
    Published(u32),
    /// The subscriber requested a number that is not positive (Reactive Streams 1.0, rule 3.9).
    IllegalArgument,
    /// The subscriber subscribed a second time (`SubmissionPublisher.subscribe`).
    IllegalState,
}

/// In words, for people.
impl fmt::Display for Fault {
    fn fmt<W: fmt::Write>(&self, f: &mut fmt::Formatter<W>) -> fmt::Result {
        match self {
            Fault::Published(code) => write!(f, "the publisher was closed with the error {code}"),
            Fault::IllegalArgument => f.write_str("a request that is not positive"),
            Fault::IllegalState => f.write_str("a second subscribing"),
        }
    }
}

/// One call of a subscriber's method, as `Flow.Subscriber` has them.
#[derive(Debug, Drop, PartialEq, Eq)]
pub enum Signal {
    /// `onSubscribe`
    Subscribed,
    /// `onNext`
    Next(Item),
    /// `onComplete`
    Complete,
    /// `onError`
    Error(Fault),
}
