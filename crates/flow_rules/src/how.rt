//! How a subscription ends.
use crate::signal::Fault;
use std::fmt;

/// How a subscription ended.
#[derive(Clone, Copy, Debug, PartialEq, Eq)]
pub enum How {
    /// `onComplete` was told.
    Completed,
    /// `onError` was told, with this fault.
    Errored(Fault),
    /// The subscription was cancelled.
    Cancelled,
    /// A callback failed with this code.
    Failed(u32),
    /// A callback was refused memory.
    OutOfMemory,
}

/// In words, for people.
impl fmt::Display for How {
    fn fmt<W: fmt::Write>(&self, f: &mut fmt::Formatter<W>) -> fmt::Result {
        match self {
            How::Completed => f.write_str("completed"),
            How::Errored(fault) => write!(f, "ended with an error: {fault}"),
            How::Cancelled => f.write_str("cancelled"),
            How::Failed(code) => write!(f, "a callback failed with the code {code}"),
            How::OutOfMemory => f.write_str("a callback ran out of memory"),
        }
    }
}
