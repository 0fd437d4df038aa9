//! Why a call is refused.
mod conversions;
mod explained;

ghost use Rattle.std.specs.Prelude.{◌≡◌, Some, codes};
ghost use Rattle.std.specs.declared.string.String.{String};
ghost use Rattle.flow_rules.specs.Refusal.{refusal_number, refusal_word, refusal_line};

use crate::ending::Ending;
use crate::name::Name;
pub use explained::Explained;
use std::error::Error;
use std::fmt;

/// A growth was refused; nothing has changed.
#[derive(Clone, Copy, Debug, PartialEq, Eq)]
pub struct NoMemory;

/// A capacity of 0 (`IllegalArgumentException` of `SubmissionPublisher`'s constructor).
#[derive(Clone, Copy, Debug, PartialEq, Eq)]
pub struct BadCapacity;

/// Why a call was refused. After a refusal nothing has changed, unless the call says otherwise.
#[derive(Debug, Drop, PartialEq, Eq)]
pub enum Refusal {
    /// The capacity was 0.
    BadCapacity,
    /// The publisher was closed in this way.
    Closed(Ending),
    /// A live subscription has the name.
    Duplicate,
    /// As many subscriptions are live as may be, as many submitters were ever made, or no subscriber is left in a
    /// script's stock.
    TooMany,
    /// A growth was refused.
    NoMemory,
    /// The text has more bytes than [`Text::LONGEST`](crate::Text::LONGEST).
    LineTooLong,
    /// The number of workers was not 1 to 8.
    BadWorkers,
    /// The subscription or the submitter of this name was not handed in, or a thread is in the middle of a turn of the
    /// subscription.
    StillHeld(Name),
    /// These subscriptions have not ended: at the end of a publisher those that run, or that wait for demand though it
    /// is closed; and one that is to be reclaimed.
    Unsettled(Vec<Name>),
    /// No subscription had that name.
    Unknown,
    /// The call would have to wait.
    WouldWait,
    /// The form of a command, a line or an argument is wrong.
    BadCommand,
    /// As many publications, subscriptions or tickets were made as there may ever be.
    Exhausted,
}

impl Refusal {
    /// The number of the refusal, 1 to 13.
    pub fn number(&self) -> u32
        ensures { result ≡ refusal_number self.now }
    {
        match self {
            Refusal::BadCapacity => 1,
            Refusal::Closed(_) => 2,
            Refusal::Duplicate => 3,
            Refusal::TooMany => 4,
            Refusal::NoMemory => 5,
            Refusal::LineTooLong => 6,
            Refusal::BadWorkers => 7,
            Refusal::StillHeld(_) => 8,
            Refusal::Unsettled(_) => 9,
            Refusal::Unknown => 10,
            Refusal::WouldWait => 11,
            Refusal::BadCommand => 12,
            Refusal::Exhausted => 13,
        }
    }

    /// The refusal in words for people, which name what it carries: the end of a close, the name of what is still held,
    /// or the names of what is unsettled. Programs print [`Refusal`] itself, `refused N WORD`.
    pub fn explain(&self) -> Explained<'_>
        ensures { result ≡ self.now }
    {
        Explained { refusal: self }
    }

    /// The word that is printed beside the number.
    pub fn word(&self) -> &'static str
        ensures { result.now ≡ refusal_word self.now }
    {
        match self {
            Refusal::BadCapacity => "capacity",
            Refusal::Closed(_) => "closed",
            Refusal::Duplicate => "duplicate",
            Refusal::TooMany => "many",
            Refusal::NoMemory => "memory",
            Refusal::LineTooLong => "line",
            Refusal::BadWorkers => "workers",
            Refusal::StillHeld(_) => "held",
            Refusal::Unsettled(_) => "unsettled",
            Refusal::Unknown => "unknown",
            Refusal::WouldWait => "wait",
            Refusal::BadCommand => "command",
            Refusal::Exhausted => "exhausted",
        }
    }
}

/// `refused N WORD`
impl fmt::Display for Refusal {
    ghost output = { λ refusal. Some (refusal_line refusal) };

    fn fmt<W: fmt::Write>(&self, f: &mut fmt::Formatter<W>) -> fmt::Result {
        write!(f, "refused {} {}", self.number(), self.word())
    }
}

impl Error for Refusal {}

impl fmt::Display for NoMemory {
    ghost output = { λ _. Some (codes "memory") };

    fn fmt<W: fmt::Write>(&self, f: &mut fmt::Formatter<W>) -> fmt::Result {
        f.write_str("memory")
    }
}

impl Error for NoMemory {}

impl fmt::Display for BadCapacity {
    ghost output = { λ _. Some (codes "capacity") };

    fn fmt<W: fmt::Write>(&self, f: &mut fmt::Formatter<W>) -> fmt::Result {
        f.write_str("capacity")
    }
}

impl Error for BadCapacity {}
