//! Why a text is no name: the answer to a user's mistake. It doesn't decide what a name is.
ghost use Rattle.std.specs.Prelude.{◌≡◌, ◌≤◌, false, length};
ghost use Rattle.flow_rules.specs.Name.{IsNoName, is_name};

use super::{Name, may_stand};
use std::error::Error;
use std::fmt;

/// Why a text is not a [`Name`].
#[derive(Clone, Copy, Debug, PartialEq, Eq)]
pub enum NotAName {
    /// It has no byte.
    Empty,
    /// It has more than [`Name::LONGEST`] bytes.
    TooLong,
    /// The byte at this place, from 0 on, may not stand in a name. Those before it may.
    BadByte(usize),
}

impl NotAName {
    /// Says what keeps these bytes from being a name.
    pub(super) fn of(bytes: &[u8]) -> NotAName
        requires { is_name bytes.now ≡ false }
        ensures { IsNoName bytes.now result }
    {
        if bytes.is_empty() {
            return NotAName::Empty;
        }
        if bytes.len() > Name::LONGEST {
            return NotAName::TooLong;
        }
        let mut at = 0;
        while may_stand(bytes[at]) {
            at += 1;
        }
        NotAName::BadByte(at)
    }
}

impl fmt::Display for NotAName {
    fn fmt<W: fmt::Write>(&self, f: &mut fmt::Formatter<W>) -> fmt::Result {
        match self {
            NotAName::Empty => f.write_str("a name has a byte at least"),
            NotAName::TooLong => write!(f, "a name has {} bytes at most", Name::LONGEST),
            NotAName::BadByte(place) => write!(f, "the byte at {place} may not stand in a name"),
        }
    }
}

impl Error for NotAName {}
