//! How a publisher is closed.
use std::fmt;

/// How a publisher was closed: by `close`, or by `closeExceptionally` with a code.
#[derive(Clone, Copy, Debug, PartialEq, Eq)]
pub enum Ending {
    Normal,
    Failed(u32),
}

/// In words, for people.
impl fmt::Display for Ending {
    fn fmt<W: fmt::Write>(&self, f: &mut fmt::Formatter<W>) -> fmt::Result {
        match self {
            Ending::Normal => f.write_str("closed"),
            Ending::Failed(code) => write!(f, "closed with the error {code}"),
        }
    }
}
