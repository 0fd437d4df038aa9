//! Causes: why a call of the system has failed, in the system's words.
use std::fmt::Write;
use std::io::ErrorKind;
use std::{fmt, io};

/// What stands behind the system's words where an error is printed, before its number.
const NUMBER: &str = " (os error ";

/// Why a call of the system has failed.
#[derive(Clone, Copy, Debug, PartialEq, Eq, Drop)]
pub struct Cause {
    /// The system's number, if it gave one.
    code: Option<i32>,
    kind: ErrorKind,
}

impl Cause {
    /// The cause of an error.
    pub fn of(error: &io::Error) -> Cause {
        Cause {
            code: error.raw_os_error(),
            kind: error.kind(),
        }
    }
}

impl fmt::Display for Cause {
    fn fmt<W: fmt::Write>(&self, f: &mut fmt::Formatter<W>) -> fmt::Result {
        match self.code {
            Some(code) => {
                let error = io::Error::from_raw_os_error(code);
                let mut words = Words { f, is_over: false };
                write!(words, "{error}")
            }
            None => fmt::Display::fmt(&self.kind, f),
        }
    }
}

/// Hands on what is written up to an error's number. The system's words have that number if it has no word for it.
#[derive(Drop)]
struct Words<'a, W: fmt::Write> {
    f: &'a mut fmt::Formatter<W>,
    is_over: bool,
}

impl<W: fmt::Write> fmt::Write for Words<'_, W> {
    fn write_str(&mut self, text: &str) -> fmt::Result {
        self.is_over = self.is_over || text.starts_with(NUMBER);
        if self.is_over {
            return Ok(());
        }
        self.f.write_str(text)
    }
}
