//! Excerpts: the beginning of bytes that somebody typed, to be shown to people. It is not the text itself, which may
//! hold any bytes.
use std::fmt;

/// How many bytes are shown.
const LONGEST: usize = 60;

/// The first bytes of a text, of which those that are not printable ASCII are escaped.
#[derive(Clone, Copy)]
pub struct Excerpt<'a> {
    bytes: &'a [u8],
}

impl<'a> Excerpt<'a> {
    /// The beginning of these bytes.
    pub fn new(bytes: &'a [u8]) -> Excerpt<'a> {
        Excerpt { bytes }
    }
}

impl fmt::Display for Excerpt<'_> {
    fn fmt<W: fmt::Write>(&self, f: &mut fmt::Formatter<W>) -> fmt::Result {
        let shown = &self.bytes[..self.bytes.len().min(LONGEST)];
        write!(f, "{}", shown.escape_ascii())?;
        if shown.len() < self.bytes.len() {
            f.write_str(" ..")?;
        }
        Ok(())
    }
}
