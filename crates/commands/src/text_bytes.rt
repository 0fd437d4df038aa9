//! The text of a publication, before it is published.
use std::marker::Model;

/// The bytes of one text as they stand in the input.
#[derive(Debug, Drop)]
pub struct TextBytes<'a> {
    bytes: &'a [u8],
}

impl<'a> Model for TextBytes<'a> {
    ghost use Rattle.std.specs.Prelude.{List, ℕ};

    ghost Value = { List ℕ };

    ghost view = { λ t. t.bytes.now };
}

impl<'a> TextBytes<'a> {
    ghost use Rattle.std.specs.Prelude.{◌≡◌};

    /// The text with these bytes.
    pub fn new(bytes: &'a [u8]) -> TextBytes<'a>
        ensures { result ≡ bytes.entry.now }
    {
        TextBytes { bytes }
    }

    /// Its bytes.
    pub fn as_bytes(&self) -> &'a [u8]
        ensures { result.now ≡ self.now }
    {
        self.bytes
    }
}
