//! Words: how bytes are cut at spaces, and texts.
ghost use Rattle.std.specs.Prelude.{◌≡◌};
ghost use Rattle.commands.specs.Word.{first_word, after_space, spelled_text};

use crate::line::split_at_byte;
use crate::text_bytes::TextBytes;

/// The first word and what follows the space after it.
pub fn split_word(bytes: &[u8]) -> (&[u8], &[u8])
    ensures word { result.0.now ≡ first_word bytes.now }
    ensures rest { result.1.now ≡ after_space bytes.now }
{
    split_at_byte(bytes, b' ')
}

/// The text, if it has at least one byte.
pub fn parse_text(bytes: &[u8]) -> Option<TextBytes<'_>>
    ensures { result ≡ spelled_text bytes.entry.now }
{
    if bytes.is_empty() {
        None
    } else {
        Some(TextBytes::new(bytes))
    }
}
