//! Texts: how the bytes of a source are cut into them, and what a sink sees of one.
//!
//! A text has whole lines, each with its line feed, or a piece of a line that is longer than a text, or the last line of a
//! source if that has no line feed. A long line is cut where it has filled texts, however its bytes were read.
ghost use Rattle.std.specs.Prelude.{◌≡◌, ◌<◌, ◌≤◌, IfNone, IfOk, IfSome, false, length, true};
ghost use Rattle.memchr.specs.Find.{IsFirstByte, IsLastByte, is_byte};
ghost use Rattle.fanout.specs.Piece.{HasNoLineFeed, IsPieceOf, begins_with_feed, ends_line, is_first, is_marked, most_of, piece_bytes, text_of};

use flow_rules::{NoMemory, Text};
use memchr::{memchr, memrchr};
use std::alloc::Global;

/// What ends a line.
pub const LINE_FEED: u8 = b'\n';

/// The most bytes of a text. One in the middle of a line begins with a line feed that is none of the line's, and so does
/// one whose first line is empty; other texts never begin with a line feed and more.
pub const LONGEST: usize = Text::LONGEST;

/// What a text has of its source.
#[derive(Clone, Copy)]
pub struct Piece<'a> {
    /// Whether a line begins with it.
    pub is_first: bool,
    /// Its bytes, as they stand in the source.
    pub bytes: &'a [u8],
}

/// What a text has.
pub fn piece_of(text: &[u8]) -> Piece<'_>
    ensures first { result.is_first ≡ is_first text.entry.now }
    ensures bytes { result.bytes.now ≡ piece_bytes text.entry.now }
{
    if !begins_with_feed(text) {
        return Piece {
            is_first: true,
            bytes: text,
        };
    }
    let bytes = &text[1..];
    Piece {
        is_first: begins_with_feed(bytes),
        bytes,
    }
}

/// Whether a line feed begins these bytes, and they have more.
fn begins_with_feed(bytes: &[u8]) -> bool
    ensures { result ≡ begins_with_feed bytes.now }
{
    bytes.len() > 1 && bytes[0] == LINE_FEED
}

/// Whether a line ends with these bytes.
pub fn ends_line(bytes: &[u8]) -> bool
    ensures { result ≡ ends_line bytes.now }
{
    !bytes.is_empty() && bytes[bytes.len() - 1] == LINE_FEED
}

/// Whether the text with these bytes is marked, in the middle of a line or not.
pub fn is_marked(is_in_line: bool, bytes: &[u8]) -> bool
    ensures { result ≡ is_marked is_in_line bytes.now }
{
    is_in_line || begins_with_feed(bytes)
}

/// The most bytes that a text has, marked or not.
pub fn most_of(is_marked: bool) -> usize
    ensures { result ≡ most_of is_marked }
{
    if is_marked { LONGEST - 1 } else { LONGEST }
}

/// The text with these bytes, marked or not. `NoMemory` if its memory is refused.
pub fn text_of(alloc: Global, bytes: &[u8], is_marked: bool) -> Result<Text, NoMemory>
    requires { length bytes.now ≤ most_of is_marked }
    ensures { IfOk result (λ text. text ≡ text_of is_marked bytes.now) }
{
    if !is_marked {
        return Text::new(alloc, bytes);
    }
    let mut marked = Vec::with_capacity(alloc, bytes.len() + 1)?;
    marked.push(LINE_FEED)?;
    marked.extend_from_slice(bytes)?;
    Text::new(alloc, marked.as_slice())
}

/// How many of these bytes the next text has: in the middle of a line all up to the first line feed, else all up to the
/// last one, and no more than `most`. `None` if that can't be known before more bytes have come.
pub fn piece_length(bytes: &[u8], most: usize, is_in_line: bool) -> Option<usize>
    requires { 0 < most }
    ensures some { IfSome result (λ n. IsPieceOf is_in_line bytes.now most n) }
    ensures none { IfNone result ((length bytes.now < most) × HasNoLineFeed bytes.now) }
{
    let within = &bytes[..bytes.len().min(most)];
    match line_end(within, is_in_line) {
        Some(place) => Some(place + 1),
        None if within.len() == most => Some(most),
        None => None,
    }
}

/// Where the first of these lines ends, or the last.
fn line_end(bytes: &[u8], is_first: bool) -> Option<usize>
    ensures first { is_first ≡ true → IsFirstByte (is_byte 10) bytes.now result }
    ensures last { is_first ≡ false → IsLastByte (is_byte 10) bytes.now result }
{
    if is_first {
        memchr(LINE_FEED, bytes)
    } else {
        memrchr(LINE_FEED, bytes)
    }
}
