//! Lines: how many bytes have, and where the first ends.
ghost use Rattle.std.specs.Prelude.{◌≡◌, ◌+◌, ◌<◌, ◌≤◌, ◌∷◌, count_by, drop, length, take};
ghost use Rattle.std.specs.Simd.Lanes.{chunk};
ghost use Rattle.memchr.specs.Find.{is_byte};
ghost use Rattle.fanout.specs.Piece.{lines_begun, lines_of};

use crate::piece::{LINE_FEED, ends_line, piece_of};
use memchr::{memchr, memchr_iter};
use std::simd::prelude::*;

/// How many bytes are looked at in one step.
const LANES: usize = 64;

/// How many lines begin in a text.
pub fn lines_begun(text: &[u8]) -> usize
    ensures { result ≡ lines_begun text.now }
{
    let piece = piece_of(text);
    if piece.is_first {
        count_lines(piece.bytes)
    } else {
        0
    }
}

/// How many lines these bytes are. The last may have no line feed.
pub fn count_lines(bytes: &[u8]) -> usize
    ensures { result ≡ length (lines_of bytes.now) }
{
    let feeds = count_feeds(bytes);
    if bytes.is_empty() || ends_line(bytes) {
        feeds
    } else {
        feeds + 1
    }
}

/// How many line feeds these bytes have.
pub fn count_feeds(bytes: &[u8]) -> usize
    ensures { result ≡ count_by (is_byte 10) bytes.now }
{
    let mut feeds = 0;
    let mut at = 0;
    while bytes.len() - at >= LANES {
        feeds += feeds_at(bytes, at);
        at += LANES;
    }
    feeds + memchr_iter(LINE_FEED, &bytes[at..]).count()
}

/// How many of the bytes from this place on, as many as are looked at in one step, are line feeds.
fn feeds_at(bytes: &[u8], at: usize) -> usize
    requires { at + LANES ≤ length bytes.now }
    ensures { result ≡ count_by (is_byte 10) (chunk at LANES bytes.now) }
{
    u8x64::from_slice(&bytes[at..])
        .simd_eq(u8x64::splat(LINE_FEED))
        .to_bitmask()
        .count_ones() as usize
}

/// How many bytes the first of these lines has, with its line feed.
pub fn line_length(bytes: &[u8]) -> usize
    requires { 0 < length bytes.now }
    ensures some { 0 < result }
    ensures within { result ≤ length bytes.now }
    ensures line { lines_of bytes.now ≡ take result bytes.now ∷ lines_of (drop result bytes.now) }
{
    match memchr(LINE_FEED, bytes) {
        Some(place) => place + 1,
        None => bytes.len(),
    }
}
