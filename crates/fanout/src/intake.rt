//! The intake of a source: the bytes that were read of it and not published yet.
ghost use Rattle.std.specs.Prelude.{◌≡◌, ◌≢◌, ℕ, ◌+◌, ◌-◌, ◌<◌, ◌≤◌, true, false, IfOk, IfNone, IfSome, OnErr, [], length, slice_index};
ghost use Rattle.std.specs.Io.{StartsWith};
ghost use Rattle.fanout.specs.Intake.{CutsOff, NeedsMore, ended};
ghost use Rattle.fanout.specs.Piece.{is_marked, most_of};

use crate::piece::{LINE_FEED, LONGEST, ends_line, is_marked, most_of, piece_length, text_of};
use flow_rules::{NoMemory, Text};
use std::alloc::Global;
use std::io;
use std::io::Read;
use std::marker::Model;

/// How many bytes are read at once, at most.
const AT_ONCE: usize = 16_384;

/// The room: for what is read at once, and for the beginning of a text before it.
const ROOM: usize = AT_ONCE + LONGEST;

/// The bytes of a source that wait to be published. They stand in `room` from `start` to `end`.
#[derive(Drop)]
pub struct Intake {
    room: Vec<u8>,
    start: usize,
    end: usize,
    /// Whether the line of the last text goes on.
    is_in_line: bool,
}

impl Model for Intake {
    ghost use Rattle.std.specs.Prelude.{◌≡◌, ◌≤◌, length};
    ghost use Rattle.std.specs.List.{slice_range};
    ghost use Rattle.fanout.specs.Intake.{IntakeState};

    ghost Value = { IntakeState };

    ghost invariant = { λ i. (i.start ≤ i.end) × (i.end ≤ length i.room.items)
        × (length i.room.items ≡ 20480) };

    ghost view = { λ i. record {
      waiting = slice_range i.room.items i.start i.end;
      in_line = i.is_in_line;
    } };
}

impl Intake {
    /// One in which nothing waits, before a source's first line. `NoMemory` if its room is refused.
    pub fn new(alloc: Global) -> Result<Intake, NoMemory>
        ensures { IfOk result
            (λ intake. intake ≡ record { waiting = []; in_line = false }) }
    {
        Ok(Intake {
            room: vec![in alloc; 0; ROOM]?,
            start: 0,
            end: 0,
            is_in_line: false,
        })
    }

    /// Reads some bytes behind those that wait, and tells how many; 0 at the end. [`cut`](Intake::cut) has answered `None`
    /// before. After an error the same bytes wait.
    pub fn read<I: Read>(&mut self, reader: &mut I) -> io::Result<usize>
        requires { length self.old.waiting < LONGEST }
        ensures keeps { StartsWith self.new.waiting self.old.waiting }
        ensures line { self.new.in_line ≡ self.old.in_line }
        ensures count { IfOk result
            (λ n. length self.new.waiting ≡ length self.old.waiting + n) }
        ensures unchanged { OnErr result (self.new ≡ self.old) }
    {
        let waiting = self.end - self.start;
        self.room.copy_within(self.start..self.end, 0);
        self.start = 0;
        self.end = waiting;
        let read = reader.read(&mut self.room[waiting..])?;
        self.end = waiting + read;
        Ok(read)
    }

    /// Ends the last line with a line feed, if a line has begun. [`cut`](Intake::cut) has answered `None` before, so it has
    /// none.
    pub fn end_line(&mut self)
        requires { length self.old.waiting < LONGEST }
        ensures ended { self.new.waiting ≡ ended self.old.in_line self.old.waiting }
        ensures line { self.new.in_line ≡ self.old.in_line }
    {
        let waiting = self.end - self.start;
        if waiting == 0 && !self.is_in_line {
            return;
        }
        self.room.copy_within(self.start..self.end, 0);
        self.room[waiting] = LINE_FEED;
        self.start = 0;
        self.end = waiting + 1;
    }

    /// Cuts the next text off; `None` if more bytes have to come first. At the end of the source what waits without a line
    /// feed is a text, too, and `None` says that nothing waits.
    pub fn cut(&mut self, alloc: Global, is_over: bool) -> Result<Option<Text>, NoMemory>
        ensures some { IfOk result
            (λ cut. IfSome cut (λ text. CutsOff text self.old self.new)) }
        ensures none { IfOk result
            (λ cut. IfNone cut (NeedsMore LONGEST is_over self.old self.new)) }
        ensures unchanged { OnErr result (self.new ≡ self.old) }
    {
        let length = self.next_length(is_over);
        if length == 0 {
            return Ok(None);
        }
        let bytes = &self.room[self.start..self.start + length];
        let text = text_of(alloc, bytes, is_marked(self.is_in_line, bytes))?;
        self.is_in_line = !ends_line(bytes);
        self.start += length;
        Ok(Some(text))
    }

    /// How many bytes the next text has; 0 if more bytes have to come first, or none wait at the end.
    fn next_length(&self, is_over: bool) -> usize
        ensures within { result ≤ length self.now.waiting }
        ensures few { result ≤ most_of (is_marked self.now.in_line self.now.waiting) }
        ensures whole { slice_index self.now.waiting (result - 1) ≢ 10
            → (i : ℕ) → i < result → slice_index self.now.waiting i ≢ 10 }
        ensures one { self.now.in_line ≡ true
            → (i : ℕ) → i + 1 < result → slice_index self.now.waiting i ≢ 10 }
        ensures longest { self.now.in_line ≡ false → (i : ℕ) → result ≤ i
            → i < most_of (is_marked self.now.in_line self.now.waiting)
            → i < length self.now.waiting → slice_index self.now.waiting i ≢ 10 }
        ensures none { result ≡ 0 → NeedsMore LONGEST is_over self.now self.now }
    {
        let waiting = &self.room[self.start..self.end];
        let most = most_of(is_marked(self.is_in_line, waiting));
        match piece_length(waiting, most, self.is_in_line) {
            Some(length) => length,
            None if is_over => waiting.len(),
            None => 0,
        }
    }
}
