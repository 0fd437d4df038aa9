//! The page of a sink: what it writes, many lines at once. What each write took is counted, and no more.
ghost use Rattle.std.specs.Prelude.{◌≡◌, ◌+◌, ◌≤◌, IfOk, OnOk, length};

use crate::board::SinkCount;
use crate::cause::Cause;
use crate::fault::EndFault;
use crate::filter::{Rule, keep};
use crate::lines::count_feeds;
use crate::piece::LINE_FEED;
use flow_rules::NoMemory;
use std::alloc::Global;
use std::io::{ErrorKind, Write};
use std::sync::atomic::Ordering::SeqCst;
use std::{io, mem};

/// How many bytes are written at once.
const AT_ONCE: usize = 16_384;

/// A writer with the bytes that wait to be written.
#[derive(Drop)]
pub struct Page<'a, W: Write + Drop> {
    writer: W,
    waiting: Vec<u8>,
    /// How many lines end in what waits: one with each line feed, and the last one, which may have none.
    lines: u64,
    /// Whether some were written that nobody has asked for.
    was_written: bool,
    count: &'a SinkCount,
}

impl<'a, W: Write + Drop> Page<'a, W> {
    /// An empty page.
    pub fn new(alloc: Global, writer: W, count: &'a SinkCount) -> Result<Page<'a, W>, NoMemory> {
        Ok(Page {
            writer,
            waiting: Vec::with_capacity(alloc, AT_ONCE)?,
            lines: 0,
            was_written: false,
            count,
        })
    }

    /// Adds bytes behind all others.
    pub fn put(&mut self, bytes: &[u8]) -> Result<(), EndFault> {
        self.make_room(bytes.len())?;
        self.waiting.extend_from_slice(bytes)?;
        Ok(())
    }

    /// Adds those of some lines that pass behind all others, and counts them.
    pub fn put_lines(&mut self, rules: &[Rule], lines: &[u8]) -> Result<(), EndFault> {
        self.make_room(lines.len())?;
        let kept = keep(rules, lines, &mut self.waiting)?;
        self.lines = self.lines.saturating_add(kept.lines as u64);
        self.count.left_out.fetch_add(kept.left_out as u64, SeqCst);
        Ok(())
    }

    /// Writes what waits if there is no room for so many bytes more.
    fn make_room(&mut self, bytes: usize) -> Result<(), EndFault> {
        if self.waiting.len().saturating_add(bytes) > AT_ONCE {
            self.flush()?;
        }
        Ok(())
    }

    /// Counts a line, whose last bytes were added.
    pub fn end_line(&mut self) {
        self.lines = self.lines.saturating_add(1);
    }

    /// Ends a line that is counted as lost, though a part of it was written.
    pub fn break_off(&mut self) -> Result<(), EndFault> {
        self.flush()?;
        self.waiting.extend_from_slice(&[LINE_FEED])?;
        self.flush()
    }

    /// Writes what waits.
    pub fn flush(&mut self) -> Result<(), EndFault> {
        let mut from = 0;
        for _ in 0..self.waiting.len() {
            if from >= self.waiting.len() {
                break;
            }
            from += self.write_from(from)?;
        }
        // The last line may have been written before it was known to be the last.
        self.count.lines.fetch_add(self.lines, SeqCst);
        self.lines = 0;
        self.waiting.clear();
        self.was_written = true;
        Ok(())
    }

    /// Writes some of the bytes that wait from this place on, counts those that were taken, and tells how many they are.
    fn write_from(&mut self, from: usize) -> Result<usize, EndFault>
        requires { from ≤ length self.old.waiting.items }
        ensures same { OnOk result (self.new.waiting ≡ self.old.waiting) }
        ensures taken { IfOk result (λ n. from + n ≤ length self.old.waiting.items) }
    {
        let rest = &self.waiting[from..];
        let taken = match self.writer.write(rest) {
            Ok(0) => return Err(fault_of(&io::Error::from(ErrorKind::WriteZero))),
            Ok(taken) => taken,
            Err(error) => return Err(fault_of(&error)),
        };
        let lines = if taken == rest.len() {
            self.lines
        } else {
            count_feeds(&rest[..taken]) as u64
        };
        self.lines = self.lines.saturating_sub(lines);
        self.count.bytes.fetch_add(taken as u64, SeqCst);
        self.count.lines.fetch_add(lines, SeqCst);
        Ok(taken)
    }

    /// Whether it was written since this was last asked.
    pub fn was_written(&mut self) -> bool {
        mem::replace(&mut self.was_written, false)
    }
}

/// The fault of a sink whose write has failed in this way.
fn fault_of(error: &io::Error) -> EndFault {
    EndFault::Write(Cause::of(error))
}
