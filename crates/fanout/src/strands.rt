//! The strands of a sink: for each source where the sink stands in it, and what it holds back of its line.
use crate::board::{Board, SinkCount};
use crate::fault::EndFault;
use crate::filter::Rule;
use crate::page::Page;
use crate::piece::piece_of;
use crate::strand::{Deed, Sight, Stand};
use flow_rules::{Item, NoMemory};
use std::alloc::Global;
use std::io::Write;
use std::sync::atomic::Ordering::SeqCst;

/// How many pieces of a line are held back, at most.
pub const MOST_HELD: usize = 64;

/// Where a sink stands in the pieces of a source.
#[derive(Drop)]
struct Strand {
    /// The number of the source.
    source: usize,
    /// The number of the source's next piece.
    next: u64,
    stand: Stand,
    /// The bytes that are held back, and of how many pieces they are.
    held: Vec<u8>,
    pieces: usize,
}

/// Where a sink stands in the pieces of all sources.
#[derive(Drop)]
pub struct Strands<'a> {
    strands: Vec<Strand>,
    rules: &'a [Rule],
    /// Whether lines are held back until they are whole.
    is_holding: bool,
    count: &'a SinkCount,
}

impl<'a> Strands<'a> {
    /// Those of a sink, before the first piece of each source.
    pub fn new(
        alloc: Global,
        sources: usize,
        rules: &'a [Rule],
        is_holding: bool,
        count: &'a SinkCount,
    ) -> Result<Strands<'a>, NoMemory> {
        let mut strands = Vec::new(alloc);
        for source in 0..sources {
            strands.push(Strand {
                source,
                next: 0,
                stand: Stand::Between,
                held: Vec::new(alloc),
                pieces: 0,
            })?;
        }
        Ok(Strands {
            strands,
            rules,
            is_holding,
            count,
        })
    }

    /// Takes a text, or skips it.
    pub fn take<W: Write + Drop>(
        &mut self,
        item: &Item,
        page: &mut Page<'_, W>,
    ) -> Result<(), EndFault> {
        let Some(strand) = self.strands.get_mut(item.source as usize) else {
            return Ok(());
        };
        let piece = piece_of(item.text.as_bytes());
        let is_late = item.seq != strand.next;
        let is_held = self.is_holding && strand.pieces < MOST_HELD;
        let sight = Sight::of(self.rules, piece, is_late, is_held);
        let next = item.seq.saturating_add(1);
        self.count
            .passed
            .fetch_add(next.saturating_sub(strand.next), SeqCst);
        strand.next = next;
        if sight.is_first && !sight.passes {
            self.count.left_out.fetch_add(1, SeqCst);
        }
        strand.follow(sight, self.rules, piece.bytes, page)
    }

    /// Writes, at the end, the lines that have no line feed. One is left if its last piece is missing, or if its source
    /// has ended in the middle of it.
    pub fn end<W: Write + Drop>(
        &mut self,
        board: &Board,
        page: &mut Page<'_, W>,
    ) -> Result<(), EndFault> {
        for strand in self.strands.iter_mut() {
            if let Some(source) = board.sources.get(strand.source) {
                if strand.next != source.pieces.load(SeqCst) {
                    strand.give_up(page)?;
                } else if source.is_cut() {
                    strand.forget();
                } else {
                    strand.end(page)?;
                }
            }
        }
        Ok(())
    }
}

impl Strand {
    /// Does what comes of a piece of these bytes.
    fn follow<W: Write + Drop>(
        &mut self,
        sight: Sight,
        rules: &[Rule],
        bytes: &[u8],
        page: &mut Page<'_, W>,
    ) -> Result<(), EndFault> {
        let step = self.stand.step(sight);
        if step.gives_up {
            self.give_up(page)?;
        }
        match step.deed {
            Deed::Skip => {}
            Deed::Hold => {
                self.held.extend_from_slice(bytes)?;
                self.pieces = self.pieces.saturating_add(1);
            }
            Deed::Write if sight.has_lines() => page.put_lines(rules, bytes)?,
            Deed::Write => {
                self.release(page)?;
                page.put(bytes)?;
                if sight.is_last {
                    page.end_line();
                }
            }
        }
        self.stand = step.stand;
        Ok(())
    }

    /// Writes what is held back.
    fn release<W: Write + Drop>(&mut self, page: &mut Page<'_, W>) -> Result<(), EndFault> {
        page.put(self.held.as_slice())?;
        self.forget();
        Ok(())
    }

    /// Drops what is held back.
    fn forget(&mut self) {
        self.held.clear();
        self.pieces = 0;
    }

    /// Gives up the line that has begun: what is held back of it is dropped, and what was written ends with a line feed.
    fn give_up<W: Write + Drop>(&mut self, page: &mut Page<'_, W>) -> Result<(), EndFault> {
        self.forget();
        if self.stand == Stand::Writing {
            page.break_off()?;
        }
        Ok(())
    }

    /// Ends with the line that has begun, if one has: it has no line feed, and is whole.
    fn end<W: Write + Drop>(&mut self, page: &mut Page<'_, W>) -> Result<(), EndFault> {
        if self.stand.is_open() {
            self.release(page)?;
            page.end_line();
        }
        Ok(())
    }
}
