//! The sources: each has a thread of its own, which publishes what it reads, a few texts by one call, and none late.
ghost use Rattle.std.specs.Prelude.{◌≡◌, ◌<◌, true, false, IfOk, OnOk, length};
ghost use Rattle.fanout.specs.declared.piece.TheConstants.{LONGEST};

use crate::board::SourceCount;
use crate::cause::Cause;
use crate::doors::Doors;
use crate::fault::EndFault;
use crate::intake::Intake;
use crate::lines::lines_begun;
use crate::notice::say_fault;
use crate::piece::piece_of;
use crate::plan::STANDARD;
use crate::policy::publish_all;
use crate::site::Site;
use crate::tap::{Tap, Well};
use flow_rules::{Listener, NoMemory, Refusal, Text};
use publisher::{Ledgers, Submitter};
use std::alloc::Global;
use std::io::Read;
use std::sync::Wait;
use std::sync::atomic::Ordering::SeqCst;
use std::time::Clock;

/// How many texts are published by one call, at most.
const AT_ONCE: usize = 8;

/// Pieces that were cut and not published yet.
#[derive(Drop)]
struct Batch<'a> {
    texts: Vec<Text>,
    count: &'a SourceCount,
}

/// How much pieces have.
#[derive(Clone, Copy)]
struct Weight {
    lines: u64,
    bytes: u64,
}

impl<'a> Batch<'a> {
    /// Adds the next piece of the intake, and tells whether there was one. `is_over` is whether the source has ended.
    fn add(&mut self, alloc: Global, intake: &mut Intake, is_over: bool) -> Result<bool, NoMemory>
        ensures { IfOk result (λ more. more ≡ false → length intake.new.waiting < LONGEST) }
    {
        let Some(text) = intake.cut(alloc, is_over)? else {
            return Ok(false);
        };
        self.texts.push(text)?;
        Ok(true)
    }

    /// How many lines and bytes its pieces from this one on have.
    fn weight(&self, from: usize) -> Weight {
        let mut weight = Weight { lines: 0, bytes: 0 };
        for text in self.texts.iter().skip(from) {
            let text = text.as_bytes();
            weight.lines = weight.lines.saturating_add(lines_begun(text) as u64);
            weight.bytes = weight
                .bytes
                .saturating_add(piece_of(text).bytes.len() as u64);
        }
        weight
    }

    /// Counts its pieces, which are to be published.
    fn begin(&self) {
        let weight = self.weight(0);
        self.count.publishing.store(1, SeqCst);
        self.count.lines.fetch_add(weight.lines, SeqCst);
        self.count.bytes.fetch_add(weight.bytes, SeqCst);
    }

    /// Takes back what was counted of the pieces that were not published, and forgets all.
    fn end(&mut self, published: usize) {
        let weight = self.weight(published);
        self.count.lines.fetch_sub(weight.lines, SeqCst);
        self.count.bytes.fetch_sub(weight.bytes, SeqCst);
        self.count.pieces.fetch_add(published as u64, SeqCst);
        self.count.publishing.store(0, SeqCst);
        self.texts.clear();
    }
}

/// Publishes what the source of this number gives, up to the end, or until that fails: why is said at once.
pub fn run_source<L: Ledgers + Send, B: Listener + Send, R: Doors + Clock + Wait>(
    rt: &R,
    site: &Site,
    number: usize,
    submitter: &mut Submitter<L, B>,
) {
    let count = site.board.sources.get(number);
    let path = site.plan.sources.get(number);
    if let (Some(count), Some(path)) = (count, path) {
        count.begun.store(1, SeqCst);
        let path = path.as_slice();
        let ended = open_and_read(rt, site, path, count, submitter);
        let is_closed = site.board.is_closed.lock(rt);
        if *is_closed {
            return;
        }
        if let Err(fault) = ended {
            say_fault(rt, site, path, fault);
        }
        count.end(rt, ended.err());
    }
}

/// Opens a source, and publishes what it gives.
fn open_and_read<L: Ledgers + Send, B: Listener + Send, R: Doors + Clock + Wait>(
    rt: &R,
    site: &Site,
    path: &[u8],
    count: &SourceCount,
    submitter: &mut Submitter<L, B>,
) -> Result<(), EndFault> {
    let well = if path == STANDARD {
        Well::Input(rt.input())
    } else {
        match rt.open(path) {
            Ok(file) => Well::File(file),
            Err(error) => return Err(EndFault::Open(Cause::of(&error))),
        }
    };
    publish_read(rt, site, &mut Tap { rt, well }, count, submitter)
}

/// Publishes what this reader gives. One of several sources ends with a line feed, so that no other line goes on with its
/// last one.
fn publish_read<L: Ledgers + Send, B: Listener + Send, R: Wait, I: Read>(
    rt: &R,
    site: &Site,
    reader: &mut I,
    count: &SourceCount,
    submitter: &mut Submitter<L, B>,
) -> Result<(), EndFault> {
    let mut intake = Intake::new(site.alloc)?;
    let mut batch = Batch {
        texts: Vec::with_capacity(site.alloc, AT_ONCE)?,
        count,
    };
    'reads: for _ in rt.forever() {
        let is_over = read_some(&mut intake, reader)?;
        if is_over && site.plan.sources.len() > 1 {
            intake.end_line();
        }
        publish_cut(rt, site, &mut intake, &mut batch, is_over, submitter)?;
        if is_over {
            break;
        }
    }
    Ok(())
}

/// Reads some bytes, and tells whether the source has ended.
fn read_some<I: Read>(intake: &mut Intake, reader: &mut I) -> Result<bool, EndFault>
    requires { length intake.old.waiting < LONGEST }
    ensures over { IfOk result
        (λ is_over. is_over ≡ true → length intake.new.waiting < LONGEST) }
{
    match intake.read(reader) {
        Ok(read) => Ok(read == 0),
        Err(error) => Err(EndFault::Read(Cause::of(&error))),
    }
}

/// Publishes all pieces that can be cut.
fn publish_cut<L: Ledgers + Send, B: Listener + Send, R: Wait>(
    rt: &R,
    site: &Site,
    intake: &mut Intake,
    batch: &mut Batch<'_>,
    is_over: bool,
    submitter: &mut Submitter<L, B>,
) -> Result<(), EndFault>
    ensures { OnOk result (length intake.new.waiting < LONGEST) }
{
    for _ in rt.forever() {
        let is_more = batch.add(site.alloc, intake, is_over)?;
        if !is_more || batch.texts.len() >= AT_ONCE {
            publish(rt, site, batch, submitter)?;
        }
        if !is_more {
            return Ok(());
        }
    }
    unreachable!()
}

/// Publishes the pieces of a batch, and empties it. They are counted before that, so that no sink has written a line that
/// isn't counted; those that were refused are taken back.
fn publish<L: Ledgers + Send, B: Listener + Send, R: Wait>(
    rt: &R,
    site: &Site,
    batch: &mut Batch<'_>,
    submitter: &mut Submitter<L, B>,
) -> Result<(), EndFault> {
    let pieces = batch.texts.len();
    batch.begin();
    match publish_all(rt, site.alloc, submitter, batch.texts.as_slice()) {
        Ok(()) => {
            batch.end(pieces);
            Ok(())
        }
        Err(part) => {
            batch.end(part.published);
            match part.refusal {
                Refusal::NoMemory => Err(EndFault::Memory),
                _ => Err(EndFault::Stopped),
            }
        }
    }
}
