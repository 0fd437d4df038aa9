//! The board: what each source and each sink has done so far, as any thread may read it.
use crate::fault::EndFault;
use flow_rules::NoMemory;
use std::alloc::Global;
use std::sync::atomic::AtomicU64;
use std::sync::atomic::Ordering::SeqCst;
use std::sync::{Mutex, Wait};

/// What a source has published. Lines and bytes are counted before they are published, and taken back if that is refused:
/// so no sink has written a line that isn't counted.
#[derive(Drop)]
pub struct SourceCount {
    pub lines: AtomicU64,
    pub bytes: AtomicU64,
    /// The pieces that were published.
    pub pieces: AtomicU64,
    /// 1 once its thread runs.
    pub begun: AtomicU64,
    /// 1 while it publishes what it has counted.
    pub publishing: AtomicU64,
    /// 1 once it has ended, and 2 if that was before the end of its input.
    pub ended: AtomicU64,
    fault: Mutex<Option<EndFault>>,
}

/// What a sink has done with the lines.
#[derive(Drop)]
pub struct SinkCount {
    /// The lines that it has written whole, and their bytes.
    pub lines: AtomicU64,
    pub bytes: AtomicU64,
    /// The lines that its filter didn't let through.
    pub left_out: AtomicU64,
    /// The pieces that it has taken, or knows it has lost.
    pub passed: AtomicU64,
    /// The most pieces that were seen to wait for it.
    pub backlog: AtomicU64,
    /// 1 once its thread runs.
    pub begun: AtomicU64,
    /// 1 once it has ended.
    pub ended: AtomicU64,
    fault: Mutex<Option<EndFault>>,
}

impl SourceCount {
    fn new() -> SourceCount {
        SourceCount {
            lines: AtomicU64::new(0),
            bytes: AtomicU64::new(0),
            pieces: AtomicU64::new(0),
            begun: AtomicU64::new(0),
            publishing: AtomicU64::new(0),
            ended: AtomicU64::new(0),
            fault: Mutex::new(None),
        }
    }

    /// Counts it as ended.
    pub fn end<R: Wait>(&self, rt: &R, fault: Option<EndFault>) {
        *self.fault.lock(rt) = fault;
        self.ended
            .store(if fault.is_none() { 1 } else { 2 }, SeqCst);
    }

    /// Whether it has ended before the end of its input.
    pub fn is_cut(&self) -> bool {
        self.ended.load(SeqCst) == 2
    }

    /// Why it ended before the end of its input, if it did.
    pub fn fault<R: Wait>(&self, rt: &R) -> Option<EndFault> {
        *self.fault.lock(rt)
    }
}

impl SinkCount {
    fn new() -> SinkCount {
        SinkCount {
            lines: AtomicU64::new(0),
            bytes: AtomicU64::new(0),
            left_out: AtomicU64::new(0),
            passed: AtomicU64::new(0),
            backlog: AtomicU64::new(0),
            begun: AtomicU64::new(0),
            ended: AtomicU64::new(0),
            fault: Mutex::new(None),
        }
    }

    /// Counts it as ended.
    pub fn end<R: Wait>(&self, rt: &R, fault: Option<EndFault>) {
        *self.fault.lock(rt) = fault;
        self.ended.store(1, SeqCst);
    }

    /// Why it ended before its last line, if it did.
    pub fn fault<R: Wait>(&self, rt: &R) -> Option<EndFault> {
        *self.fault.lock(rt)
    }

    pub fn has_ended(&self) -> bool {
        self.ended.load(SeqCst) != 0
    }
}

/// The counts of all, in the order of the command line.
#[derive(Drop)]
pub struct Board {
    pub sources: Vec<SourceCount>,
    pub sinks: Vec<SinkCount>,
    /// Whether it is closed. A source or a sink ends, and says why, while holding this lock, and not once it is closed: so
    /// the report tells of just those ends that were said.
    pub is_closed: Mutex<bool>,
    /// The most pieces that may wait for a sink.
    pub room: u64,
}

impl Board {
    /// A board on which nothing has happened. `NoMemory` if its room is refused.
    pub fn new(alloc: Global, sources: usize, sinks: usize, room: u64) -> Result<Board, NoMemory> {
        let mut board = Board {
            sources: Vec::new(alloc),
            sinks: Vec::new(alloc),
            is_closed: Mutex::new(false),
            room,
        };
        for _ in 0..sources {
            board.sources.push(SourceCount::new())?;
        }
        for _ in 0..sinks {
            board.sinks.push(SinkCount::new())?;
        }
        Ok(board)
    }

    /// Closes it: what has not ended stays so.
    pub fn close<R: Wait>(&self, rt: &R) {
        *self.is_closed.lock(rt) = true;
    }

    /// How many lines the sources have published.
    pub fn lines(&self) -> u64 {
        self.sources.iter().fold(0, |lines: u64, source| {
            lines.saturating_add(source.lines.load(SeqCst))
        })
    }

    /// How many bytes they have published.
    pub fn bytes(&self) -> u64 {
        self.sources.iter().fold(0, |bytes: u64, source| {
            bytes.saturating_add(source.bytes.load(SeqCst))
        })
    }

    /// How many pieces wait for this sink, in its buffer or to be written: those that were published and that it hasn't
    /// passed, as far as there is room for them. The longest backlog counts it.
    pub fn look(&self, sink: &SinkCount) -> u64 {
        let passed = sink.passed.load(SeqCst);
        let published = self.sources.iter().fold(0, |pieces: u64, source| {
            pieces.saturating_add(source.pieces.load(SeqCst))
        });
        let waiting = published.saturating_sub(passed).min(self.room);
        sink.backlog.fetch_max(waiting, SeqCst);
        waiting
    }

    /// Whether the sink of this number has ended.
    pub fn has_ended(&self, sink: usize) -> bool {
        self.sinks.get(sink).is_some_and(|count| count.has_ended())
    }

    /// Whether all sources have ended.
    pub fn are_sources_over(&self) -> bool {
        self.sources
            .iter()
            .all(|source| source.ended.load(SeqCst) != 0)
    }

    /// Whether some source is publishing what it has counted.
    pub fn is_publishing(&self) -> bool {
        self.sources
            .iter()
            .any(|source| source.publishing.load(SeqCst) != 0)
    }

    /// Whether the threads of all sources and sinks run.
    pub fn have_all_begun(&self) -> bool {
        self.sources
            .iter()
            .all(|source| source.begun.load(SeqCst) != 0)
            && self.sinks.iter().all(|sink| sink.begun.load(SeqCst) != 0)
    }
}
