//! What the command line asks for.
use crate::filter::Rule;
use flow_rules::capacity;
use publisher::PublisherOptions;

/// The word for standard input and standard output.
pub const STANDARD: &[u8] = b"-";

/// The most sources, and the most sinks. Each has a thread.
pub const MOST: usize = 64;

/// How many texts the thread of a sink requests in advance.
pub const BATCH: u32 = 16;

/// A sink, as it is asked for.
#[derive(Drop)]
pub struct SinkPlan {
    /// The file, or [`STANDARD`].
    pub path: Vec<u8>,
    /// Whether it may lose lines.
    pub is_lossy: bool,
    /// Which lines it writes.
    pub rules: Vec<Rule>,
}

/// How the report is written.
#[derive(Clone, Copy, PartialEq, Eq)]
pub enum Format {
    Text,
    Json,
    Csv,
    None,
}

/// What the command line asks for.
#[derive(Drop)]
pub struct Plan {
    /// The files, or [`STANDARD`].
    pub sources: Vec<Vec<u8>>,
    pub sinks: Vec<SinkPlan>,
    /// Whether files are written at their end.
    pub is_appending: bool,
    pub format: Format,
    /// Whether a line a second says how far it is.
    pub is_watched: bool,
    /// For how many seconds a lossy sink may be stuck at the end.
    pub linger: u64,
    pub publisher: PublisherOptions,
}

impl Plan {
    /// The most texts that may wait for a sink: those of its buffer, and those that its thread has requested.
    pub fn room(&self) -> u64 {
        let buffer = match capacity(self.publisher.capacity) {
            Ok(buffer) => buffer as u64,
            Err(_) => 0,
        };
        buffer.saturating_add(u64::from(BATCH))
    }
}
