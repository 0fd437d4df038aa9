//! What the loop of a worker takes its jobs with. It does nothing by itself.
use crate::inbox::InboxPass;
use crate::queue::Queue;
use crate::rule::Rule;

/// A worker with its own queue and its pass of the inbox. A loop makes one, since to make a pass at each look would
/// cost a load of a word that callers of `execute` write.
#[derive(Drop)]
pub(crate) struct Taker<J: Drop, Q: Rule<J>> {
    /// The number of the worker.
    pub worker: usize,
    /// Its own queue.
    pub own: Queue<J, Q>,
    /// What it takes jobs from the inbox with.
    pub pass: InboxPass<J>,
}
