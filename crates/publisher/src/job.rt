//! What a publisher's pool runs, and what a worker runs it with.
//!
//! The turn of a task, and what follows it, stand in `consumer_task`; how a task comes to the pool in `dispatcher`.
use crate::consumer_task::ConsumerTask;
use crate::ledgers::Ledgers;
use crate::shared::Shared;
use async_pool::Job;
use feed_cell::Patience;
use feed_core::Seen;
use flow_rules::{FailHandler, Listener, NoMemory};
use std::alloc::Global;
use std::sync::{Arc, Wait};

/// What the thread of one worker runs turns with.
#[derive(Drop)]
pub struct Worker<L: Ledgers, B: Listener, F: FailHandler> {
    /// What it shares with the other threads.
    pub shared: Arc<Shared<L, B, F>>,
    /// What its turn sees. It is empty between two turns.
    seen: Seen,
    /// How long its tasks wait before they rest.
    patience: Patience,
}

impl<L: Ledgers, B: Listener, F: FailHandler> Worker<L, B, F> {
    /// Makes one for one more thread.
    pub fn new(alloc: Global, shared: &Arc<Shared<L, B, F>>) -> Result<Worker<L, B, F>, NoMemory> {
        Ok(Worker {
            shared: Arc::try_clone(shared)?,
            seen: Seen::new(alloc)?,
            patience: Patience::waits(),
        })
    }
}

impl<L: Ledgers + Send, B: Listener + Send, F: FailHandler + Send> Job for ConsumerTask<L, B, F> {
    type Context = Worker<L, B, F>;

    /// Runs one turn. It is run again if another one is owed.
    fn run<R: Wait>(self, rt: &R, worker: &mut Worker<L, B, F>) -> Option<ConsumerTask<L, B, F>> {
        let Worker {
            shared,
            seen,
            patience,
        } = worker;
        self.turn(rt, &**shared, seen, patience)
    }
}
