//! How the threads of a publisher's workers are started and ended.
//!
//! What each does in between stands in `async_pool` and `job`.
ghost use Rattle.std.specs.Prelude.{◌<◌};
ghost use Rattle.std.specs.Arc.{arc_value};
ghost use Rattle.async_pool.specs.Pool.{pool_workers};

use super::Publisher;
use crate::job::Worker;
use crate::ledgers::Ledgers;
use async_pool::Wide;
use flow_rules::{FailHandler, Listener, NoMemory};
use std::alloc::Global;
use std::sync::{Arc, Wait};
use std::thread;
use std::thread::Threads;

impl<
    L: Ledgers + Send + Sync + 'static,
    B: Listener + Send + 'static,
    F: FailHandler + Send + 'static,
> Publisher<L, B, F> {
    /// Starts the thread of one worker.
    pub(super) fn start<R: Threads + Wait + Copy + Send + 'static>(
        &self,
        rt: R,
        alloc: Global,
        worker: usize,
    ) -> Result<(), NoMemory>
        requires { worker < self.now.workers }
    {
        let mut context = Worker::new(alloc, &self.shared)?;
        let pool = Arc::try_clone(&self.pool)?;
        self.shared.state.add_loop(&rt);
        let run = move ||
            requires { worker < pool_workers (arc_value pool) }
        {
            pool.worker_loop(&rt, worker, &Wide, &mut context);
            context.shared.state.remove_loop(&rt);
        };
        if thread::spawn(&rt, run).is_err() {
            self.shared.state.remove_loop(&rt);
            return Err(NoMemory);
        }
        Ok(())
    }
}

impl<L: Ledgers + Send, B: Listener + Send, F: FailHandler + Send> Publisher<L, B, F> {
    /// Ends the workers, and drops the tasks that are left.
    pub(crate) fn stop<R: Wait>(&self, rt: &R) {
        self.pool.shut(rt);
        let _ended = self.shared.wait_for_loops(rt);
        for _ in rt.forever() {
            if self.pool.run_one(rt).is_none() {
                return;
            }
        }
    }
}
