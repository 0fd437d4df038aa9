//! How a thread that is no worker hands tasks to the pool, and runs those that come back.
//!
//! Each submitter and subscription has one of its own, since a turn needs room of its thread's own. What is run stands
//! in `consumer_task`.
use crate::consumer_task::ConsumerTask;
use crate::ledgers::Ledgers;
use crate::shared::Shared;
use crate::state::NoRoom;
use async_pool::Pool;
use crossbeam_utils::Backoff;
use feed_cell::{Patience, Task};
use feed_core::Seen;
use flow_rules::{FailHandler, Listener, NoMemory};
use publisher_hub::Work;
use std::alloc::Global;
use std::sync::{Arc, Wait};

/// How often a blocked submitter looks for room before it sleeps. It spins in between, for 447 pauses in all: some 2
/// microseconds on a processor whose pause takes 4.5 nanoseconds.
const LOOKS: u32 = 12;

/// What one thread hands tasks to the pool with, and runs those that come back.
#[derive(Drop)]
pub struct Dispatcher<L: Ledgers + Send, B: Listener + Send, F: FailHandler + Send> {
    /// What its thread shares with the others.
    pub shared: Arc<Shared<L, B, F>>,
    pool: Arc<Pool<ConsumerTask<L, B, F>>>,
    /// What a turn that its thread runs sees. It is empty between two turns.
    seen: Seen,
}

impl<L: Ledgers + Send, B: Listener + Send, F: FailHandler + Send> Dispatcher<L, B, F> {
    /// Makes one for one more thread.
    pub fn new(
        alloc: Global,
        shared: &Arc<Shared<L, B, F>>,
        pool: &Arc<Pool<ConsumerTask<L, B, F>>>,
    ) -> Result<Dispatcher<L, B, F>, NoMemory> {
        Ok(Dispatcher {
            shared: Arc::try_clone(shared)?,
            pool: Arc::try_clone(pool)?,
            seen: Seen::new(alloc)?,
        })
    }

    /// Makes one for one more thread, of the same publisher.
    pub fn another(&self, alloc: Global) -> Result<Dispatcher<L, B, F>, NoMemory> {
        Dispatcher::new(alloc, &self.shared, &self.pool)
    }

    /// Schedules the started task of a subscription.
    pub fn start<R: Wait>(&mut self, rt: &R, entry: u32, task: Task<B>) {
        self.hand_in(rt, ConsumerTask::new(entry, task));
    }

    /// Schedules all started tasks, in order. None is due then.
    #[inline(always)]
    pub fn start_all<R: Wait>(&mut self, rt: &R, due: &mut Vec<Work<Task<B>>>) {
        for work in due.drain(..) {
            self.start(rt, work.entry, work.task);
        }
    }

    /// Runs a turn of the task that the pool would run next. False if there is none.
    pub fn run_one<R: Wait>(&mut self, rt: &R) -> bool {
        let Some(task) = self.pool.run_one(rt) else {
            return false;
        };
        if let Some(again) = self.turn(rt, task) {
            self.hand_in(rt, again);
        }
        true
    }

    /// Does what may make room for a text: it runs a turn of the pool; else it looks again soon, a bounded number of
    /// times; and then it sleeps until another thread tells, unless there is the room that the text needs. The answer is
    /// how often it has looked since it did anything else.
    pub fn pause<R: Wait>(
        &mut self,
        rt: &R,
        looks: u32,
        backoff: &Backoff,
        no_room: &NoRoom,
    ) -> u32 {
        if self.run_one(rt) {
            return 0;
        }
        if looks < LOOKS {
            backoff.spin();
            return looks + 1;
        }
        self.shared.wait_for_room(rt, no_room);
        0
    }

    /// Hands a task to the pool, or runs it if it comes back.
    fn hand_in<R: Wait>(&mut self, rt: &R, task: ConsumerTask<L, B, F>) {
        if let Err(task) = self.pool.execute(rt, task) {
            self.run(rt, task);
        }
    }

    /// Runs turns of a task until none is owed.
    fn run<R: Wait>(&mut self, rt: &R, task: ConsumerTask<L, B, F>) {
        let mut next = task;
        for _ in rt.forever() {
            match self.turn(rt, next) {
                Some(again) => next = again,
                None => return,
            }
        }
    }

    /// Runs a turn of a task. Its thread is to come back soon.
    fn turn<R: Wait>(
        &mut self,
        rt: &R,
        task: ConsumerTask<L, B, F>,
    ) -> Option<ConsumerTask<L, B, F>> {
        let Dispatcher { shared, seen, .. } = self;
        task.turn(rt, &**shared, seen, &mut Patience::hurries())
    }
}
