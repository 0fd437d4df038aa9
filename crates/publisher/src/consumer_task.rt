//! A task of a subscription: one turn of it, and what follows that.
//!
//! A turn is run outside every lock, and keeps nothing of what it saw: nobody else can run the task. How a task comes to the
//! pool stands in `dispatcher`, and what the threads share in `shared`.
ghost use Rattle.std.specs.Prelude.{◌≡◌, []};

use crate::ledgers::Ledgers;
use crate::shared::Shared;
use crate::turned::{Done, EndedTask};
use feed_cell::{Patience, Task};
use feed_core::{Seen, failed_item};
use flow_rules::{FailHandler, Listener};
use std::marker::PhantomData;
use std::sync::Wait;

/// The task of the subscription of this number, as the pool runs it.
#[must_use]
pub struct ConsumerTask<L: Ledgers, B: Listener, F: FailHandler> {
    entry: u32,
    task: Task<B>,
    of: PhantomData<(L, F)>,
}

impl<L: Ledgers, B: Listener, F: FailHandler> ConsumerTask<L, B, F> {
    /// Makes that of this subscription.
    pub fn new(entry: u32, task: Task<B>) -> ConsumerTask<L, B, F> {
        ConsumerTask {
            entry,
            task,
            of: PhantomData,
        }
    }

    /// Runs one turn, and then does what follows it: the handler hears of an `onNext` that failed, and what the turn saw is
    /// dropped, so that no text is kept until the thread runs another turn. The answer is the task if another one is
    /// owed.
    pub fn turn<R: Wait>(
        self,
        rt: &R,
        shared: &Shared<L, B, F>,
        seen: &mut Seen,
        patience: &mut Patience,
    ) -> Option<ConsumerTask<L, B, F>>
        ensures forgets { seen.new.signals ≡ [] }
    {
        let ConsumerTask { entry, task, of: _ } = self;
        let (done, task, ended) = Done::of(entry, task.turn(seen, patience));
        if let Some(ended) = &ended {
            if let Some(code) = failed_item(seen.as_slice(), ended.how()) {
                shared.tell_failure(rt, ended, code);
            }
        }
        seen.clear();
        shared.after_turn(rt, done, ended);
        match task {
            Some(task) => Some(ConsumerTask::new(entry, task)),
            None => None,
        }
    }
}

impl<L: Ledgers, B: Listener, F: FailHandler> Drop for ConsumerTask<L, B, F> {
    fn drop(self) {
        let ConsumerTask {
            entry: _,
            task: _,
            of: _,
        } = self;
    }
}

impl<L: Ledgers, B: Listener, F: FailHandler> Shared<L, B, F> {
    /// Lets go of the subscription that has ended in the turn, if one has, and wakes those who wait, since the turn may
    /// have made room. If neither is to be done the lock is left alone.
    fn after_turn<R: Wait>(&self, rt: &R, done: Done, ended: Option<EndedTask>) {
        match ended {
            Some(ended) => {
                let mut state = self.lock(rt);
                state.let_go(ended);
                self.state.unlock_and_wake(state);
            }
            None => {
                if self.awaiting.is_anybody(done) {
                    self.state.unlock_and_wake(self.lock(rt));
                }
            }
        }
    }
}
