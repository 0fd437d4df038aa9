//! A worker's own end of its queue. Only the loop of that worker has it; other threads have a [`Thief`].
ghost use Rattle.std.specs.Prelude.{◌≡◌};
ghost use Rattle.crossbeam_deque.specs.Handles.{worker_flavor};

use crate::rule::{Log, Rule};
use crate::thief::Thief;
use crate::under::{Puts, Takes, Under};
use crossbeam_deque::Worker;
use std::alloc::{AllocError, Global};

/// How many jobs a new queue has room for. A worker puts a job back only if its queue is empty, so this is more than
/// enough unless a thief stops in the middle of a steal, whose place can't be used again until it goes on.
const ROOM: usize = 64;

/// The jobs of one worker that are to be run again, first in, first out.
#[derive(Drop)]
pub(crate) struct Queue<J: Drop, Q: Rule<J>> {
    end: Worker<J, Global, Log<J>, Under<Q>>,
    ghost fifo: { worker_flavor end ≡ 0 },
}

impl<J: Drop, Q: Rule<J>> Queue<J, Q> {
    ghost use Rattle.std.specs.Prelude.{[], IfOk, IfErr, OnOk, OnErr, IfSome, IfNone};
    ghost use Rattle.async_pool.specs.Rule.{Begins, after_put, after_take, log};
    ghost use Rattle.async_pool.specs.Queue.{queue_view, IsSameQueue};
    ghost use Rattle.async_pool.specs.Thief.{IsThiefOf};

    /// Makes an empty queue.
    pub fn new(alloc: Global) -> Result<Queue<J, Q>, AllocError>
        requires { Begins Q.holds }
        ensures { IfOk result (λ queue. queue_view queue ≡ log [] []) }
    {
        Ok(Queue {
            end: Worker::fifo_as(alloc, ROOM)?,
        })
    }

    /// Makes the end at which other threads steal.
    pub fn thief(&self) -> Result<Thief<J, Q>, AllocError>
        ensures { IfOk result (IsThiefOf self.now) }
    {
        Ok(Thief::new(self.end.stealer()?))
    }

    /// Puts a job at the back. The job comes back, and nothing has changed, if the queue has to grow and memory is
    /// refused.
    pub fn push(&mut self, job: J) -> Result<(), J>
        ensures back { OnOk result (queue_view self.new ≡ after_put (queue_view self.old) job) }
        ensures same_job { IfErr result (λ back. back ≡ job) }
        ensures unchanged { OnErr result (queue_view self.new ≡ queue_view self.old) }
        ensures same_queue { IsSameQueue self.old self.new }
    {
        self.end.push_as::<Puts<Q>>(job)
    }

    /// Takes the first job, if there is one.
    pub fn pop(&mut self) -> Option<J>
        ensures first { IfSome result (λ job. queue_view self.new
            ≡ after_take (queue_view self.old) job) }
        ensures none { IfNone result (queue_view self.new ≡ queue_view self.old) }
        ensures empty { IfNone result (Q.fact (queue_view self.old) []) }
        ensures same_queue { IsSameQueue self.old self.new }
    {
        self.end.pop_as::<Takes<Q>>()
    }
}
