//! The jobs that wait, and the order in which a thread looks for one. No call takes a lock; who sleeps until a job
//! comes is the crew's business.
use crate::door::Open;
use crate::inbox::{Inbox, InboxPass};
use crate::lookout::Last;
use crate::rule::Rule;
use crate::source::{Source, drain_each, steal_first};
use crate::taker::Taker;
use std::sync::Wait;

/// The inbox, and a thief for the queue of each worker, in the order of the workers.
#[derive(Drop)]
pub(crate) struct Jobs<J: Drop, P: Rule<J>, T: Source<J> + Drop> {
    inbox: Inbox<J, P>,
    thieves: Vec<T>,
}

impl<J: Drop, P: Rule<J>, T: Source<J> + Drop> Jobs<J, P, T> {
    ghost use Rattle.std.specs.Prelude.{◌≡◌, [], ◌∷◌, true, Some, None, IfOk, IfErr, IfNone, OnErr};
    ghost use Rattle.crossbeam_queue.specs.Fifo.{Held};
    ghost use Rattle.crossbeam_queue.specs.Passes.{view, IsPassOf};
    ghost use Rattle.async_pool.specs.declared.inbox.TheConstants.{CAPACITY};
    ghost use Rattle.async_pool.specs.Rule.{log};
    ghost use Rattle.async_pool.specs.Source.{Drains, WereEmpty};
    ghost use Rattle.async_pool.specs.Jobs.{FindsJob, HadNone, IsTakerOf, WereAllDrained};

    /// Keeps these, at which no job waits.
    pub fn new(inbox: Inbox<J, P>, thieves: Vec<T>) -> Jobs<J, P, T>
        ensures { result.thieves ≡ thieves }
    {
        Jobs { inbox, thieves }
    }

    /// Puts a job into the inbox, behind all others there, and answers with the pass that put it. The job comes back if
    /// the inbox was full at one moment of the call.
    pub fn enqueue<R: Wait>(&self, rt: &R, job: J, _open: &Open<'_>) -> Result<InboxPass<J>, J>
        ensures put { IfOk result (λ pass. IsPassOf self.now.inbox.queue pass
            × (view pass ≡ log (job ∷ []) [])) }
        ensures same_job { IfErr result (λ back. back ≡ job) }
        ensures full { OnErr result (Held CAPACITY (P.fact (log [] []))) }
    {
        self.inbox.enqueue(rt, job)
    }

    /// Makes a pass of the inbox.
    pub fn pass(&self) -> InboxPass<J>
        ensures { IsPassOf self.now.inbox.queue result }
    {
        self.inbox.pass()
    }

    /// Takes the next job of a worker: the first of its own queue, else of the inbox, else of another worker's queue.
    pub fn next<R: Wait, Q: Rule<J>>(&self, rt: &R, taker: &mut Taker<J, Q>) -> Option<J>
        requires { IsTakerOf self.now taker.old }
        ensures of { IsTakerOf self.now taker.new }
        ensures finds { FindsJob taker.old result taker.new }
        ensures none { IfNone result (HadNone Q.fact P.fact taker.old
            × WereEmpty T.was_empty self.now.thieves.items (Some taker.old.worker)) }
    {
        let job = taker.own.pop();
        if job.is_some() {
            return job;
        }
        let job = self.inbox.take(rt, &mut taker.pass);
        if job.is_some() {
            return job;
        }
        steal_first(rt, &self.thieves, Some(taker.worker))
    }

    /// Whether no job waited in the inbox at one moment of the call, as a worker sees it that was the last that
    /// searched.
    pub fn is_inbox_empty<Q: Rule<J>>(&self, taker: &mut Taker<J, Q>, _last: Last) -> bool
        requires { IsTakerOf self.now taker.old }
        ensures of { IsTakerOf self.now taker.new }
        ensures empty { result ≡ true → P.fact (view taker.old.pass) [] }
    {
        self.inbox.is_empty(&mut taker.pass)
    }

    /// Takes the first job of the inbox, else of a worker's queue.
    pub fn take<R: Wait>(&self, rt: &R) -> Option<J>
        ensures inbox { IfNone result (P.fact (log [] []) []) }
        ensures queues { IfNone result (WereEmpty T.was_empty self.now.thieves.items None) }
    {
        let job = self.inbox.steal(rt);
        if job.is_some() {
            return job;
        }
        steal_first(rt, &self.thieves, None)
    }

    /// Takes all jobs and appends them to `left`, as far as that has room: those of the inbox, and then those of each
    /// queue.
    pub fn drain_into<R: Wait>(&self, rt: &R, left: &mut Vec<J>)
        ensures { Drains (WereAllDrained P.fact T.was_drained self.now.thieves.items) left.old left.new }
    {
        self.inbox.drain_into(rt, left);
        drain_each(rt, &self.thieves, left);
    }
}
