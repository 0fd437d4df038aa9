//! The inbox: the bounded queue of the jobs that were handed in. Jobs that are to be run again are not its business.
ghost use Rattle.std.specs.Prelude.{◌≡◌};
ghost use Rattle.crossbeam_queue.specs.Passes.{ruled_capacity};
ghost use Rattle.async_pool.specs.declared.inbox.TheConstants.{CAPACITY};

use crate::rule::{Log, Rule};
use crate::under::{Puts, Takes, Under};
use crossbeam_queue::{Pass, RuledArrayQueue};
use std::alloc::{AllocError, Global};
use std::sync::Wait;

/// The most jobs that wait in the inbox of a pool.
pub const CAPACITY: usize = 1024;

/// What a call knows of its own steps on an inbox. It has no bytes.
pub(crate) type InboxPass<J> = Pass<J, Log<J>>;

/// Jobs in the order in which they were handed in. All its room is made by `new`, and no call takes a lock.
#[derive(Drop)]
pub(crate) struct Inbox<J, P: Rule<J>> {
    queue: RuledArrayQueue<J, Log<J>, Under<P>>,
    ghost bounded: { ruled_capacity queue ≡ CAPACITY },
}

impl<J: Drop, P: Rule<J>> Inbox<J, P> {
    ghost use Rattle.std.specs.Prelude.{[], ◌∷◌, ◌++◌, ◌≤◌, ◌⊎◌, true, IfOk, IfErr, OnErr, IfSome, IfNone, vec_len};
    ghost use Rattle.std.specs.Vec.{vec_capacity};
    ghost use Rattle.crossbeam_queue.specs.Fifo.{Held};
    ghost use Rattle.crossbeam_queue.specs.Passes.{view, IsPassOf};
    ghost use Rattle.async_pool.specs.Rule.{Begins, after_take, log};

    /// Makes an empty inbox with all its room.
    pub fn new(alloc: Global) -> Result<Inbox<J, P>, AllocError>
        requires { Begins P.holds }
    {
        let (queue, _) = RuledArrayQueue::ruled(alloc, CAPACITY)?;
        Ok(Inbox { queue })
    }

    /// Puts a job at the back, and answers with the pass that put it. The job comes back if the inbox was full at one
    /// moment of the call.
    pub fn enqueue<R: Wait>(&self, rt: &R, job: J) -> Result<InboxPass<J>, J>
        ensures of { IfOk result (λ pass. IsPassOf self.now.queue pass) }
        ensures put { IfOk result (λ pass. view pass ≡ log (job ∷ []) []) }
        ensures same_job { IfErr result (λ back. back ≡ job) }
        ensures full { OnErr result (Held CAPACITY (P.fact (log [] []))) }
    {
        let mut pass = self.pass();
        self.queue.push_as::<Puts<P>, R>(rt, &mut pass, job)?;
        Ok(pass)
    }

    /// Makes a pass, which put nothing and took nothing.
    pub fn pass(&self) -> InboxPass<J>
        ensures of { IsPassOf self.now.queue result }
        ensures nothing { view result ≡ log [] [] }
    {
        self.queue.pass()
    }

    /// Takes the first job, if there is one, by this pass.
    pub fn take<R: Wait>(&self, rt: &R, pass: &mut InboxPass<J>) -> Option<J>
        requires { IsPassOf self.now.queue pass.old }
        ensures of { IsPassOf self.now.queue pass.new }
        ensures first { IfSome result (λ job. view pass.new ≡ after_take (view pass.old) job) }
        ensures none { IfNone result (view pass.new ≡ view pass.old) }
        ensures empty { IfNone result (P.fact (view pass.old) []) }
    {
        self.queue.pop_as::<Takes<P>, R>(rt, pass)
    }

    /// Whether no job waited at one moment of the call, by this pass.
    pub fn is_empty(&self, pass: &mut InboxPass<J>) -> bool
        requires { IsPassOf self.now.queue pass.old }
        ensures of { IsPassOf self.now.queue pass.new }
        ensures same { view pass.new ≡ view pass.old }
        ensures empty { result ≡ true → P.fact (view pass.old) [] }
    {
        self.queue.is_empty_as::<Takes<P>>(pass)
    }

    /// Takes jobs from the front and appends them to `left`, until the inbox was empty at one moment or `left` has no
    /// more room. The answer is the pass that took them.
    pub fn drain<R: Wait>(&self, rt: &R, left: &mut Vec<J>) -> InboxPass<J>
        ensures of { IsPassOf self.now.queue result }
        ensures put { (view result).put ≡ [] }
        ensures order { left.new.items ≡ left.old.items ++ (view result).taken }
        ensures room { vec_capacity left.new ≡ vec_capacity left.old }
        ensures all { (vec_capacity left.new ≤ vec_len left.new) ⊎ P.fact (view result) [] }
    {
        let mut pass = self.pass();
        for _ in rt.forever() {
            if left.len() == left.capacity() {
                break;
            }
            let Some(job) = self.take(rt, &mut pass) else {
                break;
            };
            left.push_reserved(job);
        }
        pass
    }
}
