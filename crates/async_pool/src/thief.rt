//! The end of a worker's queue at which other threads steal. It puts nothing in.
ghost use Rattle.std.specs.Prelude.{◌≡◌};
ghost use Rattle.crossbeam_deque.specs.Handles.{stealer_flavor};
ghost use Rattle.crossbeam_utils.specs.Padded.{padded_value};

use crate::rule::{Log, Rule};
use crate::under::{Takes, Under};
use crossbeam_deque::{Pass, Steal, Stealer};
use crossbeam_utils::CachePadded;
use std::alloc::Global;
use std::sync::Wait;

/// What a call knows of its own steps on the queue of a worker. It has no bytes.
pub(crate) type QueuePass<J> = Pass<J, Log<J>>;

/// Takes the jobs of one worker at the front, from any thread.
#[derive(Drop)]
pub(crate) struct Thief<J: Drop, Q: Rule<J>> {
    end: CachePadded<Stealer<J, Global, Log<J>, Under<Q>>>,
    ghost fifo: { stealer_flavor (padded_value end) ≡ 0 },
}

impl<J: Drop, Q: Rule<J>> Thief<J, Q> {
    ghost use Rattle.std.specs.Prelude.{[], ◌++◌, ◌≤◌, ◌⊎◌, IfSome, IfNone, vec_len};
    ghost use Rattle.std.specs.Vec.{vec_capacity};
    ghost use Rattle.crossbeam_deque.specs.Handles.{view, stealer_deque};
    ghost use Rattle.async_pool.specs.Rule.{after_take, log};
    ghost use Rattle.async_pool.specs.Thief.{IsPassOfThief};

    /// Makes the thief of a queue that is first in, first out.
    pub fn new(end: Stealer<J, Global, Log<J>, Under<Q>>) -> Thief<J, Q>
        requires { stealer_flavor end ≡ 0 }
        ensures { stealer_deque (padded_value result.end) ≡ stealer_deque end }
    {
        Thief {
            end: CachePadded::new(end),
        }
    }

    /// Makes a pass, which took nothing.
    pub fn pass(&self) -> QueuePass<J>
        ensures of { IsPassOfThief self.now result }
        ensures nothing { view result ≡ log [] [] }
    {
        self.end.pass()
    }

    /// Takes the first job, if there is one, by this pass. It tries again if another thread came first.
    pub fn steal_by<R: Wait>(&self, rt: &R, pass: &mut QueuePass<J>) -> Option<J>
        requires { IsPassOfThief self.now pass.old }
        ensures of { IsPassOfThief self.now pass.new }
        ensures first { IfSome result (λ job. view pass.new ≡ after_take (view pass.old) job) }
        ensures none { IfNone result (view pass.new ≡ view pass.old) }
        ensures empty { IfNone result (Q.fact (view pass.old) []) }
    {
        for _ in rt.forever() {
            match self.end.steal_as::<Takes<Q>>(pass) {
                Steal::Success(job) => return Some(job),
                Steal::Empty => return None,
                Steal::Retry => {}
            }
        }
        unreachable!()
    }

    /// Takes jobs from the front and appends them to `left`, until the queue was empty at one moment or `left` has no
    /// more room. The answer is the pass that took them.
    pub fn drain<R: Wait>(&self, rt: &R, left: &mut Vec<J>) -> QueuePass<J>
        ensures of { IsPassOfThief self.now result }
        ensures put { (view result).put ≡ [] }
        ensures order { left.new.items ≡ left.old.items ++ (view result).taken }
        ensures room { vec_capacity left.new ≡ vec_capacity left.old }
        ensures all { (vec_capacity left.new ≤ vec_len left.new) ⊎ Q.fact (view result) [] }
    {
        let mut pass = self.pass();
        for _ in rt.forever() {
            if left.len() == left.capacity() {
                break;
            }
            let Some(job) = self.steal_by(rt, &mut pass) else {
                break;
            };
            left.push_reserved(job);
        }
        pass
    }
}
