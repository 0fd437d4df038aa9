//! What the inbox and the queue of a worker say as sources of jobs, by their rules.
ghost use Rattle.std.specs.Prelude.{[]};
ghost use Rattle.async_pool.specs.Rule.{log};

use crate::inbox::Inbox;
use crate::rule::Rule;
use crate::source::Source;
use crate::thief::Thief;
use std::sync::Wait;

impl<J: Drop, P: Rule<J>> Source<J> for Inbox<J, P> {
    ghost was_empty = { λ _. P.fact (log [] []) [] };

    ghost was_drained = { λ _ taken. P.fact (log [] taken) [] };

    fn steal<R: Wait>(&self, rt: &R) -> Option<J> {
        self.take(rt, &mut self.pass())
    }

    fn drain_into<R: Wait>(&self, rt: &R, left: &mut Vec<J>) {
        self.drain(rt, left);
    }
}

impl<J: Drop, Q: Rule<J>> Source<J> for Thief<J, Q> {
    ghost was_empty = { λ _. Q.fact (log [] []) [] };

    ghost was_drained = { λ _ taken. Q.fact (log [] taken) [] };

    fn steal<R: Wait>(&self, rt: &R) -> Option<J> {
        self.steal_by(rt, &mut self.pass())
    }

    fn drain_into<R: Wait>(&self, rt: &R, left: &mut Vec<J>) {
        self.drain(rt, left);
    }
}
