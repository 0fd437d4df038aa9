//! What each step on the inbox and on a worker's queue tells, under a rule. All of this is for the proofs: the program
//! makes no value of these types.
use crate::rule::{Log, Rule};
use crossbeam_deque::protocol as deque;
use crossbeam_queue::protocol as array;
use std::marker::PhantomData;

/// A queue under a rule, whose new passes know of no step.
pub struct Under<P> {
    rule: PhantomData<P>,
}

impl<J, P: Rule<J>> array::Protocol<J, Log<J>> for Under<P> {
    ghost use Rattle.std.specs.Prelude.{[]};
    ghost use Rattle.async_pool.specs.Rule.{log};

    ghost holds = { P.holds };

    ghost first = { log [] [] };
}

impl<J, P: Rule<J>> deque::Protocol<J, Log<J>> for Under<P> {
    ghost use Rattle.std.specs.Prelude.{[]};
    ghost use Rattle.async_pool.specs.Rule.{log};

    ghost holds = { P.holds };

    ghost first = { log [] [] };

    ghost guest = { log [] [] };
}

/// What a step tells that puts jobs at the back. One that finds no room tells what the queue held then.
pub struct Puts<P> {
    rule: PhantomData<P>,
}

impl<J, P: Rule<J>> array::Outcome<J, Log<J>> for Puts<P> {
    ghost use Rattle.std.specs.Prelude.{◌≡◌};
    ghost use Rattle.async_pool.specs.Rule.{after_put};

    ghost then = { λ v x w. w ≡ after_put v x };
}

impl<J, P: Rule<J>> array::Lesson<J, Log<J>> for Puts<P> {
    ghost fact = { P.fact };
}

impl<J, P: Rule<J>> deque::Outcome<J, Log<J>> for Puts<P> {
    ghost use Rattle.std.specs.Prelude.{◌≡◌, ◌++◌};
    ghost use Rattle.async_pool.specs.Rule.{log};

    ghost then = { λ v xs w. w ≡ log (v.put ++ xs) v.taken };
}

/// What a step tells that takes jobs at the front. One that finds none tells what the queue held then.
pub struct Takes<P> {
    rule: PhantomData<P>,
}

impl<J, P: Rule<J>> array::Outcome<J, Log<J>> for Takes<P> {
    ghost use Rattle.std.specs.Prelude.{◌≡◌};
    ghost use Rattle.async_pool.specs.Rule.{after_take};

    ghost then = { λ v x w. w ≡ after_take v x };
}

impl<J, P: Rule<J>> array::Lesson<J, Log<J>> for Takes<P> {
    ghost fact = { P.fact };
}

impl<J, P: Rule<J>> deque::Outcome<J, Log<J>> for Takes<P> {
    ghost use Rattle.std.specs.Prelude.{◌≡◌, [], ◌++◌};
    ghost use Rattle.async_pool.specs.Rule.{log};

    ghost then = { λ v xs w. w ≡ log v.put (v.taken ++ xs) };

    ghost empty = { λ v. P.fact v [] };
}
