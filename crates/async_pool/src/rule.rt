//! What the inbox and each worker's queue are proved for: any rule that each step keeps, such as that of the pool, first
//! in, first out. The program makes no value of what stands here.
ghost use Rattle.std.specs.Prelude.{Bool, List};

use std::collections::LinkedList;

/// What a pass put into a queue and took from it, in the order of its steps.
pub struct Log<J> {
    /// What it put in.
    pub put: LinkedList<J>,
    /// What it took out.
    pub taken: LinkedList<J>,
}

/// A rule of what a queue holds, the first job first, and of what each pass knows of its own steps.
///
/// The calls of a queue are proved for every such rule, and know nothing of it but that steps keep it. What a step
/// tells is known by that step alone: no call ever learns that the rule holds of anything, so no proof can make a
/// moment up, or one moment of another.
pub trait Rule<J> {
    ghost use Rattle.async_pool.specs.Rule.{IsKept};
    ghost use Rattle.async_pool.specs.declared.rule.Log.{Log};

    ghost holds: { List J → List (Log J) → Type 0 };

    /// What a step tells of what the queue held at its moment, to a pass that knows this.
    ghost fact: { Log J → List J → Type 0 };

    ghost kept: { IsKept holds fact };
}

/// Whether a pool was shut. Whoever shuts it says so, and a call learns it that finds it shut: nothing else tells.
pub trait Shutdown {
    ghost shut: { Bool };
}

/// First in, first out: what was put is what was taken, followed by what the queue holds, in the order of the steps.
pub struct InOrder;

impl<J> Rule<J> for InOrder {
    ghost use Rattle.async_pool.specs.Bag.{Bag};
    ghost use Rattle.async_pool.specs.Bags.{bag_is_kept};
    ghost use Rattle.async_pool.specs.Rule.{Moment};

    ghost holds = { Bag };

    ghost fact = { Moment Bag };

    ghost kept = { bag_is_kept };
}

impl Shutdown for InOrder {
    ghost use Rattle.std.specs.Prelude.{true};

    ghost shut = { true };
}
