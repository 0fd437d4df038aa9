//! The parts of a World, by their names. Before the subscription is made the numbers are 0, and nothing is under way.
ghost use Rattle.std.specs.Prelude.{◌≡◌, false};
ghost use Rattle.feed_core.specs.Cause.{no_causes};
ghost use Rattle.feed_core.specs.World.Runs.{part};
ghost use Rattle.feed_core.specs.World.Types.{Free, Idle, Nobody};

use super::World;
use super::parts::{Parts, Producing, Requesting, Runner};
use crate::cause::Causes;

impl World {
    /// All that there is, once the subscription was made.
    pub fn parts(&self) -> Option<Parts>
        ensures { result ≡ self.now.parts }
    {
        self.made
    }

    /// The capacity of its buffer.
    pub fn capacity(&self) -> usize
        ensures { result ≡ part 0 (λ parts. parts.capacity) self.now.parts }
    {
        match self.made {
            Some(parts) => parts.capacity,
            None => 0,
        }
    }

    /// How many items were put.
    pub fn accepted(&self) -> u64
        ensures { result ≡ part 0 (λ parts. parts.accepted) self.now.parts }
    {
        match self.made {
            Some(parts) => parts.accepted,
            None => 0,
        }
    }

    /// How many of them were taken.
    pub fn given(&self) -> u64
        ensures { result ≡ part 0 (λ parts. parts.given) self.now.parts }
    {
        match self.made {
            Some(parts) => parts.given,
            None => 0,
        }
    }

    /// How many items the handle has requested.
    pub fn asked(&self) -> u64
        ensures { result ≡ part 0 (λ parts. parts.asked) self.now.parts }
    {
        match self.made {
            Some(parts) => parts.asked,
            None => 0,
        }
    }

    /// How many items the answers of callbacks have requested.
    pub fn own(&self) -> u64
        ensures { result ≡ part 0 (λ parts. parts.own) self.now.parts }
    {
        match self.made {
            Some(parts) => parts.own,
            None => 0,
        }
    }

    /// How many items were given before the first signal that ends the subscription at once, but for one that was just
    /// taken then.
    pub fn cut(&self) -> Option<u64>
        ensures { result ≡ self.now.cut }
    {
        self.cut
    }

    /// Why it may end.
    pub fn causes(&self) -> Causes
        ensures { result ≡ part no_causes (λ parts. parts.causes) self.now.parts }
    {
        match self.made {
            Some(parts) => parts.causes,
            None => Causes::none(),
        }
    }

    /// Whether a signal was made since the runner's last look.
    pub fn active(&self) -> bool
        ensures { result ≡ part false (λ parts. parts.active) self.now.parts }
    {
        match self.made {
            Some(parts) => parts.active,
            None => false,
        }
    }

    /// What the producer is in the middle of.
    pub fn producer(&self) -> Producing
        ensures { result ≡ part Free (λ parts. parts.producer) self.now.parts }
    {
        match self.made {
            Some(parts) => parts.producer,
            None => Producing::Free,
        }
    }

    /// What the handle is in the middle of.
    pub fn handle(&self) -> Requesting
        ensures { result ≡ part Idle (λ parts. parts.handle) self.now.parts }
    {
        match self.made {
            Some(parts) => parts.handle,
            None => Requesting::Idle,
        }
    }

    /// Where its task stands.
    pub fn runner(&self) -> Runner
        ensures { result ≡ part Nobody (λ parts. parts.runner) self.now.parts }
    {
        match self.made {
            Some(parts) => parts.runner,
            None => Runner::Nobody,
        }
    }
}
