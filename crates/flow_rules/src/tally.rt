//! A listener that counts.
ghost use Rattle.std.specs.Prelude.{◌≡◌, length, min, ◌-◌, ◌^◌};
ghost use Rattle.flow_rules.specs.Callback.{heard_nothing};
ghost use Rattle.flow_rules.specs.Signals.{items_of};

use crate::answer::Answer;
use crate::item::Item;
use crate::listener::Listener;
use crate::refusal::NoMemory;
use crate::signal::{Fault, Signal};
use crate::told::Told;
use std::marker::Model;

/// A listener that counts the items that it is told, and keeps none. It is steady, and no callback of it is refused
/// memory.
#[derive(Debug, Drop)]
pub struct Tally {
    told: Told,
    items: u64,
}

impl Model for Tally {
    ghost use Rattle.std.specs.Prelude.{◌≡◌, length, min, ◌-◌, ◌^◌};
    ghost use Rattle.flow_rules.specs.Callback.{Heard};
    ghost use Rattle.flow_rules.specs.Signals.{items_of};

    ghost Value = { Heard };

    ghost view = { λ t. t.told };

    ghost invariant = { λ t. t.items ≡ min (length (items_of t.told.signals)) (2 ^ 64 - 1) };
}

impl Tally {
    /// One that was told nothing.
    pub fn new() -> Tally
        ensures untold { result ≡ heard_nothing }
    {
        Tally {
            told: Told::new(),
            items: 0,
        }
    }

    /// How many items it was told, or 2^64 - 1 if they were more.
    pub fn items(&self) -> u64
        ensures { result ≡ min (length (items_of self.now.signals)) (2 ^ 64 - 1) }
    {
        self.items
    }
}

impl Default for Tally {
    ghost is_default = { λ tally. tally ≡ heard_nothing };

    fn default() -> Tally {
        Tally::new()
    }
}

impl Listener for Tally {
    ghost use Rattle.std.specs.Prelude.{true};

    ghost told = { λ t. t.signals };

    ghost replied = { λ t. t.replies };

    ghost is_steady = { λ _. true };

    #[tactic(auto, using(crate::proofs::Items::subscribed_no_item))]
    fn on_subscribe(&mut self) -> Result<Answer, NoMemory> {
        Ok(self.told.tell(&Signal::Subscribed, Answer::Go))
    }

    #[tactic(auto, using(crate::proofs::Items::one_item_more))]
    fn on_next(&mut self, item: &Item) -> Result<Answer, NoMemory> {
        self.items = self.items.saturating_add(1);
        Ok(self.told.tell_next(item, Answer::Go))
    }

    #[tactic(auto, using(crate::proofs::Items::error_no_item))]
    fn on_error(&mut self, fault: Fault) -> Result<Answer, NoMemory> {
        Ok(self.told.tell_last(&Signal::Error(fault)))
    }

    #[tactic(auto, using(crate::proofs::Items::complete_no_item))]
    fn on_complete(&mut self) -> Result<Answer, NoMemory> {
        Ok(self.told.tell_last(&Signal::Complete))
    }
}
