//! A listener that expects numbered items.
ghost use Rattle.std.specs.Prelude.{◌≡◌};
ghost use Rattle.flow_rules.specs.Callback.{heard_nothing};

use flow_rules::{Answer, Fault, Item, Listener, NoMemory, Signal, Told};
use std::marker::Model;

// A listener that compares each item with the one that has to come, and keeps none.
#[derive(Drop)]
pub struct InOrder {
    told: Told,
    items: u64,
    in_order: bool,
    completed: bool,
}

impl Model for InOrder {
    ghost use Rattle.flow_rules.specs.Callback.{Heard};

    ghost Value = { Heard };

    ghost view = { λ o. o.told };
}

impl InOrder {
    // One that was told nothing.
    pub fn new() -> InOrder
        ensures { result ≡ heard_nothing }
    {
        InOrder {
            told: Told::new(),
            items: 0,
            in_order: true,
            completed: false,
        }
    }

    // Whether it was told so many items, with the serial numbers from 0 on in order, and then that it is complete.
    pub fn has_all(&self, items: u64) -> bool {
        self.in_order && self.completed && self.items == items
    }
}

impl Listener for InOrder {
    ghost use Rattle.std.specs.Prelude.{false};

    ghost told = { λ o. o.signals };

    ghost replied = { λ o. o.replies };

    ghost is_steady = { λ _. false };

    fn on_subscribe(&mut self) -> Result<Answer, NoMemory> {
        Ok(self.told.tell(&Signal::Subscribed, Answer::Go))
    }

    fn on_next(&mut self, item: &Item) -> Result<Answer, NoMemory> {
        let answer = self.told.tell_next(item, Answer::Go);
        self.in_order = self.in_order && !self.completed && item.serial == self.items;
        self.items = self.items.saturating_add(1);
        Ok(answer)
    }

    fn on_error(&mut self, fault: Fault) -> Result<Answer, NoMemory> {
        self.in_order = false;
        Ok(self.told.tell_last(&Signal::Error(fault)))
    }

    fn on_complete(&mut self) -> Result<Answer, NoMemory> {
        self.in_order = self.in_order && !self.completed;
        self.completed = true;
        Ok(self.told.tell_last(&Signal::Complete))
    }
}
