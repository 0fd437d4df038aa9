//! A subscriber that checks the order of items. It requests nothing by itself.
ghost use Rattle.std.specs.Prelude.{◌≡◌};
ghost use Rattle.flow_rules.specs.Callback.{heard_nothing};

use flow_rules::{Answer, Fault, Item, Listener, NoMemory, Signal, Told};
use std::alloc::Global;
use std::marker::Model;
use std::sync::Arc;
use std::sync::atomic::AtomicU64;
use std::sync::atomic::Ordering::SeqCst;

/// A subscriber that compares each item with the one that has to come, and says at its completion how many came in order.
#[derive(Drop)]
pub struct InOrder {
    told: Told,
    /// The serial number of the item that has to come.
    next: u64,
    /// Where it says how many came in order.
    all: Arc<AtomicU64, Global>,
}

impl Model for InOrder {
    ghost use Rattle.flow_rules.specs.Callback.{Heard};

    ghost Value = { Heard };

    ghost view = { λ o. o.told };
}

impl InOrder {
    /// Makes a subscriber that was told nothing.
    pub fn new(all: Arc<AtomicU64, Global>) -> InOrder
        ensures { result ≡ heard_nothing }
    {
        InOrder {
            told: Told::new(),
            next: 0,
            all,
        }
    }
}

impl Listener for InOrder {
    ghost use Rattle.std.specs.Prelude.{false};

    ghost told = { λ o. o.signals };

    ghost replied = { λ o. o.replies };

    ghost is_steady = { λ _. false };

    fn on_subscribe(&mut self) -> Result<Answer, NoMemory> {
        Ok(self.told.tell(&Signal::Subscribed, Answer::Go))
    }

    fn on_next(&mut self, item: &Item) -> Result<Answer, NoMemory> {
        let answer = self.told.tell_next(item, Answer::Go);
        if item.serial == self.next {
            self.next = self.next.wrapping_add(1);
        }
        Ok(answer)
    }

    fn on_error(&mut self, fault: Fault) -> Result<Answer, NoMemory> {
        Ok(self.told.tell_last(&Signal::Error(fault)))
    }

    fn on_complete(&mut self) -> Result<Answer, NoMemory> {
        self.all.store(self.next, SeqCst);
        Ok(self.told.tell_last(&Signal::Complete))
    }
}
