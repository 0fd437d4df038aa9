//! A subscriber that is slow: it sleeps in each callback of an item. It requests nothing by itself.
ghost use Rattle.std.specs.Prelude.{◌≡◌};
ghost use Rattle.flow_rules.specs.Callback.{heard_nothing};

use flow_rules::{Answer, Fault, Item, Listener, NoMemory, Signal, Told};
use std::alloc::Global;
use std::marker::Model;
use std::sync::Arc;
use std::sync::atomic::AtomicU64;
use std::sync::atomic::Ordering::SeqCst;
use std::thread;
use std::time::{Clock, Duration};

/// How long it sleeps over an item.
const SLEPT_MILLISECONDS: u64 = 10;

/// A subscriber that sleeps, and counts its items if all of its kind do.
#[derive(Drop)]
pub struct Sleeper<C: Clock + Copy> {
    told: Told,
    clock: C,
    slept: Arc<AtomicU64, Global>,
}

impl<C: Clock + Copy> Model for Sleeper<C> {
    ghost use Rattle.flow_rules.specs.Callback.{Heard};

    ghost Value = { Heard };

    ghost view = { λ s. s.told };
}

impl<C: Clock + Copy> Sleeper<C> {
    /// Makes one that sleeps by this clock.
    pub fn new(clock: C, slept: Arc<AtomicU64, Global>) -> Sleeper<C>
        ensures { result ≡ heard_nothing }
    {
        Sleeper {
            told: Told::new(),
            clock,
            slept,
        }
    }
}

impl<C: Clock + Copy> Listener for Sleeper<C> {
    ghost use Rattle.std.specs.Prelude.{false};

    ghost told = { λ s. s.signals };

    ghost replied = { λ s. s.replies };

    ghost is_steady = { λ _. false };

    fn on_subscribe(&mut self) -> Result<Answer, NoMemory> {
        Ok(self.told.tell(&Signal::Subscribed, Answer::Go))
    }

    fn on_next(&mut self, item: &Item) -> Result<Answer, NoMemory> {
        let answer = self.told.tell_next(item, Answer::Go);
        thread::sleep(&self.clock, Duration::from_millis(SLEPT_MILLISECONDS));
        self.slept.fetch_add(1, SeqCst);
        Ok(answer)
    }

    fn on_error(&mut self, fault: Fault) -> Result<Answer, NoMemory> {
        Ok(self.told.tell_last(&Signal::Error(fault)))
    }

    fn on_complete(&mut self) -> Result<Answer, NoMemory> {
        Ok(self.told.tell_last(&Signal::Complete))
    }
}
