//! A subscriber that tells another thread how many items it was told. It requests nothing by itself.
ghost use Rattle.std.specs.Prelude.{◌≡◌};
ghost use Rattle.flow_rules.specs.Callback.{heard_nothing};

use flow_rules::{Answer, Fault, Item, Listener, NoMemory, Signal, Told};
use std::alloc::Global;
use std::marker::Model;
use std::sync::Arc;
use std::sync::atomic::AtomicU64;
use std::sync::atomic::Ordering::SeqCst;

/// A subscriber that counts its items if another thread looks.
#[derive(Drop)]
pub struct Bell {
    told: Told,
    rung: Arc<AtomicU64, Global>,
}

impl Model for Bell {
    ghost use Rattle.flow_rules.specs.Callback.{Heard};

    ghost Value = { Heard };

    ghost view = { λ b. b.told };
}

impl Bell {
    /// Makes one that counts there.
    pub fn new(rung: Arc<AtomicU64, Global>) -> Bell
        ensures { result ≡ heard_nothing }
    {
        Bell {
            told: Told::new(),
            rung,
        }
    }
}

impl Listener for Bell {
    ghost use Rattle.std.specs.Prelude.{false};

    ghost told = { λ b. b.signals };

    ghost replied = { λ b. b.replies };

    ghost is_steady = { λ _. false };

    fn on_subscribe(&mut self) -> Result<Answer, NoMemory> {
        Ok(self.told.tell(&Signal::Subscribed, Answer::Go))
    }

    fn on_next(&mut self, item: &Item) -> Result<Answer, NoMemory> {
        let answer = self.told.tell_next(item, Answer::Go);
        self.rung.fetch_add(1, SeqCst);
        Ok(answer)
    }

    fn on_error(&mut self, fault: Fault) -> Result<Answer, NoMemory> {
        Ok(self.told.tell_last(&Signal::Error(fault)))
    }

    fn on_complete(&mut self) -> Result<Answer, NoMemory> {
        Ok(self.told.tell_last(&Signal::Complete))
    }
}
