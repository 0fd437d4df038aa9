//! A subscriber that does something else in `on_next`.
ghost use Rattle.std.specs.Prelude.{◌≡◌};
ghost use Rattle.flow_rules.specs.Callback.{heard_nothing};

use flow_rules::{Answer, Fault, Item, Listener, NoMemory, Signal, Told};
use std::marker::Model;

// What a subscriber does with each item.
pub trait Act: Drop {
    fn act(&mut self);
}

// A listener that acts on each item, and keeps none.
#[derive(Drop)]
pub struct Acting<A: Act> {
    told: Told,
    act: A,
}

impl<A: Act> Model for Acting<A> {
    ghost use Rattle.flow_rules.specs.Callback.{Heard};

    ghost Value = { Heard };

    ghost view = { λ a. a.told };
}

impl<A: Act> Acting<A> {
    // One that was told nothing.
    pub fn new(act: A) -> Acting<A>
        ensures { result ≡ heard_nothing }
    {
        Acting {
            told: Told::new(),
            act,
        }
    }
}

impl<A: Act> Listener for Acting<A> {
    ghost use Rattle.std.specs.Prelude.{false};

    ghost told = { λ a. a.signals };

    ghost replied = { λ a. a.replies };

    ghost is_steady = { λ _. false };

    fn on_subscribe(&mut self) -> Result<Answer, NoMemory> {
        Ok(self.told.tell(&Signal::Subscribed, Answer::Go))
    }

    fn on_next(&mut self, item: &Item) -> Result<Answer, NoMemory> {
        let answer = self.told.tell_next(item, Answer::Go);
        self.act.act();
        Ok(answer)
    }

    fn on_error(&mut self, fault: Fault) -> Result<Answer, NoMemory> {
        Ok(self.told.tell_last(&Signal::Error(fault)))
    }

    fn on_complete(&mut self) -> Result<Answer, NoMemory> {
        Ok(self.told.tell_last(&Signal::Complete))
    }
}
