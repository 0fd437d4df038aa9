//! A subscriber that keeps what it is told.
use crate::answer::Answer;
use crate::item::Item;
use crate::refusal::NoMemory;
use crate::signal::{Fault, Signal};

/// Who is told (`Flow.Subscriber`). Its meaning is `told`, the list of signals that it was told so far: a callback that
/// answers Ok has added exactly its own signal, and one that was refused memory has added nothing.
pub trait Subscriber: Send + Drop {
    ghost use Rattle.std.specs.Prelude.{◌≡◌, List, Bool};
    ghost use Rattle.flow_rules.specs.Callback.{Tells, StaysSteady};
    ghost use Rattle.flow_rules.specs.declared.signal.Signal.{Signal};
    ghost use Rattle.flow_rules.specs.declared.signal.Signal.TheVariants.{Subscribed, Next, Complete, Error};

    ghost told: { Self → List Signal };

    ghost is_steady: { Self → Bool };

    /// What it was told, in order.
    fn told(&self) -> &[Signal]
        ensures { result.now ≡ told self.now };

    /// Whether each of its callbacks answers `Go` or is refused memory, and will so for good.
    fn steady(&self) -> bool
        ensures { result ≡ is_steady self.now };

    /// `Flow.Subscriber.onSubscribe`
    fn on_subscribe(&mut self) -> Result<Answer, NoMemory>
        ensures told { Tells Subscribed result (told self.old) (told self.new) }
        ensures steady { StaysSteady result (is_steady self.old) (is_steady self.new) };

    /// `Flow.Subscriber.onNext`
    fn on_next(&mut self, item: &Item) -> Result<Answer, NoMemory>
        ensures told { Tells (Next item.now) result (told self.old) (told self.new) }
        ensures steady { StaysSteady result (is_steady self.old) (is_steady self.new) };

    /// `Flow.Subscriber.onError`. What it answers is not obeyed.
    fn on_error(&mut self, fault: Fault) -> Result<Answer, NoMemory>
        ensures told { Tells (Error fault) result (told self.old) (told self.new) }
        ensures steady { StaysSteady result (is_steady self.old) (is_steady self.new) };

    /// `Flow.Subscriber.onComplete`. What it answers is not obeyed.
    fn on_complete(&mut self) -> Result<Answer, NoMemory>
        ensures told { Tells Complete result (told self.old) (told self.new) }
        ensures steady { StaysSteady result (is_steady self.old) (is_steady self.new) };
}

impl Subscriber for Box<dyn Subscriber> {
    ghost told = { λ b. (Subscriber-box b).told b.value };

    ghost is_steady = { λ b. (Subscriber-box b).is_steady b.value };

    fn told(&self) -> &[Signal] {
        (**self).told()
    }

    fn steady(&self) -> bool {
        (**self).steady()
    }

    fn on_subscribe(&mut self) -> Result<Answer, NoMemory> {
        (**self).on_subscribe()
    }

    fn on_next(&mut self, item: &Item) -> Result<Answer, NoMemory> {
        (**self).on_next(item)
    }

    fn on_error(&mut self, fault: Fault) -> Result<Answer, NoMemory> {
        (**self).on_error(fault)
    }

    fn on_complete(&mut self) -> Result<Answer, NoMemory> {
        (**self).on_complete()
    }
}
