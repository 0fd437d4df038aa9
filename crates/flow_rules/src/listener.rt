//! Who is told: the trait that a publisher calls. What it keeps of that is its own affair.
mod sent;

use crate::answer::Answer;
use crate::item::Item;
use crate::refusal::NoMemory;
use crate::signal::Fault;

/// Who is told (`Flow.Subscriber`), and may forget it. Its meaning is two lists, which exist in the proof alone. `told`
/// has the signals that it was told so far: a callback that answers Ok has added exactly its own signal, and one that
/// was refused memory has added nothing. `replied` has what each of its callbacks came back with: an answer, or that it
/// was refused memory. A struct meets it with a field [`Told`](crate::Told), which takes no memory.
///
/// A [`Subscriber`](crate::Subscriber) keeps the first list and shows it. [`Shown`](crate::Shown) makes a listener of
/// any.
///
/// A listener need not be `Send`, since one thread may play all turns of a script. A publisher that threads share asks
/// for `Listener + Send`, at each of its calls and types.
pub trait Listener: Drop {
    ghost use Rattle.std.specs.Prelude.{◌≡◌, ◌∷◌, ◌++◌, [], List, Bool};
    ghost use Rattle.flow_rules.specs.Callback.{Reply, Tells, unobeyed, StaysSteady};
    ghost use Rattle.flow_rules.specs.declared.signal.Signal.{Signal};
    ghost use Rattle.flow_rules.specs.declared.signal.Signal.TheVariants.{Subscribed, Next, Complete, Error};

    /// What it was told, in order.
    ghost told: { Self → List Signal };

    /// What each callback came back with, in order. That of a terminal signal adds `Go` or its refusal, since its
    /// answer is not obeyed.
    ghost replied: { Self → List Reply };

    /// Whether each of its callbacks answers `Go` or is refused memory, and will so for good.
    ghost is_steady: { Self → Bool };

    /// `Flow.Subscriber.onSubscribe`
    fn on_subscribe(&mut self) -> Result<Answer, NoMemory>
        ensures told { Tells Subscribed result (told self.old) (told self.new) }
        ensures replied { replied self.new ≡ replied self.old ++ result ∷ [] }
        ensures steady { StaysSteady result (is_steady self.old) (is_steady self.new) };

    /// `Flow.Subscriber.onNext`
    fn on_next(&mut self, item: &Item) -> Result<Answer, NoMemory>
        ensures told { Tells (Next item.now) result (told self.old) (told self.new) }
        ensures replied { replied self.new ≡ replied self.old ++ result ∷ [] }
        ensures steady { StaysSteady result (is_steady self.old) (is_steady self.new) };

    /// `Flow.Subscriber.onError`. What it answers is not obeyed.
    fn on_error(&mut self, fault: Fault) -> Result<Answer, NoMemory>
        ensures told { Tells (Error fault) result (told self.old) (told self.new) }
        ensures replied { replied self.new ≡ replied self.old ++ unobeyed result ∷ [] }
        ensures steady { StaysSteady result (is_steady self.old) (is_steady self.new) };

    /// `Flow.Subscriber.onComplete`. What it answers is not obeyed.
    fn on_complete(&mut self) -> Result<Answer, NoMemory>
        ensures told { Tells Complete result (told self.old) (told self.new) }
        ensures replied { replied self.new ≡ replied self.old ++ unobeyed result ∷ [] }
        ensures steady { StaysSteady result (is_steady self.old) (is_steady self.new) };
}

impl Listener for Box<dyn Listener> {
    ghost told = { λ b. (Listener-box b).told b.value };

    ghost replied = { λ b. (Listener-box b).replied b.value };

    ghost is_steady = { λ b. (Listener-box b).is_steady b.value };

    fn on_subscribe(&mut self) -> Result<Answer, NoMemory> {
        (**self).on_subscribe()
    }

    fn on_next(&mut self, item: &Item) -> Result<Answer, NoMemory> {
        (**self).on_next(item)
    }

    fn on_error(&mut self, fault: Fault) -> Result<Answer, NoMemory> {
        (**self).on_error(fault)
    }

    fn on_complete(&mut self) -> Result<Answer, NoMemory> {
        (**self).on_complete()
    }
}

/// A listener that answers `Go` to each callback, whatever the one in it answers. So it is steady.
#[derive(Debug, Drop)]
pub struct GoesOn<B: Listener>(pub B);

impl<B: Listener> Listener for GoesOn<B> {
    ghost use Rattle.std.specs.Prelude.{true, map};
    ghost use Rattle.flow_rules.specs.Callback.{unobeyed};

    ghost told = { λ listener. B.told listener.0 };

    ghost replied = { λ listener. map unobeyed (B.replied listener.0) };

    ghost is_steady = { λ _. true };

    fn on_subscribe(&mut self) -> Result<Answer, NoMemory> {
        self.0.on_subscribe().map(|_| Answer::Go)
    }

    fn on_next(&mut self, item: &Item) -> Result<Answer, NoMemory> {
        self.0.on_next(item).map(|_| Answer::Go)
    }

    fn on_error(&mut self, fault: Fault) -> Result<Answer, NoMemory> {
        self.0.on_error(fault).map(|_| Answer::Go)
    }

    fn on_complete(&mut self) -> Result<Answer, NoMemory> {
        self.0.on_complete().map(|_| Answer::Go)
    }
}
