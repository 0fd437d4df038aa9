//! A subscriber that keeps what it is told.
ghost use Rattle.std.specs.Prelude.{◌≡◌, ◌∷◌, ◌++◌, [], Ok, IfOk, OnOk, OnErr, Some, None};
ghost use Rattle.flow_rules.specs.Callback.{refused};
ghost use Rattle.flow_rules.specs.Collected.{answer_to_item};
ghost use Rattle.flow_rules.specs.Signals.{items_of};

use crate::answer::Answer;
use crate::item::Item;
use crate::listener::Listener;
use crate::refusal::NoMemory;
use crate::signal::{Fault, Signal};
use crate::subscriber::Subscriber;
use crate::told::Told;
use std::alloc::Global;
use std::marker::Model;

/// Where a collector fails.
#[derive(Clone, Copy, Debug)]
pub struct Failing {
    /// Which item's callback fails, counted from 1.
    pub item: u64,
    /// The code that it fails with.
    pub code: u32,
}

/// A subscriber that keeps what it is told. It grows with each signal, and a growth may be refused.
#[derive(Debug, Drop)]
pub struct Collector {
    told: Vec<Signal>,
    /// What it replied, for clauses alone.
    replied: Told,
    /// How many items it was told.
    items: u64,
    requests: Option<i64>,
    fails: Option<Failing>,
}

impl Model for Collector {
    ghost use Rattle.std.specs.Prelude.{◌≡◌, length, min, ◌-◌, ◌^◌};
    ghost use Rattle.flow_rules.specs.Collected.{Collected};
    ghost use Rattle.flow_rules.specs.Signals.{items_of};

    ghost Value = { Collected };

    ghost view = { λ c. record {
      told = c.told.items;
      replied = c.replied.replies;
      requests = c.requests;
      fails = c.fails;
    } };

    ghost invariant = { λ c. c.items ≡ min (length (items_of c.told.items)) (2 ^ 64 - 1) };
}

impl Collector {
    ghost use Rattle.flow_rules.specs.Collected.{answer_to, positive};
    ghost use Rattle.flow_rules.specs.declared.answer.Answer.TheVariants.{Go};
    ghost use Rattle.flow_rules.specs.declared.signal.Signal.TheVariants.{Subscribed, Next};

    /// Makes a collector that was told nothing and requests nothing. It takes no memory until it is told something.
    pub fn new(alloc: Global) -> Collector
        ensures untold { (result.told ≡ []) × (result.replied ≡ []) }
        ensures steady { (result.requests ≡ None) × (result.fails ≡ None) }
    {
        Collector::with(alloc, None, None)
    }

    /// Makes a collector that was told nothing and requests n items when it is subscribed. It takes no memory until it
    /// is told something.
    pub fn asking(alloc: Global, n: i64) -> Collector
        ensures untold { (result.told ≡ []) × (result.replied ≡ []) }
        ensures asks { (result.requests ≡ Some n) × (result.fails ≡ None) }
    {
        Collector::with(alloc, Some(n), None)
    }

    /// Makes a collector that was told nothing, requests n items when it is subscribed, if n is positive, and fails
    /// with this code at the item of this number, counted from 1. With the number 0 it never fails. It takes no memory
    /// until it is told something.
    pub fn failing(alloc: Global, n: i64, item: u64, code: u32) -> Collector
        ensures untold { (result.told ≡ []) × (result.replied ≡ []) }
        ensures asks { result.requests ≡ positive n }
        ensures fails { result.fails ≡ Some (record { item = item; code = code }) }
    {
        let requests = if n > 0 { Some(n) } else { None };
        Collector::with(alloc, requests, Some(Failing { item, code }))
    }

    /// A collector that was told nothing, with this request and this failure.
    fn with(alloc: Global, requests: Option<i64>, fails: Option<Failing>) -> Collector
        ensures { result ≡ record { told = []; replied = []; requests = requests; fails = fails } }
    {
        Collector {
            told: Vec::new(alloc),
            replied: Told::new(),
            items: 0,
            requests,
            fails,
        }
    }

    /// Keeps `onSubscribe`. It answers `Request(n)` if it asks for n items, and `Go` otherwise. If the growth is
    /// refused, it keeps nothing.
    #[tactic(auto, using(crate::proofs::Items::subscribed_no_item))]
    fn hear_first(&mut self) -> Result<Answer, NoMemory>
        ensures ok { IfOk result (λ answer. self.new ≡ record self.old
            { told = self.old.told ++ Subscribed ∷ []; replied = self.old.replied ++ Ok answer ∷ [] }) }
        ensures answer { IfOk result (λ answer. answer ≡ answer_to Subscribed self.old) }
        ensures unchanged { OnErr result (self.new ≡ record self.old
            { replied = self.old.replied ++ refused ∷ [] }) }
    {
        let answer = match self.requests {
            Some(n) => Answer::Request(n),
            None => Answer::Go,
        };
        match self.told.push(Signal::Subscribed) {
            Ok(()) => Ok(self.replied.reply(answer)),
            Err(_) => Err(self.replied.refuse()),
        }
    }

    /// Keeps a terminal signal, and answers `Go`. If the growth is refused, it keeps nothing.
    #[tactic(auto, using(crate::proofs::Items::other_no_item))]
    fn hear_last(&mut self, signal: Signal) -> Result<Answer, NoMemory>
        requires { items_of (signal ∷ []) ≡ [] }
        ensures ok { OnOk result (self.new ≡ record self.old
            { told = self.old.told ++ signal ∷ []; replied = self.old.replied ++ Ok Go ∷ [] }) }
        ensures answer { IfOk result (λ answer. answer ≡ Go) }
        ensures unchanged { OnErr result (self.new ≡ record self.old
            { replied = self.old.replied ++ refused ∷ [] }) }
    {
        match self.told.push(signal) {
            Ok(()) => Ok(self.replied.reply(Answer::Go)),
            Err(_) => Err(self.replied.refuse()),
        }
    }

    /// Keeps one more item. It answers `Fail` to the item at which it fails, and `Go` otherwise. If the growth is
    /// refused, it keeps nothing.
    #[tactic(auto, using(crate::proofs::Items::one_item_more))]
    fn hear_item(&mut self, item: &Item) -> Result<Answer, NoMemory>
        ensures ok { IfOk result (λ answer. self.new ≡ record self.old
            { told = self.old.told ++ Next item.now ∷ []; replied = self.old.replied ++ Ok answer ∷ [] }) }
        ensures answer { IfOk result (λ answer. answer ≡ answer_to (Next item.now) self.old) }
        ensures unchanged { OnErr result (self.new ≡ record self.old
            { replied = self.old.replied ++ refused ∷ [] }) }
    {
        let Ok(item) = item.share() else {
            return Err(self.replied.refuse());
        };
        let answer = answer_to_item(self.fails, self.items);
        match self.told.push(Signal::Next(item)) {
            Ok(()) => {
                self.items = self.items.saturating_add(1);
                Ok(self.replied.reply(answer))
            }
            Err(_) => Err(self.replied.refuse()),
        }
    }
}

/// What a collector that fails there, or never, answers to the item that comes after this many.
fn answer_to_item(fails: Option<Failing>, before: u64) -> Answer
    ensures { result ≡ answer_to_item fails before }
{
    match fails {
        Some(failing) if before < failing.item && failing.item - before == 1 => {
            Answer::Fail(failing.code)
        }
        _ => Answer::Go,
    }
}

impl Subscriber for Collector {
    ghost use Rattle.std.specs.Prelude.{◌&&◌, is_none};

    ghost told = { λ c. c.told };

    ghost is_steady = { λ c. is_none c.requests && is_none c.fails };

    fn told(&self) -> &[Signal] {
        self.told.as_slice()
    }

    fn steady(&self) -> bool {
        self.requests.is_none() && self.fails.is_none()
    }

    fn on_subscribe(&mut self) -> Result<Answer, NoMemory> {
        self.hear_first()
    }

    fn on_next(&mut self, item: &Item) -> Result<Answer, NoMemory> {
        self.hear_item(item)
    }

    fn on_error(&mut self, fault: Fault) -> Result<Answer, NoMemory> {
        self.hear_last(Signal::Error(fault))
    }

    fn on_complete(&mut self) -> Result<Answer, NoMemory> {
        self.hear_last(Signal::Complete)
    }
}

impl Listener for Collector {
    ghost use Rattle.std.specs.Prelude.{◌&&◌, is_none};

    ghost told = { λ c. c.told };

    ghost replied = { λ c. c.replied };

    ghost is_steady = { λ c. is_none c.requests && is_none c.fails };

    fn on_subscribe(&mut self) -> Result<Answer, NoMemory> {
        self.hear_first()
    }

    fn on_next(&mut self, item: &Item) -> Result<Answer, NoMemory> {
        self.hear_item(item)
    }

    fn on_error(&mut self, fault: Fault) -> Result<Answer, NoMemory> {
        self.hear_last(Signal::Error(fault))
    }

    fn on_complete(&mut self) -> Result<Answer, NoMemory> {
        self.hear_last(Signal::Complete)
    }
}
