//! A listener that shows what it was told when the program runs.
ghost use Rattle.std.specs.Prelude.{◌≡◌, []};

use crate::answer::Answer;
use crate::item::Item;
use crate::listener::Listener;
use crate::refusal::NoMemory;
use crate::signal::Fault;
use crate::subscriber::Subscriber;
use crate::told::Told;
use std::marker::Model;

/// A [`Subscriber`] as a [`Listener`]: the list of what it was told is the subscriber's own. What it replied is kept
/// beside it, for clauses alone.
#[derive(Debug, Drop)]
pub struct Shown<S> {
    subscriber: S,
    replied: Told,
}

impl<S> Model for Shown<S> {
    ghost use Rattle.flow_rules.specs.Showing.{Showing};

    ghost Value = { Showing S };

    ghost view = { λ shown. record {
      subscriber = shown.subscriber;
      replied = shown.replied.replies;
    } };
}

impl<S> Shown<S> {
    /// The subscriber as a listener that has replied nothing yet.
    pub fn new(subscriber: S) -> Shown<S>
        ensures subscriber { result.subscriber ≡ subscriber }
        ensures unreplied { result.replied ≡ [] }
    {
        Shown {
            subscriber,
            replied: Told::new(),
        }
    }

    /// Shows the subscriber.
    pub fn subscriber(&self) -> &S
        ensures { result.now ≡ self.now.subscriber }
    {
        &self.subscriber
    }
}

impl<S: Subscriber> Listener for Shown<S> {
    ghost told = { λ shown. S.told shown.subscriber };

    ghost replied = { λ shown. shown.replied };

    ghost is_steady = { λ shown. S.is_steady shown.subscriber };

    fn on_subscribe(&mut self) -> Result<Answer, NoMemory> {
        match self.subscriber.on_subscribe() {
            Ok(answer) => Ok(self.replied.reply(answer)),
            Err(NoMemory) => Err(self.replied.refuse()),
        }
    }

    fn on_next(&mut self, item: &Item) -> Result<Answer, NoMemory> {
        match self.subscriber.on_next(item) {
            Ok(answer) => Ok(self.replied.reply(answer)),
            Err(NoMemory) => Err(self.replied.refuse()),
        }
    }

    fn on_error(&mut self, fault: Fault) -> Result<Answer, NoMemory> {
        match self.subscriber.on_error(fault) {
            Ok(_) => Ok(self.replied.reply(Answer::Go)),
            Err(NoMemory) => Err(self.replied.refuse()),
        }
    }

    fn on_complete(&mut self) -> Result<Answer, NoMemory> {
        match self.subscriber.on_complete() {
            Ok(_) => Ok(self.replied.reply(Answer::Go)),
            Err(NoMemory) => Err(self.replied.refuse()),
        }
    }
}
