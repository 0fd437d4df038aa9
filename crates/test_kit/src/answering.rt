//! A listener that answers as it is asked to.
ghost use Rattle.std.specs.Prelude.{◌≡◌};
ghost use Rattle.flow_rules.specs.Callback.{heard_nothing};

use flow_rules::{Answer, Fault, Item, Listener, NoMemory, Signal, Told};
use std::marker::Model;

/// A listener that gives an answer to one callback, and `Go` to the others. It keeps nothing of what it is told.
#[derive(Drop)]
pub struct Answering {
    told: Told,
    answer: Answer,
    /// How many callbacks come before that one, if it is still to come.
    callbacks_before: Option<u32>,
}

impl Model for Answering {
    ghost use Rattle.flow_rules.specs.Callback.{Heard};

    ghost Value = { Heard };

    ghost view = { λ a. a.told };
}

impl Answering {
    /// One that was told nothing, and that gives this answer after so many callbacks.
    pub fn after(callbacks: u32, answer: Answer) -> Answering
        ensures { result ≡ heard_nothing }
    {
        Answering {
            told: Told::new(),
            answer,
            callbacks_before: Some(callbacks),
        }
    }

    /// Counts a callback, and gives its answer.
    fn answer(&mut self) -> Answer
        ensures { self.new ≡ self.old }
    {
        match self.callbacks_before {
            Some(0) => {
                self.callbacks_before = None;
                self.answer
            }
            Some(callbacks) => {
                self.callbacks_before = Some(callbacks - 1);
                Answer::Go
            }
            None => Answer::Go,
        }
    }
}

impl Listener for Answering {
    ghost use Rattle.std.specs.Prelude.{false};

    ghost told = { λ a. a.signals };

    ghost replied = { λ a. a.replies };

    ghost is_steady = { λ _. false };

    fn on_subscribe(&mut self) -> Result<Answer, NoMemory> {
        let answer = self.answer();
        Ok(self.told.tell(&Signal::Subscribed, answer))
    }

    fn on_next(&mut self, item: &Item) -> Result<Answer, NoMemory> {
        let answer = self.answer();
        Ok(self.told.tell_next(item, answer))
    }

    fn on_error(&mut self, fault: Fault) -> Result<Answer, NoMemory> {
        let answer = self.answer();
        let _ = self.told.tell_last(&Signal::Error(fault));
        Ok(answer)
    }

    fn on_complete(&mut self) -> Result<Answer, NoMemory> {
        let answer = self.answer();
        let _ = self.told.tell_last(&Signal::Complete);
        Ok(answer)
    }
}
