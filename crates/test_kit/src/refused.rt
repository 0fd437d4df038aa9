//! A listener that is refused memory at a callback.
ghost use Rattle.std.specs.Prelude.{◌≡◌, ◌+◌, ◌↔◌, [], IsErr, OnOk, OnErr};

use flow_rules::{Answer, Fault, Item, Listener, NoMemory, Told};
use std::marker::Model;

/// A listener that answers as another does, and that is refused memory from some callback on.
#[derive(Debug, Drop)]
pub struct Refused<B: Listener> {
    listener: B,
    /// What it replied, for clauses alone.
    replied: Told,
    callbacks_before: u32,
}

impl<B: Listener> Model for Refused<B> {
    ghost use Rattle.test_kit.specs.Refusing.{Refusing};

    ghost Value = { Refusing };

    ghost view = { λ r. record {
      told = B.told r.listener;
      replied = r.replied.replies;
      is_steady = B.is_steady r.listener;
      callbacks_before = r.callbacks_before;
    } };
}

impl<B: Listener> Refused<B> {
    /// Makes one that is refused memory after this many callbacks.
    pub fn after(listener: B, callbacks: u32) -> Refused<B>
        ensures { result ≡ record {
          told = B.told listener;
          replied = [];
          is_steady = B.is_steady listener;
          callbacks_before = callbacks;
        } }
    {
        Refused {
            listener,
            replied: Told::new(),
            callbacks_before: callbacks,
        }
    }

    /// Shows the listener that it answers as.
    pub fn listener(&self) -> &B
        ensures { B.told result.now ≡ self.now.told }
    {
        &self.listener
    }
}

/// Counts a callback, which is refused if none is left.
fn count(callbacks_before: &mut u32) -> Result<(), NoMemory>
    ensures refused { IsErr result ↔ (callbacks_before.old ≡ 0) }
    ensures counted { OnOk result (callbacks_before.new + 1 ≡ callbacks_before.old) }
    ensures unchanged { OnErr result (callbacks_before.new ≡ callbacks_before.old) }
{
    if *callbacks_before == 0 {
        return Err(NoMemory);
    }
    *callbacks_before -= 1;
    Ok(())
}

impl<B: Listener> Listener for Refused<B> {
    ghost told = { λ r. r.told };

    ghost replied = { λ r. r.replied };

    ghost is_steady = { λ r. r.is_steady };

    fn on_subscribe(&mut self) -> Result<Answer, NoMemory> {
        if count(&mut self.callbacks_before).is_err() {
            return Err(self.replied.refuse());
        }
        match self.listener.on_subscribe() {
            Ok(answer) => Ok(self.replied.reply(answer)),
            Err(NoMemory) => Err(self.replied.refuse()),
        }
    }

    fn on_next(&mut self, item: &Item) -> Result<Answer, NoMemory> {
        if count(&mut self.callbacks_before).is_err() {
            return Err(self.replied.refuse());
        }
        match self.listener.on_next(item) {
            Ok(answer) => Ok(self.replied.reply(answer)),
            Err(NoMemory) => Err(self.replied.refuse()),
        }
    }

    fn on_error(&mut self, fault: Fault) -> Result<Answer, NoMemory> {
        if count(&mut self.callbacks_before).is_err() {
            return Err(self.replied.refuse());
        }
        match self.listener.on_error(fault) {
            Ok(answer) => {
                let _ = self.replied.reply(Answer::Go);
                Ok(answer)
            }
            Err(NoMemory) => Err(self.replied.refuse()),
        }
    }

    fn on_complete(&mut self) -> Result<Answer, NoMemory> {
        if count(&mut self.callbacks_before).is_err() {
            return Err(self.replied.refuse());
        }
        match self.listener.on_complete() {
            Ok(answer) => {
                let _ = self.replied.reply(Answer::Go);
                Ok(answer)
            }
            Err(NoMemory) => Err(self.replied.refuse()),
        }
    }
}
