//! A listener that stops in the middle of an item until it is let go.
ghost use Rattle.std.specs.Prelude.{◌≡◌};
ghost use Rattle.flow_rules.specs.Callback.{heard_nothing};

use flow_rules::{Answer, Fault, Item, Listener, NoMemory, Signal, Told};
use std::alloc::Global;
use std::marker::Model;
use std::sync::Arc;
use std::sync::atomic::AtomicBool;
use std::sync::atomic::Ordering::SeqCst;
use std::thread;

// How often it looks whether it may go on, before it gives up.
const LOOKS: u32 = 50_000_000;

// Whether the listener has come to its item, whether it may go on, and whether it gave up before that.
#[derive(Drop)]
pub struct Gate {
    reached: AtomicBool,
    open: AtomicBool,
    missed: AtomicBool,
}

impl Gate {
    pub fn new() -> Gate {
        Gate {
            reached: AtomicBool::new(false),
            open: AtomicBool::new(false),
            missed: AtomicBool::new(false),
        }
    }

    // Whether the listener is there.
    pub fn is_reached(&self) -> bool {
        self.reached.load(SeqCst)
    }

    // Lets it go on. Whether it was still there.
    pub fn let_go(&self) -> bool {
        self.open.store(true, SeqCst);
        !self.missed.load(SeqCst)
    }

    // Waits to be let go.
    fn wait(&self) {
        self.reached.store(true, SeqCst);
        for _ in 0..LOOKS {
            if self.open.load(SeqCst) {
                return;
            }
            thread::yield_now();
        }
        self.missed.store(true, SeqCst);
    }
}

// A listener that answers `Go`, and waits at the gate in the middle of one item. It keeps nothing of what it is told.
#[derive(Drop)]
pub struct Pausing {
    told: Told,
    gate: Arc<Gate, Global>,
    // How many items come before that one, if it is still to come.
    items_before: Option<u32>,
}

impl Model for Pausing {
    ghost use Rattle.flow_rules.specs.Callback.{Heard};

    ghost Value = { Heard };

    ghost view = { λ p. p.told };
}

impl Pausing {
    // One that was told nothing, and waits at this gate in the middle of its second item.
    pub fn at_the_second(gate: Arc<Gate, Global>) -> Pausing
        ensures { result ≡ heard_nothing }
    {
        Pausing {
            told: Told::new(),
            gate,
            items_before: Some(1),
        }
    }

    // Counts an item, and waits if it is the one.
    fn pause(&mut self)
        ensures { self.new ≡ self.old }
    {
        match self.items_before {
            Some(0) => {
                self.items_before = None;
                self.gate.wait();
            }
            Some(items) => self.items_before = Some(items - 1),
            None => (),
        }
    }
}

impl Listener for Pausing {
    ghost use Rattle.std.specs.Prelude.{false};

    ghost told = { λ p. p.signals };

    ghost replied = { λ p. p.replies };

    ghost is_steady = { λ _. false };

    fn on_subscribe(&mut self) -> Result<Answer, NoMemory> {
        Ok(self.told.tell(&Signal::Subscribed, Answer::Go))
    }

    fn on_next(&mut self, item: &Item) -> Result<Answer, NoMemory> {
        self.pause();
        Ok(self.told.tell_next(item, Answer::Go))
    }

    fn on_error(&mut self, fault: Fault) -> Result<Answer, NoMemory> {
        Ok(self.told.tell_last(&Signal::Error(fault)))
    }

    fn on_complete(&mut self) -> Result<Answer, NoMemory> {
        Ok(self.told.tell_last(&Signal::Complete))
    }
}
