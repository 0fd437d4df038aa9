//! The list of the woken.
ghost use Rattle.std.specs.Prelude.{◌≡◌, ◌+◌, ◌<◌, ◌≤◌, ◌↔◌, ◌∷◌, ◌++◌, [], true, length, if◌then◌else◌, option_to_list, IfOk, IfNone};
ghost use Rattle.lines_demo.specs.Script.Session.{numbers_of};
ghost use Rattle.lines_demo.specs.Script.Subscribing.{USUAL_LIVE};

use flow_rules::NoMemory;
use publisher_hub::{USUAL_LIVE, Work};
use std::alloc::Global;
use std::collections::VecDeque;
use std::marker::Model;

/// The numbers of the subscriptions that are woken, the one whose turn is next first. It is made with room for all that
/// may be live.
#[derive(Drop)]
pub struct Woken {
    numbers: VecDeque<u32>,
}

impl Model for Woken {
    ghost use Rattle.std.specs.Prelude.{◌≤◌, List, ℕ};
    ghost use Rattle.std.specs.VecDeque.{deque_capacity};
    ghost use Rattle.lines_demo.specs.Script.Subscribing.{USUAL_LIVE};

    ghost Value = { List ℕ };

    ghost view = { λ w. w.numbers.items };

    ghost invariant = { λ w. USUAL_LIVE ≤ deque_capacity w.numbers };
}

impl Woken {
    /// Nobody, with room for all that may be live.
    pub fn new(alloc: Global) -> Result<Woken, NoMemory>
        ensures { IfOk result (λ woken. woken ≡ []) }
    {
        Ok(Woken {
            numbers: VecDeque::with_capacity(alloc, USUAL_LIVE)?,
        })
    }

    /// The subscription of this number is woken, after all others.
    pub fn push(&mut self, number: u32)
        requires room { length self.old < USUAL_LIVE }
        ensures { self.new ≡ self.old ++ number ∷ [] }
    {
        self.numbers.push_back_reserved(number);
    }

    /// The subscription of this number is woken, after all others, if its task was started.
    pub fn push_if(&mut self, number: u32, is_started: bool)
        requires room { is_started ≡ true → length self.old < USUAL_LIVE }
        ensures { self.new ≡ self.old ++ (if is_started then number ∷ [] else []) }
    {
        if is_started {
            self.push(number);
        }
    }

    /// The subscriptions whose tasks are due are woken, after all others. Nothing is due then.
    pub fn push_all(&mut self, due: &mut Vec<Work<()>>)
        requires room { length self.old + length due.old.items ≤ USUAL_LIVE }
        ensures woken { self.new ≡ self.old ++ numbers_of due.old.items }
        ensures nothing_due { due.new.items ≡ [] }
    {
        for work in due.as_slice() {
            self.push(work.entry);
        }
        due.clear();
    }

    /// Takes the one whose turn is next, if anybody is woken.
    pub fn pop(&mut self) -> Option<u32>
        ensures first { self.old ≡ option_to_list result ++ self.new }
        ensures nobody { IfNone result (self.old ≡ []) }
    {
        self.numbers.pop_front()
    }

    /// Whether nobody is woken.
    pub fn is_empty(&self) -> bool
        ensures { (result ≡ true) ↔ (self.now ≡ []) }
    {
        self.numbers.is_empty()
    }
}
