//! What a subscriber was told and what it replied, as lists that only clauses read.
ghost use Rattle.std.specs.Prelude.{◌≡◌, Ok};
ghost use Rattle.flow_rules.specs.Callback.{Heard, heard_nothing, heard_more, heard_last, heard_reply, heard_refused};
ghost use Rattle.flow_rules.specs.declared.answer.Answer.TheVariants.{Go};
ghost use Rattle.flow_rules.specs.declared.signal.Signal.TheVariants.{Next};

use crate::answer::Answer;
use crate::item::Item;
use crate::refusal::NoMemory;
use crate::signal::Signal;
use std::marker::Model;

/// The list of signals that a subscriber was told, and the list of what its callbacks came back with. It has no bytes:
/// it is there for the proof, and nothing can read it when the program runs.
///
/// A [`Listener`](crate::Listener) contains one, and each of its callbacks adds its own signal with its answer, or that
/// it was refused memory. One that keeps its signals itself adds its answers alone.
#[derive(Debug, Drop)]
pub struct Told {
    ghost heard: { Heard },
}

impl Model for Told {
    ghost use base.Fml.{ftrue};
    ghost use Rattle.flow_rules.specs.Callback.{Heard};

    ghost Value = { Heard };

    ghost view = { λ t. t.heard };

    ghost also_owns = { λ _. ftrue };
}

// It owns nothing, so it may go to another thread.
unsafe impl Send for Told {}

/// How the two lists are read off a value.
pub(crate) trait Reads<X> {
    ghost heard: { X → Heard };
}

/// Reads two empty lists.
struct Nothing;

impl Reads<()> for Nothing {
    ghost heard = { λ _. heard_nothing };
}

/// The lists, and a signal after them with its answer.
#[derive(Drop)]
struct Grown<'a> {
    told: &'a Told,
    signal: &'a Signal,
    answer: Answer,
}

/// Reads the lists and what comes after them.
struct Both;

impl Reads<Grown<'_>> for Both {
    ghost heard = { λ grown. heard_more grown.signal.now grown.answer grown.told.now };
}

/// The lists, and the `onNext` of an item after them with its answer.
#[derive(Drop)]
struct GrownByItem<'a> {
    told: &'a Told,
    item: &'a Item,
    answer: Answer,
}

impl Reads<GrownByItem<'_>> for Both {
    ghost heard = { λ grown. heard_more (Next grown.item.now) grown.answer grown.told.now };
}

/// The lists, and a terminal signal after them, whose answer is not obeyed.
#[derive(Drop)]
struct Ended<'a> {
    told: &'a Told,
    signal: &'a Signal,
}

impl Reads<Ended<'_>> for Both {
    ghost heard = { λ ended. heard_last ended.signal.now ended.told.now };
}

/// The lists, and an answer after them whose signal is kept elsewhere.
#[derive(Drop)]
struct Replied<'a> {
    told: &'a Told,
    answer: Answer,
}

impl Reads<Replied<'_>> for Both {
    ghost heard = { λ replied. heard_reply (Ok replied.answer) replied.told.now };
}

/// The lists, and a callback after them that was refused memory.
#[derive(Drop)]
struct Refused<'a> {
    told: &'a Told,
}

impl Reads<Refused<'_>> for Both {
    ghost heard = { λ refused. heard_refused refused.told.now };
}

impl Told {
    /// Nothing.
    pub fn new() -> Told
        ensures { result ≡ heard_nothing }
    {
        Told::of::<(), Nothing>(&())
    }

    /// One signal more, which is answered so. Answers the answer.
    pub fn tell(&mut self, signal: &Signal, answer: Answer) -> Answer
        ensures answer { result ≡ answer }
        ensures heard { self.new ≡ heard_more signal.now answer self.old }
    {
        *self = Told::of::<Grown<'_>, Both>(&Grown {
            told: self,
            signal,
            answer,
        });
        answer
    }

    /// The `onNext` of this item more, which is answered so. Answers the answer.
    pub fn tell_next(&mut self, item: &Item, answer: Answer) -> Answer
        ensures answer { result ≡ answer }
        ensures heard { self.new ≡ heard_more (Next item.now) answer self.old }
    {
        *self = Told::of::<GrownByItem<'_>, Both>(&GrownByItem {
            told: self,
            item,
            answer,
        });
        answer
    }

    /// A terminal signal more. It answers `Go`, since what is answered to that is not obeyed.
    pub fn tell_last(&mut self, signal: &Signal) -> Answer
        ensures answer { result ≡ Go }
        ensures heard { self.new ≡ heard_last signal.now self.old }
    {
        *self = Told::of::<Ended<'_>, Both>(&Ended { told: self, signal });
        Answer::Go
    }

    /// One answer more, for a subscriber that keeps the signal itself. Answers the answer.
    pub fn reply(&mut self, answer: Answer) -> Answer
        ensures answer { result ≡ answer }
        ensures heard { self.new ≡ heard_reply (Ok answer) self.old }
    {
        *self = Told::of::<Replied<'_>, Both>(&Replied { told: self, answer });
        answer
    }

    /// A callback that was refused memory, which was told nothing.
    pub fn refuse(&mut self) -> NoMemory
        ensures heard { self.new ≡ heard_refused self.old }
    {
        *self = Told::of::<Refused<'_>, Both>(&Refused { told: self });
        NoMemory
    }

    /// The lists that are read off a value.
    fn of<X, M: Reads<X>>(value: &X) -> Told
        ensures { result ≡ M.heard value.now }
    {
        let _ = value;
        Told {}
    }
}

impl Default for Told {
    ghost is_default = { λ told. told ≡ heard_nothing };

    fn default() -> Told {
        Told::new()
    }
}
