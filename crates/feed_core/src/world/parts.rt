//! What there is of a subscription between two steps.
use crate::cause::Causes;
use flow_rules::How;

/// What the producer is in the middle of.
#[derive(Clone, Copy, Debug, PartialEq, Eq)]
pub enum Producing {
    /// Nothing.
    Free,
    /// Its last look found room for an item.
    HasRoom,
    /// It has put an item, and has not signalled yet.
    HasPut,
    /// Its signal started the task, and it has not handed that over yet.
    Hands,
}

/// What the handle is in the middle of.
#[derive(Clone, Copy, Debug, PartialEq, Eq)]
pub enum Requesting {
    /// Nothing.
    Idle,
    /// It has stored a request, and has not signalled yet.
    HasAsked,
    /// Its signal started the task, and it has not handed that over yet.
    HandsOver,
}

/// Where the task of the subscription stands.
#[derive(Clone, Copy, Debug, PartialEq, Eq)]
pub enum Runner {
    /// It is at rest: nobody runs it.
    Nobody,
    /// A signal started it, and it was not handed over yet.
    Coming,
    /// It was never run.
    Fresh,
    /// It may look.
    Ready,
    /// It has looked: the causes that it saw.
    Looked(Causes),
    /// It has seen, after its look, how many items were put.
    Saw(Causes, u64),
    /// It has seen, after that, how many items were requested.
    Measured(Causes, u64, u64),
    /// It has taken an item, for `onNext`.
    Taken,
    /// The subscription has ended, in this way.
    Over(How),
}

/// All that there is of a subscription that was made.
#[derive(Clone, Copy, Debug, PartialEq, Eq)]
pub struct Parts {
    /// The capacity of its buffer.
    pub capacity: usize,
    /// How many items were put.
    pub accepted: u64,
    /// How many of them were taken.
    pub given: u64,
    /// How many items the handle has requested.
    pub asked: u64,
    /// How many items the answers of callbacks have requested.
    pub own: u64,
    /// Why it may end.
    pub causes: Causes,
    /// Whether a signal was made since the runner's last look.
    pub active: bool,
    /// What the producer is in the middle of.
    pub producer: Producing,
    /// What the handle is in the middle of.
    pub handle: Requesting,
    /// Where its task stands.
    pub runner: Runner,
    /// How many items were put, as far as the runner's last load of that showed.
    pub known_put: u64,
    /// How many items the handle has requested, as far as the runner's last load of that showed.
    pub known_asked: u64,
}
