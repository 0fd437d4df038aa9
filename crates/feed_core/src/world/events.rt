//! What may happen to a subscription, a step at a time.
use flow_rules::{Answer, Ending, ErrorOrder, How};

/// Who signals: a subscription's publisher, or its owner.
#[derive(Clone, Copy, Debug, PartialEq, Eq)]
pub enum Side {
    /// The producer's end, which its publisher has.
    Producer,
    /// The handle, which the subscription's owner has (`Flow.Subscription`).
    Handle,
}

/// What a signal may say, if it tells of more than an item or a request.
#[derive(Clone, Copy, Debug, PartialEq, Eq)]
pub enum Cause {
    /// The owner cancelled the subscription.
    Cancel,
    /// The owner requested a number of items that is not positive.
    Argument,
    /// The subscriber subscribed a second time.
    State,
    /// The publisher was closed, in this way.
    Closing(Ending),
}

/// One step that one party makes on the words that they share.
#[derive(Clone, Copy, Debug, PartialEq, Eq)]
pub enum Event {
    /// The subscription is made, with a buffer of this capacity, and a closing error is told in this order.
    Make(usize, ErrorOrder),
    /// The producer looks how many items were taken, and whether the subscription has ended.
    Room,
    /// The producer stores how many items were put, one more than before.
    Put,
    /// The producer, which has put and not signalled yet, stores how many items were put, one more than before. A store
    /// of several more at once is a put and as many of these as are left.
    PutMore,
    /// The runner loads how many items were put.
    See,
    /// The runner stores how many items were taken, one more than before.
    Take,
    /// The runner stores how many items were taken, one more than before, by what it loaded before: how many items were
    /// put, and how many the handle requested.
    TakeKnown,
    /// The handle stores how many items were requested, this many more than before.
    Ask(u64),
    /// A side sets the mark of the task and the mark of something new, and adds a cause if it has one.
    Signal(Side, Option<Cause>),
    /// A side whose signal found the mark of the task clear hands the task over.
    Hand(Side),
    /// The runner clears the mark of something new, and learns the causes. It brings what the callback before it
    /// answered.
    Look(Answer),
    /// The runner learns the causes, as by a look, and leaves the mark of something new as it is. It brings what the
    /// callback before it answered.
    Peek(Answer),
    /// The runner loads how many items were requested.
    Measure,
    /// The runner clears the mark of the task, unless something is new since its look.
    Rest,
    /// The runner ends the subscription, in this way.
    End(How),
}
