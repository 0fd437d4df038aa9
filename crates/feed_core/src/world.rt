//! One subscription over all interleavings.
//!
//! A subscription that threads share has three parties. The **producer** puts items into the buffer, and closes it. The
//! **handle** is the owner's: it requests items, and cancels. The **runner** is whoever runs the subscription's task:
//! it takes items and tells the subscriber. None of them waits for another. They share a few words, and each of their
//! steps loads, stores or changes one of these: how many items were put, how many were taken, how many were requested,
//! and a word with two marks and the causes of an end.
//!
//! An [`Event`] is one such step, and a [`World`] is what there is between two steps. Whatever threads do, their steps
//! come in some order. So what holds after *every* list of events ([`all_runs`]) holds under every schedule, and a
//! subscription that threads share has to show one thing alone: that each of its steps is an event here.
//!
//! **Waking.** The first mark says that the task was started: then the runner is anything but [`Runner::Nobody`]. The
//! second, `active`, says that something is new. Who has put an item, or stored a request, or has a cause, *signals*:
//! that sets both marks in one step, and shows what the first one was. If it was clear, this very signal started the
//! task, and its side hands the task over. So two tasks never serve one subscription.
//!
//! **Looking.** The runner looks before all else: in one step it clears the second mark and learns the causes. Then it
//! loads how many items were put, and then how many were requested. If an item waits and was requested, it takes
//! that and tells it, and looks again. If there is nothing to do it rests: in one step it clears the first mark,
//! unless the second was set since its look. An item that came after the runner had counted is signalled after the
//! look, so either that step fails or the signal comes after it and starts the task. Hence nothing is forgotten
//! ([`worlds_at_rest_forget_nothing`]).
//!
//! **Peeking.** A peek shows the causes as a look does, and leaves the second mark, so it is only a load. A runner may
//! peek in place of each look. But if the mark was set it can't rest then: it looks, and counts once more, before it
//! does.
//!
//! **Ending.** A closing is signalled after the last put. The runner counts the items after the look that showed it a
//! completion, or an error that waits for the items, so it has counted all of them, and tells that end only when these
//! were given. A cancel is seen at the next look or peek, and there is one before each item: at most one more is given
//! ([`at_most_one_item_follows_an_end`]).
mod events;
mod laws;
mod parts;
mod possible;
mod reads;
mod runs;
mod steps;

pub use events::{Cause, Event, Side};
pub use laws::{at_most_one_item_follows_an_end, worlds_at_rest_forget_nothing};
pub use parts::{Parts, Producing, Requesting, Runner};
pub use runs::all_runs;
use std::marker::Model;

/// What there is of one subscription between two steps of its parties. It starts with nothing, as [`all_runs`] of no
/// events gives it, and only [`World::apply`] changes it.
#[derive(Clone, Copy, Debug, PartialEq, Eq)]
pub struct World {
    /// What there is of the subscription, once it was made.
    made: Option<Parts>,
    /// How many items were given before the first signal that ends the subscription at once, but for one that was just
    /// taken then.
    cut: Option<u64>,
}

impl Model for World {
    ghost use Rattle.feed_core.specs.World.Kept.{IsKeptIn};
    ghost use Rattle.feed_core.specs.World.Runs.{WorldState};

    ghost Value = { WorldState };

    ghost view = { λ world. record { parts = world.made; cut = world.cut } };

    ghost invariant = { λ world. IsKeptIn world.made world.cut };

    ghost inverse = { λ state. record { made = state.parts; cut = state.cut } };
}
