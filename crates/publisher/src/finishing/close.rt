//! How the two ends of each subscription are closed, outside the lock, which leaves its lane.
//!
//! Whether what is left may be answered with Ok is not asked here, but in `judge`.
ghost use Rattle.std.specs.Prelude.{◌≡◌, ◌<◌, ◌≤◌, [], length, true, vec_capacity};
ghost use Rattle.publisher.specs.Leaving.{ClosesAll, ClosesOne};

use super::find::{Found, Taken};
use crate::outcome::NamedLane;
use crate::owner::OwnersEnd;
use feed_cell::{Handle, close};
use feed_core::Lane;
use flow_rules::{Listener, Name};

/// What is left of the subscriptions that were closed.
#[derive(Drop)]
pub struct Left<B> {
    /// The lane of each that has one, in order.
    pub lanes: Vec<NamedLane<B>>,
    /// The numbers of those that a thread holds still.
    pub held: Vec<u32>,
    /// The name of the first that has no lane and was not reclaimed.
    pub first: Option<Name>,
}

/// Closes each subscription of which both ends are there.
pub fn close_all<B: Listener>(
    founds: Vec<Found<B>>,
    mut lanes: Vec<NamedLane<B>>,
    mut held: Vec<u32>,
) -> Left<B>
    requires empty { (lanes.items ≡ []) × (held.items ≡ []) }
    requires room { (length founds.items ≤ vec_capacity lanes)
        × (length founds.items ≤ vec_capacity held) }
    requires few { length founds.items < 4294967296 }
    ensures { ClosesAll B.told B.replied founds.items (length founds.items) result.lanes.items
        result.held.items result.first }
{
    let mut first = None;
    let mut number = 0;
    for found in founds {
        match close_one(number, found) {
            Closed::Lane(left) => lanes.push_reserved(left),
            Closed::Held(name) => {
                held.push_reserved(number);
                first = first.or(Some(name));
            }
            Closed::Missing(name) => first = first.or(Some(name)),
            Closed::Reclaimed => {}
        }
        number += 1;
    }
    Left { lanes, held, first }
}

/// What becomes of a subscription that is closed.
enum Closed<B> {
    /// Its lane.
    Lane(NamedLane<B>),
    /// A thread has its task still.
    Held(Name),
    /// Its owner's end was not handed in.
    Missing(Name),
    /// It was reclaimed before.
    Reclaimed,
}

/// Closes the subscription of this number. The handle is the one that was made with the producer's end, so the lane
/// has its owner's part; the comparison says so to the proof, which doesn't see that the two ends belong together.
fn close_one<B: Listener>(number: u32, found: Found<B>) -> Closed<B>
    ensures { ClosesOne B.told B.replied number found result }
{
    let taken = match found {
        Found::Both(taken) => taken,
        Found::Missing(name) => return Closed::Missing(name),
        Found::Reclaimed => return Closed::Reclaimed,
    };
    let Taken {
        facts,
        late,
        producer,
        owner,
    } = taken;
    let OwnersEnd {
        made_before,
        handle,
        ..
    } = owner;
    let part = OwnersPart::of(&handle);
    let Ok(lane) = close(producer, handle) else {
        return Closed::Held(facts.name);
    };
    if !part.is_in(&lane) {
        return Closed::Held(facts.name);
    }
    Closed::Lane(NamedLane::of(number, made_before, facts, late, lane))
}

/// What the owner of a subscription did with its handle.
#[derive(Clone, Copy)]
pub struct OwnersPart {
    /// How many items it requested, saturated.
    requested: u64,
    cancelled: bool,
}

impl OwnersPart {
    /// Tells what was done with this handle.
    pub fn of<B: Listener>(handle: &Handle<B>) -> OwnersPart
        ensures requested { result.requested ≡ handle.now.asked }
        ensures cancelled { result.cancelled ≡ handle.now.cancelled }
    {
        OwnersPart {
            requested: handle.requested(),
            cancelled: handle.has_cancelled(),
        }
    }

    /// Tells whether a lane says this of the owner of its subscription.
    pub fn is_in<B>(&self, lane: &Lane<B>) -> bool
        ensures { result ≡ true → (lane.now.requested ≡ self.now.requested)
            × (lane.now.cancelled ≡ self.now.cancelled) }
    {
        lane.requested == self.requested && lane.cancelled == self.cancelled
    }
}
