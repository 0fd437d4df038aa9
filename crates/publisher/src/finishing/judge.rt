//! The answer of a publisher's end: which refusal comes first, and Ok if none does.
//!
//! What is left is given whatever the answer is. Nothing is closed or taken out here but by `close`.
ghost use Rattle.std.specs.Prelude.{◌≡◌, ◌<◌, ◌≤◌, ◌++◌, [], ◌∷◌, IsPermutation, if◌then◌else◌, length, vec_capacity};
ghost use Rattle.publisher.specs.Finishing.{HasRoomFor};
ghost use Rattle.publisher.specs.Leaving.{Concludes};
ghost use Rattle.publisher.specs.Outcome.{AreInOrder, Judges, is_undone};

use super::close::{Left, close_all};
use super::find::Found;
use super::room::Room;
use crate::outcome::{NamedLane, Outcome};
use crate::refused::Refused;
use flow_rules::{FailHandler, Listener, Name, Refusal};

/// What stood behind the lock of a publisher at its end.
#[derive(Drop)]
pub struct Books<B: Listener> {
    /// What was found at each number, rising.
    pub founds: Vec<Found<B>>,
    /// The room for what is left of them.
    pub room: Room<B>,
    /// How many subscriptions there ever were, and how many of them were reclaimed.
    pub made: u64,
    pub reclaimed: u64,
    /// How many items were published.
    pub published: u64,
    /// Whether the last ticket was spent.
    pub drained: bool,
    /// Whether the publisher is closed, as its lock or a submitter knows.
    pub is_closed: bool,
    /// The name of the first submitter that was not handed in.
    pub missing: Option<Name>,
}

impl<B: Listener> Books<B> {
    /// Closes each subscription, and judges what is left, with the handler.
    pub(crate) fn conclude<F: FailHandler>(
        self,
        handler: Option<F>,
    ) -> Result<Outcome<B, F>, Refused<Outcome<B, F>>>
        requires room { HasRoomFor (length self.founds.items) self.room }
        requires few { length self.founds.items < 4294967296 }
        ensures { Concludes B.told B.replied self result }
    {
        let Books {
            founds,
            room,
            made,
            reclaimed,
            published,
            drained,
            is_closed,
            missing,
        } = self;
        let Room {
            lanes,
            held,
            unsettled,
        } = room;
        let Left {
            mut lanes,
            held,
            first,
        } = close_all(founds, lanes, held);
        put_in_order(&mut lanes);
        let outcome = Outcome {
            lanes,
            held,
            reclaimed,
            made,
            published,
            drained,
            handler,
        };
        match first.or(missing) {
            Some(name) => Err(Refused {
                refusal: Refusal::StillHeld(name),
                back: outcome,
            }),
            None => judge(outcome, is_closed, unsettled),
        }
    }
}

/// Puts lanes in the order in which they were subscribed. They come by their numbers, of which a later subscription may
/// have an earlier one's that was reclaimed.
fn put_in_order<B>(lanes: &mut Vec<NamedLane<B>>)
    ensures same { IsPermutation lanes.old.items lanes.new.items }
    ensures ordered { AreInOrder lanes.new.items }
    ensures length { length lanes.new.items ≡ length lanes.old.items }
    ensures capacity { vec_capacity lanes.new ≡ vec_capacity lanes.old }
{
    lanes.sort_unstable_by_key(|left| left.made_before);
}

/// Refuses what is left if a subscription runs, or is closed and has not ended, and names these.
fn judge<B, F: FailHandler>(
    outcome: Outcome<B, F>,
    is_closed: bool,
    mut unsettled: Vec<Name>,
) -> Result<Outcome<B, F>, Refused<Outcome<B, F>>>
    requires empty { unsettled.items ≡ [] }
    requires room { length outcome.lanes.items ≤ vec_capacity unsettled }
    ensures { Judges outcome is_closed result }
{
    for left in outcome.lanes.iter() {
        push_if(&mut unsettled, left.name, is_unsettled(left, is_closed));
    }
    if unsettled.is_empty() {
        Ok(outcome)
    } else {
        Err(Refused {
            refusal: Refusal::Unsettled(unsettled),
            back: outcome,
        })
    }
}

/// Tells whether a subscription runs, or is closed and has not ended.
fn is_unsettled<B>(left: &NamedLane<B>, is_closed: bool) -> bool
    ensures { result ≡ is_undone is_closed left.now }
{
    left.lane.running || (is_closed && left.lane.ending.is_none())
}

/// Adds a name if it is one of these.
fn push_if(names: &mut Vec<Name>, name: Name, is_one: bool)
    requires { length names.old.items < vec_capacity names.old }
    ensures items { names.new.items ≡ names.old.items ++ (if is_one then name ∷ [] else []) }
    ensures capacity { vec_capacity names.new ≡ vec_capacity names.old }
{
    if is_one {
        names.push_reserved(name);
    }
}
