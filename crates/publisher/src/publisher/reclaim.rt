//! How a publisher gives back a subscription that has ended, before its own end.
//!
//! What is taken out from behind the lock for that stands in `state`. All others are closed at the end, in `finishing`.
ghost use Rattle.std.specs.Prelude.{◌≡◌, None, IfErr, IfOk};
ghost use Rattle.feed_cell.specs.Left.{IsLeftOf};
ghost use Rattle.publisher.specs.Leaving.{IsLaneOfTaken};
ghost use Rattle.publisher.specs.Outcome.{HasOwnersPart};
ghost use Rattle.publisher.specs.Reclaiming.{IsReclaimed, IsRefusalOfReclaim};

use super::Publisher;
use crate::finishing::close::OwnersPart;
use crate::finishing::find::Taken;
use crate::ledgers::Ledgers;
use crate::outcome::NamedLane;
use crate::refused::Refused;
use crate::subscription::Subscription;
use feed_cell::{Handle, Producer, close, close_again};
use feed_core::Lane;
use flow_rules::{FailHandler, Listener};
use std::alloc::Global;
use std::sync::Wait;

impl<L: Ledgers + Send, B: Listener + Send, F: FailHandler + Send> Publisher<L, B, F> {
    /// Gives what is left of a subscription that has ended, with its subscriber, as [`finish`](crate::finish) would,
    /// and frees the rest (Reactive Streams 1.0, rule 3.13). Nothing is kept of it once a later subscription has its
    /// number. It waits for the publisher's lock.
    ///
    /// Refused, with the subscription back: 9 if it has not ended, by its name; 8 if the thread that ended it has not
    /// yet let go of it, which is a matter of a few instructions, and of the handler of failures if that hears of it
    /// (one that waits until the subscription was reclaimed waits for ever); and 5 if the memory for the list of that
    /// one name is refused. Nothing has changed then.
    pub fn reclaim<R: Wait>(
        &self,
        rt: &R,
        alloc: Global,
        subscription: Subscription<L, B, F>,
    ) -> Result<NamedLane<B>, Refused<Subscription<L, B, F>>>
        ensures lane { IfOk result (λ left. IsReclaimed B.told B.replied left) }
        ensures entry { IfOk result (λ left. left.entry ≡ subscription.entry) }
        ensures made_before { IfOk result
            (λ left. left.made_before ≡ subscription.made_before) }
        ensures owner { IfOk result (λ left. HasOwnersPart subscription.handle left.lane) }
        ensures unchanged { IfErr result (λ refused. refused.1 ≡ subscription) }
        ensures refusals { IfErr result (λ refused. IsRefusalOfReclaim refused.0) }
    {
        let (dispatcher, owner) = subscription.into_all();
        let entry = owner.entry;
        let taken = self.shared.lock(rt).reclaim(alloc, owner);
        match taken {
            Ok(taken) => Ok(close_ended(rt, entry, taken)),
            Err((refusal, owner)) => Err(Refused {
                refusal,
                back: Subscription::new(dispatcher, owner),
            }),
        }
    }
}

/// Closes a subscription that was taken out, whose number this is.
fn close_ended<B: Listener, R: Wait>(rt: &R, number: u32, taken: Taken<B>) -> NamedLane<B>
    ensures { IsLaneOfTaken B.told B.replied number taken result }
{
    let Taken {
        facts,
        late,
        producer,
        owner,
    } = taken;
    let lane = close_alone(rt, producer, owner.handle);
    NamedLane::of(number, owner.made_before, facts, late, lane)
}

/// Closes a subscription that nobody else shares. No thread has its task any more and the handle is its own, so the
/// first close gives the lane, which has its owner's part; the loop says so to the proof, which doesn't see how many
/// share it and that the ends belong together.
fn close_alone<B: Listener, R: Wait>(rt: &R, producer: Producer<B>, handle: Handle<B>) -> Lane<B>
    ensures left { IsLeftOf B.told B.replied producer.end None result }
    ensures owner { HasOwnersPart handle result }
{
    let owner = OwnersPart::of(&handle);
    let mut closed = close(producer, handle);
    for _ in rt.forever() {
        closed = match closed {
            Ok(lane) => {
                if owner.is_in(&lane) {
                    return lane;
                }
                Ok(lane)
            }
            Err(back) => close_again(back),
        };
    }
    unreachable!()
}
