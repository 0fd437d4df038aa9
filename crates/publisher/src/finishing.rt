//! The end of a publisher: what is handed in, and what is left of it.
//!
//! It is made in three passes, after the workers have ended. The first two hold the lock, once. The first takes all the
//! memory (`room`), so that a refusal comes before anything is taken out: no later pass can fail halfway, with some
//! subscribers in hand and others behind the lock. The second brings the two ends of each subscription together
//! (`find`). Subscriptions are handed in in any order, so their list is emptied from its end, and each owner's end laid
//! at the place of its number; these places are gone over from the front. The third closes each pair of ends (`close`),
//! outside the lock since that drops what the buffers hold still, puts the lanes in the order of subscription, and then
//! chooses the answer (`judge`).
pub(crate) mod close;
pub(crate) mod find;
pub(crate) mod judge;
pub(crate) mod room;

ghost use Rattle.std.specs.Prelude.{◌≡◌, [], IfErr, IfOk};
ghost use Rattle.flow_rules.specs.declared.refusal.Refusal.TheVariants as Refusal;
ghost use Rattle.publisher.specs.Outcome.{AreHandedIn, AreReclaimed, HasNoLane, IfRefused, IsOutcome, IsRefusalOfFinish, LacksOne, LeavesAllDone, LeavesUndone, outcome_of};

use crate::ledgers::Ledgers;
use crate::outcome::Outcome;
use crate::publisher::Publisher;
use crate::refused::Refused;
use crate::submitter::Submitter;
use crate::subscription::Subscription;
use flow_rules::{FailHandler, LastFailure, Listener, Refusal};
use std::alloc::Global;
use std::sync::Wait;

/// What belongs to a publisher and goes back to it at its end. A function that subscribes and publishes fills it, also
/// if it returns early, and [`finish`](crate::finish) takes what is in it.
#[derive(Debug, Drop)]
pub struct HandedIn<L: Ledgers + Send, B: Listener + Send, F: FailHandler + Send = LastFailure> {
    /// Submitters, in any order.
    pub submitters: Vec<Submitter<L, B, F>>,
    /// Subscriptions, in any order.
    pub subscriptions: Vec<Subscription<L, B, F>>,
}

impl<L: Ledgers + Send, B: Listener + Send, F: FailHandler + Send> HandedIn<L, B, F> {
    /// Makes one with nothing in it. It takes no memory.
    pub fn none(alloc: Global) -> HandedIn<L, B, F>
        ensures submitters { result.submitters.items ≡ [] }
        ensures subscriptions { result.subscriptions.items ≡ [] }
    {
        HandedIn {
            submitters: Vec::new(alloc),
            subscriptions: Vec::new(alloc),
        }
    }

    /// Ends the publisher to which all this belongs, as [`finish`](crate::finish) does.
    pub fn finish<R: Wait>(
        self,
        rt: &R,
        alloc: Global,
        publisher: Publisher<L, B, F>,
    ) -> Result<Outcome<B, F>, Refused<Outcome<B, F>>>
        ensures outcome { IsOutcome B.told B.replied self.submitters.items (outcome_of result) }
        ensures handed { AreHandedIn self.subscriptions.items (outcome_of result).lanes.items }
        ensures reclaimed { AreReclaimed (outcome_of result) }
        ensures ok { IfOk result (LeavesAllDone self.submitters.items self.subscriptions.items) }
        ensures no_memory { IfRefused Refusal.NoMemory result HasNoLane }
        ensures held { (name : _) → IfRefused (Refusal.StillHeld name) result
            (LacksOne self.submitters.items self.subscriptions.items name) }
        ensures unsettled { (names : _) → IfRefused (Refusal.Unsettled names) result
            (LeavesUndone self.submitters.items self.subscriptions.items names.items) }
        ensures refusals { IfErr result (λ refused. IsRefusalOfFinish refused.0) }
    {
        let HandedIn {
            submitters,
            subscriptions,
        } = self;
        finish(rt, alloc, publisher, submitters, subscriptions)
    }
}

/// Ends a publisher's workers, and gives what is left of each subscription that is handed in, with its subscriber.
/// Nothing is closed by that: a publisher that is to tell its subscribers of the end is closed before. It doesn't wait
/// for demand to come.
///
/// One that was reclaimed before has no lane, and nothing asks for it; it is counted in `reclaimed`.
///
/// The handler of failures, if the publisher has one, is in what is left; it hears of no failure from then on.
///
/// Refused 5 if a growth is refused, and no lane is left then; 8 if a subscription or a submitter is missing, by the
/// name of the first, or if a thread is still in the middle of a turn of a subscription, which is `held` then; and 9
/// if a subscription runs, or is closed and has not ended, by the names of these. The rest is given nevertheless.
pub fn finish<L: Ledgers + Send, B: Listener + Send, F: FailHandler + Send, R: Wait>(
    rt: &R,
    alloc: Global,
    publisher: Publisher<L, B, F>,
    submitters: Vec<Submitter<L, B, F>>,
    subscriptions: Vec<Subscription<L, B, F>>,
) -> Result<Outcome<B, F>, Refused<Outcome<B, F>>>

    // What each subscriber was told, and which of the submitters' texts that is, whatever the threads did and whatever
    // the answer.
    ensures outcome { IsOutcome B.told B.replied submitters.items (outcome_of result) }

    // Of which subscriptions.
    ensures handed { AreHandedIn subscriptions.items (outcome_of result).lanes.items }
    ensures reclaimed { AreReclaimed (outcome_of result) }

    // What each answer says of what is left.
    ensures ok { IfOk result (LeavesAllDone submitters.items subscriptions.items) }
    ensures no_memory { IfRefused Refusal.NoMemory result HasNoLane }
    ensures held { (name : _) → IfRefused (Refusal.StillHeld name) result
        (LacksOne submitters.items subscriptions.items name) }
    ensures unsettled { (names : _) → IfRefused (Refusal.Unsettled names) result
        (LeavesUndone submitters.items subscriptions.items names.items) }
    ensures refusals { IfErr result (λ refused. IsRefusalOfFinish refused.0) }
{
    publisher.stop(rt);
    let handler = publisher.shared.take_handler(rt);
    let books = publisher
        .shared
        .lock(rt)
        .take_out(alloc, submitters, subscriptions);
    match books {
        Ok(books) => books.conclude(handler),
        Err(outcome) => Err(Refused {
            refusal: Refusal::NoMemory,
            back: Outcome { handler, ..outcome },
        }),
    }
}
