//! The producer's end of one subscription.
mod drop_handler;
mod put;
mod put_all;
mod standing;

use crate::ending::Ending;
use crate::item::Item;
use crate::refusal::NoMemory;
pub use drop_handler::DropHandler;
pub use put::Put;
pub use put_all::PutAll;
pub use standing::Standing;

/// The producer's end of one subscription: what a publisher calls, whoever else has the subscription
/// (`SubmissionPublisher`, Java SE 17).
///
/// A call that changes what there is to tell starts the subscription's task if that was at rest. Then it answers the
/// task, and the caller has to see that it is run.
///
/// Its meaning is the publisher's own knowledge: its parts change only in these calls. So what others do, as the taking
/// of items for `onNext`, shows only in a look.
pub trait Feed: Drop {
    ghost use Rattle.std.specs.Prelude.{◌≡◌, ◌<◌, ◌≤◌, ◌+◌, ⊤, true, length, OnOk, OnErr, IsOk};
    ghost use Rattle.flow_rules.specs.Call as Call;
    ghost use Rattle.flow_rules.specs.Call.{Call};
    ghost use Rattle.flow_rules.specs.Feed.{End, MayStart, Looked, Puts, PutsAll, Ends, Duplicates, held_count};
    ghost use Rattle.flow_rules.specs.declared.item.TheConstants.{MOST_PUBLICATIONS};

    /// What a caller has to run if it is started.
    type Task: Drop;

    /// What the publisher knows of the subscription.
    ghost meaning: { Self → End };

    /// What a call that answered so does, more exactly than the meaning tells.
    ghost does: { Self → Call Self.Task → Self → Type 0 } = { λ _ _ _. ⊤ };

    /// Takes what one started task needs. If that is there, it is not refused.
    fn ready(&mut self) -> Result<(), NoMemory>
        ensures ok { OnOk result (meaning self.new ≡ record (meaning self.old) { ready = true }) }
        ensures unchanged { OnErr result (meaning self.new ≡ meaning self.old) }
        ensures not_refused { (meaning self.old).ready ≡ true → IsOk result }
        ensures exact { does self.old (Call.Readies result) self.new };

    /// Offers an item to the buffer, which neither waits nor takes memory (`SubmissionPublisher.offer`, one try).
    ///
    /// It makes one look, or none if it was closed. If that shows that the subscription has ended, or that the
    /// buffer is full, and if it was closed, the item comes back.
    fn put(&mut self, item: Item) -> Put<Self::Task>
        requires may { MayStart (meaning self.old) }
        requires few { length (meaning self.old).accepted < MOST_PUBLICATIONS }
        ensures means { Puts (meaning self.old) item result (meaning self.new) }
        ensures exact { does self.old (Call.Puts item result) self.new };

    /// Offers several items to the buffer at once, after a look that showed room for all of them. It neither waits nor
    /// takes memory.
    ///
    /// It makes one look, or none if it was closed. If that shows that the subscription has ended, and if it was
    /// closed, all come back. Otherwise all are accepted, in their order, and no other party sees the first of them
    /// before the last: one signal tells of them.
    fn put_all(&mut self, items: Vec<Item>) -> PutAll<Self::Task>
        requires may { MayStart (meaning self.old) }
        requires some { 0 < length items.items }
        requires room { held_count (meaning self.old) + length items.items ≤ (meaning self.old).capacity }
        requires few { length (meaning self.old).accepted + length items.items ≤ MOST_PUBLICATIONS }
        ensures means { PutsAll (meaning self.old) items.items result (meaning self.new) }
        ensures exact { does self.old (Call.PutsAll items.items result) self.new };

    /// Closes the subscription (`SubmissionPublisher.close` and `closeExceptionally`). Only the first call does
    /// anything.
    #[must_use]
    fn end(&mut self, ending: Ending) -> Option<Self::Task>
        requires may { MayStart (meaning self.old) }
        ensures means { Ends (meaning self.old) ending result (meaning self.new) }
        ensures exact { does self.old (Call.Ends ending result) self.new };

    /// Tells of a second subscribing of its subscriber, which is an error (`SubmissionPublisher.subscribe`).
    #[must_use]
    fn duplicate(&mut self) -> Option<Self::Task>
        requires ready { (meaning self.old).ready ≡ true }
        ensures means { Duplicates (meaning self.old) result (meaning self.new) }
        ensures exact { does self.old (Call.Duplicates result) self.new };

    /// Looks at the subscription (`SubmissionPublisher.estimateMaximumLag` and `isSubscribed`).
    fn standing(&mut self) -> Standing
        ensures look { Looked (meaning self.old) (meaning self.new) }
        ensures ended { result.ended ≡ (meaning self.new).over }
        ensures held { result.held ≡ held_count (meaning self.new) }
        ensures exact { does self.old (Call.Looks result) self.new };
}
