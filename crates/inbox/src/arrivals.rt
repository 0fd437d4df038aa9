//! What has arrived in an inbox, as its two ends share it.
ghost use Rattle.std.specs.Prelude.{◌≡◌, OnErr, OnOk};
ghost use Rattle.inbox.specs.Inbox.{ended_by};
ghost use Rattle.publisher.specs.Handles.{Cancels};

use crate::queue::Queue;
use flow_rules::{FailHandler, Fault, How, Item, Listener, NoMemory};
use publisher::{Ledgers, Subscription};
use std::alloc::Global;
use std::sync::{Arc, Wait};

/// What waits in an inbox.
#[derive(Drop)]
pub(crate) enum Arrival {
    /// An item.
    Item(Item),
    /// The end, and which it is. Nothing comes after it.
    End(How),
}

/// The items that wait, and the end.
#[derive(Drop)]
pub(crate) struct Arrivals {
    queue: Queue<Arrival>,
}

/// A subscription was cancelled: only a cancel that was not refused gives this, and what waits is dropped only for it.
#[must_use]
#[derive(Drop)]
pub(crate) struct Cancelled(());

impl Cancelled {
    /// Cancels a subscription. `NoMemory` if what a started task needs is refused; nothing has changed then.
    pub(crate) fn of<L: Ledgers + Send, B: Listener + Send, F: FailHandler + Send, R: Wait>(
        rt: &R,
        subscription: &mut Subscription<L, B, F>,
    ) -> Result<Cancelled, NoMemory>
        ensures entry { subscription.new.entry ≡ subscription.old.entry }
        ensures ok { OnOk result (Cancels subscription.old.handle subscription.new.handle) }
        ensures unchanged { OnErr result (subscription.new ≡ subscription.old) }
    {
        subscription.cancel(rt)?;
        Ok(Cancelled(()))
    }
}

impl Arrivals {
    /// Makes room for this many items, and for the end. `NoMemory` if it is refused.
    pub(crate) fn shared(alloc: Global, most: usize) -> Result<Arc<Arrivals>, NoMemory> {
        let arrivals = Arrivals {
            queue: Queue::new(alloc, most)?,
        };
        Ok(Arc::new(alloc, arrivals)?)
    }

    /// Puts an item behind all others. Tells whether there was room for it, or it is dropped, since the end came before.
    pub(crate) fn put<R: Wait>(&self, rt: &R, item: Item) -> bool {
        self.queue.try_push(rt, Arrival::Item(item)).is_ok()
    }

    /// Puts the end behind all items. Only the first end counts.
    pub(crate) fn end<R: Wait>(&self, rt: &R, how: How) {
        self.queue.close_with(rt, Arrival::End(how));
    }

    /// Takes what has arrived first, and waits for it; `None` once the end was taken, or all was dropped.
    pub(crate) fn next<R: Wait>(&self, rt: &R) -> Option<Arrival> {
        self.queue.pop(rt)
    }

    /// Takes what has arrived first, if anything has.
    pub(crate) fn try_next<R: Wait>(&self, rt: &R) -> Option<Arrival> {
        self.queue.try_pop(rt)
    }

    /// Drops what waits, also the end, and all that comes.
    pub(crate) fn drop_all<R: Wait>(&self, rt: &R, _cancelled: Cancelled) {
        self.queue.cut(rt);
    }
}

/// How a subscription has ended whose subscriber was told this at its end: `onError`, if it is told a fault, and else
/// `onComplete`.
pub(crate) fn how_of(fault: Option<Fault>) -> How
    ensures { result ≡ ended_by fault }
{
    match fault {
        Some(fault) => How::Errored(fault),
        None => How::Completed,
    }
}
