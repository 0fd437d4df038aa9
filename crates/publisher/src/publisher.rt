//! The publisher: who subscribes and who publishes, how it stands, and how it is closed.
//!
//! Its calls take the lock, call what stands behind it (`state`), and hand the tasks that this starts to the pool. How
//! its threads are started and ended stands in `workers`.
mod making;
mod reclaim;
mod workers;

ghost use Rattle.std.specs.Prelude.{◌≡◌, ◌⊎◌, [], zero, is_some, IfErr, IfOk, IfSome, IsOk, IsSome, OnErr, OnOk, None, Some};
ghost use Rattle.flow_rules.specs.declared.refusal.Refusal.TheVariants as Refusal;
ghost use Rattle.publisher.specs.Handles.{IsUnused, RefusesSubscribing};
ghost use Rattle.publisher.specs.Stats.{AreStats};

use crate::consumer_task::ConsumerTask;
use crate::dispatcher::Dispatcher;
use crate::ledgers::Ledgers;
use crate::note::Note;
use crate::refused::Refused;
use crate::shared::Shared;
use crate::state::{Stats, Subscribed};
use crate::submitter::Submitter;
use crate::subscription::Subscription;
use async_pool::Pool;
use flow_rules::{Ending, FailHandler, LastFailure, Listener, Name, Refusal};
pub use making::PublisherOptions;
use publisher_hub::OnFull;
use std::alloc::Global;
use std::fmt;
use std::marker::Model;
use std::sync::{Arc, Wait};

/// A publisher that threads share (`java.util.concurrent.SubmissionPublisher`).
#[derive(Drop)]
pub struct Publisher<L: Ledgers + Send, B: Listener + Send, F: FailHandler + Send = LastFailure> {
    pub(crate) shared: Arc<Shared<L, B, F>>,
    pool: Arc<Pool<ConsumerTask<L, B, F>>>,
}

impl<L: Ledgers + Send, B: Listener + Send, F: FailHandler + Send> fmt::Debug
    for Publisher<L, B, F> {
    fn fmt<W: fmt::Write>(&self, f: &mut fmt::Formatter<W>) -> fmt::Result {
        write!(f, "Publisher {{ capacity: {} }}", self.shared.capacity)
    }
}

impl<L: Ledgers + Send, B: Listener + Send, F: FailHandler + Send> Model for Publisher<L, B, F> {
    ghost use Rattle.std.specs.Arc.{arc_value};
    ghost use Rattle.async_pool.specs.Pool.{pool_workers};
    ghost use Rattle.once_cell.specs.Once.{cell_name};
    ghost use Rattle.publisher.specs.Handles.{PublisherView};

    ghost Value = { PublisherView };

    ghost view = { λ p. record {
      closing = cell_name (arc_value (arc_value p.shared).closing);
      workers = pool_workers (arc_value p.pool);
      capacity = (arc_value p.shared).capacity;
      order = (arc_value p.shared).order;
    } };
}

impl<L: Ledgers + Send, B: Listener + Send, F: FailHandler + Send> Publisher<L, B, F> {
    /// Gives a note of this publisher that knows nothing of its close.
    pub fn note(&self) -> Note
        ensures { result ≡ record { cell = self.now.closing; known = None } }
    {
        Note::of(&self.shared.closing)
    }

    /// Tells the capacity of each buffer (`SubmissionPublisher.getMaxBufferCapacity`).
    pub fn max_buffer_capacity(&self) -> usize
        ensures { result ≡ self.now.capacity }
    {
        self.shared.capacity
    }

    /// Tells whether the publisher is closed (`SubmissionPublisher.isClosed`). It takes no lock, and answers while
    /// another call has it. The note knows of the close then if the answer is true.
    pub fn is_closed(&self, note: &mut Note) -> bool
        requires { note.old.cell ≡ self.now.closing }
        ensures cell { note.new.cell ≡ note.old.cell }
        ensures tells { result ≡ is_some note.new.known }
        ensures same { IfSome note.old.known (λ ending. note.new.known ≡ Some ending) }
    {
        self.closed_with(note).is_some()
    }

    /// Tells how the publisher is closed, if it is (`SubmissionPublisher.getClosedException`). It takes no lock, and
    /// the note knows then what it answers. A note that knows gets the same answer for good.
    pub fn closed_with(&self, note: &mut Note) -> Option<Ending>
        requires { note.old.cell ≡ self.now.closing }
        ensures cell { note.new.cell ≡ note.old.cell }
        ensures tells { result ≡ note.new.known }
        ensures same { IfSome note.old.known (λ ending. note.new.known ≡ Some ending) }
    {
        note.read(&self.shared.closing)
    }

    /// Tells the longest backlog of any live subscription, in items, and 0 if there is none
    /// (`SubmissionPublisher.estimateMaximumLag`).
    pub fn estimate_maximum_lag<R: Wait>(&self, rt: &R) -> u64 {
        self.shared.lock(rt).max_lag()
    }

    /// Tells how many subscriptions are live (`SubmissionPublisher.getNumberOfSubscribers`).
    pub fn number_of_subscribers<R: Wait>(&self, rt: &R) -> usize {
        self.shared.lock(rt).number_of_subscribers()
    }

    /// Tells whether a live subscription has this name (`SubmissionPublisher.isSubscribed`).
    pub fn is_subscribed<R: Wait>(&self, rt: &R, name: Name) -> bool {
        self.shared.lock(rt).is_subscribed(name)
    }

    /// Tells how each live subscription stands, how many subscriptions there ever were, how many of them were reclaimed,
    /// and how many texts were published: all of one moment, since it takes the lock once. (Java's class has no such
    /// method.)
    ///
    /// Refused 5 if a growth is refused.
    pub fn stats<R: Wait>(&self, rt: &R, alloc: Global) -> Result<Stats, Refusal>
        ensures agrees { IfOk result AreStats }
        ensures refusals { IfErr result (λ refusal. refusal ≡ Refusal.NoMemory) }
    {
        Ok(self.shared.lock(rt).stats(alloc)?)
    }

    /// Subscribes a subscriber that was told nothing (`SubmissionPublisher.subscribe`). Its number is that of one that
    /// was [reclaimed](Publisher::reclaim), if there is one that no later one has and the publisher is open; else it is
    /// the next.
    ///
    /// Refused, with the subscriber back: 13 after the last possible subscription; 5 if a growth is refused; 3 if a live
    /// subscription has the name, whose subscriber is told of it; 4 if as many are live as
    /// [may be](crate::PublisherOptions); 13 after the last possible number or ticket; and 5 if a later growth is
    /// refused.
    pub fn subscribe<R: Wait>(
        &self,
        rt: &R,
        alloc: Global,
        name: Name,
        subscriber: B,
    ) -> Result<Subscription<L, B, F>, Refused<B>>
        requires untold { B.told subscriber ≡ [] }
        requires unheard { B.replied subscriber ≡ [] }
        ensures order { IfOk result
            (λ subscription. subscription.handle.order ≡ self.now.order) }
        ensures unused { IfOk result (λ subscription. IsUnused subscription.handle) }
        ensures refusals { IfErr result (λ refused. RefusesSubscribing refused.0) }
        ensures back { IfErr result (λ refused. refused.1 ≡ subscriber) }
    {
        self.subscribe_with(rt, alloc, name, subscriber, OnFull::Wait)
    }

    /// Subscribes a subscriber, as [`subscribe`](Publisher::subscribe) does, and says what becomes of a text that finds
    /// its buffer full, if [`Submitter::publish`] publishes it: that waits for room, or the subscriber loses the text.
    /// The other calls that publish treat all subscriptions alike. (Java's class has no such method.)
    ///
    /// It is refused as `subscribe` is.
    pub fn subscribe_with<R: Wait>(
        &self,
        rt: &R,
        alloc: Global,
        name: Name,
        subscriber: B,
        on_full: OnFull,
    ) -> Result<Subscription<L, B, F>, Refused<B>>
        requires untold { B.told subscriber ≡ [] }
        requires unheard { B.replied subscriber ≡ [] }
        ensures order { IfOk result
            (λ subscription. subscription.handle.order ≡ self.now.order) }
        ensures unused { IfOk result (λ subscription. IsUnused subscription.handle) }
        ensures refusals { IfErr result (λ refused. RefusesSubscribing refused.0) }
        ensures back { IfErr result (λ refused. refused.1 ≡ subscriber) }
    {
        let Ok(mut dispatcher) = Dispatcher::new(alloc, &self.shared, &self.pool) else {
            return Err(Refused {
                refusal: Refusal::NoMemory,
                back: subscriber,
            });
        };
        let mut due = Vec::new(alloc);
        let subscribed = self.shared.lock(rt).subscribe(
            alloc,
            name,
            on_full,
            self.shared.order,
            subscriber,
            &mut due,
        );
        dispatcher.start_all(rt, &mut due);
        let Subscribed { owner, task } = subscribed?;
        dispatcher.start(rt, owner.entry, task);
        Ok(Subscription::new(dispatcher, owner))
    }

    /// Makes one more source of publications, which knows of the close if the note does.
    ///
    /// Refused 5 if a growth is refused, and 4 after the 256th.
    pub fn submitter<R: Wait>(
        &self,
        rt: &R,
        alloc: Global,
        note: &mut Note,
    ) -> Result<Submitter<L, B, F>, Refusal>
        requires { note.old.cell ≡ self.now.closing }
        ensures closing { IfOk result (λ submitter. submitter.closing ≡ self.now.closing) }
        ensures known { IfOk result (λ submitter. submitter.known ≡ note.old.known) }
        ensures nothing { IfOk result
            (λ submitter. (submitter.published ≡ 0) × (submitter.dropping ≡ 0)) }
        ensures unsent { IfOk result (λ submitter. submitter.sent ≡ []) }
        ensures same { note.new ≡ note.old }
        ensures refusals { IfErr result
            (λ refusal. (refusal ≡ Refusal.NoMemory) ⊎ (refusal ≡ Refusal.TooMany)) }
    {
        let dispatcher = Dispatcher::new(alloc, &self.shared, &self.pool)?;
        let closing = Arc::try_clone(&self.shared.closing)?;
        let own = self.shared.lock(rt).next_source()?;
        Ok(Submitter::new(alloc, dispatcher, closing, own, note.again()))
    }

    /// Closes the publisher (`SubmissionPublisher.close`): each subscriber gets what its buffer holds, as far as it
    /// requests that, and completes after the last item. Only the first close does anything; the note knows then which
    /// that was. A close by a note that knows of one already takes no lock and no memory.
    ///
    /// Refused 5 if a growth is refused; nothing has changed then.
    pub fn close<R: Wait>(&self, rt: &R, alloc: Global, note: &mut Note) -> Result<(), Refusal>
        requires { note.old.cell ≡ self.now.closing }
        ensures cell { note.new.cell ≡ note.old.cell }
        ensures known { IsSome note.old.known → IsOk result }
        ensures knows { OnOk result (IsSome note.new.known) }
        ensures same { IfSome note.old.known (λ ending. note.new.known ≡ Some ending) }
        ensures unchanged { OnErr result (note.new ≡ note.old) }
        ensures refusals { IfErr result (λ refusal. refusal ≡ Refusal.NoMemory) }
    {
        self.close_with(rt, alloc, note, Ending::Normal)
    }

    /// Closes the publisher with an error (`SubmissionPublisher.closeExceptionally`): each subscriber is told it at
    /// the next look of its task, ahead of the items that its buffer holds still; or after these, if the publisher's
    /// options say so. In all else it does what [`close`](Publisher::close) does.
    pub fn close_exceptionally<R: Wait>(
        &self,
        rt: &R,
        alloc: Global,
        note: &mut Note,
        code: u32,
    ) -> Result<(), Refusal>
        requires { note.old.cell ≡ self.now.closing }
        ensures cell { note.new.cell ≡ note.old.cell }
        ensures known { IsSome note.old.known → IsOk result }
        ensures knows { OnOk result (IsSome note.new.known) }
        ensures same { IfSome note.old.known (λ ending. note.new.known ≡ Some ending) }
        ensures unchanged { OnErr result (note.new ≡ note.old) }
        ensures refusals { IfErr result (λ refusal. refusal ≡ Refusal.NoMemory) }
    {
        self.close_with(rt, alloc, note, Ending::Failed(code))
    }

    /// Waits until the publisher is closed and each subscription from before the close has ended. It requests, cancels
    /// and closes nothing by itself: if a subscriber requests less than was published, it waits for ever.
    pub fn wait_drained<R: Wait>(&self, rt: &R) {
        let _drained = self.shared.wait_for_drain(rt);
    }

    /// Closes the publisher with this ending.
    fn close_with<R: Wait>(
        &self,
        rt: &R,
        alloc: Global,
        note: &mut Note,
        ending: Ending,
    ) -> Result<(), Refusal>
        requires { note.old.cell ≡ self.now.closing }
        ensures cell { note.new.cell ≡ note.old.cell }
        ensures known { IsSome note.old.known → IsOk result }
        ensures knows { OnOk result (IsSome note.new.known) }
        ensures same { IfSome note.old.known (λ ending. note.new.known ≡ Some ending) }
        ensures unchanged { OnErr result (note.new ≡ note.old) }
        ensures refusals { IfErr result (λ refusal. refusal ≡ Refusal.NoMemory) }
    {
        if note.known(&self.shared.closing).is_some() {
            return Ok(());
        }
        let mut made = Box::new(alloc, ending)?;
        let mut dispatcher = Dispatcher::new(alloc, &self.shared, &self.pool)?;
        let mut due = Vec::new(alloc);
        let mut state = self.shared.lock(rt);
        *made = state.close(ending, &mut due)?;
        note.learn(&self.shared.closing, made);
        self.shared.state.unlock_and_wake(state);
        dispatcher.start_all(rt, &mut due);
        Ok(())
    }
}
