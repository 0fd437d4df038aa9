//! A subscription, as its owner has it: to request, to cancel, and to see how it stands.
//!
//! Its subscriber is told by turns, which run elsewhere (`consumer_task`).
use crate::dispatcher::Dispatcher;
use crate::ledgers::Ledgers;
use crate::owner::OwnersEnd;
use flow_rules::{FailHandler, LastFailure, Listener, NoMemory};
use std::fmt;
use std::marker::Model;
use std::sync::Wait;

/// What the owner of a subscription requests and cancels with (`Flow.Subscription`, Java SE 17).
/// [`finish`](crate::finish) takes it back.
#[derive(Drop)]
pub struct Subscription<
    L: Ledgers + Send,
    B: Listener + Send,
    F: FailHandler + Send = LastFailure,
> {
    dispatcher: Dispatcher<L, B, F>,
    owner: OwnersEnd<B>,
}

impl<L: Ledgers + Send, B: Listener + Send, F: FailHandler + Send> fmt::Debug
    for Subscription<L, B, F> {
    fn fmt<W: fmt::Write>(&self, f: &mut fmt::Formatter<W>) -> fmt::Result {
        write!(f, "Subscription {{ entry: {} }}", self.owner.entry)
    }
}

impl<L: Ledgers + Send, B: Listener + Send, F: FailHandler + Send> Model for Subscription<L, B, F> {
    ghost use Rattle.publisher.specs.Handles.{SubscriptionState};

    ghost Value = { SubscriptionState };

    ghost view = { λ s. s.owner };
}

impl<L: Ledgers + Send, B: Listener + Send, F: FailHandler + Send> Subscription<L, B, F> {
    ghost use Rattle.std.specs.Prelude.{◌≡◌, OnErr, OnOk};
    ghost use Rattle.publisher.specs.Handles.{Cancels, Requests};

    /// Makes the subscription of this owner's end.
    pub(crate) fn new(dispatcher: Dispatcher<L, B, F>, owner: OwnersEnd<B>) -> Subscription<L, B, F>
        ensures { result ≡ owner }
    {
        Subscription { dispatcher, owner }
    }

    /// Tells the number of the subscription. The number of one that was reclaimed goes to a later one; the others have
    /// theirs from 0 in order of subscription.
    pub fn entry(&self) -> u32
        ensures { result ≡ self.now.entry }
    {
        self.owner.entry
    }

    /// Tells how many subscriptions its publisher had made before it: no other has this number, also when some were
    /// reclaimed. The lanes that [`finish`](crate::finish) gives are in this order.
    pub fn made_before(&self) -> u64
        ensures { result ≡ self.now.made_before }
    {
        self.owner.made_before
    }

    /// Adds to the demand (`Flow.Subscription.request`; Reactive Streams 1.0, rules 3.6, 3.8, 3.9 and 3.17). A number
    /// that is not positive ends the subscription with an error. After a cancel this does nothing.
    ///
    /// `NoMemory` if what a started task needs is refused; nothing has changed then.
    pub fn request<R: Wait>(&mut self, rt: &R, n: i64) -> Result<(), NoMemory>
        ensures entry { self.new.entry ≡ self.old.entry }
        ensures made_before { self.new.made_before ≡ self.old.made_before }
        ensures ok { OnOk result (Requests n self.old.handle self.new.handle) }
        ensures unchanged { OnErr result (self.new ≡ self.old) }
    {
        self.owner.handle.ready()?;
        if let Some(task) = self.owner.handle.request(n) {
            self.dispatcher.start(rt, self.owner.entry, task);
        }
        Ok(())
    }

    /// Ends the subscription (`Flow.Subscription.cancel`; Reactive Streams 1.0, rules 3.5, 3.7 and 3.12): its
    /// subscriber is told at most `onSubscribe`, if it wasn't yet, and one item more. Only the first cancel does
    /// anything.
    ///
    /// `NoMemory` if what a started task needs is refused; nothing has changed then.
    pub fn cancel<R: Wait>(&mut self, rt: &R) -> Result<(), NoMemory>
        ensures entry { self.new.entry ≡ self.old.entry }
        ensures made_before { self.new.made_before ≡ self.old.made_before }
        ensures ok { OnOk result (Cancels self.old.handle self.new.handle) }
        ensures unchanged { OnErr result (self.new ≡ self.old) }
    {
        self.owner.handle.ready()?;
        if let Some(task) = self.owner.handle.cancel() {
            self.dispatcher.start(rt, self.owner.entry, task);
        }
        Ok(())
    }

    /// Tells how many items wait for the subscriber; 0 once the subscription has ended.
    pub fn lag<R: Wait>(&self, rt: &R) -> u64 {
        self.dispatcher.shared.lock(rt).lag(self.owner.entry)
    }

    /// Tells how many items were requested with this subscription, saturated at 2^63-1. What the subscriber requests
    /// by its answers is not among them.
    pub fn requested(&self) -> u64
        ensures { result ≡ self.now.handle.asked }
    {
        self.owner.handle.requested()
    }

    /// Tells whether the subscription has ended: the subscriber was told `onComplete` or `onError`, a turn has obeyed
    /// a cancel, or a callback failed or was refused memory.
    pub fn has_ended<R: Wait>(&self, rt: &R) -> bool {
        self.dispatcher.shared.lock(rt).has_ended(self.owner.entry)
    }

    /// Waits until the subscription has ended. It requests and cancels nothing by itself: if items or a completion
    /// wait for demand that nobody requests, it waits for ever.
    pub fn wait_end<R: Wait>(&self, rt: &R) {
        let _ended = self.dispatcher.shared.wait_for_end(rt, self.owner.entry);
    }

    /// Gives up its owner's end.
    pub(crate) fn into_owner(self) -> OwnersEnd<B>
        ensures { result ≡ self }
    {
        let (_, owner) = self.into_all();
        owner
    }

    /// Gives up its owner's end, and what its owner hands tasks to the pool with.
    pub(crate) fn into_all(self) -> (Dispatcher<L, B, F>, OwnersEnd<B>)
        ensures { result.1 ≡ self }
    {
        let Subscription { dispatcher, owner } = self;
        (dispatcher, owner)
    }
}
