//! The end that a thread takes items from. It doesn't own the subscription, which its publisher has to get back.
ghost use Rattle.std.specs.Prelude.{◌≡◌, ◌-◌, ◌≤◌, None, IfErr, IfNone, IfOk, IsSome, OnErr, OnOk};
ghost use Rattle.inbox.specs.Inbox.{Refills, Takes, cancelled, fault_of};
ghost use Rattle.publisher.specs.Handles.{Cancels};

use crate::arrivals::{Arrival, Arrivals, Cancelled};
use crate::inlet::Inlet;
use flow_rules::{FailHandler, Fault, How, Item, Listener, NoMemory, Refusal};
use publisher::{Ledgers, Subscription};
use std::alloc::Global;
use std::marker::Model;
use std::sync::{Arc, Wait};

/// Where items arrive that a thread has requested, and wait until it takes them.
#[derive(Drop)]
pub struct Inbox {
    arrivals: Arc<Arrivals>,
    /// How many items may be requested and not taken yet.
    batch: u32,
    /// How many are.
    wanted: u32,
    ending: Option<How>,
}

impl Model for Inbox {
    ghost use Rattle.std.specs.Prelude.{◌≡◌, ◌≤◌};
    ghost use Rattle.inbox.specs.Inbox.{InboxState};

    ghost Value = { InboxState };

    ghost view = { λ inbox. record { batch = inbox.batch; wanted = inbox.wanted; ending = inbox.ending } };

    ghost invariant = { λ inbox. (1 ≤ inbox.batch) × (inbox.wanted ≤ inbox.batch) };
}

impl Inbox {
    /// The most items of a batch.
    pub const MOST: u32 = 65_536;

    /// Makes an inbox that requests this many items at most in advance, 1 to [`MOST`](Inbox::MOST), and its inlet.
    ///
    /// Refused 1 if it is another number, and 5 if its room is refused.
    pub fn pair<R: Wait + Copy>(
        rt: R,
        alloc: Global,
        batch: u32,
    ) -> Result<(Inlet<R>, Inbox), Refusal>
        ensures { IfOk result
            (λ pair. pair.1 ≡ record { batch = batch; wanted = 0; ending = None }) }
    {
        if batch == 0 || batch > Inbox::MOST {
            return Err(Refusal::BadCapacity);
        }
        let arrivals = Arrivals::shared(alloc, batch as usize)?;
        let inlet = Inlet::new(rt, Arc::try_clone(&arrivals)?);
        let inbox = Inbox {
            arrivals,
            batch,
            wanted: 0,
            ending: None,
        };
        Ok((inlet, inbox))
    }

    /// Takes the next item, and waits until there is one. `None` once the publisher is closed and each item was taken,
    /// or once the subscription has ended otherwise; [`ending`](Inbox::ending) tells which. The subscription is that of
    /// this inbox's inlet. Items are requested of it as half a batch was taken (Reactive Streams 1.0, rules 2.1 and
    /// 3.8).
    ///
    /// If anybody else requests of that subscription too, an item may come for which there is no room. The subscription
    /// fails then: the items before that one still come out, and the ending is [`NO_ROOM`](Inlet::NO_ROOM). If
    /// anybody cancels it but by [`cancel`](Inbox::cancel), this waits for ever, since no callback tells of that.
    ///
    /// `NoMemory` if the request is refused what a started task needs; nothing has changed then.
    pub fn next<L: Ledgers + Send, B: Listener + Send, F: FailHandler + Send, R: Wait>(
        &mut self,
        rt: &R,
        subscription: &mut Subscription<L, B, F>,
    ) -> Result<Option<Item>, NoMemory>
        ensures few { self.new.wanted ≤ self.new.batch }
        ensures entry { subscription.new.entry ≡ subscription.old.entry }
        ensures ok { IfOk result
            (λ item. Takes item self.old self.new subscription.old.handle subscription.new.handle) }
        ensures unchanged { OnErr result
            ((self.new ≡ self.old) × (subscription.new ≡ subscription.old)) }
    {
        self.ask(rt, subscription)?;
        match self.arrivals.next(rt) {
            Some(arrival) => Ok(self.take(arrival)),
            None => Ok(None),
        }
    }

    /// Takes the next item if it is there already, and else answers `None` at once: also at the end, which
    /// [`next`](Inbox::next) tells. A thread that writes what it takes flushes when it is answered `None`, and then waits
    /// by `next`. Items are requested as by `next`.
    ///
    /// `NoMemory` if the request is refused what a started task needs; nothing has changed then.
    pub fn try_next<L: Ledgers + Send, B: Listener + Send, F: FailHandler + Send, R: Wait>(
        &mut self,
        rt: &R,
        subscription: &mut Subscription<L, B, F>,
    ) -> Result<Option<Item>, NoMemory>
        ensures few { self.new.wanted ≤ self.new.batch }
        ensures entry { subscription.new.entry ≡ subscription.old.entry }
        ensures ok { IfOk result
            (λ item. Takes item self.old self.new subscription.old.handle subscription.new.handle) }
        ensures unchanged { OnErr result
            ((self.new ≡ self.old) × (subscription.new ≡ subscription.old)) }
    {
        self.ask(rt, subscription)?;
        match self.arrivals.try_next(rt) {
            Some(arrival) => Ok(self.take(arrival)),
            None => Ok(None),
        }
    }

    /// Requests what fills a batch, once half of one was taken.
    fn ask<L: Ledgers + Send, B: Listener + Send, F: FailHandler + Send, R: Wait>(
        &mut self,
        rt: &R,
        subscription: &mut Subscription<L, B, F>,
    ) -> Result<(), NoMemory>
        ensures few { self.new.wanted ≤ self.new.batch }
        ensures entry { subscription.new.entry ≡ subscription.old.entry }
        ensures ok { OnOk result ((self.new ≡ record self.old { wanted = self.new.wanted })
            × Refills self.old self.new.wanted subscription.old.handle subscription.new.handle) }
        ensures unchanged { OnErr result
            ((self.new ≡ self.old) × (subscription.new ≡ subscription.old)) }
    {
        if self.wanted <= self.batch / 2 {
            subscription.request(rt, i64::from(self.batch - self.wanted))?;
            self.wanted = self.batch;
        }
        Ok(())
    }

    /// The item that has arrived; `None` for the end, which is kept.
    fn take(&mut self, arrival: Arrival) -> Option<Item>
        ensures some { IsSome result → self.new ≡ record self.old { wanted = self.old.wanted - 1 } }
        ensures none { IfNone result (self.new ≡ record self.old { ending = self.new.ending }) }
    {
        match arrival {
            Arrival::Item(item) => {
                self.wanted = self.wanted.saturating_sub(1);
                Some(item)
            }
            Arrival::End(how) => {
                self.ending = Some(how);
                None
            }
        }
    }

    /// Cancels the subscription, which is that of this inbox's inlet, and drops what waits, also an end that was not
    /// taken (`Flow.Subscription.cancel`). [`next`](Inbox::next) answers `None` from now on.
    ///
    /// `NoMemory` if what a started task needs is refused; nothing has changed then.
    pub fn cancel<L: Ledgers + Send, B: Listener + Send, F: FailHandler + Send, R: Wait>(
        &mut self,
        rt: &R,
        subscription: &mut Subscription<L, B, F>,
    ) -> Result<(), NoMemory>
        ensures entry { subscription.new.entry ≡ subscription.old.entry }
        ensures ok { OnOk result (Cancels subscription.old.handle subscription.new.handle) }
        ensures ending { OnOk result
            (self.new ≡ record self.old { ending = cancelled self.old.ending }) }
        ensures unchanged { OnErr result
            ((self.new ≡ self.old) × (subscription.new ≡ subscription.old)) }
    {
        let cancelled = Cancelled::of(rt, subscription)?;
        self.arrivals.drop_all(rt, cancelled);
        self.ending.get_or_insert(How::Cancelled);
        Ok(())
    }

    /// Tells which end [`next`](Inbox::next) has answered `None` for: `Completed`, `Errored`, `Cancelled` by
    /// [`cancel`](Inbox::cancel), or `Failed` with one of the codes of [`Inlet`]. `None` before.
    pub fn ending(&self) -> Option<How>
        ensures { result ≡ self.now.ending }
    {
        self.ending
    }

    /// Tells the error with which the subscription has ended, if it was one (`Flow.Subscriber.onError`), once
    /// [`next`](Inbox::next) has answered `None` for it.
    pub fn fault(&self) -> Option<Fault>
        ensures { result ≡ fault_of self.now.ending }
    {
        match self.ending {
            Some(How::Errored(fault)) => Some(fault),
            _ => None,
        }
    }
}
