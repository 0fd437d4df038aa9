//! One subscription as plain state.
//!
//! **A turn.** Whoever runs a subscription's task calls [`Desk::turn`] until that answers `Resting` or `Ended`. A turn
//! first tells `onSubscribe`, if nothing was told yet. Then it looks at the causes, again and again. A look obeys,
//! in this order: an end at once (a cancel, a bad request, a second subscribing, a closing error that overtakes the
//! items: [`Causes::stops`]); the next item, if one waits and was requested; the end that waits for the items
//! (completion, or a closing error after them: [`Causes::closes`]), if none is left. If a look finds nothing of
//! these, the subscription rests. After 64 items the turn answers `Again`, so that whoever runs turns can give others
//! theirs. What `onSubscribe` or `onNext` answers is done at once: a request, a cancel, or the end if the callback
//! failed or was refused memory.
//!
//! **Waking.** `put`, `end`, `duplicate`, `request` and `cancel` change what there is to tell, so each signals: it
//! marks the task as started. If the task was at rest, the call answers `Some(())`, and its caller has to see that
//! the task is run; an answer that starts a task is `#[must_use]`. If the task was started before, its next look
//! finds the change. Only a look that finds nothing to do takes the mark away. So between two calls a turn is owed, or
//! the subscriber was told all that its demand and its ending allow. The mark stays after the end, so that nothing
//! starts the task of a subscription that has ended.
mod buffer;
mod call;
mod turn;

use crate::cause::Causes;
use crate::lane::Lane;
use buffer::Buffer;
use flow_rules::{Amount, Demand, ErrorOrder, How, Listener, NoMemory};
use std::alloc::Global;
use std::marker::Model;

/// One subscription: the buffer of its items, what was requested, why it may end, and its subscriber
/// (`Flow.Subscription`, and the buffer that `SubmissionPublisher` keeps for it, Java SE 17).
#[derive(Debug, Drop)]
pub struct Desk<B: Listener> {
    /// Who is told.
    subscriber: B,
    /// Whether `onSubscribe` was told.
    begun: bool,
    /// The accepted items that were not told yet, in order.
    held: Buffer,
    /// How many items it holds at most, a value of [`capacity`](flow_rules::capacity).
    capacity: usize,
    /// How many items it has accepted, at most [`MOST_PUBLICATIONS`](flow_rules::MOST_PUBLICATIONS).
    accepted: u64,
    /// How many items were taken for `onNext`: those that were told, and one more if its callback was refused
    /// memory.
    given: u64,
    /// How many items were requested, by its owner and by the answers of callbacks.
    asked: Demand,
    /// How many of these its owner requested.
    requested: Demand,
    /// Whether its owner requested a number that is not positive.
    asked_badly: bool,
    /// Why it may end.
    causes: Causes,
    /// How it ended, if it did.
    how: Option<How>,
    /// Whether its task was started and is not at rest since. It stays so once it has ended.
    started: bool,
    /// How often its publisher has looked at it.
    looks: Amount,
    /// Whether its owner has cancelled it.
    cancelled: bool,
}

impl<B: Listener> Model for Desk<B> {
    ghost use Rattle.feed_core.specs.Accounts.{AccountsFor};
    ghost use Rattle.feed_core.specs.Desk.{DeskState};
    ghost use Rattle.feed_core.specs.Sound.{lane_of, IsStored};
    ghost use Rattle.flow_rules.specs.Amount.{amount_of};

    ghost Value = { DeskState };

    ghost view = { λ d. record {
      lane = lane_of (B.told d.subscriber) d.held.items d.given d.asked d.causes d.how;
      capacity = d.capacity;
      started = d.started;
      is_steady = B.is_steady d.subscriber;
      looks = amount_of d.looks;
      requested = d.requested;
      asked_badly = d.asked_badly;
      is_cancelled = d.cancelled;
      replied = B.replied d.subscriber;
    } };

    ghost invariant = { λ d. IsStored
        (lane_of (B.told d.subscriber) d.held.items d.given d.asked d.causes d.how)
        d.held.items d.accepted d.capacity d.held.room d.begun d.started
        × AccountsFor d.requested d.asked_badly d.cancelled
        (lane_of (B.told d.subscriber) d.held.items d.given d.asked d.causes d.how)
        (B.replied d.subscriber) };
}

impl<B: Listener> Desk<B> {
    ghost use Rattle.std.specs.Prelude.{◌≡◌, ◌≤◌, ◌+◌, ◌↔◌, [], true, length, IfOk, IfErr, IfSome, IsSome, false};
    ghost use Rattle.feed_core.specs.Accounts.{IsAccounted};
    ghost use Rattle.feed_core.specs.Answered.{own_by};
    ghost use Rattle.feed_core.specs.Desk.{IsNew, IsNewIn, Owes};
    ghost use Rattle.feed_core.specs.EndedBy.{IsEndedBy};
    ghost use Rattle.feed_core.specs.LeftLane.{IsLeftLane};
    ghost use Rattle.feed_core.specs.LaneCalls.{IsCapacity, lag_of};
    ghost use Rattle.feed_core.specs.Prelude.{UNBOUNDED, total_after};
    ghost use Rattle.feed_core.specs.Lane.{IsFlow, IsSettled};

    /// An empty subscription of this subscriber, with a buffer of this capacity. It owes its first turn, which tells
    /// `onSubscribe`. A closing error overtakes the items. If the buffer is refused, the subscriber comes back.
    pub fn new(alloc: Global, capacity: usize, subscriber: B) -> Result<Desk<B>, (NoMemory, B)>
        requires untold { (B.told subscriber ≡ []) × (B.replied subscriber ≡ []) }
        requires sized { IsCapacity capacity }
        ensures ok { IfOk result (λ desk. IsNew capacity (B.is_steady subscriber) desk) }
        ensures back { IfErr result (λ refused. refused.1 ≡ subscriber) }
    {
        Desk::new_with(alloc, capacity, ErrorOrder::Overtake, subscriber)
    }

    /// An empty subscription, as of [`Desk::new`], in which a closing error is told in this order. If the buffer is
    /// refused, the subscriber comes back.
    pub fn new_with(
        alloc: Global,
        capacity: usize,
        order: ErrorOrder,
        subscriber: B,
    ) -> Result<Desk<B>, (NoMemory, B)>
        requires untold { (B.told subscriber ≡ []) × (B.replied subscriber ≡ []) }
        requires sized { IsCapacity capacity }
        ensures ok { IfOk result (λ desk. IsNewIn order capacity (B.is_steady subscriber) desk) }
        ensures back { IfErr result (λ refused. refused.1 ≡ subscriber) }
    {
        let Ok(held) = Buffer::with_room(alloc, capacity) else {
            return Err((NoMemory, subscriber));
        };
        Ok(Desk {
            subscriber,
            begun: false,
            held,
            capacity,
            accepted: 0,
            given: 0,
            asked: Demand::none(),
            requested: Demand::none(),
            asked_badly: false,
            causes: Causes::none_in(order),
            how: None,
            started: true,
            looks: Amount::zero(),
            cancelled: false,
        })
    }

    /// The capacity of its buffer.
    pub fn capacity(&self) -> usize
        ensures { result ≡ self.now.capacity }
    {
        self.capacity
    }

    /// How many items its buffer has accepted.
    pub fn accepted(&self) -> u64
        ensures value { result ≡ length self.now.lane.accepted }
        ensures bounded { result ≤ self.now.lane.given + self.now.capacity }
    {
        self.accepted
    }

    /// How many items were taken for `onNext`.
    pub fn given(&self) -> u64
        ensures value { result ≡ self.now.lane.given }
        ensures bounded { result ≤ length self.now.lane.accepted }
        ensures requested { result ≤ self.now.lane.asked }
    {
        self.given
    }

    /// How many accepted items were not taken for `onNext` yet (`SubmissionPublisher.estimateMaximumLag` of one
    /// subscription).
    pub fn lag(&self) -> u64
        ensures value { result ≡ lag_of self.now.lane }
        ensures bounded { result ≤ self.now.capacity }
    {
        self.accepted - self.given
    }

    /// How many items were requested in all, at most [`UNBOUNDED`](flow_rules::UNBOUNDED): the sum of what its owner
    /// requested and what the answers of callbacks did. The causes of its end are the owner's, the publisher's and
    /// those of the callbacks alone, and only the last callback may have asked for its end.
    pub fn asked(&self) -> u64
        ensures value { result ≡ self.now.lane.asked }
        ensures bounded { result ≤ UNBOUNDED }
        ensures sum { result ≡ total_after self.now.requested (own_by self.now.replied) }
        ensures accounted { IsAccounted self.now }
    {
        self.asked.total()
    }

    /// How many items its owner requested, at most [`UNBOUNDED`](flow_rules::UNBOUNDED).
    pub fn requested(&self) -> u64
        ensures value { result ≡ self.now.requested }
        ensures bounded { result ≤ UNBOUNDED }
    {
        self.requested.total()
    }

    /// Its subscriber.
    pub fn subscriber(&self) -> &B
        ensures told { B.told result.now ≡ self.now.lane.told }
        ensures replied { B.replied result.now ≡ self.now.replied }
        ensures steady { B.is_steady result.now ≡ self.now.is_steady }
    {
        &self.subscriber
    }

    /// Its subscriber, taken out with what it was told. Items that were not told are dropped.
    pub fn into_subscriber(self) -> B
        ensures told { B.told result ≡ self.lane.told }
        ensures replied { B.replied result ≡ self.replied }
    {
        self.subscriber
    }

    /// Takes the subscription apart, with its subscriber. Items that were not told are dropped.
    pub fn into_lane(self) -> Lane<B>
        ensures left { IsLeftLane B.told self.lane result }
        ensures there { IsSome result.subscriber }
        ensures replied { IfSome result.subscriber (λ b. B.replied b ≡ self.replied) }
        ensures owner { (result.requested ≡ self.requested) × (result.cancelled ≡ self.is_cancelled) }
        ensures asked { IfSome result.subscriber
            (λ b. result.asked ≡ total_after result.requested (own_by (B.replied b))) }
        ensures by { IfSome result.subscriber
            (λ b. IsEndedBy result.cancelled result.ending (B.replied b)) }
        ensures running { (result.running ≡ true) ↔ Owes self }
    {
        let running = self.owes();
        Lane {
            subscriber: Some(self.subscriber),
            accepted: self.accepted,
            given: self.given,
            asked: self.asked.total(),
            requested: self.requested.total(),
            cancelled: self.cancelled,
            ending: self.how,
            order: Some(self.causes.order),
            running,
        }
    }

    /// Whether a turn is owed. If none is, nothing is forgotten: the subscriber was told all that its demand and its
    /// ending allow. The lane keeps the Flow rules in any case.
    pub fn owes(&self) -> bool
        ensures value { (result ≡ true) ↔ Owes self.now }
        ensures flow { IsFlow self.now.lane }
        ensures settled { result ≡ false → IsSettled self.now.lane }
    {
        self.started && self.how.is_none()
    }

    /// How it ended, if it did.
    pub fn how(&self) -> Option<How>
        ensures { result ≡ self.now.lane.how }
    {
        self.how
    }
}
