//! The handle of a subscription, which its owner has (`Flow.Subscription`). It requests and cancels, and sees no item.
mod plays;
pub mod steps;

ghost use Rattle.std.specs.Prelude.{◌≡◌, true, false, None, IfSome, IsSome, IsNone, OnOk, OnErr, IsOk};
ghost use Rattle.feed_cell.specs.Parties.{MayAsk, handle_after_request, IsStarted};
ghost use Rattle.feed_cell.specs.Views.{starts_after};

use self::steps::ask_more;
use super::seated::Seated;
use super::signal::{signal, signal_more, start};
use super::task::Task;
use super::{ARGUMENT, CANCEL, SharedTable};
use flow_rules::{Listener, NoMemory};
use std::fmt;
use std::marker::Model;
use std::sync::Arc;

/// The handle of a subscription (`Flow.Subscription`, Java SE 17).
#[derive(Drop)]
pub struct Handle<B: Listener> {
    pub(crate) party: Seated<B>,
    /// The share of the table that the next started task gets. After a start it is missing until the next `ready`.
    pub(crate) spare: Option<SharedTable<B>>,
    /// The number of items requested, as in the word asked, which this end alone writes.
    pub(crate) asked: u64,
    /// Whether it cancelled.
    pub(crate) cancelled: bool,
}

impl<B: Listener> fmt::Debug for Handle<B> {
    fn fmt<W: fmt::Write>(&self, f: &mut fmt::Formatter<W>) -> fmt::Result {
        write!(f, "Handle {{ requested: {} }}", self.asked)
    }
}

impl<B: Listener> Model for Handle<B> {
    ghost use Rattle.std.specs.Prelude.{◌≡◌, is_some, IfSome};
    ghost use Rattle.std.specs.Arc.{arc_value};
    ghost use Rattle.crossbeam_utils.specs.Padded.{padded_value};
    ghost use Rattle.feed_cell.specs.Parties.{HandleState};
    ghost use Rattle.feed_cell.specs.HandleSteps.{IsHandleOf};

    ghost Value = { HandleState };

    ghost view = { λ h. record {
      table = h.party.seat.table_id;
      capacity = h.party.capacity;
      order = h.party.seat.me.0.order;
      asked = h.party.seat.me.0.asked;
      cancelled = h.party.seat.me.0.cancel;
      argument = h.party.seat.me.0.argument;
      ready = is_some h.spare;
      started = h.party.seat.me.0.started;
    } };

    ghost invariant = { λ h.
        IfSome h.spare (λ spare. (padded_value (arc_value spare)).shared.table_id ≡ h.party.seat.table_id)
        × IsHandleOf h.asked h.cancelled h.party.seat.me };
}

impl<B: Listener> Handle<B> {
    /// Tells how many items this handle has requested in all, saturated at 2^63-1.
    pub fn requested(&self) -> u64
        ensures { result ≡ self.now.asked }
    {
        self.asked
    }

    /// Tells whether this handle has cancelled.
    pub fn has_cancelled(&self) -> bool
        ensures { result ≡ self.now.cancelled }
    {
        self.cancelled
    }

    /// Takes what one started task needs, one more share of the table. A handle that is ready is not refused. After
    /// `NoMemory` it is as it was.
    pub fn ready(&mut self) -> Result<(), NoMemory>
        ensures ok { OnOk result (self.new ≡ record self.old { ready = true }) }
        ensures unchanged { OnErr result (self.new ≡ self.old) }
        ensures not_refused { self.old.ready ≡ true → IsOk result }
    {
        if self.spare.is_none() {
            self.spare = Some(Arc::try_clone(&self.party.table)?);
        }
        Ok(())
    }

    /// Adds to the demand (`Flow.Subscription.request`; Reactive Streams 1.0, rules 3.6, 3.8, 3.9 and 3.17). A number
    /// that is not positive ends the subscription with an error. If the task was at rest, it comes back and has to be
    /// run. After a cancel this does nothing.
    #[must_use]
    pub fn request(&mut self, n: i64) -> Option<Task<B>>
        requires may { MayAsk self.old }
        ensures ignored { self.old.cancelled ≡ true → (self.new ≡ self.old) × IsNone result }
        ensures requested { self.old.cancelled ≡ false
            → self.new ≡ record (handle_after_request n self.old) { ready = self.new.ready; started = self.new.started } }
        ensures counts { self.new.started ≡ starts_after result self.old.started }
        ensures starts { IfSome result
            (IsStarted self.old.table self.old.capacity self.old.order) }
        ensures spent { IsSome result → self.new.ready ≡ false }
        ensures kept { IsNone result → self.new.ready ≡ self.old.ready }
    {
        if self.cancelled {
            return None;
        }
        let task = if n > 0 {
            self.asked = ask_more(&mut self.party, self.asked, n.unsigned_abs());
            signal_more(&mut self.party)
        } else {
            signal(&mut self.party, ARGUMENT)
        };
        start(&self.party, &mut self.spare, task)
    }

    /// Ends the subscription (`Flow.Subscription.cancel`; Reactive Streams 1.0, rules 3.5, 3.7 and 3.12): its
    /// subscriber is given at most one item more. If the task was at rest, it comes back and has to be run. Only the
    /// first cancel does anything.
    #[must_use]
    pub fn cancel(&mut self) -> Option<Task<B>>
        requires may { MayAsk self.old }
        ensures ignored { self.old.cancelled ≡ true → (self.new ≡ self.old) × IsNone result }
        ensures cancelled { self.old.cancelled ≡ false
            → self.new ≡ record self.old { cancelled = true; ready = self.new.ready; started = self.new.started } }
        ensures counts { self.new.started ≡ starts_after result self.old.started }
        ensures starts { IfSome result
            (IsStarted self.old.table self.old.capacity self.old.order) }
        ensures spent { IsSome result → self.new.ready ≡ false }
        ensures kept { IsNone result → self.new.ready ≡ self.old.ready }
    {
        if self.cancelled {
            return None;
        }
        let task = signal(&mut self.party, CANCEL);
        self.cancelled = true;
        start(&self.party, &mut self.spare, task)
    }
}
