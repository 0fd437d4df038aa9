//! The close of a publisher, and the tickets of the count that finds the last subscription from before it.
//!
//! The opening is a ticket until the close, so the last one comes after that. A ticket is spent once a look has shown
//! the end of its subscription, and not by the thread that ends it.
ghost use Rattle.std.specs.Prelude.{◌≡◌, IfErr, IfOk, IsSome, None, OnErr, Some, slice_get};
ghost use Rattle.feed_cell.specs.Offering.{DoesCall};
ghost use Rattle.flow_rules.specs.declared.refusal.Refusal.TheVariants as Refusal;
ghost use Rattle.publisher_hub.specs.Entry.{EntryState};
ghost use Rattle.publisher_hub.specs.Hub.{hub_of};
ghost use Rattle.publisher_hub.specs.Looking.{IsLookedAt};
ghost use Rattle.publisher_hub.specs.Sound.{IsSound};
ghost use Rattle.publisher_hub.specs.Tickets.{ticket_at};
ghost use Rattle.publisher.specs.Closing.{ClosesFirst};
ghost use Rattle.publisher.specs.Spending.{SpendsTicket, last_after};
ghost use Rattle.publisher.specs.State.{producer_end};
ghost use Rattle.publisher.specs.Tickets.{AreOfOneCountOf, AreSpent, IsBeside};

use super::State;
use crate::ledgers::Ledgers;
use crate::turned::EndedTask;
use close_count::{Spent, none_left};
use feed_cell::{Producer, Task};
use flow_rules::{Ending, Listener, Refusal};
use publisher_hub::{Hub, Work};

impl<L: Ledgers, B: Listener> State<L, B> {
    /// Tells how the publisher is closed, if it is.
    pub fn ending(&self) -> Option<Ending>
        ensures { result ≡ self.now.hub.ending }
    {
        self.hub.ending()
    }

    /// Closes the publisher in this way, unless it is closed already, and then spends the opening ticket. The answer
    /// is how it is closed.
    ///
    /// Refused 5 if a growth is refused; each subscription was looked at then, and nothing else has changed.
    pub fn close(&mut self, ending: Ending, due: &mut Vec<Work<Task<B>>>) -> Result<Ending, Refusal>
        ensures closed { IfOk result (λ how. self.new.hub.ending ≡ Some how) }
        ensures first { self.old.hub.ending ≡ None → IfOk result (λ how. (how ≡ ending)
            × ClosesFirst ending due.old.items due.new.items self.old self.new) }
        ensures later { IsSome self.old.hub.ending → (self.new ≡ self.old) × (due.new ≡ due.old) }
        ensures unchanged { OnErr result ((self.new.last ≡ self.old.last)
            × ((self.new.counted ≡ self.old.counted) × (due.new.items ≡ due.old.items))) }
        ensures looked { OnErr result
            (IsLookedAt (hub_of producer_end self.old.hub) (hub_of producer_end self.new.hub)) }
        ensures refusals { IfErr result (λ refusal. refusal ≡ Refusal.NoMemory) }
    {
        if let Some(opening) = self.hub.end(ending, due)? {
            self.counted = Some(self.entries);
            keep_last(&mut self.last, opening.spend(), true);
        }
        Ok(self.hub.ending().unwrap_or(ending))
    }

    /// Lets go of a subscription that has ended, for the thread that has ended it: its ticket is spent, if it is there,
    /// and from then on it may be reclaimed.
    pub fn let_go(&mut self, ended: EndedTask)
        ensures { SpendsTicket ended.entry self.old self.new }
    {
        let entry = ended.into_entry();
        self.census.let_go(entry);
        if let Some(ticket) = self.hub.ended(entry) {
            let is_closed = self.hub.ending().is_some();
            keep_last(&mut self.last, ticket.spend(), is_closed);
        }
    }
}

/// Keeps what is left of a ticket that was spent, if it was the last. None is the last before the close, since the
/// opening is a ticket until then.
pub(super) fn keep_last(last: &mut Option<Spent>, spent: Spent, is_closed: bool)
    ensures { last.new ≡ last_after spent is_closed last.old }
{
    if spent.is_last() & is_closed {
        *last = Some(spent);
    }
}

/// Compares what is left of the last ticket, if it was spent, with the tickets of all subscriptions: then none of them
/// has one.
pub(super) fn compare_tickets<B: Listener>(
    hub: &mut Hub<Producer<B>>,
    last: &mut Option<Spent>,
    entries: u32,
)
    requires sound { IsSound (hub_of producer_end hub.old) }
    requires one_count { AreOfOneCountOf (hub_of producer_end hub.old) last.old }
    ensures none { IsSome last.old → AreSpent entries (hub_of producer_end hub.new) }
    ensures hub { hub_of producer_end hub.new ≡ hub_of producer_end hub.old }
    ensures last { last.new ≡ last.old }
{
    for entry in 0..entries {
        compare_ticket(hub, last, entry);
    }
}

/// Compares what is left of the last ticket, if it was spent, with the ticket of the subscription of this number: it
/// has none then.
fn compare_ticket<B: Listener>(hub: &mut Hub<Producer<B>>, last: &mut Option<Spent>, entry: u32)
    requires sound { IsSound (hub_of producer_end hub.old) }
    requires one_count { IsBeside last.old (ticket_at hub.old entry) }
    ensures none { IsSome last.old → (stored : EntryState)
        → slice_get (hub_of producer_end hub.old).entries entry ≡ Some stored
        → stored.ticket ≡ None }
    ensures hub { hub_of producer_end hub.new ≡ hub_of producer_end hub.old }
    ensures last { last.new ≡ last.old }
{
    let Some(spent) = last.take() else {
        return;
    };
    match hub.take_ticket(entry) {
        Some(ticket) => none_left(spent, ticket),
        None => *last = Some(spent),
    }
}
