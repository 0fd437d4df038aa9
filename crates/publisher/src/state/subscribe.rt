//! Subscribing: the place and the ticket of a new subscription, and what its owner gets.
//!
//! What is asked of the subscriptions that are there stands in `look`.
ghost use Rattle.std.specs.Prelude.{◌≡◌, ◌+◌, ◌<◌, ◌≤◌, [], IfErr, IfOk, IsSome, List, None, OnErr, OnOk, Option};
ghost use Rattle.publisher_hub.specs.Adding.{IsFresh};
ghost use Rattle.publisher_hub.specs.Hub.{hub_of};
ghost use Rattle.publisher_hub.specs.Sound.{IsSound};
ghost use Rattle.publisher_hub.specs.Subscribing.{CanAdmit};
ghost use Rattle.publisher_hub.specs.declared.hub.TheConstants.{MOST_LIVE};
ghost use Rattle.publisher.specs.Handles.{RefusesSubscribing};
ghost use Rattle.publisher.specs.State.{producer_end};
ghost use Rattle.publisher.specs.Subscribing.{AddsNone, AdmitsNew, AdmitsOne, AdmitsOpen, IsDueAfter, IsSubscription};
ghost use Rattle.publisher.specs.Tickets.{IsTicketFor};

use super::State;
use crate::ledgers::Ledgers;
use crate::owner::OwnersEnd;
use close_count::Ticket;
use feed_cell::{Cell, Producer, Task};
use flow_rules::{ErrorOrder, Listener, Name, Refusal};
use publisher_hub::{Hub, OnFull, Work};
use std::alloc::Global;

/// What the owner of a new subscription gets.
#[must_use]
#[derive(Drop)]
pub struct Subscribed<B: Listener> {
    /// Which subscription it is, and what its owner requests and cancels with.
    pub owner: OwnersEnd<B>,
    /// Its first task, which has to be run.
    pub task: Task<B>,
}

impl<L: Ledgers, B: Listener> State<L, B> {
    /// Adds a subscription, which says this of its full buffer, and in which a closing error and the items are told in
    /// this order. The tasks of others that this starts are due. A refused one adds none, and the name stays as free as
    /// it was.
    pub fn subscribe(
        &mut self,
        alloc: Global,
        name: Name,
        on_full: OnFull,
        order: ErrorOrder,
        subscriber: B,
        due: &mut Vec<Work<Task<B>>>,
    ) -> Result<Subscribed<B>, (Refusal, B)>
        requires untold { B.told subscriber ≡ [] }
        requires unheard { B.replied subscriber ≡ [] }
        ensures ok { IfOk result (λ subscribed. IsSubscription name on_full order subscribed
            self.new) }
        ensures refusals { IfErr result (λ refused. RefusesSubscribing refused.0) }
        ensures back { IfErr result (λ refused. refused.1 ≡ subscriber) }
        ensures adds_none { OnErr result
            (AddsNone (hub_of producer_end self.old.hub) (hub_of producer_end self.new.hub)) }
        ensures due { IfErr result (λ refused. IsDueAfter name self.old.census.most refused.0
            due.old.items due.new.items self.old.hub self.new.hub) }
        ensures admits { IfOk result (λ subscribed. AdmitsNew name on_full self.old.census.most
            subscribed.owner.entry due.old.items due.new.items self.old.hub self.new.hub) }
        ensures order { IfOk result
            (λ subscribed. subscribed.owner.made_before ≡ self.old.census.made) }
        ensures counted { OnOk result
            (self.new.census ≡ record self.old.census { made = self.old.census.made + 1 }) }
        ensures uncounted { OnErr result (self.new.census ≡ self.old.census) }
    {
        if let Err(refusal) = self.census.make_room(self.entries) {
            return Err((refusal, subscriber));
        }
        let ticket = match self.reserve(name, due) {
            Ok(ticket) => ticket,
            Err(refusal) => return Err((refusal, subscriber)),
        };
        match Cell::new_with(alloc, self.hub.capacity(), order, subscriber) {
            Ok((producer, handle, task)) => {
                let made_before = self.census.made();
                let entry = self.admit(name, on_full, producer, ticket, due);
                let owner = OwnersEnd {
                    entry,
                    made_before,
                    handle,
                };
                Ok(Subscribed { owner, task })
            }
            Err((_, subscriber)) => {
                spend_unused(ticket);
                Err((Refusal::NoMemory, subscriber))
            }
        }
    }

    /// Makes a place and a ticket for a subscriber of this name, if it may subscribe now.
    fn reserve(
        &mut self,
        name: Name,
        due: &mut Vec<Work<Task<B>>>,
    ) -> Result<Option<Ticket>, Refusal>
        ensures can { OnOk result
            (CanAdmit producer_end name self.old.census.most self.new.hub due.new) }
        ensures ticket { IfOk result (λ ticket. IsTicketFor self.new.hub ticket) }
        ensures refusals { IfErr result (λ refusal. RefusesSubscribing refusal) }
        ensures adds_none { AddsNone
            (hub_of producer_end self.old.hub) (hub_of producer_end self.new.hub) }
        ensures due { IfErr result (λ refusal. IsDueAfter name self.old.census.most refusal
            due.old.items due.new.items self.old.hub self.new.hub) }
        ensures nothing_due { OnOk result (due.new.items ≡ due.old.items) }
        ensures census { self.new.census ≡ self.old.census }
    {
        self.hub.may_subscribe(name, self.census.most_live(), due)?;
        self.hub.add_ticket()
    }

    /// Adds a subscription that may be added. The answer is its number, which is that of one that was reclaimed, if
    /// there is one.
    fn admit(
        &mut self,
        name: Name,
        on_full: OnFull,
        producer: Producer<B>,
        ticket: Option<Ticket>,
        due: &mut Vec<Work<Task<B>>>,
    ) -> u32
        requires can { CanAdmit producer_end name self.old.census.most self.old.hub due.old }
        requires ticket { IsTicketFor self.old.hub ticket }
        requires fresh { IsFresh self.old.hub.capacity (producer_end producer) }
        requires countable { self.old.census.made < 18446744073709551615 }
        ensures admits { AdmitsOpen name on_full producer ticket self.old.census.most result
            due.old.items due.new.items self.old.hub self.new.hub }
        ensures counted { self.new.census
            ≡ record self.old.census { made = self.old.census.made + 1 } }
    {
        let most = self.census.most_live();
        let place = self.take_vacant(&producer);
        let hub = &mut self.hub;
        let entry = put(hub, place, name, on_full, producer, ticket, most, due);
        self.entries = places_with(self.entries, entry);
        self.census.add(entry);
        entry
    }

    /// Gives the number of a subscription that was reclaimed, if there is one that no later one has. After the close
    /// there is none: the numbers from then on are those of late ones.
    fn take_vacant(&mut self, producer: &Producer<B>) -> Option<u32>
        ensures same { self.new ≡ self.old }
        ensures unclosed { IsSome result → self.new.hub.ending ≡ None }
    {
        if self.hub.ending().is_some() {
            return None;
        }
        self.census.take_vacant(producer)
    }
}

/// Adds a subscription that may be added, in this place if it is vacant, and else after all others.
fn put<B: Listener>(
    hub: &mut Hub<Producer<B>>,
    place: Option<u32>,
    name: Name,
    on_full: OnFull,
    producer: Producer<B>,
    ticket: Option<Ticket>,
    most: usize,
    due: &mut Vec<Work<Task<B>>>,
) -> u32
    requires sound { IsSound (hub_of producer_end hub.old) }
    requires few { most ≤ MOST_LIVE }
    requires can { CanAdmit producer_end name most hub.old due.old }
    requires fresh { IsFresh hub.old.capacity (producer_end producer) }
    ensures admits { AdmitsOne place name on_full producer ticket most result
        due.old.items due.new.items hub.old hub.new }
    ensures sound { IsSound (hub_of producer_end hub.new) }
{
    match place {
        Some(place) => hub
            .admit_at(place, name, on_full, producer, ticket, most, due)
            .unwrap(),
        None => hub
            .admit_with(name, on_full, producer, ticket, most, due)
            .unwrap(),
    }
}

/// Tells how many places there are, once a subscription of this number was added.
fn places_with(places: u32, number: u32) -> u32
    requires { number < 4294967295 }
    ensures within { number < places → result ≡ places }
    ensures last { number ≡ places → result ≡ number + 1 }
{
    if number < places { places } else { number + 1 }
}

/// Spends a ticket that no subscription got. It was made while the publisher was open, so it isn't the last: the
/// opening is a ticket still.
fn spend_unused(ticket: Option<Ticket>) {
    if let Some(ticket) = ticket {
        let _ = ticket.spend();
    }
}
