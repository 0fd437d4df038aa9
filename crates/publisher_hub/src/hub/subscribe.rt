//! Whether a subscription may be added to a Hub, the memory for that, and its ticket. Nothing is added here.
ghost use Rattle.std.specs.Prelude.{◌≡◌, ◌<◌, ◌≤◌, IfErr, IsOk, OnOk, vec_capacity, vec_len, IfOk, None, ℕ, Some, Ok, IsSome, List, OnErr, Vec, slice_get};
ghost use Rattle.std.specs.declared.alloc.Global.{Global};
ghost use Rattle.publisher_hub.specs.Hub.{hub_of};
ghost use Rattle.publisher_hub.specs.OpeningTicket.{AddsTicket, RefusesTicket};
ghost use Rattle.publisher_hub.specs.Readiness.{AreReady};
ghost use Rattle.publisher_hub.specs.Sound.{IsSound, MOST_LIVE};
ghost use Rattle.publisher_hub.specs.Subscribing.{CanAdmit, HasNoPlace, HasPlace, IsLiveAt, IsPrepared, Refuses, DoublesAt};
ghost use Rattle.publisher_hub.specs.Tickets.{ticket_at, without_ticket};
ghost use Rattle.publisher_hub.specs.declared.work.Work.{Work};

use crate::hub::gathering::push_started;
use crate::hub::look::find_named;
use crate::hub::{Hub, MOST_ENTRIES};
use crate::work::Work;
use close_count::{Opening, Ticket};
use flow_rules::{Feed, Name, NoMemory, Refusal};

impl<F: Feed> Hub<F> {
    /// Says whether a subscriber of this name may subscribe now (`SubmissionPublisher.subscribe`, Java SE 17). After Ok
    /// the next [`admit`](Hub::admit) of this name with the same `due` isn't refused, as long as no call but
    /// [`add_ticket`](Hub::add_ticket) comes between.
    ///
    /// In this order: `NoMemory` if a place of `due`, or what a started task needs, is refused; `Duplicate` if a live
    /// subscription has the name, whose subscriber is told of it; `TooMany` if `most` are live; `Exhausted` if the Hub
    /// has [`MOST_ENTRIES`] places; and `NoMemory` if the place of another subscription is refused. Nothing else
    /// changes, but by looks.
    pub fn may_subscribe(
        &mut self,
        name: Name,
        most: usize,
        due: &mut Vec<Work<F::Task>>,
    ) -> Result<(), Refusal>
        requires sound { IsSound (hub_of F.meaning self.old) }
        requires few { most ≤ MOST_LIVE }
        ensures can { OnOk result (CanAdmit F.meaning name most self.new due.new) }
        ensures seen { OnOk result (IsPrepared F.meaning F.does self.old self.new) }
        ensures nothing_due { OnOk result (due.new.items ≡ due.old.items) }
        ensures refusals { IfErr result (λ refusal.
            Refuses F.meaning F.does name most refusal due.old.items due.new.items
            self.old self.new) }
        ensures not_refused { CanAdmit F.meaning name most self.old due.old → IsOk result }
        ensures sound { IsSound (hub_of F.meaning self.new) }
    {
        self.see_all(due)?;
        if let Some(number) = find_named(&self.entries, &self.live, name) {
            self.double(number, due);
            return Err(Refusal::Duplicate);
        }
        self.make_place(most)
    }

    /// Holds the opening ticket of the count that finds the last subscription, until [`end`](Hub::end) takes it out.
    pub fn set_opening(&mut self, opening: Opening)
        requires sound { IsSound (hub_of F.meaning self.old) }
        requires none { self.old.opening ≡ None }
        requires unclosed { self.old.ending ≡ None }
        ensures opening { self.new ≡ record self.old { opening = Some opening } }
        ensures sound { IsSound (hub_of F.meaning self.new) }
    {
        self.opening = Some(opening);
    }

    /// Makes another ticket of the count that finds the last subscription, for a subscription that is to be added.
    /// `None` if the Hub is closed, and then nothing changes.
    ///
    /// `Exhausted` if no opening ticket is held, or if [`MOST_TICKETS`](close_count::MOST_TICKETS) were made; and
    /// `NoMemory` if the memory for another owner of the count is refused. Then nothing has changed.
    pub fn add_ticket(&mut self) -> Result<Option<Ticket>, Refusal>
        requires sound { IsSound (hub_of F.meaning self.old) }
        ensures closed { IsSome self.old.ending → (result ≡ Ok None) × (self.new ≡ self.old) }
        ensures ok { self.old.ending ≡ None → IfOk result (λ ticket.
            AddsTicket ticket self.old.opening self.new.opening) }
        ensures refusals { IfErr result (λ refusal. RefusesTicket refusal self.old.opening) }
        ensures unchanged { OnErr result (self.new ≡ self.old) }
        ensures rest { self.new ≡ record self.old { opening = self.new.opening } }
        ensures keeps { (name : List ℕ) → (most : ℕ) → (due : Vec (Work F.Task) Global)
            → CanAdmit F.meaning name most self.old due → CanAdmit F.meaning name most self.new due }
        ensures sound { IsSound (hub_of F.meaning self.new) }
    {
        if self.ending.is_some() {
            return Ok(None);
        }
        one_more(&mut self.opening)
    }

    /// Takes the ticket of the subscription of this number out, also if that goes on, and without a look. Whoever gets
    /// it has to spend it.
    ///
    /// `None` if it was taken out before or never was there, or if no subscription has the number; nothing has changed
    /// then.
    #[must_use]
    pub fn take_ticket(&mut self, entry: u32) -> Option<Ticket>
        requires sound { IsSound (hub_of F.meaning self.old) }
        ensures ticket { result ≡ ticket_at self.old entry }
        ensures taken { self.new
            ≡ without_ticket self.old entry (slice_get self.old.entries.items entry) }
        ensures none { result ≡ None → hub_of F.meaning self.new ≡ hub_of F.meaning self.old }
        ensures sound { IsSound (hub_of F.meaning self.new) }
    {
        match self.entries.get_mut(entry as usize) {
            Some(entry) => entry.ticket.take(),
            None => None,
        }
    }

    /// Notes a second subscribing at the live subscription of this number, and puts the task that this starts into
    /// `due`.
    fn double(&mut self, number: u32, due: &mut Vec<Work<F::Task>>)
        requires sound { IsSound (hub_of F.meaning self.old) }
        requires live { IsLiveAt number self.old.entries.items }
        requires ready { AreReady (hub_of F.meaning self.old).entries }
        requires room { vec_len due.old < vec_capacity due.old }
        ensures doubles { DoublesAt F.meaning F.does number due.old.items due.new.items
            self.old self.new }
        ensures sound { IsSound (hub_of F.meaning self.new) }
    {
        let start = self.entries[number as usize].double();
        push_started(due, number, start);
    }

    /// Makes a place for another subscription, if fewer than `most` are live.
    fn make_place(&mut self, most: usize) -> Result<(), Refusal>
        requires sound { IsSound (hub_of F.meaning self.old) }
        ensures ok { OnOk result (HasPlace most self.new) }
        ensures refusals { IfErr result (λ refusal. HasNoPlace most refusal self.new) }
        ensures not_refused { HasPlace most self.old → IsOk result }
        ensures entries { self.new.entries.items ≡ self.old.entries.items }
        ensures live { self.new.live.items ≡ self.old.live.items }
        ensures same { hub_of F.meaning self.new ≡ hub_of F.meaning self.old }
    {
        if self.live.len() >= most {
            return Err(Refusal::TooMany);
        }
        if self.entries.len() >= MOST_ENTRIES {
            return Err(Refusal::Exhausted);
        }
        self.reserve_place()?;
        Ok(())
    }

    /// Makes room for another subscription.
    fn reserve_place(&mut self) -> Result<(), NoMemory>
        ensures entry_place { OnOk result
            (vec_len self.new.entries < vec_capacity self.new.entries) }
        ensures number_place { OnOk result (vec_len self.new.live < vec_capacity self.new.live) }
        ensures not_refused { vec_len self.old.entries < vec_capacity self.old.entries
            → vec_len self.old.live < vec_capacity self.old.live → IsOk result }
        ensures entries { self.new.entries.items ≡ self.old.entries.items }
        ensures live { self.new.live.items ≡ self.old.live.items }
        ensures rest { self.new ≡ record self.old {
          entries = self.new.entries;
          live = self.new.live;
        } }
    {
        self.entries.reserve(1)?;
        self.live.reserve(1)?;
        Ok(())
    }
}

/// Makes another ticket of the count of an opening ticket, if there is one.
fn one_more(opening: &mut Option<Opening>) -> Result<Option<Ticket>, Refusal>
    ensures ok { IfOk result (λ ticket. AddsTicket ticket opening.old opening.new) }
    ensures refusals { IfErr result (λ refusal. RefusesTicket refusal opening.old) }
    ensures unchanged { OnErr result (opening.new ≡ opening.old) }
{
    match opening {
        Some(opening) => Ok(Some(opening.add()?)),
        None => Err(Refusal::Exhausted),
    }
}
