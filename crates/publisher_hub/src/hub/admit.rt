//! How a subscription is added to a Hub: after all others, or in the place of one whose producer's end was taken out.
//! The subscriber itself is not at hand here: a Hub has its producer's end alone.
ghost use Rattle.std.specs.Prelude.{◌≡◌, ◌<◌, ◌≤◌, ◌↔◌, IfErr, IsOk, vec_capacity, vec_len, ◌++◌, ◌∷◌, [], IfOk, None, Option, length, true, ℕ, Some, slice_get};
ghost use Rattle.publisher_hub.specs.Adding.{AreAllLive, IsFresh};
ghost use Rattle.publisher_hub.specs.Gathering.{work_of};
ghost use Rattle.publisher_hub.specs.Hub.{hub_of};
ghost use Rattle.publisher_hub.specs.Sound.{IsSound, MOST_LIVE};
ghost use Rattle.publisher_hub.specs.Subscribing.{Admits, AdmitsWith, CanAdmit, ClosesNew, HasPlace, Refuses, first_entry_with};
ghost use Rattle.publisher_hub.specs.Vacant.{AdmitsAt, Appends, IsVacant, PutsAt};

use crate::entry::Entry;
use crate::hub::Hub;
use crate::hub::gathering::push_started;
use crate::policy::OnFull;
use crate::work::Work;
use close_count::Ticket;
use flow_rules::{Ending, Feed, Name, Refusal};

impl<F: Feed> Hub<F> {
    /// Adds a subscription (`SubmissionPublisher.subscribe`, Java SE 17), whose buffer has the Hub's capacity and was
    /// not used. The answer is its number: how many places the Hub had before. It takes part in each publication from
    /// now on. If the Hub is closed, the subscription is closed at once, in the same way.
    ///
    /// Publications wait for its room, as [`OnFull::Wait`] says. It is refused when, and as,
    /// [`may_subscribe`](Hub::may_subscribe) is. Then the producer's end and the ticket are dropped.
    pub fn admit(
        &mut self,
        name: Name,
        feed: F,
        ticket: Option<Ticket>,
        most: usize,
        due: &mut Vec<Work<F::Task>>,
    ) -> Result<u32, Refusal>
        requires sound { IsSound (hub_of F.meaning self.old) }
        requires few { most ≤ MOST_LIVE }
        requires fresh { IsFresh self.old.capacity (F.meaning feed) }
        ensures ok { IfOk result (λ number. Admits F.meaning F.does name feed ticket most number
            due.old.items due.new.items self.old self.new) }
        ensures refusals { IfErr result (λ refusal.
            Refuses F.meaning F.does name most refusal due.old.items due.new.items
            self.old self.new) }
        ensures not_refused { CanAdmit F.meaning name most self.old due.old → IsOk result }
        ensures sound { IsSound (hub_of F.meaning self.new) }
    {
        self.admit_with(name, OnFull::Wait, feed, ticket, most, due)
    }

    /// Adds a subscription, as [`admit`](Hub::admit) does, which says this of its full buffer.
    ///
    /// It is refused when, and as, [`may_subscribe`](Hub::may_subscribe) is. Then the producer's end and the ticket are
    /// dropped.
    pub fn admit_with(
        &mut self,
        name: Name,
        on_full: OnFull,
        feed: F,
        ticket: Option<Ticket>,
        most: usize,
        due: &mut Vec<Work<F::Task>>,
    ) -> Result<u32, Refusal>
        requires sound { IsSound (hub_of F.meaning self.old) }
        requires few { most ≤ MOST_LIVE }
        requires fresh { IsFresh self.old.capacity (F.meaning feed) }
        ensures ok { IfOk result (λ number. AdmitsWith F.meaning F.does name on_full feed ticket
            most number due.old.items due.new.items self.old self.new) }
        ensures refusals { IfErr result (λ refusal.
            Refuses F.meaning F.does name most refusal due.old.items due.new.items
            self.old self.new) }
        ensures not_refused { CanAdmit F.meaning name most self.old due.old → IsOk result }
        ensures sound { IsSound (hub_of F.meaning self.new) }
    {
        self.may_subscribe(name, most, due)?;
        Ok(self.append(name, on_full, feed, ticket, due))
    }

    /// Adds a subscription, as [`admit_with`](Hub::admit_with) does, in the place of the subscription of this number if
    /// the producer's end and the ticket of that one were taken out. Its number is then `place`, and nothing is left of
    /// the subscription that had it before. If there is no such number, or its end or ticket is there still, the new
    /// one is added after all others.
    ///
    /// Publications go through the live subscriptions in the order of their numbers. It is refused when, and as,
    /// [`may_subscribe`](Hub::may_subscribe) is. Then the producer's end and the ticket are dropped.
    pub fn admit_at(
        &mut self,
        place: u32,
        name: Name,
        on_full: OnFull,
        feed: F,
        ticket: Option<Ticket>,
        most: usize,
        due: &mut Vec<Work<F::Task>>,
    ) -> Result<u32, Refusal>
        requires sound { IsSound (hub_of F.meaning self.old) }
        requires few { most ≤ MOST_LIVE }
        requires fresh { IsFresh self.old.capacity (F.meaning feed) }
        ensures ok { IfOk result (λ number. AdmitsAt F.meaning F.does place name on_full feed
            ticket most number due.old.items due.new.items self.old self.new) }
        ensures refusals { IfErr result (λ refusal.
            Refuses F.meaning F.does name most refusal due.old.items due.new.items
            self.old self.new) }
        ensures not_refused { CanAdmit F.meaning name most self.old due.old → IsOk result }
        ensures sound { IsSound (hub_of F.meaning self.new) }
    {
        self.may_subscribe(name, most, due)?;
        if !self.is_vacant(place) {
            return Ok(self.append(name, on_full, feed, ticket, due));
        }
        self.put_at(place, name, on_full, feed, ticket, due);
        Ok(place)
    }

    /// Says whether there is a subscription of this number whose producer's end and ticket were taken out.
    fn is_vacant(&self, place: u32) -> bool
        ensures { (result ≡ true) ↔ IsVacant place self.now.entries.items }
    {
        match self.entries.get(place as usize) {
            Some(entry) => entry.feed.is_none() && entry.ticket.is_none(),
            None => false,
        }
    }

    /// Adds a subscription, for which there is a place, after all others. It is closed at once if the Hub is. The
    /// answer is its number.
    fn append(
        &mut self,
        name: Name,
        on_full: OnFull,
        feed: F,
        ticket: Option<Ticket>,
        due: &mut Vec<Work<F::Task>>,
    ) -> u32
        requires sound { IsSound (hub_of F.meaning self.old) }
        requires place { HasPlace MOST_LIVE self.old }
        requires fresh { IsFresh self.old.capacity (F.meaning feed) }
        requires room { vec_len due.old < vec_capacity due.old }
        ensures appends { Appends F.meaning F.does name on_full feed ticket result
            due.old.items due.new.items self.old self.new }
        ensures sound { IsSound (hub_of F.meaning self.new) }
    {
        let number = self.entries.len() as u32;
        let feed = close_new(self.ending, feed, number, due);
        self.add(name, on_full, feed, ticket);
        number
    }

    /// Adds a subscription, for which there is a place.
    fn add(&mut self, name: Name, on_full: OnFull, feed: F, ticket: Option<Ticket>)
        requires sound { IsSound (hub_of F.meaning self.old) }
        requires place { HasPlace MOST_LIVE self.old }
        requires empty { (F.meaning feed).accepted ≡ [] }
        requires capacity { (F.meaning feed).capacity ≡ self.old.capacity }
        requires closed_as { (ending : _) → (F.meaning feed).closing ≡ Some ending → self.old.ending ≡ Some ending }
        ensures entries { self.new.entries.items ≡ self.old.entries.items
            ++ first_entry_with name on_full self.old.next feed ticket ∷ [] }
        ensures live { self.new.live.items ≡ self.old.live.items
            ++ length self.old.entries.items ∷ [] }
        ensures rest { self.new ≡ record self.old {
          entries = self.new.entries;
          live = self.new.live;
        } }
        ensures sound { IsSound (hub_of F.meaning self.new) }
    {
        let number = self.entries.len() as u32;
        self.entries
            .push_reserved(first_entry(self.next, name, on_full, feed, ticket));
        self.live.push_reserved(number);
    }

    /// Puts a subscription, for whose number there is a place, in the place of one whose producer's end was taken out.
    /// It is closed at once if the Hub is.
    fn put_at(
        &mut self,
        place: u32,
        name: Name,
        on_full: OnFull,
        feed: F,
        ticket: Option<Ticket>,
        due: &mut Vec<Work<F::Task>>,
    )
        requires sound { IsSound (hub_of F.meaning self.old) }
        requires place { HasPlace MOST_LIVE self.old }
        requires vacant { IsVacant place self.old.entries.items }
        requires all_live { AreAllLive self.old.live.items (hub_of F.meaning self.old).entries }
        requires fresh { IsFresh self.old.capacity (F.meaning feed) }
        requires room { vec_len due.old < vec_capacity due.old }
        ensures puts { PutsAt F.meaning F.does place name on_full feed ticket
            due.old.items due.new.items self.old self.new }
        ensures sound { IsSound (hub_of F.meaning self.new) }
    {
        let feed = close_new(self.ending, feed, place, due);
        self.entries[place as usize] = first_entry(self.next, name, on_full, feed, ticket);
        let rank = rank_of(&self.live, place);
        let _there_is_room = self.live.insert(rank, place);
    }
}

/// Makes a subscription that takes part from this serial number on, with no drops yet.
fn first_entry<F: Feed>(
    next: u64,
    name: Name,
    on_full: OnFull,
    feed: F,
    ticket: Option<Ticket>,
) -> Entry<F>
    ensures { result ≡ first_entry_with name on_full next feed ticket }
{
    Entry {
        name,
        on_full,
        since: next,
        until: next,
        dropped: 0,
        retired: false,
        feed: Some(feed),
        ticket,
    }
}

/// Closes the producer's end of a new subscription if its Hub is closed, and hands it back. The task that this starts
/// is due.
fn close_new<F: Feed>(
    ending: Option<Ending>,
    mut feed: F,
    number: u32,
    due: &mut Vec<Work<F::Task>>,
) -> F
    requires ready { (F.meaning feed).ready ≡ true }
    requires room { vec_len due.old < vec_capacity due.old }
    ensures { (start : Option F.Task) × (ClosesNew F.meaning F.does ending feed start result
        × (due.new.items ≡ due.old.items ++ work_of number start)) }
{
    match ending {
        Some(ending) => {
            let start = feed.end(ending);
            push_started(due, number, start);
            feed
        }
        None => feed,
    }
}

/// Says how many of these rising numbers are below this one.
fn rank_of(numbers: &[u32], number: u32) -> usize
    requires rising { (i j n m : ℕ) → slice_get numbers.now i ≡ Some n
        → slice_get numbers.now j ≡ Some m → i < j → n < m }
    ensures within { result ≤ length numbers.now }
    ensures below { (i n : ℕ) → slice_get numbers.now i ≡ Some n → i < result → n < number }
    ensures above { (i n : ℕ) → slice_get numbers.now i ≡ Some n → result ≤ i → number ≤ n }
{
    match numbers.binary_search(&number) {
        Ok(rank) => rank,
        Err(rank) => rank,
    }
}
