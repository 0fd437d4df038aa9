//! How an item is offered: to all live subscriptions that have room, and once more to the others if a handler says so.
//! It waits for no room.
ghost use Rattle.std.specs.Prelude.{◌≡◌, ◌<◌, ◌≤◌, ℕ, [], List, Option, IfOk, IfErr, OnErr, OnOk, is_none, length, map, vec_len, ◌+◌, Some};
ghost use Rattle.flow_rules.specs.declared.feed.put.Put.{Put};
ghost use Rattle.flow_rules.specs.declared.item.TheConstants.{MOST_PUBLICATIONS};
ghost use Rattle.publisher_hub.specs.Entry.{entry_of};
ghost use Rattle.publisher_hub.specs.Gathering.{AreShares, HasRoomAgain, Second, missed, AddsAgain, AreRevisited, GathersAgain};
ghost use Rattle.publisher_hub.specs.Hub.{hub_of};
ghost use Rattle.publisher_hub.specs.Lists.{EachBy};
ghost use Rattle.publisher_hub.specs.Offering.{Counts, ReachesAllFrom, PutsAgain};
ghost use Rattle.publisher_hub.specs.Publishing.{OffersItem, PassesAgain, RefusesOffer, dropping_after, offer_answer};
ghost use Rattle.publisher_hub.specs.Sound.{AreNumbers, IsSound};
ghost use Rattle.publisher_hub.specs.Steps.{CanEachRetry, CanRetry};
ghost use Rattle.publisher_hub.specs.declared.hub.TheConstants.{MOST_SOURCES};

use crate::entry::Entry;
use crate::hub::Hub;
use crate::hub::gathering::Gathering;
use crate::work::Work;
use flow_rules::{DropHandler, Feed, Item, Put, Refusal, Text};

impl<F: Feed> Hub<F> {
    /// Offers a text to all live subscriptions, and drops it at those that have no room
    /// (`SubmissionPublisher.offer`).
    ///
    /// First every buffer is tried; then, for each that was full, in the order of the numbers, the handler is asked, and
    /// if it answers true the item is offered once more. The answer is the greatest lag, in items, or, if it was
    /// dropped, minus the number of drops. Refused 5 if a growth is refused, 2 if the Hub is closed, and 13 once
    /// [`MOST_PUBLICATIONS`](flow_rules::MOST_PUBLICATIONS) were made; then no list and no count has changed.
    pub fn offer(
        &mut self,
        source: u32,
        text: Text,
        handler: Option<&mut Box<dyn DropHandler>>,
        due: &mut Vec<Work<F::Task>>,
    ) -> Result<i64, Refusal>
        requires sound { IsSound (hub_of F.meaning self.old) }
        requires source { source < MOST_SOURCES }
        ensures sound { IsSound (hub_of F.meaning self.new) }
        ensures ok { IfOk result (λ answer.
            OffersItem F.meaning F.does source text (is_none handler.entry) self.old self.new
            due.old.items due.new.items answer) }
        ensures reached { OnOk result (ReachesAllFrom source text
            (hub_of F.meaning self.old) (hub_of F.meaning self.new)) }
        ensures counted { OnOk result (Counts source 1
            (hub_of F.meaning self.old).progress (hub_of F.meaning self.new).progress) }
        ensures refusals { IfErr result (λ refusal.
            RefusesOffer F.meaning F.does self.old self.new refusal) }
        ensures nothing_due { OnErr result (due.new.items ≡ due.old.items) }
        ensures no_share { self.new.gathering.shares.items ≡ [] }
    {
        self.offer_with(source, text, handler, due)
    }

    /// Does what [`offer`](Hub::offer) does, with a drop handler of any type.
    pub fn offer_with<H: DropHandler>(
        &mut self,
        source: u32,
        text: Text,
        handler: Option<&mut H>,
        due: &mut Vec<Work<F::Task>>,
    ) -> Result<i64, Refusal>
        requires sound { IsSound (hub_of F.meaning self.old) }
        requires source { source < MOST_SOURCES }
        ensures sound { IsSound (hub_of F.meaning self.new) }
        ensures ok { IfOk result (λ answer.
            OffersItem F.meaning F.does source text (is_none handler.entry) self.old self.new
            due.old.items due.new.items answer) }
        ensures reached { OnOk result (ReachesAllFrom source text
            (hub_of F.meaning self.old) (hub_of F.meaning self.new)) }
        ensures counted { OnOk result (Counts source 1
            (hub_of F.meaning self.old).progress (hub_of F.meaning self.new).progress) }
        ensures refusals { IfErr result (λ refusal.
            RefusesOffer F.meaning F.does self.old self.new refusal) }
        ensures nothing_due { OnErr result (due.new.items ≡ due.old.items) }
        ensures no_share { self.new.gathering.shares.items ≡ [] }
    {
        let stamp = self.next_stamp(source);
        let _ = self.prepare_publication(stamp, &text, due)?;
        if let Some(refusal) = self.refusal() {
            self.gathering.drop_shares();
            return Err(refusal);
        }
        self.put(stamp, &text, due);
        let item = stamp.item(text);
        self.retry(&item, handler, due);
        self.count_drops();
        self.gathering.drop_shares();
        self.count(stamp, 1);
        Ok(self.answer())
    }

    /// Asks about each subscription that missed the item, and offers it once more if the answer is to try again.
    fn retry<H: DropHandler>(
        &mut self,
        item: &Item,
        handler: Option<&mut H>,
        due: &mut Vec<Work<F::Task>>,
    )
        requires numbers { AreNumbers self.old.gathering.missed.items
            (length self.old.entries.items) }
        requires can { CanEachRetry self.old.gathering.missed.items
            (map (entry_of F.meaning) self.old.entries.items) }
        requires shares { AreShares item.now self.old.gathering.shares.items }
        requires room { HasRoomAgain (vec_len self.old.gathering.missed)
            self.old.gathering due.old }
        requires few { vec_len self.old.gathering.missed < MOST_PUBLICATIONS }
        ensures passes { (puts : List (Option (Put F.Task)))
            → self.old.gathering.missed.items ≡ missed puts
            → length puts ≡ length self.old.entries.items
            → (seconds : List (Second F.Task))
            × PassesAgain F.meaning F.does item.now (is_none handler.entry) puts seconds
            self.old.entries.items self.new.entries.items self.old.gathering self.new.gathering
            due.old due.new }
        ensures rest { hub_of F.meaning self.new ≡ record (hub_of F.meaning self.old) {
          entries = (hub_of F.meaning self.new).entries;
        } }
    {
        let Hub {
            entries,
            gathering,
            ..
        } = self;
        gathering.drops = 0;
        match handler {
            Some(handler) => retry_all(entries, item, handler, gathering, due),
            None => gathering.decline(),
        }
    }

    /// Counts an offer that found a buffer full, if drops stand.
    pub(super) fn count_drops(&mut self)
        requires few { self.old.dropping < MOST_PUBLICATIONS }
        ensures { self.new ≡ record self.old {
          dropping = dropping_after self.old.gathering.drops self.old.dropping;
        } }
    {
        if self.gathering.drops > 0 {
            self.dropping += 1;
        }
    }

    /// Gives the answer to an offer.
    fn answer(&self) -> i64
        requires lag { self.now.gathering.lag ≤ MOST_PUBLICATIONS }
        requires drops { self.now.gathering.drops ≤ MOST_PUBLICATIONS }
        ensures { result ≡ offer_answer self.now.gathering.drops self.now.gathering.lag }
    {
        if self.gathering.drops > 0 {
            -(self.gathering.drops as i64)
        } else {
            self.gathering.lag as i64
        }
    }
}

/// Asks a handler about each subscription whose buffer was full, in order, and if it says so offers a share of the item
/// once more.
fn retry_all<F: Feed, H: DropHandler>(
    entries: &mut [Entry<F>],
    item: &Item,
    handler: &mut H,
    gathering: &mut Gathering,
    due: &mut Vec<Work<F::Task>>,
)
    requires numbers { AreNumbers gathering.old.missed.items (length entries.old) }
    requires can { CanEachRetry gathering.old.missed.items
        (map (entry_of F.meaning) entries.old) }
    requires shares { AreShares item.now gathering.old.shares.items }
    requires room { HasRoomAgain (vec_len gathering.old.missed) gathering.old due.old }
    requires drops { gathering.old.drops ≡ 0 }
    requires few { vec_len gathering.old.missed < MOST_PUBLICATIONS }
    ensures puts { (seconds : List (Second F.Task))
        × (EachBy (PutsAgain F.meaning F.does item.now) seconds entries.old entries.new
        × (AreRevisited gathering.old.missed.items seconds
        × GathersAgain item.now seconds gathering.old gathering.new due.old due.new)) }
{
    for place in 0..gathering.missed.len() {
        let number = gathering.missed[place];
        retry_one(
            &mut entries[number as usize],
            number,
            item,
            handler,
            gathering,
            due,
        );
    }
}

/// Asks a handler about a subscription whose buffer was full, offers a share of the item once more if it says so, and
/// gathers what came of it.
fn retry_one<F: Feed, H: DropHandler>(
    entry: &mut Entry<F>,
    number: u32,
    item: &Item,
    handler: &mut H,
    gathering: &mut Gathering,
    due: &mut Vec<Work<F::Task>>,
)
    requires can { CanRetry (entry_of F.meaning entry.old) }
    requires shares { AreShares item.now gathering.old.shares.items }
    requires room { (many : ℕ) × HasRoomAgain (many + 1) gathering.old due.old }
    requires drops { gathering.old.drops < MOST_PUBLICATIONS }
    ensures puts { (answer : Option (Put F.Task))
        × (PutsAgain F.meaning F.does item.now (Some answer) entry.old entry.new
        × AddsAgain item.now number (Some answer) gathering.old gathering.new due.old due.new) }
    ensures room { (many : ℕ)
        → HasRoomAgain (many + 1) gathering.old due.old → HasRoomAgain many gathering.new due.new }
    ensures drops { gathering.new.drops ≤ gathering.old.drops + 1 }
{
    let answer = retry_if_wanted(entry, item, handler, gathering);
    gathering.note_again(number, answer, due);
}

/// Asks a handler about a subscription whose buffer was full, and offers a share of the item once more if it says so.
#[must_use]
fn retry_if_wanted<F: Feed, H: DropHandler>(
    entry: &mut Entry<F>,
    item: &Item,
    handler: &mut H,
    gathering: &mut Gathering,
) -> Option<Put<F::Task>>
    requires can { CanRetry (entry_of F.meaning entry.old) }
    requires shares { AreShares item.now gathering.old.shares.items }
    requires some { 0 < vec_len gathering.old.shares }
    ensures puts { PutsAgain F.meaning F.does item.now (Some result) entry.old entry.new }
    ensures shares { AreShares item.now gathering.new.shares.items }
    ensures enough { vec_len gathering.old.shares ≤ vec_len gathering.new.shares + 1 }
    ensures missed { gathering.new.missed ≡ gathering.old.missed }
    ensures lag { gathering.new.lag ≡ gathering.old.lag }
    ensures drops { gathering.new.drops ≡ gathering.old.drops }
{
    if !handler.on_drop(entry.name, item) {
        return None;
    }
    let share = gathering.take_share();
    entry.put_again(share)
}
