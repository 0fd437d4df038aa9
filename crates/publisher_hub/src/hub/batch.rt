//! How a batch of texts is published: as many as have room at every live subscription, each of which is looked at
//! once and is offered all of them at once.
ghost use Rattle.std.specs.Prelude.{◌≡◌, ◌+◌, ◌-◌, ◌<◌, ◌≤◌, min, List, Option, IfOk, IfErr, OnOk, OnErr, map, length, vec_len, vec_capacity};
ghost use Rattle.flow_rules.specs.declared.feed.put_all.PutAll.{PutAll};
ghost use Rattle.flow_rules.specs.declared.item.Item.{Item};
ghost use Rattle.flow_rules.specs.declared.item.TheConstants.{MOST_PUBLICATIONS};
ghost use Rattle.publisher_hub.specs.Entry.{entry_of};
ghost use Rattle.publisher_hub.specs.Hub.{hub_of};
ghost use Rattle.publisher_hub.specs.Lists.{EachBy};
ghost use Rattle.publisher_hub.specs.Looking.{FindsRoom, IsLookedAt, PreparesInPart};
ghost use Rattle.publisher_hub.specs.Offering.{Counts};
ghost use Rattle.publisher_hub.specs.Publishing.{RefusesTexts};
ghost use Rattle.publisher_hub.specs.Batch.{AddsAll, AreBatches, CanAllPutBatch, CanPutBatch, GathersAll, PublishesBatch, PutsBatchTo, items_from};
ghost use Rattle.publisher_hub.specs.Sound.{IsSound, AreLive};
ghost use Rattle.publisher_hub.specs.declared.hub.TheConstants.{MOST_SOURCES};
ghost use Rattle.publisher_hub.specs.declared.policy.Need.TheVariants as Need;
ghost use Rattle.publisher_hub.specs.declared.work.Work.{Work};

use super::gathering::push_started;
use super::prepare::reserve_due;
use crate::entry::Entry;
use crate::hub::room::Room;
use crate::hub::stamp::Stamp;
use crate::hub::{Hub, Publication, Unpublished};
use crate::work::Work;
use flow_rules::{Feed, Item, MOST_PUBLICATIONS, NoMemory, PutAll, Refusal, Text};
use std::alloc::Global;

impl<F: Feed> Hub<F> {
    /// Publishes the first texts of a batch to all live subscriptions, one after the other: as many as there is room for
    /// at each of them, and as may still be published. (`SubmissionPublisher` has no such method.)
    pub(super) fn publish_batch(
        &mut self,
        source: u32,
        texts: &[Text],
        due: &mut Vec<Work<F::Task>>,
    ) -> Result<Publication, Unpublished>
        requires sound { IsSound (hub_of F.meaning self.old) }
        requires source { source < MOST_SOURCES }
        requires some { 0 < length texts.now }
        ensures sound { IsSound (hub_of F.meaning self.new) }
        ensures ok { IfOk result (λ publication. PublishesBatch F.meaning F.does source texts.now
            self.old self.new due.old.items due.new.items publication) }
        ensures counted { IfOk result (λ publication. Counts source publication.many
            (hub_of F.meaning self.old).progress (hub_of F.meaning self.new).progress) }
        ensures refusals { IfErr result (λ why.
            RefusesTexts F.meaning F.does Need.All self.old self.new why) }
        ensures nothing_due { OnErr result (due.new.items ≡ due.old.items) }
        ensures gathering { self.new.gathering ≡ self.old.gathering }
    {
        let room = match self.prepare_batch(due) {
            Ok(room) => room,
            Err(NoMemory) => return Err(Unpublished::Refused(Refusal::NoMemory)),
        };
        if let Some(refusal) = self.refusal() {
            return Err(Unpublished::Refused(refusal));
        }
        if !room.everywhere {
            return Err(Unpublished::NoRoom);
        }
        let many = self.fitting(texts.len(), room.least);
        let stamp = self.next_stamp(source);
        let batches = match self.batches(*due.allocator(), stamp, &texts[..many]) {
            Ok(batches) => batches,
            Err(NoMemory) => return Err(Unpublished::Refused(Refusal::NoMemory)),
        };
        let lag = self.put_batches(batches, due);
        self.count(stamp, many);
        Ok(Publication {
            many,
            lost: 0,
            dropped: 0,
            lag,
        })
    }

    /// Makes room for the tasks that may be started, and looks at each live subscription. The answer is what that showed
    /// of their room.
    fn prepare_batch(&mut self, due: &mut Vec<Work<F::Task>>) -> Result<Room, NoMemory>
        requires sound { IsSound (hub_of F.meaning self.old) }
        ensures ok { IfOk result (FindsRoom F.meaning F.does self.old self.new) }
        ensures exact { OnErr result (PreparesInPart F.meaning F.does self.old self.new) }
        ensures looked { IsLookedAt (hub_of F.meaning self.old) (hub_of F.meaning self.new) }
        ensures rest { self.new ≡ record self.old { entries = self.new.entries } }
        ensures sound { IsSound (hub_of F.meaning self.new) }
        ensures due { due.new.items ≡ due.old.items }
        ensures places { OnOk result
            (vec_len due.new + vec_len self.new.live ≤ vec_capacity due.new) }
    {
        reserve_due(due, self.live.len())?;
        self.prepare_live()
    }

    /// Counts how many of this many texts can be published if every live subscription has this room.
    fn fitting(&self, texts: usize, room: u64) -> usize
        requires few { self.now.next ≤ MOST_PUBLICATIONS }
        ensures { result ≡ min (min texts (MOST_PUBLICATIONS - self.now.next)) room }
    {
        let left = MOST_PUBLICATIONS - self.next;
        (texts as u64).min(left).min(room) as usize
    }

    /// Makes the items with these texts, of which the first has this stamp, once for each live subscription.
    fn batches(
        &self,
        alloc: Global,
        stamp: Stamp,
        texts: &[Text],
    ) -> Result<Vec<Vec<Item>>, NoMemory>
        requires few { stamp.serial + length texts.now ≤ MOST_PUBLICATIONS }
        requires few_of_source { stamp.seq + length texts.now ≤ MOST_PUBLICATIONS }
        ensures ok { IfOk result (λ batches. AreBatches
            (items_from stamp.source stamp.seq stamp.serial texts.now) batches.items) }
        ensures as_many { IfOk result (λ batches. vec_len batches ≡ vec_len self.now.live) }
    {
        let many = self.live.len();
        let mut batches = Vec::with_capacity(alloc, many)?;
        for _ in 0..many {
            batches.push_reserved(items_of(alloc, stamp, texts)?);
        }
        Ok(batches)
    }

    /// Offers each live subscription a batch of the same items. The answer is the greatest lag.
    fn put_batches(&mut self, batches: Vec<Vec<Item>>, due: &mut Vec<Work<F::Task>>) -> u64
        requires live { AreLive self.old.live.items
            (map (entry_of F.meaning) self.old.entries.items) }
        requires can { (items : List Item) × (AreBatches items batches.items × ((0 < length items)
            × CanAllPutBatch (length items)
            (map (entry_of F.meaning) self.old.entries.items))) }
        requires as_many { vec_len batches ≡ vec_len self.old.live }
        requires places { vec_len due.old + vec_len self.old.live ≤ vec_capacity due.old }
        ensures puts { (items : List Item) → AreBatches items batches.items
            → (puts : List (Option (PutAll F.Task)))
            × (EachBy (PutsBatchTo F.meaning F.does self.old.next items) puts
            self.old.entries.items self.new.entries.items
            × GathersAll puts result due.old.items due.new.items) }
        ensures rest { self.new ≡ record self.old { entries = self.new.entries } }
    {
        let Hub {
            entries,
            live,
            next,
            ..
        } = self;
        put_batches(entries, live, *next, batches, due)
    }
}

/// Makes items with shares of these texts, in order, of which the first has this stamp.
fn items_of(alloc: Global, stamp: Stamp, texts: &[Text]) -> Result<Vec<Item>, NoMemory>
    requires few { stamp.serial + length texts.now ≤ MOST_PUBLICATIONS }
    requires few_of_source { stamp.seq + length texts.now ≤ MOST_PUBLICATIONS }
    ensures { IfOk result (λ items.
        items.items ≡ items_from stamp.source stamp.seq stamp.serial texts.now) }
{
    let mut items = Vec::with_capacity(alloc, texts.len())?;
    for (place, text) in texts.iter().enumerate() {
        items.push_reserved(Item {
            source: stamp.source,
            seq: stamp.seq + place as u64,
            serial: stamp.serial + place as u64,
            text: text.share()?,
        });
    }
    Ok(items)
}

/// Offers each live subscription a batch of the same items. The answer is the greatest lag.
fn put_batches<F: Feed>(
    entries: &mut [Entry<F>],
    live: &[u32],
    next: u64,
    batches: Vec<Vec<Item>>,
    due: &mut Vec<Work<F::Task>>,
) -> u64
    requires live { AreLive live.now (map (entry_of F.meaning) entries.old) }
    requires can { (items : List Item) × (AreBatches items batches.items × ((0 < length items)
        × CanAllPutBatch (length items) (map (entry_of F.meaning) entries.old))) }
    requires as_many { vec_len batches ≡ length live.now }
    requires places { vec_len due.old + length live.now ≤ vec_capacity due.old }
    ensures { (items : List Item) → AreBatches items batches.items
        → (puts : List (Option (PutAll F.Task)))
        × (EachBy (PutsBatchTo F.meaning F.does next items) puts entries.old entries.new
        × GathersAll puts result due.old.items due.new.items) }
{
    let mut batches = batches;
    let mut lag = 0;
    for number in live {
        let batch = take_batch(&mut batches);
        put_batch(
            &mut entries[*number as usize],
            *number,
            next,
            batch,
            &mut lag,
            due,
        );
    }
    lag
}

/// Takes a batch.
fn take_batch(batches: &mut Vec<Vec<Item>>) -> Vec<Item>
    requires some { 0 < vec_len batches.old }
    ensures batch { (items : List Item) → AreBatches items batches.old.items → result.items ≡ items }
    ensures rest { (items : List Item) → AreBatches items batches.old.items
        → AreBatches items batches.new.items }
    ensures as_many { vec_len batches.new + 1 ≡ vec_len batches.old }
{
    match batches.pop() {
        Some(batch) => batch,
        None => unreachable!(),
    }
}

/// Offers a batch to a subscription, and gathers what it answered.
fn put_batch<F: Feed>(
    entry: &mut Entry<F>,
    number: u32,
    next: u64,
    batch: Vec<Item>,
    lag: &mut u64,
    due: &mut Vec<Work<F::Task>>,
)
    requires some { 0 < length batch.items }
    requires can { CanPutBatch (length batch.items) (entry_of F.meaning entry.old) }
    requires place { vec_len due.old < vec_capacity due.old }
    ensures puts { (answer : Option (PutAll F.Task))
        × (PutsBatchTo F.meaning F.does next batch.items answer entry.old entry.new
        × AddsAll number answer lag.old lag.new due.old.items due.new.items) }
    ensures capacity { vec_capacity due.new ≡ vec_capacity due.old }
    ensures few { vec_len due.new ≤ vec_len due.old + 1 }
{
    let answer = entry.put_all(batch, next);
    note_answer(number, answer, lag, due);
}

/// Gathers what a subscription answered to an offer of a batch.
fn note_answer<T: Drop>(
    number: u32,
    answer: Option<PutAll<T>>,
    lag: &mut u64,
    due: &mut Vec<Work<T>>,
)
    requires place { vec_len due.old < vec_capacity due.old }
    ensures adds { AddsAll number answer lag.old lag.new due.old.items due.new.items }
    ensures capacity { vec_capacity due.new ≡ vec_capacity due.old }
    ensures few { vec_len due.new ≤ vec_len due.old + 1 }
{
    if let Some(PutAll::Accepted { lag: held, start }) = answer {
        *lag = (*lag).max(held);
        push_started(due, number, start);
    }
}
