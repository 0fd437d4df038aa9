//! How texts are published, if each live subscription has room whose room is needed, and else not at all. What becomes of
//! an item that finds a full buffer stands in offer.rt, and how a batch goes in batch.rt.
//!
//! The steps that each text goes through are inlined, here, in gathering.rt and in [`Text::new`]: the calls would take a
//! fifth of a publication's time, since a called function reads an item in other parts than those that it was just
//! written in.
ghost use Rattle.std.specs.Prelude.{◌≡◌, ◌+◌, ◌<◌, ◌≤◌, ◌++◌, [], List, Option, IfOk, IfErr, OnOk, OnErr, false, map, length, take, true, ℕ};
ghost use Rattle.flow_rules.specs.declared.feed.put.Put.{Put};
ghost use Rattle.flow_rules.specs.declared.item.TheConstants.{MOST_PUBLICATIONS};
ghost use Rattle.publisher_hub.specs.Entry.{entry_of};
ghost use Rattle.publisher_hub.specs.Gathering.{AreShares, Gathers, CanGather, Adds};
ghost use Rattle.publisher_hub.specs.Hub.{hub_of};
ghost use Rattle.publisher_hub.specs.Lists.{Each, EachBy, greatest};
ghost use Rattle.publisher_hub.specs.Offering.{Counts, PutsTo, backlogs, item_of};
ghost use Rattle.publisher_hub.specs.Policy.{LosesNothing};
ghost use Rattle.publisher_hub.specs.Publishing.{CanPublish, GoAtOnce, IsRefused, PublishesOne, PublishesTexts, RefusesTexts, loss_of};
ghost use Rattle.publisher_hub.specs.Batch.{ReachesAllFromTexts};
ghost use Rattle.publisher_hub.specs.Sound.{IsSound, AreLive, MOST_ENTRIES};
ghost use Rattle.publisher_hub.specs.Steps.{CanAllPut, CanPut};
ghost use Rattle.publisher_hub.specs.declared.policy.Need.TheVariants as Need;
ghost use Rattle.publisher_hub.specs.declared.work.Work.{Work};

use crate::entry::Entry;
use crate::hub::gathering::Gathering;
use crate::hub::stamp::Stamp;
use crate::hub::{Hub, MOST_SOURCES};
use crate::policy::Need;
use crate::work::Work;
use flow_rules::{Feed, MOST_PUBLICATIONS, NoMemory, Refusal, Text};
use std::error::Error;
use std::fmt;

/// What a publication of texts did.
#[derive(Clone, Copy, Debug, PartialEq, Eq)]
pub struct Publication {
    /// How many texts were published, from the first on: at least one.
    pub many: usize,
    /// How many of these at least one subscription lost.
    pub lost: usize,
    /// How many subscriptions lost the last of these.
    pub dropped: u32,
    /// The greatest lag of a subscription that accepted the last of these, in items; 0 if none did.
    pub lag: u64,
}

/// Why no text was published.
#[derive(Debug, Drop)]
pub enum Unpublished {
    /// The Hub refuses it.
    Refused(Refusal),
    /// A live subscription whose room is needed has none.
    NoRoom,
}

impl fmt::Display for Unpublished {
    fn fmt<W: fmt::Write>(&self, f: &mut fmt::Formatter<W>) -> fmt::Result {
        match self {
            Unpublished::Refused(refusal) => write!(f, "{refusal}"),
            Unpublished::NoRoom => f.write_str("a live subscription has no room"),
        }
    }
}

impl Error for Unpublished {}

impl<F: Feed> Hub<F> {
    /// Publishes the first of some texts to all live subscriptions at once, if those have room whose room is needed
    /// (`SubmissionPublisher.submit`, without waiting). Of the others, each whose buffer is full loses the text, and its
    /// count of drops grows by one.
    ///
    /// Texts that need the room of all are published one after the other: as many as there is room for at each
    /// subscription, and as may still be published. Each of them is a publication of its own. But each subscription is
    /// looked at once for all of them, and sees none before the last is there.
    ///
    /// Refused 5 if a growth is refused, 2 if the Hub is closed, and 13 once
    /// [`MOST_PUBLICATIONS`](flow_rules::MOST_PUBLICATIONS) were made; else `NoRoom` if a buffer is full whose room is
    /// needed. Then no list and no count has changed.
    #[inline(always)]
    pub fn publish(
        &mut self,
        source: u32,
        texts: &[Text],
        need: Need,
        due: &mut Vec<Work<F::Task>>,
    ) -> Result<Publication, Unpublished>
        requires sound { IsSound (hub_of F.meaning self.old) }
        requires source { source < MOST_SOURCES }
        requires some { 0 < length texts.now }
        ensures sound { IsSound (hub_of F.meaning self.new) }
        ensures ok { IfOk result (λ publication. PublishesTexts F.meaning F.does need source
            texts.now self.old self.new due.old.items due.new.items publication) }
        ensures within { IfOk result (λ publication. publication.many ≤ length texts.now) }
        ensures reached { IfOk result (λ publication. ReachesAllFromTexts source
            (take publication.many texts.now)
            (hub_of F.meaning self.old) (hub_of F.meaning self.new)) }
        ensures waiters { OnOk result (Each LosesNothing
            (hub_of F.meaning self.old).entries (hub_of F.meaning self.new).entries) }
        ensures counted { IfOk result (λ publication. Counts source publication.many
            (hub_of F.meaning self.old).progress (hub_of F.meaning self.new).progress) }
        ensures lag { IfOk result (λ publication. need ≡ Need.All
            → publication.lag ≡ greatest (backlogs (hub_of F.meaning self.new).entries)) }
        ensures due { OnOk result ((works : List (Work F.Task))
            × (due.new.items ≡ due.old.items ++ works)) }
        ensures refusals { IfErr result (λ why.
            RefusesTexts F.meaning F.does need self.old self.new why) }
        ensures nothing_due { OnErr result (due.new.items ≡ due.old.items) }
        ensures no_share { (GoAtOnce need texts.now → ⊥)
            → self.new.gathering.shares.items ≡ [] }
        ensures gathering { GoAtOnce need texts.now → self.new.gathering ≡ self.old.gathering }
    {
        if go_at_once(need, texts) {
            self.publish_batch(source, texts, due)
        } else {
            self.publish_one(source, texts, need, due)
        }
    }

    /// Publishes the first of some texts alone.
    #[inline(always)]
    fn publish_one(
        &mut self,
        source: u32,
        texts: &[Text],
        need: Need,
        due: &mut Vec<Work<F::Task>>,
    ) -> Result<Publication, Unpublished>
        requires sound { IsSound (hub_of F.meaning self.old) }
        requires source { source < MOST_SOURCES }
        requires some { 0 < length texts.now }
        ensures sound { IsSound (hub_of F.meaning self.new) }
        ensures ok { IfOk result (λ publication. PublishesOne F.meaning F.does need source
            texts.now self.old self.new due.old.items due.new.items publication) }
        ensures refusals { IfErr result (λ why.
            RefusesTexts F.meaning F.does need self.old self.new why) }
        ensures nothing_due { OnErr result (due.new.items ≡ due.old.items) }
        ensures no_share { self.new.gathering.shares.items ≡ [] }
    {
        let text = &texts[0];
        let stamp = self.next_stamp(source);
        let room = match self.prepare_publication(stamp, text, due) {
            Ok(room) => room,
            Err(NoMemory) => return Err(Unpublished::Refused(Refusal::NoMemory)),
        };
        if let Some(refusal) = self.refusal() {
            self.gathering.drop_shares();
            return Err(Unpublished::Refused(refusal));
        }
        if !room.has(need) {
            self.gathering.drop_shares();
            return Err(Unpublished::NoRoom);
        }
        self.put(stamp, text, due);
        self.gathering.decline();
        self.count_drops();
        self.gathering.drop_shares();
        self.count(stamp, 1);
        Ok(self.publication())
    }

    /// Gives the answer to a publication of one text.
    fn publication(&self) -> Publication
        requires few { self.now.gathering.drops ≤ MOST_ENTRIES }
        ensures { result ≡ record {
          many = 1;
          lost = loss_of self.now.gathering.drops;
          dropped = self.now.gathering.drops;
          lag = self.now.gathering.lag;
        } }
    {
        let dropped = self.gathering.drops as u32;
        Publication {
            many: 1,
            lost: loss(dropped),
            dropped,
            lag: self.gathering.lag,
        }
    }

    /// Says why the Hub takes no items any more, if it doesn't.
    pub(super) fn refusal(&self) -> Option<Refusal>
        ensures { IsRefused (hub_of F.meaning self.now).progress result }
    {
        if let Some(ending) = self.ending {
            return Some(Refusal::Closed(ending));
        }
        if self.next == MOST_PUBLICATIONS {
            return Some(Refusal::Exhausted);
        }
        None
    }

    /// Offers the item with this text to each live subscription.
    #[inline(always)]
    pub(super) fn put(&mut self, stamp: Stamp, text: &Text, due: &mut Vec<Work<F::Task>>)
        requires sound { IsSound (hub_of F.meaning self.old) }
        requires can { CanAllPut (map (entry_of F.meaning) self.old.entries.items) }
        requires ready { CanPublish (item_of stamp text.now) self.old due.old }
        ensures puts { (puts : List (Option (Put F.Task)))
            × (EachBy (PutsTo F.meaning F.does (item_of stamp text.now)) puts
            self.old.entries.items self.new.entries.items
            × Gathers (item_of stamp text.now) puts self.new.gathering due.old due.new) }
        ensures rest { hub_of F.meaning self.new ≡ record (hub_of F.meaning self.old) {
          entries = (hub_of F.meaning self.new).entries;
        } }
        ensures room { CanGather 0 self.new.gathering due.new }
    {
        let Hub {
            entries,
            live,
            gathering,
            ..
        } = self;
        put_all(entries, live, stamp, text, gathering, due);
    }
}

/// Tells whether texts are published at once.
fn go_at_once(need: Need, texts: &[Text]) -> bool
    ensures yes { result ≡ true → GoAtOnce need texts.now }
    ensures no { result ≡ false → GoAtOnce need texts.now → ⊥ }
{
    match need {
        Need::All => texts.len() > 1,
        Need::Waiters => false,
    }
}

/// Counts a text that this many subscriptions lost as lost once, if any did.
fn loss(dropped: u32) -> usize
    ensures { result ≡ loss_of dropped }
{
    if dropped > 0 {
        return 1;
    }
    0
}

/// Offers the item with this text to all live subscriptions. The number of each that is full is gathered, and its drop counted.
fn put_all<F: Feed>(
    entries: &mut [Entry<F>],
    live: &[u32],
    stamp: Stamp,
    text: &Text,
    gathering: &mut Gathering,
    due: &mut Vec<Work<F::Task>>,
)
    requires live { AreLive live.now (map (entry_of F.meaning) entries.old) }
    requires can { CanAllPut (map (entry_of F.meaning) entries.old) }
    requires shares { AreShares (item_of stamp text.now) gathering.old.shares.items }
    requires room { CanGather (length live.now) gathering.old due.old }
    requires missed { gathering.old.missed.items ≡ [] }
    requires lag { gathering.old.lag ≡ 0 }
    ensures puts { (puts : List (Option (Put F.Task)))
        × (EachBy (PutsTo F.meaning F.does (item_of stamp text.now)) puts entries.old entries.new
        × Gathers (item_of stamp text.now) puts gathering.new due.old due.new) }
    ensures room { CanGather 0 gathering.new due.new }
{
    for number in live {
        put_one(
            &mut entries[*number as usize],
            *number,
            stamp,
            text,
            gathering,
            due,
        );
    }
}

/// Offers a share of the item with this text to a subscription, and gathers what it answered.
fn put_one<F: Feed>(
    entry: &mut Entry<F>,
    number: u32,
    stamp: Stamp,
    text: &Text,
    gathering: &mut Gathering,
    due: &mut Vec<Work<F::Task>>,
)
    requires can { CanPut (entry_of F.meaning entry.old) }
    requires shares { AreShares (item_of stamp text.now) gathering.old.shares.items }
    requires room { (many : ℕ) × CanGather (many + 1) gathering.old due.old }
    ensures puts { (answer : Option (Put F.Task))
        × (PutsTo F.meaning F.does (item_of stamp text.now) answer entry.old entry.new
        × Adds (item_of stamp text.now) number answer
        gathering.old gathering.new due.old due.new) }
    ensures room { (many : ℕ)
        → CanGather (many + 1) gathering.old due.old → CanGather many gathering.new due.new }
{
    let share = gathering.take_share();
    let answer = entry.put(share);
    gathering.note(number, answer, due);
}
