//! What a Hub stores, how it is made and what it shows of itself: the subscriptions of one publisher, each held by its
//! producer's end, and the numbers of its publications. It runs no subscriber, waits for nobody and takes no lock:
//! whoever calls it sees to it that the calls come one after the other, and that the tasks they start are run.
//!
//! A round over the live subscriptions is three functions, as `end_live`, `end_all` and [`Entry::end`] are: one that
//! borrows the list and the numbers out of the Hub, the loop, and what is done at one subscription. The prover takes a
//! loop that changes what it has borrowed only in a function that was lent just that.

mod admit;
mod batch;
mod close;
mod gathering;
mod look;
mod offer;
mod prepare;
mod publication;
mod publish;
mod retire;
mod room;
mod stamp;
mod stats;
mod subscribe;

ghost use Rattle.std.specs.Borrow.{sem};
ghost use Rattle.std.specs.Option.{option_copied, option_copied_mut};
ghost use Rattle.std.specs.Prelude.{Err, ◌⊎◌, ◌≡◌, ◌≤◌, ◌↔◌, IfOk, IfErr, replicate, IsSome, Some, option_map, slice_get, true, ◌+◌, ◌<◌, IsErr, OnErr};
ghost use Rattle.flow_rules.specs.Capacity.{capacity_of};
ghost use Rattle.flow_rules.specs.declared.refusal.Refusal.TheVariants as Refusal;
ghost use Rattle.publisher_hub.specs.Hub.{hub_of, hub_at_start};
ghost use Rattle.publisher_hub.specs.Sound.{IsSound};

use crate::entry::Entry;
use crate::hub::gathering::Gathering;
use crate::policy::OnFull;
use close_count::Opening;
use flow_rules::{Ending, Feed, MOST_PUBLICATIONS, Name, NoMemory, Refusal, capacity};
pub use publish::{Publication, Unpublished};
pub use stats::Figures;
use std::alloc::Global;

/// How many live subscriptions a Hub has at most. Each call that may add one is told how many of these may be live.
pub const MOST_LIVE: usize = 4_096;

/// How many live subscriptions a Hub has at most, as a rule.
pub const USUAL_LIVE: usize = 64;

/// How many places for subscriptions a Hub has at most. A subscription keeps its place until its producer's end and its
/// ticket were taken out and another one was put there.
pub const MOST_ENTRIES: usize = 4_294_967_295;

/// How many sources a Hub has at most: submitters, if threads publish.
pub const MOST_SOURCES: usize = 256;

/// What a Hub knows of a subscription without its end.
#[derive(Clone, Copy, Debug, PartialEq, Eq)]
pub struct Facts {
    /// The name that its subscriber subscribed with.
    pub name: Name,
    /// What it said of its full buffer.
    pub on_full: OnFull,
    /// The next serial number when it was made.
    pub since: u64,
    /// How many publications were dropped at it because its buffer was full, after the second tries.
    pub dropped: u64,
}

/// The subscriptions of one publisher, and the numbers of its publications (`SubmissionPublisher`, Java SE 17).
///
/// A new Hub is sound, and each call leaves a sound Hub sound: what each subscription accepted has rising serial
/// numbers; two that accepted an item of one serial number accepted the same item; and what each accepted and dropped
/// is, in number, what was published while it took part, from its subscribing until it was retired. An end that
/// [`Hub::feed_mut`] lends has to be left as [`lent_feeds_keep_hubs_sound`](crate::lent_feeds_keep_hubs_sound) says.
#[derive(Drop)]
pub struct Hub<F> {
    /// The capacity of each buffer.
    pub(crate) capacity: usize,
    /// The next serial number, at most [`MOST_PUBLICATIONS`](flow_rules::MOST_PUBLICATIONS).
    pub(crate) next: u64,
    /// How many items of each source were published.
    pub(crate) counts: Vec<u64>,
    /// How many sources were handed out.
    pub(crate) sources: u32,
    /// How it was closed, if it was.
    pub(crate) ending: Option<Ending>,
    /// How many offers were dropped at any subscription, after their second tries.
    pub(crate) dropping: u64,
    /// The opening ticket, until it is closed.
    pub(crate) opening: Option<Opening>,
    /// All subscriptions in the order of their numbers, but those whose place was given to another one.
    pub(crate) entries: Vec<Entry<F>>,
    /// The numbers of those that may be live, rising.
    pub(crate) live: Vec<u32>,
    /// What a publication gathers. Its room is kept for the next one, and no share.
    pub(crate) gathering: Gathering,
}

impl<F: Feed> Hub<F> {
    /// Makes a Hub without subscriptions, whose buffers have the capacity that is enforced if this one is asked for.
    ///
    /// Refused 1 if the capacity is 0, and 5 if a growth is refused.
    pub fn new(alloc: Global, asked: usize) -> Result<Hub<F>, Refusal>
        ensures ok { IfOk result (λ hub.
            hub_of F.meaning hub ≡ hub_at_start (capacity_of asked) 0) }
        ensures sound { IfOk result (λ hub. IsSound (hub_of F.meaning hub)) }
        ensures bad_capacity { (result ≡ Err Refusal.BadCapacity) ↔ (asked ≡ 0) }
        ensures refusals { IfErr result (λ refusal.
            (refusal ≡ Refusal.BadCapacity) ⊎ (refusal ≡ Refusal.NoMemory)) }
    {
        Hub::starting_at(alloc, asked, 0)
    }

    /// Makes a Hub as [`new`](Hub::new) does, whose next serial number is this one.
    pub fn starting_at(alloc: Global, asked: usize, serial: u64) -> Result<Hub<F>, Refusal>
        requires { serial ≤ MOST_PUBLICATIONS }
        ensures ok { IfOk result (λ hub.
            hub_of F.meaning hub ≡ hub_at_start (capacity_of asked) serial) }
        ensures sound { IfOk result (λ hub. IsSound (hub_of F.meaning hub)) }
        ensures bad_capacity { (result ≡ Err Refusal.BadCapacity) ↔ (asked ≡ 0) }
        ensures refusals { IfErr result (λ refusal.
            (refusal ≡ Refusal.BadCapacity) ⊎ (refusal ≡ Refusal.NoMemory)) }
    {
        let capacity = capacity(asked)?;
        Ok(Hub {
            capacity,
            next: serial,
            counts: no_counts(alloc)?,
            sources: 0,
            ending: None,
            dropping: 0,
            opening: None,
            entries: Vec::new(alloc),
            live: Vec::new(alloc),
            gathering: Gathering::new(alloc),
        })
    }

    /// Gives the capacity of each buffer (`SubmissionPublisher.getMaxBufferCapacity`).
    pub fn capacity(&self) -> usize
        ensures { result ≡ (hub_of F.meaning self.now).progress.capacity }
    {
        self.capacity
    }

    /// Gives the serial number of the next publication.
    pub fn next_serial(&self) -> u64
        requires { IsSound (hub_of F.meaning self.now) }
        ensures value { result ≡ (hub_of F.meaning self.now).progress.next }
        ensures bounded { result ≤ MOST_PUBLICATIONS }
    {
        self.next
    }

    /// Says how it was closed, if it was (`SubmissionPublisher.isClosed` and `getClosedException`).
    pub fn ending(&self) -> Option<Ending>
        ensures { result ≡ (hub_of F.meaning self.now).progress.ending }
    {
        self.ending
    }

    /// Gives the number of another source, from 0: each source has its own count of the items that it published.
    ///
    /// `TooMany` once all [`MOST_SOURCES`] were handed out; nothing has changed then.
    pub fn next_source(&mut self) -> Result<u32, Refusal>
        requires sound { IsSound (hub_of F.meaning self.old) }
        ensures next { IfOk result (λ source. source ≡ (hub_of F.meaning self.old).sources) }
        ensures counted { IfOk result (λ source.
            self.new ≡ record self.old { sources = source + 1 }) }
        ensures below { IfOk result (λ source. source < MOST_SOURCES) }
        ensures refused { IsErr result ↔ ((hub_of F.meaning self.old).sources ≡ MOST_SOURCES) }
        ensures refusals { IfErr result (λ refusal. refusal ≡ Refusal.TooMany) }
        ensures unchanged { OnErr result (self.new ≡ self.old) }
        ensures sound { IsSound (hub_of F.meaning self.new) }
    {
        let source = self.sources;
        if source as usize == MOST_SOURCES {
            return Err(Refusal::TooMany);
        }
        self.sources += 1;
        Ok(source)
    }
}

/// What a Hub shows of a subscription.
impl<F: Feed> Hub<F> {
    ghost use Rattle.publisher_hub.specs.Facts.{facts_of};
    ghost use Rattle.publisher_hub.specs.Lending.{feed_at, lends_feed_at, lends_feed_if};

    /// Gives what is known of the subscription of this number without its end, and `None` if no subscription has this
    /// number.
    pub fn facts(&self, entry: u32) -> Option<Facts>
        ensures { result ≡ option_map facts_of
            (slice_get (hub_of F.meaning self.now).entries entry) }
    {
        match self.entries.get(entry as usize) {
            Some(it) => Some(Facts {
                name: it.name,
                on_full: it.on_full,
                since: it.since,
                dropped: it.dropped,
            }),
            None => None,
        }
    }

    /// Shows the producer's end of the subscription of this number, and `None` if no subscription has this number or
    /// the end was taken out.
    pub fn feed(&self, entry: u32) -> Option<&F>
        ensures { option_copied result ≡ feed_at self.now entry }
    {
        match self.entries.get(entry as usize) {
            Some(entry) => entry.feed.as_ref(),
            None => None,
        }
    }

    /// Lends the producer's end of the subscription of this number, and `None` if no subscription has this number or
    /// the end was taken out.
    ///
    /// Nothing else of the Hub changes. The Hub stays sound if the end is left with its capacity, what it accepted and
    /// how it was closed, and if neither an item that was taken nor its end is taken back
    /// ([`lent_feeds_keep_hubs_sound`](crate::lent_feeds_keep_hubs_sound)).
    pub fn feed_mut(&mut self, entry: u32) -> Option<&mut F>
        ensures* writes_back { sem 𝓛 (lends_feed_if F.row self.entry entry result) }
        ensures value { option_copied_mut result ≡ feed_at self.old entry }
    {
        if self.has_feed(entry) {
            Some(self.feed_at(entry))
        } else {
            None
        }
    }

    /// Says whether the producer's end of the subscription of this number is there. It isn't if no subscription has
    /// this number, or the end was taken out.
    pub fn has_feed(&self, entry: u32) -> bool
        ensures { (result ≡ true) ↔ IsSome (feed_at self.now entry) }
    {
        match self.entries.get(entry as usize) {
            Some(entry) => entry.feed.is_some(),
            None => false,
        }
    }

    /// Lends the producer's end of the subscription of this number.
    fn feed_at(&mut self, entry: u32) -> &mut F
        requires { IsSome (feed_at self.old entry) }
        ensures* writes_back { sem 𝓛 (lends_feed_at F.row self.entry entry result) }
        ensures value { feed_at self.old entry ≡ Some result.now }
    {
        self.entries[entry as usize].feed_mut()
    }
}

/// Makes the counts of a new Hub: no source has published an item.
fn no_counts(alloc: Global) -> Result<Vec<u64>, NoMemory>
    ensures { IfOk result (λ counts. counts.items ≡ replicate MOST_SOURCES 0) }
{
    Ok(Vec::from_slice(alloc, &[0; MOST_SOURCES])?)
}
