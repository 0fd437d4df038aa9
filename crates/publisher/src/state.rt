//! What stands behind a publisher's lock: each call of it is made while the lock is held once.
//!
//! Nothing here waits or calls a subscriber. How threads take the lock and sleep stands in `lock`, and what they do
//! around it in the modules beside this one.
mod census;
mod close;
mod lock;
mod look;
mod publish;
mod sources;
mod stats;
mod subscribe;
mod take_out;
mod waiters;

ghost use Rattle.std.specs.Prelude.{◌≡◌, ◌<◌, ◌↔◌, zero, Err, IfErr, IfOk};
ghost use Rattle.flow_rules.specs.declared.refusal.Refusal.TheVariants as Refusal;
ghost use Rattle.flow_rules.specs.Capacity.{capacity_of};
ghost use Rattle.publisher.specs.Blanks.{AreBlanksOf};
ghost use Rattle.publisher.specs.Making.{RefusesMost, RefusesState};

use crate::ledgers::{BlankPair, Drops, Ledgers, Pages, Publications};
use census::Census;
use close_count::{Count, Spent};
use feed_cell::Producer;
use flow_rules::{Listener, Refusal, capacity};
use history::History;
pub(crate) use lock::StateLock;
pub(crate) use look::{Drained, Ended};
pub(crate) use publish::{NoRoom, Refused};
use publisher_hub::{Hub, MOST_LIVE};
pub use sources::Own;
pub use stats::Stats;
use std::alloc::Global;
use std::marker::Model;
use std::sync::ledger::{Book, Share};
pub(crate) use subscribe::Subscribed;
pub(crate) use waiters::{LoopsEnded, Reason, Waiters};

/// The parts of each ledger: one for each of 256 submitters, and one that stays behind the lock.
pub const PARTS: u64 = 257;

/// What stands behind a publisher's lock.
#[derive(Drop)]
pub struct State<L: Ledgers, B: Listener> {
    hub: Hub<Producer<B>>,
    /// How many items were published, and how many offers found a buffer full: the sums of all shares.
    published: Book<Publications<L>>,
    dropping: Book<Drops<L>>,
    /// The shares that no submitter has.
    rest: Share<Publications<L>>,
    rest_of_drops: Share<Drops<L>>,
    /// All that was published. The submitters have its passes.
    history: History<Pages<L>>,
    /// How many submitters were made, and how many subscriptions have a number.
    sources: u32,
    entries: u32,
    /// How many subscriptions there ever were, and may be live.
    census: Census,
    /// How many subscriptions had a number before the close, once the publisher is closed. These have tickets, and
    /// later ones don't.
    counted: Option<u32>,
    /// What is left of the last ticket of the count, once that was spent. Until the close the opening is a ticket, so
    /// this comes after it.
    last: Option<Spent>,
    /// Who waits for what others do.
    waiters: Waiters,
}

impl<L: Ledgers, B: Listener> Model for State<L, B> {
    ghost use Rattle.publisher_hub.specs.Hub.{hub_of};
    ghost use Rattle.publisher.specs.State.{PublisherState, IsState, producer_end};

    ghost Value = { PublisherState };

    ghost view = { λ s. record {
      hub = s.hub;
      counted = s.counted;
      last = s.last;
      census = s.census;
      waiters = s.waiters;
    } };

    ghost invariant = { λ s. IsState (hub_of producer_end s.hub) (record {
      published = s.published.total;
      dropping = s.dropping.total;
      parts = s.rest.parts;
      amount = s.rest.amount;
      drop_parts = s.rest_of_drops.parts;
      drop_amount = s.rest_of_drops.amount;
      sources = s.sources;
      entries = s.entries;
      counted = s.counted;
      last = s.last;
      log = s.history.log;
      made = s.history.made;
    }) };
}

impl<L: Ledgers, B: Listener> State<L, B> {
    /// Makes what stands behind the lock of a new publisher, whose buffers have the capacity that is enforced if this
    /// one is asked for, and of whose subscriptions this many may be live.
    ///
    /// Refused 1 if that capacity is 0, then 4 if these are more than [`MOST_LIVE`], and then 5 if a growth is refused.
    pub fn new(
        alloc: Global,
        asked: usize,
        most_live: usize,
        blanks: BlankPair,
    ) -> Result<State<L, B>, Refusal>
        requires blanks { AreBlanksOf blanks L.publications L.drops L.history }
        ensures bad_capacity { (result ≡ Err Refusal.BadCapacity) ↔ (asked ≡ 0) }
        ensures too_many { RefusesMost result asked most_live }
        ensures capacity { IfOk result (λ state. state.hub.capacity ≡ capacity_of asked) }
        ensures most { IfOk result (λ state. state.census.most ≡ most_live) }
        ensures refusals { IfErr result (λ refusal. RefusesState refusal) }
    {
        let _ = capacity(asked)?;
        if most_live > MOST_LIVE {
            return Err(Refusal::TooMany);
        }
        let mut hub = Hub::new(alloc, asked)?;
        hub.set_opening(Count::new(alloc)?);
        let BlankPair {
            publications,
            drops,
            history,
        } = blanks;
        let (published, rest) = publications.open::<Publications<L>>();
        let (dropping, rest_of_drops) = drops.open::<Drops<L>>();
        Ok(State {
            hub,
            published,
            dropping,
            rest,
            rest_of_drops,
            history: history.named(),
            sources: 0,
            entries: 0,
            census: Census::new(alloc, most_live),
            counted: None,
            last: None,
            waiters: Waiters::none(),
        })
    }

    /// Tells the capacity of each buffer.
    pub fn capacity(&self) -> usize
        ensures { result ≡ self.now.hub.capacity }
    {
        self.hub.capacity()
    }
}
