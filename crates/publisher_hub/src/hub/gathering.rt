//! What a publication gathers as it goes round: the shares that are left, the full buffers, the greatest lag and the
//! drops. It offers nothing to a subscription.
ghost use Rattle.std.specs.Prelude.{◌≡◌, ◌+◌, ◌≤◌, ◌++◌, ◌<◌, [], length, max, fold, OnErr, OnOk, Some, vec_len};
ghost use Rattle.std.specs.Vec.{vec_capacity};
ghost use Rattle.flow_rules.specs.declared.item.Item.{Item};
ghost use Rattle.flow_rules.specs.declared.item.TheConstants.{MOST_PUBLICATIONS};
ghost use Rattle.publisher_hub.specs.Gathering.{AreShares, back_by, dropped_by, lag_by, missed_by, started_by, work_of};
ghost use Rattle.publisher_hub.specs.Offering.{item_of};

use crate::hub::stamp::Stamp;
use crate::work::Work;
use flow_rules::{Item, NoMemory, Put, Text};
use std::alloc::Global;

/// What a publication gathers as it goes round. Its room is kept for the next one.
#[derive(Drop)]
pub(crate) struct Gathering {
    /// Shares of the item that were not given yet.
    pub shares: Vec<Item>,
    /// The numbers of the subscriptions whose buffer was full, in order.
    pub missed: Vec<u32>,
    /// The greatest lag so far.
    pub lag: u64,
    /// How many drops stand after the second tries so far.
    pub drops: u64,
}

impl Gathering {
    /// Makes a Gathering of nothing.
    pub fn new(alloc: Global) -> Gathering {
        Gathering {
            shares: Vec::new(alloc),
            missed: Vec::new(alloc),
            lag: 0,
            drops: 0,
        }
    }

    /// Makes this many shares of the item with this text, once all that was gathered is forgotten.
    #[inline(always)]
    pub fn begin(&mut self, stamp: Stamp, text: &Text, many: usize) -> Result<(), NoMemory>
        requires no_share { self.old.shares.items ≡ [] }
        requires none_missed { self.old.missed.items ≡ [] }
        requires no_lag { self.old.lag ≡ 0 }
        requires no_drops { self.old.drops ≡ 0 }
        ensures shares { OnOk result (AreShares (item_of stamp text.now) self.new.shares.items) }
        ensures as_many { OnOk result (vec_len self.new.shares ≡ many) }
        ensures missed { OnOk result (self.new.missed.items ≡ []) }
        ensures room { OnOk result (many ≤ vec_capacity self.new.missed) }
        ensures lag { self.new.lag ≡ 0 }
        ensures drops { self.new.drops ≡ 0 }
        ensures no_share { OnErr result (self.new.shares.items ≡ []) }
    {
        self.missed.reserve(many)?;
        self.shares.reserve(many)?;
        let made = share_out(&mut self.shares, stamp, text, many);
        if made.is_err() {
            self.drop_shares();
        }
        made
    }

    /// Forgets what was gathered.
    #[inline(always)]
    pub fn forget(&mut self)
        ensures shares { self.new.shares.items ≡ [] }
        ensures missed { self.new.missed.items ≡ [] }
        ensures lag { self.new.lag ≡ 0 }
        ensures drops { self.new.drops ≡ 0 }
    {
        self.shares.clear();
        self.missed.clear();
        self.lag = 0;
        self.drops = 0;
    }

    /// Drops the shares that were not given.
    pub fn drop_shares(&mut self)
        ensures shares { self.new.shares.items ≡ [] }
        ensures missed { self.new.missed ≡ self.old.missed }
        ensures lag { self.new.lag ≡ self.old.lag }
        ensures drops { self.new.drops ≡ self.old.drops }
    {
        self.shares.clear();
    }

    /// Takes a share.
    pub fn take_share(&mut self) -> Item
        requires some { 0 < vec_len self.old.shares }
        ensures share { (item : Item) → AreShares item self.old.shares.items → result ≡ item }
        ensures rest { (item : Item)
            → AreShares item self.old.shares.items → AreShares item self.new.shares.items }
        ensures as_many { vec_len self.new.shares + 1 ≡ vec_len self.old.shares }
        ensures capacity { vec_capacity self.new.shares ≡ vec_capacity self.old.shares }
        ensures missed { self.new.missed ≡ self.old.missed }
        ensures lag { self.new.lag ≡ self.old.lag }
        ensures drops { self.new.drops ≡ self.old.drops }
    {
        match self.shares.pop() {
            Some(share) => share,
            None => unreachable!(),
        }
    }

    /// Gathers what a subscription answered to an offer.
    pub fn note<T: Drop>(&mut self, number: u32, answer: Option<Put<T>>, due: &mut Vec<Work<T>>)
        requires due { vec_len due.old < vec_capacity due.old }
        requires shares { vec_len self.old.shares < vec_capacity self.old.shares }
        requires missed { vec_len self.old.missed < vec_capacity self.old.missed }
        ensures due { due.new.items ≡ due.old.items ++ started_by number answer }
        ensures missed { self.new.missed.items ≡ self.old.missed.items ++ missed_by number answer }
        ensures shares { self.new.shares.items ≡ self.old.shares.items ++ back_by answer }
        ensures lag { self.new.lag ≡ fold max self.old.lag (lag_by number answer) }
        ensures due_capacity { vec_capacity due.new ≡ vec_capacity due.old }
        ensures missed_capacity { vec_capacity self.new.missed ≡ vec_capacity self.old.missed }
        ensures shares_capacity { vec_capacity self.new.shares ≡ vec_capacity self.old.shares }
        ensures drops { self.new.drops ≡ self.old.drops }
    {
        match answer {
            Some(Put::Accepted { lag, start }) => {
                self.lag = self.lag.max(lag);
                push_started(due, number, start);
            }
            Some(Put::Full(back)) => {
                self.shares.push_reserved(back);
                self.missed.push_reserved(number);
            }
            _ => {}
        }
    }

    /// Counts the drops, which stand without a second try.
    pub fn decline(&mut self)
        ensures drops { self.new.drops ≡ vec_len self.old.missed }
        ensures lag { self.new.lag ≡ self.old.lag }
        ensures missed { self.new.missed ≡ self.old.missed }
        ensures shares { self.new.shares ≡ self.old.shares }
    {
        self.drops = self.missed.len() as u64;
    }

    /// Gathers what a subscription answered to a second offer, or that its drop stands without a second offer.
    pub fn note_again<T: Drop>(
        &mut self,
        number: u32,
        answer: Option<Put<T>>,
        due: &mut Vec<Work<T>>,
    )
        requires due { vec_len due.old < vec_capacity due.old }
        requires drops { self.old.drops < MOST_PUBLICATIONS }
        ensures due { due.new.items ≡ due.old.items ++ started_by number answer }
        ensures lag { self.new.lag ≡ fold max self.old.lag (lag_by number answer) }
        ensures drops { self.new.drops ≡ self.old.drops + length (dropped_by number (Some answer)) }
        ensures due_capacity { vec_capacity due.new ≡ vec_capacity due.old }
        ensures missed { self.new.missed ≡ self.old.missed }
        ensures shares { self.new.shares ≡ self.old.shares }
    {
        match answer {
            Some(Put::Accepted { lag, start }) => {
                self.lag = self.lag.max(lag);
                push_started(due, number, start);
            }
            Some(Put::Gone(_)) => {}
            _ => self.drops += 1,
        }
    }
}

/// Puts this many shares of the item with this text into an empty list that has room for them.
#[inline(always)]
fn share_out(shares: &mut Vec<Item>, stamp: Stamp, text: &Text, many: usize) -> Result<(), NoMemory>
    requires empty { shares.old.items ≡ [] }
    requires room { many ≤ vec_capacity shares.old }
    ensures shares { OnOk result (AreShares (item_of stamp text.now) shares.new.items) }
    ensures as_many { OnOk result (vec_len shares.new ≡ many) }
{
    for _ in 0..many {
        shares.push_reserved(stamp.item(text.share()?));
    }
    Ok(())
}

/// Puts a started task into `due`, with the number of its subscription.
pub(super) fn push_started<T: Drop>(due: &mut Vec<Work<T>>, number: u32, start: Option<T>)
    requires { vec_len due.old < vec_capacity due.old }
    ensures due { due.new.items ≡ due.old.items ++ work_of number start }
    ensures capacity { vec_capacity due.new ≡ vec_capacity due.old }
{
    if let Some(task) = start {
        due.push_reserved(Work {
            entry: number,
            task,
        });
    }
}
