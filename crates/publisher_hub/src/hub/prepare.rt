//! How the live subscriptions of a Hub are made ready for a call that may start tasks: each is looked at, and has what
//! a started task needs if it goes on. No task is started here.
ghost use Rattle.std.specs.Prelude.{◌≡◌, [], IfOk, IsOk, OnErr, OnOk, vec_capacity, ◌<◌, vec_len, List, Option, map, ◌+◌, ◌≤◌};
ghost use Rattle.flow_rules.specs.declared.feed.standing.Standing.{Standing};
ghost use Rattle.publisher_hub.specs.Entry.{entry_of};
ghost use Rattle.publisher_hub.specs.Hub.{hub_of};
ghost use Rattle.publisher_hub.specs.Lists.{Each, EachBy};
ghost use Rattle.publisher_hub.specs.Looking.{FailsToPrepare, FindsRoom, IsLookedAt, PreparesInPart, MayPrepare, Prepares, ShowsRoom};
ghost use Rattle.publisher_hub.specs.Offering.{item_of};
ghost use Rattle.publisher_hub.specs.Overview.{CountsRoom};
ghost use Rattle.publisher_hub.specs.Policy.{waits};
ghost use Rattle.publisher_hub.specs.Publishing.{CanPublish};
ghost use Rattle.publisher_hub.specs.Readiness.{AreReady};
ghost use Rattle.publisher_hub.specs.Sound.{IsSound, AreLive};
ghost use Rattle.publisher_hub.specs.Steps.{AreHere, IsHere};
ghost use Rattle.publisher_hub.specs.Subscribing.{IsPrepared, IsPreparedInPart};

use crate::entry::Entry;
use crate::hub::Hub;
use crate::hub::room::Room;
use crate::hub::stamp::Stamp;
use crate::work::Work;
use flow_rules::{Feed, NoMemory, Text};

impl<F: Feed> Hub<F> {
    /// Looks at all live subscriptions, retires those that have ended, and makes each that goes on ready for one task.
    /// The answer is what that showed of their room.
    #[inline(always)]
    pub(super) fn prepare_live(&mut self) -> Result<Room, NoMemory>
        requires sound { IsSound (hub_of F.meaning self.old) }
        ensures ok { IfOk result (FindsRoom F.meaning F.does self.old self.new) }
        ensures exact { OnErr result (PreparesInPart F.meaning F.does self.old self.new) }
        ensures rest { self.new ≡ record self.old { entries = self.new.entries } }
        ensures places { vec_capacity self.new.entries ≡ vec_capacity self.old.entries }
        ensures looked { IsLookedAt (hub_of F.meaning self.old) (hub_of F.meaning self.new) }
        ensures sound { IsSound (hub_of F.meaning self.new) }
        ensures not_refused { AreReady (hub_of F.meaning self.old).entries → IsOk result }
        ensures ready { OnOk result (AreReady (hub_of F.meaning self.new).entries) }
    {
        let Hub {
            entries,
            live,
            next,
            capacity,
            ..
        } = self;
        prepare_all(entries, live, *next, *capacity)
    }

    /// Takes all that a publication needs, and looks at each live subscription. The answer is what that showed of their
    /// room.
    #[inline(always)]
    pub(super) fn prepare_publication(
        &mut self,
        stamp: Stamp,
        text: &Text,
        due: &mut Vec<Work<F::Task>>,
    ) -> Result<Room, NoMemory>
        requires sound { IsSound (hub_of F.meaning self.old) }
        ensures ok { IfOk result (FindsRoom F.meaning F.does self.old self.new) }
        ensures exact { OnErr result (PreparesInPart F.meaning F.does self.old self.new) }
        ensures looked { IsLookedAt (hub_of F.meaning self.old) (hub_of F.meaning self.new) }
        ensures sound { IsSound (hub_of F.meaning self.new) }
        ensures due { due.new.items ≡ due.old.items }
        ensures ready { OnOk result (CanPublish (item_of stamp text.now) self.new due.new) }
        ensures no_share { OnErr result (self.new.gathering.shares.items ≡ []) }
    {
        self.gathering.forget();
        due.reserve(self.live.len())?;
        self.gathering.begin(stamp, text, self.live.len())?;
        let prepared = self.prepare_live();
        if prepared.is_err() {
            self.gathering.drop_shares();
        }
        prepared
    }

    /// Looks at all live subscriptions, retires those that have ended, makes the others ready for one task each, and
    /// leaves the numbers of the retired ones out. There is a place for one task, too.
    pub(super) fn see_all(&mut self, due: &mut Vec<Work<F::Task>>) -> Result<(), NoMemory>
        requires sound { IsSound (hub_of F.meaning self.old) }
        ensures seen { OnOk result (IsPrepared F.meaning F.does self.old self.new) }
        ensures in_part { OnErr result (IsPreparedInPart F.meaning F.does self.old self.new) }
        ensures rest { self.new ≡ record self.old {
          entries = self.new.entries;
          live = self.new.live;
        } }
        ensures entry_places { vec_capacity self.new.entries ≡ vec_capacity self.old.entries }
        ensures number_places { vec_capacity self.new.live ≡ vec_capacity self.old.live }
        ensures due { due.new.items ≡ due.old.items }
        ensures due_place { OnOk result (vec_len due.new < vec_capacity due.new) }
        ensures ready { OnOk result (AreReady (hub_of F.meaning self.new).entries) }
        ensures not_refused { vec_len due.old < vec_capacity due.old
            → AreReady (hub_of F.meaning self.old).entries → IsOk result }
        ensures sound { IsSound (hub_of F.meaning self.new) }
    {
        reserve_due(due, 1)?;
        self.prepare_live()?;
        self.leave_out_retired();
        Ok(())
    }
}

/// Looks at all live subscriptions, and makes each that goes on ready for one task. The answer is what that showed of
/// their room.
#[inline(always)]
fn prepare_all<F: Feed>(
    entries: &mut [Entry<F>],
    live: &[u32],
    next: u64,
    capacity: usize,
) -> Result<Room, NoMemory>
    requires live { AreLive live.now (map (entry_of F.meaning) entries.old) }
    requires here { AreHere (map (entry_of F.meaning) entries.old) }
    ensures ok { IfOk result (λ room. (glances : List (Option Standing))
        × (EachBy (Prepares F.meaning F.does next) glances entries.old entries.new
        × ShowsRoom room capacity entries.old glances)) }
    ensures exact { OnErr result (Each (MayPrepare F.meaning F.does next) entries.old entries.new) }
    ensures not_refused { AreReady (map (entry_of F.meaning) entries.old) → IsOk result }
{
    let mut room = Room::everywhere();
    for number in live {
        // The others are made ready, also after a subscription without room.
        prepare_one(&mut entries[*number as usize], next, capacity, &mut room)?;
    }
    Ok(room)
}

/// Looks at a subscription, makes it ready for one task if it goes on, and counts what that showed of its room.
fn prepare_one<F: Feed>(
    entry: &mut Entry<F>,
    next: u64,
    capacity: usize,
    room: &mut Room,
) -> Result<(), NoMemory>
    requires here { IsHere (entry_of F.meaning entry.old) }
    ensures ok { OnOk result ((glance : Option Standing)
        × (Prepares F.meaning F.does next glance entry.old entry.new
        × CountsRoom capacity (waits entry.old.on_full) glance room.old room.new)) }
    ensures refused { OnErr result (FailsToPrepare F.meaning F.does next entry.old entry.new) }
{
    let waited = entry.on_full.waits();
    let glance = entry.prepare(next)?;
    room.count(&glance, waited, capacity);
    Ok(())
}

/// Makes room for this many tasks.
pub(super) fn reserve_due<T>(due: &mut Vec<Work<T>>, many: usize) -> Result<(), NoMemory>
    ensures items { due.new.items ≡ due.old.items }
    ensures room { OnOk result (vec_len due.new + many ≤ vec_capacity due.new) }
    ensures not_refused { vec_len due.old + many ≤ vec_capacity due.old → IsOk result }
    ensures capacity { vec_capacity due.old ≤ vec_capacity due.new }
{
    Ok(due.reserve(many)?)
}
