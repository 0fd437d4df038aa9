//! How a Hub looks at its live subscriptions: the calls that only look, the round that they make, and how names are
//! searched for. Each look retires a subscription that has ended, and no call of this file changes anything else.
ghost use Rattle.std.specs.Prelude.{◌≡◌, ◌↔◌, List, Option, IfOk, length, true, ◌<◌, ◌^◌, ◌+◌, ℕ, map, None, Some, IfSome, false, slice_get};
ghost use Rattle.flow_rules.specs.declared.feed.standing.Standing.{Standing};
ghost use Rattle.publisher_hub.specs.Entry.{entry_of};
ghost use Rattle.publisher_hub.specs.Hub.{hub_of};
ghost use Rattle.publisher_hub.specs.Lists.{greatest, EachBy};
ghost use Rattle.publisher_hub.specs.Looking.{IsRoom, IsRoomForWaiters, LooksAtAll, living, waiting, LooksAtOne, Glances};
ghost use Rattle.publisher_hub.specs.Names.{IsSubscribed, live_names};
ghost use Rattle.publisher_hub.specs.Overview.{Shows, CountsLook};
ghost use Rattle.publisher_hub.specs.Policy.{waits};
ghost use Rattle.publisher_hub.specs.Sound.{IsSound, AreLive};
ghost use Rattle.publisher_hub.specs.Steps.{AreHere, IsHere};
ghost use Rattle.publisher_hub.specs.Subscribing.{IsNamed, IsNotNamed};

use crate::entry::Entry;
use crate::hub::Hub;
use crate::hub::room::Room;
use flow_rules::{Feed, Name, NoMemory, Standing};
use std::alloc::Global;

impl<F: Feed> Hub<F> {
    /// Says whether no live subscription's buffer is full: a publication would not have to wait then
    /// (`SubmissionPublisher.submit` blocks if a buffer is full).
    pub fn has_room(&mut self) -> bool
        requires sound { IsSound (hub_of F.meaning self.old) }
        ensures looks { (glances : List (Option Standing))
            × (LooksAtAll F.meaning F.does glances self.old self.new
            × IsRoom result (hub_of F.meaning self.old).progress.capacity glances) }
        ensures sound { IsSound (hub_of F.meaning self.new) }
    {
        self.look_at_all().room.everywhere
    }

    /// Says whether no live subscription's buffer is full of those that say [`OnFull::Wait`](crate::OnFull::Wait): a
    /// publication that heeds that would not have to wait then.
    pub fn has_room_for_waiters(&mut self) -> bool
        requires sound { IsSound (hub_of F.meaning self.old) }
        ensures looks { (glances : List (Option Standing))
            × (LooksAtAll F.meaning F.does glances self.old self.new
            × IsRoomForWaiters result (hub_of F.meaning self.old).progress.capacity
            self.old.entries.items glances) }
        ensures sound { IsSound (hub_of F.meaning self.new) }
    {
        self.look_at_all().room.for_waiters
    }

    /// Counts the live subscriptions (`SubmissionPublisher.getNumberOfSubscribers`).
    pub fn number_of_subscribers(&mut self) -> usize
        requires sound { IsSound (hub_of F.meaning self.old) }
        ensures looks { (glances : List (Option Standing))
            × (LooksAtAll F.meaning F.does glances self.old self.new
            × (result ≡ length (living glances))) }
        ensures sound { IsSound (hub_of F.meaning self.new) }
    {
        self.look_at_all().living
    }

    /// Gives the longest backlog of any live subscription, in items, and 0 if there is none
    /// (`SubmissionPublisher.estimateMaximumLag`).
    pub fn max_lag(&mut self) -> u64
        requires sound { IsSound (hub_of F.meaning self.old) }
        ensures looks { (glances : List (Option Standing))
            × (LooksAtAll F.meaning F.does glances self.old self.new
            × (result ≡ greatest (waiting glances))) }
        ensures sound { IsSound (hub_of F.meaning self.new) }
    {
        self.look_at_all().most_waiting
    }

    /// Says whether a live subscription has this name (`SubmissionPublisher.isSubscribed`).
    pub fn is_subscribed(&mut self, name: Name) -> bool
        requires sound { IsSound (hub_of F.meaning self.old) }
        ensures looks { (glances : List (Option Standing))
            × LooksAtAll F.meaning F.does glances self.old self.new }
        ensures named { (result ≡ true) ↔ IsSubscribed name (hub_of F.meaning self.new).entries }
        ensures sound { IsSound (hub_of F.meaning self.new) }
    {
        self.look_at_all();
        has_name(&self.entries, &self.live, name)
    }

    /// Lists the names of the live subscriptions, in the order of the numbers (`SubmissionPublisher.getSubscribers`).
    ///
    /// `NoMemory` if a growth is refused; the subscriptions were looked at nevertheless.
    pub fn names(&mut self, alloc: Global) -> Result<Vec<Name>, NoMemory>
        requires sound { IsSound (hub_of F.meaning self.old) }
        ensures looks { (glances : List (Option Standing))
            × LooksAtAll F.meaning F.does glances self.old self.new }
        ensures ok { IfOk result (λ names.
            names.items ≡ live_names (hub_of F.meaning self.new).entries) }
        ensures sound { IsSound (hub_of F.meaning self.new) }
    {
        self.look_at_all();
        names_of(alloc, &self.entries, &self.live)
    }

    /// Looks at the subscription of this number, if it is live, and retires it if that shows its end.
    ///
    /// `None` if it was retired before, or if no subscription has the number; nothing has changed then.
    pub fn standing(&mut self, entry: u32) -> Option<Standing>
        requires sound { IsSound (hub_of F.meaning self.old) }
        ensures looks { LooksAtOne F.meaning F.does entry result self.old self.new }
        ensures sound { IsSound (hub_of F.meaning self.new) }
    {
        let next = self.next;
        match self.entries.get_mut(entry as usize) {
            Some(entry) => entry.look(next),
            None => None,
        }
    }

    /// Looks at all live subscriptions.
    fn look_at_all(&mut self) -> Overview
        requires sound { IsSound (hub_of F.meaning self.old) }
        ensures looks { (glances : List (Option Standing))
            × (LooksAtAll F.meaning F.does glances self.old self.new
            × Shows self.old.capacity self.old.entries.items glances result) }
        ensures sound { IsSound (hub_of F.meaning self.new) }
    {
        let Hub {
            capacity,
            next,
            entries,
            live,
            ..
        } = self;
        look_all(entries, live, *next, *capacity)
    }
}

/// What a round of looks shows of all subscriptions together.
#[derive(Clone, Copy)]
struct Overview {
    /// How many subscriptions go on.
    pub living: usize,
    /// How many items wait for that of them for which most do.
    pub most_waiting: u64,
    /// What they showed of room.
    pub room: Room,
}

impl Overview {
    /// Adds what another look showed of a subscription, for which publications wait or don't.
    fn count_look(&mut self, glance: &Option<Standing>, waited: bool, capacity: usize)
        requires { self.old.living + 1 < 2 ^ 64 }
        ensures { CountsLook capacity waited glance.now self.old self.new }
    {
        self.room.count(glance, waited, capacity);
        if let Some(standing) = glance {
            if !standing.ended {
                self.living += 1;
                self.most_waiting = self.most_waiting.max(standing.held);
            }
        }
    }
}

/// Looks at all live subscriptions, and retires those that have ended.
fn look_all<F: Feed>(entries: &mut [Entry<F>], live: &[u32], next: u64, capacity: usize) -> Overview
    requires live { AreLive live.now (map (entry_of F.meaning) entries.old) }
    requires here { AreHere (map (entry_of F.meaning) entries.old) }
    ensures { (glances : List (Option Standing))
        × (EachBy (Glances F.meaning F.does next) glances entries.old entries.new
        × Shows capacity entries.old glances result) }
{
    let mut overview = Overview {
        living: 0,
        most_waiting: 0,
        room: Room::everywhere(),
    };
    for number in live {
        look_one(
            &mut entries[*number as usize],
            next,
            capacity,
            &mut overview,
        );
    }
    overview
}

/// Looks at a subscription, and adds what that showed.
fn look_one<F: Feed>(entry: &mut Entry<F>, next: u64, capacity: usize, overview: &mut Overview)
    requires here { IsHere (entry_of F.meaning entry.old) }
    requires few { overview.old.living + 1 < 2 ^ 64 }
    ensures { (glance : Option Standing)
        × (Glances F.meaning F.does next glance entry.old entry.new
        × CountsLook capacity (waits entry.old.on_full) glance overview.old overview.new) }
{
    let waited = entry.on_full.waits();
    let glance = entry.look(next);
    overview.count_look(&glance, waited, capacity);
}

/// Lists the names of the subscriptions that aren't retired, in the order of the numbers.
fn names_of<F: Feed>(
    alloc: Global,
    entries: &[Entry<F>],
    live: &[u32],
) -> Result<Vec<Name>, NoMemory>
    requires live { AreLive live.now (map (entry_of F.meaning) entries.now) }
    ensures ok { IfOk result (λ names.
        names.items ≡ live_names (map (entry_of F.meaning) entries.now)) }
{
    let mut names = Vec::new(alloc);
    for number in live {
        let entry = &entries[*number as usize];
        if !entry.retired {
            names.push(entry.name)?;
        }
    }
    Ok(names)
}

/// Says whether a subscription that isn't retired has this name.
fn has_name<F: Feed>(entries: &[Entry<F>], live: &[u32], name: Name) -> bool
    requires live { AreLive live.now (map (entry_of F.meaning) entries.now) }
    ensures { (result ≡ true) ↔ IsSubscribed name (map (entry_of F.meaning) entries.now) }
{
    for number in live {
        let entry = &entries[*number as usize];
        if !entry.retired && entry.name == name {
            return true;
        }
    }
    false
}

/// Finds the number of a live subscription of this name.
pub(super) fn find_named<F>(entries: &[Entry<F>], live: &[u32], name: Name) -> Option<u32>
    ensures found { IfSome result (λ number.
        (i : ℕ) × ((slice_get live.now i ≡ Some number) × IsNamed name number entries.now)) }
    ensures none { result ≡ None → (i number : ℕ) → slice_get live.now i ≡ Some number
        → IsNotNamed name number entries.now }
{
    for number in live {
        if is_named(entries, *number, name) {
            return Some(*number);
        }
    }
    None
}

/// Says whether the subscription of this number is there, and has this name.
fn is_named<F>(entries: &[Entry<F>], number: u32, name: Name) -> bool
    ensures yes { result ≡ true → IsNamed name number entries.now }
    ensures no { result ≡ false → IsNotNamed name number entries.now }
{
    match entries.get(number as usize) {
        Some(entry) => entry.name == name,
        None => false,
    }
}
