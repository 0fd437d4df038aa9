//! Looks: how one subscription stands, what all of them amount to, and whether a thread has to wait.
//!
//! A look may retire what it finds ended, and changes nothing else. How a thread sleeps after a look in vain stands in
//! `lock`.
ghost use Rattle.std.specs.Prelude.{◌≡◌, ◌↔◌, Bool, List, Option, IsErr, IsOk, IsSome, None, length, option_map, slice_get, true};
ghost use Rattle.feed_cell.specs.Offering.{DoesCall};
ghost use Rattle.flow_rules.specs.declared.feed.standing.Standing.{Standing};
ghost use Rattle.publisher_hub.specs.Facts.{facts_of};
ghost use Rattle.publisher_hub.specs.Hub.{hub_of};
ghost use Rattle.publisher_hub.specs.Lists.{greatest};
ghost use Rattle.publisher_hub.specs.Looking.{LooksAtAll, LooksAtOne, living, waiting};
ghost use Rattle.publisher_hub.specs.Names.{IsSubscribed};
ghost use Rattle.publisher.specs.Publishing.{LooksForRoom};
ghost use Rattle.publisher.specs.Standing.{has_ended_by, lag_at};
ghost use Rattle.publisher.specs.State.{producer_end};

use super::{NoRoom, Reason, State};
use crate::ledgers::Ledgers;
use crate::turned::EndedTask;
use flow_rules::{Listener, Name, Standing};
use publisher_hub::{Facts, Need};

/// A subscription has ended: a look showed it.
#[must_use]
#[derive(Drop)]
pub struct Ended(());

/// The last ticket was spent: a look showed it.
#[must_use]
#[derive(Drop)]
pub struct Drained(());

impl<L: Ledgers, B: Listener> State<L, B> {
    /// Tells how many items wait for the subscriber of this number; 0 once its subscription has ended.
    pub fn lag(&mut self, entry: u32) -> u64
        ensures { (glance : Option Standing)
            × (LooksAtOne producer_end DoesCall entry glance self.old.hub self.new.hub
            × (result ≡ lag_at glance)) }
    {
        match self.standing_of(entry) {
            Some(standing) if !standing.ended => standing.held,
            _ => 0,
        }
    }

    /// Tells whether the subscription of this number has ended.
    pub fn has_ended(&mut self, entry: u32) -> bool
        ensures looks { (glance : Option Standing)
            × (LooksAtOne producer_end DoesCall entry glance self.old.hub self.new.hub
            × (result ≡ has_ended_by glance)) }
        ensures rest { self.new ≡ record self.old { hub = self.new.hub } }
    {
        match self.standing_of(entry) {
            Some(standing) => standing.ended,
            None => true,
        }
    }

    /// Looks whether the subscription of this number goes on, which is a reason to wait for its end.
    pub(super) fn look_for_end(&mut self, entry: u32) -> Result<Ended, Reason>
        ensures { (glance : Option Standing)
            × (LooksAtOne producer_end DoesCall entry glance self.old.hub self.new.hub
            × (IsOk result ↔ (has_ended_by glance ≡ true))) }
    {
        if self.has_ended(entry) {
            Ok(Ended(()))
        } else {
            Err(Reason::of_a_look())
        }
    }

    /// Looks whether the last ticket is still unspent, which is a reason to wait until all have ended.
    pub(super) fn look_for_drain(&self) -> Result<Drained, Reason>
        ensures { IsErr result ↔ (self.now.last ≡ None) }
    {
        if self.last.is_some() {
            Ok(Drained(()))
        } else {
            Err(Reason::of_a_look())
        }
    }

    /// Gives what the Hub knows of a subscription that has ended. Its number is its own still.
    pub fn facts_of_ended(&self, ended: &EndedTask) -> Option<Facts>
        ensures { result ≡ option_map facts_of
            (slice_get (hub_of producer_end self.now.hub).entries ended.now.entry) }
    {
        self.hub.facts(ended.entry())
    }

    /// Looks at the subscription of this number, if it is live.
    fn standing_of(&mut self, entry: u32) -> Option<Standing>
        ensures looks { LooksAtOne producer_end DoesCall entry result self.old.hub self.new.hub }
        ensures rest { self.new ≡ record self.old { hub = self.new.hub } }
    {
        self.hub.standing(entry)
    }

    /// Tells the longest backlog of any live subscription, in items, and 0 if there is none.
    pub fn max_lag(&mut self) -> u64
        ensures { (glances : List (Option Standing))
            × (LooksAtAll producer_end DoesCall glances self.old.hub self.new.hub
            × (result ≡ greatest (waiting glances))) }
    {
        self.hub.max_lag()
    }

    /// Tells how many subscriptions are live.
    pub fn number_of_subscribers(&mut self) -> usize
        ensures { (glances : List (Option Standing))
            × (LooksAtAll producer_end DoesCall glances self.old.hub self.new.hub
            × (result ≡ length (living glances))) }
    {
        self.hub.number_of_subscribers()
    }

    /// Tells whether a live subscription has this name.
    pub fn is_subscribed(&mut self, name: Name) -> bool
        ensures looks { (glances : List (Option Standing))
            × LooksAtAll producer_end DoesCall glances self.old.hub self.new.hub }
        ensures named { (result ≡ true)
            ↔ IsSubscribed name (hub_of producer_end self.new.hub).entries }
    {
        self.hub.is_subscribed(name)
    }

    /// Looks whether the publication of a text that found no room has to wait, which gives a reason to wait. It need not if
    /// each live subscription whose room it needs has room, or if the publisher is closed.
    pub(super) fn look_for_room(&mut self, no_room: &NoRoom) -> Result<(), Reason>
        ensures { (room : Bool)
            × (LooksForRoom no_room.now.need room self.old self.new × (IsOk result ↔ (room ≡ true))) }
    {
        if self.has_room(no_room.need()) {
            Ok(())
        } else {
            Err(Reason::of_a_look())
        }
    }

    /// Tells whether each live subscription whose room is needed has room, or the publisher is closed.
    fn has_room(&mut self, need: Need) -> bool
        ensures { LooksForRoom need result self.old self.new }
    {
        if self.hub.ending().is_some() {
            return true;
        }
        match need {
            Need::All => self.hub.has_room(),
            Need::Waiters => self.hub.has_room_for_waiters(),
        }
    }
}
