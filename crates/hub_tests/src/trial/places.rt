//! A Hub that gives the places of subscriptions that were taken out to later ones: its calls as rows.
ghost use Rattle.feed_core.specs.Feed.{end_of};
ghost use Rattle.hub_tests.specs.Counting.{end_of_counting};
ghost use Rattle.publisher_hub.specs.Hub.{hub_of};
ghost use Rattle.publisher_hub.specs.Sound.{IsSound};

use super::{Row, Trial, name_of};
use crate::counting::Counting;
use feed_core::Desk;
use flow_rules::{Collector, Name, Refusal, capacity};
use publisher_hub::{MOST_LIVE, OnFull, USUAL_LIVE};
use test_kit::Notes;

/// A call, and what it has to answer.
#[derive(Clone, Copy)]
pub enum Spot<'a> {
    /// A Desk is added in this place under this name, if fewer than this many are live: it gets this number, or is
    /// refused with that one.
    AddsAt(u32, u8, usize, Result<u32, u32>),
    /// The subscription of this number takes part since this serial number, or is not there.
    Since(u32, Option<u64>),
    /// Any other call.
    Goes(Row<'a>),
}

impl Trial<Desk<Collector>> {
    /// Whether a row's call is answered as the row says.
    pub fn lands(&mut self, spot: Spot<'_>) -> Result<bool, Refusal>
        requires sound { IsSound (hub_of end_of self.old.hub) }
        ensures sound { IsSound (hub_of end_of self.new.hub) }
    {
        match spot {
            Spot::AddsAt(place, letter, most, want) => {
                Ok(self.add_at(place, name_of(letter)?, most)? == want)
            }
            Spot::Since(number, want) => Ok(self.since(number) == want),
            Spot::Goes(row) => self.goes(row),
        }
    }

    /// Since which serial number the subscription of this number takes part, if it is there.
    fn since(&self, number: u32) -> Option<u64> {
        match self.hub.facts(number) {
            Some(facts) => Some(facts.since),
            None => None,
        }
    }

    /// Adds a Desk of the Hub's capacity in this place, if fewer than this many are live. The answer is its number, or
    /// that of the refusal.
    pub fn add_at(
        &mut self,
        place: u32,
        name: Name,
        most: usize,
    ) -> Result<Result<u32, u32>, Refusal>
        requires sound { IsSound (hub_of end_of self.old.hub) }
        ensures sound { IsSound (hub_of end_of self.new.hub) }
    {
        let enforced = capacity(self.hub.capacity())?;
        if enforced != self.hub.capacity() || most > MOST_LIVE {
            return Err(Refusal::BadCapacity);
        }
        let desk = match Desk::new(self.alloc, enforced, Collector::new(self.alloc)) {
            Ok(desk) => desk,
            Err((refused, _)) => return Err(refused.into()),
        };
        let ticket = self.hub.add_ticket()?;
        let due = &mut self.due;
        match self
            .hub
            .admit_at(place, name, OnFull::Wait, desk, ticket, most, due)
        {
            Ok(number) => Ok(Ok(number)),
            Err(Refusal::NoMemory) => Err(Refusal::NoMemory),
            Err(refusal) => Ok(Err(refusal.number())),
        }
    }
}

impl Trial<Counting> {
    /// Adds a subscription in this place that notes its puts with a letter, and whose items are never taken. The answer
    /// is its number.
    pub fn count_at(&mut self, place: u32, notes: &Notes, letters: (u8, u8)) -> Result<u32, Refusal>
        requires sound { IsSound (hub_of end_of_counting self.old.hub) }
        ensures sound { IsSound (hub_of end_of_counting self.new.hub) }
    {
        let name = name_of(letters.0)?;
        let feed = Counting::new(
            self.alloc,
            self.hub.capacity(),
            notes.share()?,
            letters.1,
            0,
        );
        let ticket = self.hub.add_ticket()?;
        let due = &mut self.due;
        self.hub
            .admit_at(place, name, OnFull::Wait, feed, ticket, USUAL_LIVE, due)
    }
}
