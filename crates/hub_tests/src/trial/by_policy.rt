//! A Hub whose subscriptions say what becomes of an item that finds them full: its calls as rows.
ghost use Rattle.feed_core.specs.Feed.{end_of};
ghost use Rattle.publisher_hub.specs.Hub.{hub_of};
ghost use Rattle.publisher_hub.specs.Sound.{IsSound};

use super::{Ask, Trial, Why, name_of};
use feed_core::Desk;
use flow_rules::{Collector, Refusal, capacity};
use publisher_hub::{Need, OnFull, USUAL_LIVE};

/// A call, and what it has to answer.
#[derive(Clone, Copy)]
pub enum Row<'a> {
    /// A Desk is added under this name, which says this of its full buffer.
    Adds(u8, OnFull),
    /// An item is published by policy with this lag, and this many lose it; or to nobody.
    Publishes(Result<(u64, u32), Why>),
    /// Each has room that is waited for, or one has none.
    HasRoom(bool),
    /// Any other call.
    Asks(Ask<'a>),
}

impl Trial<Desk<Collector>> {
    /// Whether a row's call is answered as the row says.
    pub fn goes(&mut self, row: Row<'_>) -> Result<bool, Refusal>
        requires sound { IsSound (hub_of end_of self.old.hub) }
        ensures sound { IsSound (hub_of end_of self.new.hub) }
    {
        match row {
            Row::Adds(letter, on_full) => self.add(letter, on_full),
            Row::Publishes(want) => {
                let answer = self.publish(1, Need::Waiters);
                Ok(answer.map(|publication| (publication.lag, publication.dropped)) == want)
            }
            Row::HasRoom(want) => Ok(self.hub.has_room_for_waiters() == want),
            Row::Asks(ask) => self.answers(ask),
        }
    }

    /// Adds a Desk of the Hub's capacity.
    fn add(&mut self, letter: u8, on_full: OnFull) -> Result<bool, Refusal>
        requires sound { IsSound (hub_of end_of self.old.hub) }
        ensures sound { IsSound (hub_of end_of self.new.hub) }
    {
        let enforced = capacity(self.hub.capacity())?;
        if enforced != self.hub.capacity() {
            return Ok(false);
        }
        let desk = match Desk::new(self.alloc, enforced, Collector::new(self.alloc)) {
            Ok(desk) => desk,
            Err((refused, _)) => return Err(refused.into()),
        };
        let ticket = self.hub.add_ticket()?;
        self.hub.admit_with(
            name_of(letter)?,
            on_full,
            desk,
            ticket,
            USUAL_LIVE,
            &mut self.due,
        )?;
        Ok(true)
    }
}
