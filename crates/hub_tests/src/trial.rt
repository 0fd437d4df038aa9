//! A Hub as tests call it: its calls as rows, with what each has to answer.
mod by_policy;
mod places;
mod publishing;
mod why;

ghost use Rattle.std.specs.Prelude.{◌≡◌, ◌≤◌, IfOk};
ghost use Rattle.hub_tests.specs.Counting.{end_of_counting};
ghost use Rattle.feed_core.specs.Feed.{end_of};
ghost use Rattle.flow_rules.specs.declared.item.TheConstants.{MOST_PUBLICATIONS};
ghost use Rattle.publisher_hub.specs.Adding.{IsFresh};
ghost use Rattle.publisher_hub.specs.Hub.{hub_of};
ghost use Rattle.publisher_hub.specs.Sound.{IsSound};

use crate::counting::Counting;
pub use by_policy::Row;
use close_count::Count;
use feed_core::Desk;
use flow_rules::{Collector, DropHandler, Ending, Feed, Name, NoMemory, Refusal, Text, capacity};
pub use places::Spot;
use publisher_hub::{Hub, Need, OnFull, USUAL_LIVE, Work};
use std::alloc::Global;
use test_kit::Notes;
pub use why::Why;

/// A Hub, with the tasks that its calls start.
#[derive(Drop)]
pub struct Trial<F: Feed> {
    alloc: Global,
    /// The Hub.
    pub hub: Hub<F>,
    due: Vec<Work<F::Task>>,
}

/// A call of a Hub, and what it has to answer.
#[derive(Clone, Copy)]
pub enum Ask<'a> {
    /// A subscriber of this name may subscribe, or is refused with this number.
    MaySubscribe(u8, Option<u32>),
    /// An item is published with this lag, or to nobody.
    Publishes(Result<u64, Why>),
    /// Of this many texts the first ones are published at once: this many, with this lag; or none.
    PublishesBatch(usize, Result<(usize, u64), Why>),
    /// An offer of an item without a handler answers this, or is made to nobody.
    Offers(Result<i64, Why>),
    /// So many are live, so many items wait for one of them at most, and all have room or not.
    Shows(usize, u64, bool),
    /// The live subscriptions have these names, of one letter each.
    Names(&'a [u8]),
    /// These are the live subscriptions: of each its letter, what it said of its full buffer, and its lag, what it
    /// accepted and what was dropped at it.
    Figures(&'a [(u8, OnFull, [u64; 3])]),
    /// A live subscription has this name, or none has.
    Subscribed(u8, bool),
    /// The subscription of this number has dropped so many items, or is not there.
    Dropped(u32, Option<u64>),
    /// The ticket of the subscription of this number comes out, and is the last or not, or is not there.
    TakesTicket(u32, Option<bool>),
    /// The producer's end of the subscription of this number comes out, or is not there.
    TakesFeed(u32, bool),
    /// The Hub is closed, and the opening comes out, which is the last ticket, or none comes out.
    Ends(bool),
}

impl<F: Feed> Trial<F> {
    /// A Hub with its next serial number, which holds the opening of a count of its own.
    pub fn starting_at(alloc: Global, asked: usize, serial: u64) -> Result<Trial<F>, Refusal>
        requires { serial ≤ MOST_PUBLICATIONS }
        ensures { IfOk result (λ trial. IsSound (hub_of F.meaning trial.hub)) }
    {
        let mut hub = Hub::starting_at(alloc, asked, serial)?;
        hub.set_opening(Count::new(alloc)?);
        Ok(Trial {
            alloc,
            hub,
            due: Vec::new(alloc),
        })
    }

    /// Adds a subscription of this name, with a ticket.
    pub fn admit(&mut self, letter: u8, feed: F) -> Result<u32, Refusal>
        requires sound { IsSound (hub_of F.meaning self.old.hub) }
        requires fresh { IsFresh self.old.hub.capacity (F.meaning feed) }
        ensures sound { IsSound (hub_of F.meaning self.new.hub) }
    {
        let ticket = self.hub.add_ticket()?;
        self.hub
            .admit(name_of(letter)?, feed, ticket, USUAL_LIVE, &mut self.due)
    }

    /// What an offer of an item answers.
    pub fn offer(&mut self, handler: Option<&mut Box<dyn DropHandler>>) -> Result<i64, Why>
        requires sound { IsSound (hub_of F.meaning self.old.hub) }
        ensures sound { IsSound (hub_of F.meaning self.new.hub) }
    {
        let text = text_of(self.alloc)?;
        Ok(self.hub.offer(0, text, handler, &mut self.due)?)
    }

    /// Whether a row's call is answered as the row says.
    pub fn answers(&mut self, ask: Ask<'_>) -> Result<bool, Refusal>
        requires sound { IsSound (hub_of F.meaning self.old.hub) }
        ensures sound { IsSound (hub_of F.meaning self.new.hub) }
    {
        match ask {
            Ask::MaySubscribe(letter, number) => Ok(self.may_subscribe(letter)? == number),
            Ask::Publishes(want) => {
                Ok(
                    self.publish(1, Need::All)
                        .map(|publication| publication.lag)
                        == want,
                )
            }
            Ask::PublishesBatch(many, want) => {
                let answer = self.publish(many, Need::All);
                Ok(answer.map(|publication| (publication.many, publication.lag)) == want)
            }
            Ask::Offers(want) => Ok(self.offer_again() == want),
            Ask::Shows(many, lag, room) => Ok(self.show() == (many, lag, room)),
            Ask::Names(letters) => self.are_names(letters),
            Ask::Figures(want) => self.are_figures(want),
            Ask::Subscribed(letter, want) => Ok(self.hub.is_subscribed(name_of(letter)?) == want),
            Ask::Dropped(number, want) => Ok(self.dropped(number) == want),
            Ask::TakesTicket(number, want) => Ok(self.spend_ticket(number) == want),
            Ask::TakesFeed(number, want) => Ok(self.hub.take_feed(number).is_some() == want),
            Ask::Ends(want) => Ok(self.end()? == want),
        }
    }

    /// How many items the subscription of this number has dropped, if it is there.
    fn dropped(&self, number: u32) -> Option<u64> {
        match self.hub.facts(number) {
            Some(facts) => Some(facts.dropped),
            None => None,
        }
    }

    /// The number that a subscriber of this name is refused with, if it is.
    fn may_subscribe(&mut self, letter: u8) -> Result<Option<u32>, Refusal>
        requires sound { IsSound (hub_of F.meaning self.old.hub) }
        ensures sound { IsSound (hub_of F.meaning self.new.hub) }
    {
        match self
            .hub
            .may_subscribe(name_of(letter)?, USUAL_LIVE, &mut self.due)
        {
            Ok(()) => Ok(None),
            Err(Refusal::NoMemory) => Err(Refusal::NoMemory),
            Err(refusal) => Ok(Some(refusal.number())),
        }
    }

    /// What an offer without a handler answers, or its second call where memory was refused to the first.
    fn offer_again(&mut self) -> Result<i64, Why>
        requires sound { IsSound (hub_of F.meaning self.old.hub) }
        ensures sound { IsSound (hub_of F.meaning self.new.hub) }
    {
        match self.offer(None) {
            Err(Why::Number(5)) => self.offer(None),
            answer => answer,
        }
    }

    /// How many are live, how many items wait for one of them at most, and whether all have room.
    fn show(&mut self) -> (usize, u64, bool)
        requires sound { IsSound (hub_of F.meaning self.old.hub) }
        ensures sound { IsSound (hub_of F.meaning self.new.hub) }
    {
        let many = self.hub.number_of_subscribers();
        let lag = self.hub.max_lag();
        (many, lag, self.hub.has_room())
    }

    /// Whether the live subscriptions have these names, of one letter each.
    fn are_names(&mut self, letters: &[u8]) -> Result<bool, Refusal>
        requires sound { IsSound (hub_of F.meaning self.old.hub) }
        ensures sound { IsSound (hub_of F.meaning self.new.hub) }
    {
        let mut names = Vec::new(self.alloc);
        for letter in letters {
            let name = name_of(*letter)?;
            names.push(name).map_err(|_| Refusal::NoMemory)?;
        }
        Ok(self.hub.names(self.alloc)? == names)
    }

    /// Whether the live subscriptions have these figures.
    fn are_figures(&mut self, want: &[(u8, OnFull, [u64; 3])]) -> Result<bool, Refusal>
        requires sound { IsSound (hub_of F.meaning self.old.hub) }
        ensures sound { IsSound (hub_of F.meaning self.new.hub) }
    {
        let figures = self.hub.figures(self.alloc)?;
        if figures.len() != want.len() {
            return Ok(false);
        }
        for (one, (letter, on_full, numbers)) in figures.iter().zip(want) {
            let same = one.on_full == *on_full && [one.lag, one.accepted, one.dropped] == *numbers;
            if one.name != name_of(*letter)? || !same {
                return Ok(false);
            }
        }
        Ok(true)
    }

    /// Takes the ticket of a subscription out and spends it. Whether it is the last, where one comes out.
    fn spend_ticket(&mut self, number: u32) -> Option<bool>
        requires sound { IsSound (hub_of F.meaning self.old.hub) }
        ensures sound { IsSound (hub_of F.meaning self.new.hub) }
    {
        let ticket = self.hub.take_ticket(number)?;
        Some(ticket.try_complete())
    }

    /// Closes the Hub. Whether the opening comes out, and is the last ticket.
    fn end(&mut self) -> Result<bool, Refusal>
        requires sound { IsSound (hub_of F.meaning self.old.hub) }
        ensures sound { IsSound (hub_of F.meaning self.new.hub) }
    {
        match self.hub.end(Ending::Normal, &mut self.due)? {
            Some(opening) => Ok(opening.try_complete()),
            None => Ok(false),
        }
    }
}

/// A Hub of this capacity with three Desks, whose subscriptions are named a, b and c and numbered 0, 1 and 2.
pub fn desks_of(alloc: Global, asked: usize) -> Result<Trial<Desk<Collector>>, Refusal>
    ensures { IfOk result (λ trial. IsSound (hub_of end_of trial.hub)) }
{
    let mut trial = Trial::starting_at(alloc, asked, 0)?;
    admit_desk(&mut trial, asked, b'a', 0)?;
    admit_desk(&mut trial, asked, b'b', 1)?;
    admit_desk(&mut trial, asked, b'c', 2)?;
    Ok(trial)
}

/// Adds a Desk under a name, which has to get this number.
fn admit_desk(
    trial: &mut Trial<Desk<Collector>>,
    asked: usize,
    letter: u8,
    number: u32,
) -> Result<(), Refusal>
    requires sound { IsSound (hub_of end_of trial.old.hub) }
    ensures sound { IsSound (hub_of end_of trial.new.hub) }
{
    let enforced = capacity(asked)?;
    if enforced != trial.hub.capacity() {
        return Err(Refusal::BadCapacity);
    }
    let desk = match Desk::new(trial.alloc, enforced, Collector::new(trial.alloc)) {
        Ok(desk) => desk,
        Err((refused, _)) => return Err(refused.into()),
    };
    if trial.admit(letter, desk)? != number {
        return Err(Refusal::Unknown);
    }
    Ok(())
}

/// A Hub with three subscriptions of capacity 1, named a, b and c, which note their puts with the letters A, B and C. All their items are
/// taken just before the put of this number.
pub fn counting_hub(alloc: Global, notes: &Notes, frees_at: u64) -> Result<Trial<Counting>, Refusal>
    ensures { IfOk result (λ trial. IsSound (hub_of end_of_counting trial.hub)) }
{
    let mut trial = Trial::starting_at(alloc, 1, 0)?;
    admit_counting(&mut trial, notes, (b'a', b'A'), frees_at)?;
    admit_counting(&mut trial, notes, (b'b', b'B'), frees_at)?;
    admit_counting(&mut trial, notes, (b'c', b'C'), frees_at)?;
    Ok(trial)
}

/// Adds a subscription of a name that notes its puts with a letter.
fn admit_counting(
    trial: &mut Trial<Counting>,
    notes: &Notes,
    letters: (u8, u8),
    frees_at: u64,
) -> Result<(), Refusal>
    requires sound { IsSound (hub_of end_of_counting trial.old.hub) }
    ensures sound { IsSound (hub_of end_of_counting trial.new.hub) }
{
    let notes = notes.share()?;
    let feed = Counting::new(
        trial.alloc,
        trial.hub.capacity(),
        notes,
        letters.1,
        frees_at,
    );
    let _ = trial.admit(letters.0, feed)?;
    Ok(())
}

/// The name of one letter.
fn name_of(letter: u8) -> Result<Name, Refusal> {
    Name::new(&[letter]).ok_or(Refusal::Unknown)
}

/// A text that takes memory of its own.
fn text_of(alloc: Global) -> Result<Text, NoMemory> {
    Text::new(alloc, b"a text of more than thirty bytes")
}
