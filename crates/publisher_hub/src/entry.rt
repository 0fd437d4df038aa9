//! One subscription of a Hub, with each step that a call or a round makes of it. It knows neither the others nor the
//! numbers of the Hub: a step that needs the next serial number is handed that.
ghost use Rattle.std.specs.Prelude.{◌≡◌, ◌-◌, ◌<◌, ◌≤◌, length, if◌then◌else◌, IfOk, IsSome, OnErr, Option, Some, false, true};
ghost use Rattle.std.specs.Borrow.{sem};
ghost use Rattle.flow_rules.specs.declared.feed.standing.Standing.{Standing};
ghost use Rattle.flow_rules.specs.declared.item.TheConstants.{MOST_PUBLICATIONS};
ghost use Rattle.publisher_hub.specs.Closing.{Closes};
ghost use Rattle.publisher_hub.specs.Entry.{entry_of};
ghost use Rattle.publisher_hub.specs.Looking.{FailsToPrepare, Glances, IsReadied, Prepares};
ghost use Rattle.publisher_hub.specs.Offering.{PutsTo, PutsAgain};
ghost use Rattle.publisher_hub.specs.Readiness.{IsReady};
ghost use Rattle.publisher_hub.specs.Batch.{CanPutBatch, PutsBatchTo};
ghost use Rattle.publisher_hub.specs.Steps.{CanTake, HasAcceptedFew, IsHere};
ghost use Rattle.publisher_hub.specs.Subscribing.{Doubled};
ghost use Rattle.publisher_hub.specs.Reclaiming.{TakesEnded};
ghost use Rattle.publisher_hub.specs.Taking.{TakesOut};
ghost use Rattle.publisher_hub.specs.Tickets.{RetiresIfEnded};

use crate::policy::OnFull;
use close_count::Ticket;
use flow_rules::{Ending, Feed, Item, Name, NoMemory, Put, PutAll, Standing};

/// One subscription of a Hub, from its subscribing on. It stays when it has ended, until another one gets
/// its place.
#[derive(Drop)]
pub(crate) struct Entry<F> {
    /// The name that its subscriber subscribed with.
    pub name: Name,
    /// Whether publications wait for it, if they heed that.
    pub on_full: OnFull,
    /// The next serial number when it was subscribed.
    pub since: u64,
    /// The next serial number when it was retired.
    pub until: u64,
    /// How many publications were dropped because its buffer was full. A second try takes its drop back first, and
    /// counts it again if the buffer is full still.
    pub dropped: u64,
    /// Whether it takes part in no publication any more.
    pub retired: bool,
    /// The producer's end, until it is taken out.
    pub feed: Option<F>,
    /// Its ticket of the count that finds the last, until it is taken out.
    pub ticket: Option<Ticket>,
}

/// What the end of a Hub did at a subscription; the clauses of [`Hub::end`](crate::Hub::end) name it.
#[must_use]
#[derive(Drop)]
pub enum AtClose<T> {
    /// The subscription was retired before, and is left alone.
    Retired,
    /// Its producer's end was closed, which answered this task.
    Ended(Option<T>),
}

impl<F: Feed> Entry<F> {
    ghost use Rattle.publisher_hub.specs.Lending.{lends_feed};

    /// Looks at a subscription that isn't retired, and retires it if it has ended.
    pub fn look(&mut self, next: u64) -> Option<Standing>
        requires here { IsHere (entry_of F.meaning self.old) }
        ensures { Glances F.meaning F.does next result self.old self.new }
    {
        if self.retired {
            return None;
        }
        match &mut self.feed {
            Some(feed) => {
                let standing = feed.standing();
                if standing.ended {
                    self.retire(next);
                }
                Some(standing)
            }
            None => unreachable!(),
        }
    }

    /// Looks at a subscription that isn't retired, retires it if it has ended, and else makes it ready for one task.
    pub fn prepare(&mut self, next: u64) -> Result<Option<Standing>, NoMemory>
        requires here { IsHere (entry_of F.meaning self.old) }
        ensures ok { IfOk result (λ glance.
            Prepares F.meaning F.does next glance self.old self.new) }
        ensures refused { OnErr result (FailsToPrepare F.meaning F.does next self.old self.new) }
    {
        let Some(standing) = self.look(next) else {
            return Ok(None);
        };
        if !standing.ended {
            self.make_ready()?;
        }
        Ok(Some(standing))
    }

    /// Makes a subscription ready for one task.
    fn make_ready(&mut self) -> Result<(), NoMemory>
        requires there { IsSome self.old.feed }
        ensures { IsReadied F.meaning F.does result self.old self.new }
    {
        match &mut self.feed {
            Some(feed) => feed.ready(),
            None => unreachable!(),
        }
    }

    /// Offers an item to a subscription that isn't retired. If it takes no more items, it is retired; if its buffer is
    /// full, the drop is counted.
    #[must_use]
    pub fn put(&mut self, item: Item) -> Option<Put<F::Task>>
        requires take { CanTake (entry_of F.meaning self.old) }
        requires few { HasAcceptedFew (entry_of F.meaning self.old) }
        requires few_drops { self.old.dropped < MOST_PUBLICATIONS }
        ensures { PutsTo F.meaning F.does item result self.old self.new }
    {
        if self.retired {
            return None;
        }
        let serial = item.serial;
        match &mut self.feed {
            Some(feed) => {
                let answer = feed.put(item);
                match &answer {
                    Put::Accepted { .. } => {}
                    Put::Full(_) => self.dropped += 1,
                    Put::Gone(_) => self.retire(serial),
                }
                Some(answer)
            }
            None => unreachable!(),
        }
    }

    /// Offers a batch of items to a subscription that isn't retired, after a look that showed room for all of them.
    /// If it takes no more items, it is retired at the next serial number, before the first of them.
    #[must_use]
    pub fn put_all(&mut self, items: Vec<Item>, next: u64) -> Option<PutAll<F::Task>>
        requires some { 0 < length items.items }
        requires can { CanPutBatch (length items.items) (entry_of F.meaning self.old) }
        ensures { PutsBatchTo F.meaning F.does next items.items result self.old self.new }
    {
        if self.retired {
            return None;
        }
        match &mut self.feed {
            Some(feed) => {
                let answer = feed.put_all(items);
                match &answer {
                    PutAll::Accepted { .. } => {}
                    PutAll::Gone(_) => self.retire(next),
                }
                Some(answer)
            }
            None => unreachable!(),
        }
    }

    /// Offers an item once more to a subscription that has dropped it, which takes that drop back first.
    #[must_use]
    pub fn put_again(&mut self, item: Item) -> Option<Put<F::Task>>
        requires take { CanTake (entry_of F.meaning self.old) }
        requires few { HasAcceptedFew (entry_of F.meaning self.old) }
        requires live { self.old.retired ≡ false }
        requires dropped { 0 < self.old.dropped }
        requires few_drops { self.old.dropped ≤ MOST_PUBLICATIONS }
        ensures some { IsSome result }
        ensures again { PutsAgain F.meaning F.does item (Some result) self.old self.new }
    {
        self.dropped -= 1;
        self.put(item)
    }

    /// Ends a subscription that isn't retired: its producer's end is closed.
    pub fn end(&mut self, ending: Ending) -> AtClose<F::Task>
        requires take { CanTake (entry_of F.meaning self.old) }
        ensures { Closes F.meaning F.does ending result self.old self.new }
    {
        if self.retired {
            return AtClose::Retired;
        }
        match &mut self.feed {
            Some(feed) => AtClose::Ended(feed.end(ending)),
            None => unreachable!(),
        }
    }

    /// Notes a second subscribing at a subscription that isn't retired.
    #[must_use]
    pub fn double(&mut self) -> Option<F::Task>
        requires live { self.old.retired ≡ false }
        requires ready { IsReady (entry_of F.meaning self.old) }
        ensures { Doubled F.meaning F.does result self.old self.new }
    {
        match &mut self.feed {
            Some(feed) => feed.duplicate(),
            None => unreachable!(),
        }
    }

    /// Looks at a subscription, if its producer's end is there. If that shows that it has ended, it is retired and its
    /// ticket taken out.
    pub fn ended(&mut self, next: u64) -> Option<Ticket>
        ensures { (glance : Option Standing)
            × RetiresIfEnded F.meaning F.does next glance result self.old self.new }
    {
        let Some(feed) = &mut self.feed else {
            return None;
        };
        let standing = feed.standing();
        if !standing.ended {
            return None;
        }
        self.retire(next);
        self.ticket.take()
    }

    /// Takes its producer's end out, and with that its ticket, and retires it.
    pub fn take_feed(&mut self, next: u64) -> Option<F>
        ensures { TakesOut next result self.old self.new }
    {
        let feed = self.feed.take()?;
        self.retire(next);
        self.ticket = None;
        Some(feed)
    }

    /// Looks at a subscription, if its producer's end is there. If that shows that it has ended, it is retired, and its
    /// producer's end and its ticket are taken out.
    pub fn take_ended(&mut self, next: u64) -> Option<(F, Option<Ticket>)>
        ensures { (glance : Option Standing)
            × TakesEnded F.meaning F.does next glance result self.old self.new }
    {
        let mut feed = self.feed.take()?;
        if !feed.standing().ended {
            self.feed = Some(feed);
            return None;
        }
        self.retire(next);
        Some((feed, self.ticket.take()))
    }

    /// Lends the producer's end.
    pub fn feed_mut(&mut self) -> &mut F
        requires { IsSome self.old.feed }
        ensures* writes_back { sem 𝓛 (lends_feed F.row self.entry result) }
        ensures value { self.old.feed ≡ Some result.now }
    {
        match &mut self.feed {
            Some(feed) => feed,
            None => unreachable!(),
        }
    }

    /// Retires a subscription. If it was retired before, it stays retired since then.
    fn retire(&mut self, next: u64)
        ensures { self.new ≡ record self.old {
          retired = true;
          until = if self.old.retired then self.old.until else next;
        } }
    {
        if !self.retired {
            self.retired = true;
            self.until = next;
        }
    }
}
