//! What a publisher and the owner of a subscription call.
ghost use Rattle.std.specs.Prelude.{◌≡◌, ◌≤◌, ◌+◌, ◌↔◌, true, false, is_some, IsSome};
ghost use Rattle.feed_core.specs.Desk.{Rests, desk_after_cancel, desk_after_request};
ghost use Rattle.feed_core.specs.Lane.{IsFlow};
ghost use Rattle.feed_core.specs.Steps.{Asks, Notes};
ghost use Rattle.flow_rules.specs.Amount.{amount_of};

use super::Desk;
use crate::cause::Causes;
use flow_rules::{
    Amount, Demand, Ending, Feed, How, Item, Listener, NoMemory, Put, PutAll, Standing,
};
use std::mem;

impl<B: Listener> Feed for Desk<B> {
    ghost use Rattle.feed_core.specs.Feed.{end_of, DoesCall};

    type Task = ();

    ghost meaning = { end_of };

    ghost does = { DoesCall };

    /// It is always ready.
    fn ready(&mut self) -> Result<(), NoMemory> {
        Ok(())
    }

    fn put(&mut self, item: Item) -> Put<()> {
        if self.causes.closing.is_some() {
            return Put::Gone(item);
        }
        let standing = see_standing(self.how, self.accepted - self.given, &mut self.looks);
        if standing.ended {
            return Put::Gone(item);
        }
        if standing.held == self.capacity as u64 {
            return Put::Full(item);
        }
        self.held.put(item);
        self.accepted += 1;
        Put::Accepted {
            lag: standing.held + 1,
            start: signal(&mut self.started),
        }
    }

    fn put_all(&mut self, items: Vec<Item>) -> PutAll<()> {
        let is_closed = self.causes.closing.is_some();
        if is_closed {
            return PutAll::Gone(items);
        }
        let stands = see_standing(self.how, self.accepted - self.given, &mut self.looks);
        if stands.ended {
            return PutAll::Gone(items);
        }
        let many = items.len() as u64;
        self.held.put_all(items);
        self.accepted += many;
        let start = signal(&mut self.started);
        let lag = stands.held + many;
        PutAll::Accepted { lag, start }
    }

    fn end(&mut self, ending: Ending) -> Option<()> {
        if self.causes.closing.is_none() {
            self.causes.closing = Some(ending);
            signal(&mut self.started)
        } else {
            None
        }
    }

    fn duplicate(&mut self) -> Option<()> {
        self.causes.state = true;
        signal(&mut self.started)
    }

    fn standing(&mut self) -> Standing {
        see_standing(self.how, self.accepted - self.given, &mut self.looks)
    }
}

impl<B: Listener> Desk<B> {
    /// Adds to the demand (`Flow.Subscription.request`; Reactive Streams 1.0, rules 3.6, 3.8, 3.9 and 3.17). A number
    /// that is not positive ends the subscription with an error. An ended subscription counts a request, too, and is
    /// told nothing more; a cancelled one ignores it.
    #[must_use]
    pub fn request(&mut self, n: i64) -> Option<()>
        ensures requested { self.new ≡ desk_after_request n self.old }
        ensures starts { IsSome result ↔ ((self.old.is_cancelled ≡ false) × Rests self.old) }
        ensures flow { IsFlow self.new.lane }
    {
        if self.cancelled {
            return None;
        }
        note(n, &mut self.requested, &mut self.asked_badly);
        ask(n, &mut self.asked, &mut self.causes);
        signal(&mut self.started)
    }

    /// Ends the subscription at its next look, and from there on nothing is told (`Flow.Subscription.cancel`; Reactive
    /// Streams 1.0, rules 3.5 to 3.7). `onSubscribe` may still come before that look. A second time changes nothing.
    #[must_use]
    pub fn cancel(&mut self) -> Option<()>
        ensures cancelled { self.new ≡ desk_after_cancel self.old }
        ensures starts { IsSome result ↔ ((self.old.is_cancelled ≡ false) × Rests self.old) }
        ensures flow { IsFlow self.new.lane }
    {
        if self.cancelled {
            return None;
        }
        self.cancelled = true;
        self.causes.cancel = true;
        signal(&mut self.started)
    }
}

/// Adds a request to the demand, or notes a bad one.
pub(super) fn ask(n: i64, asked: &mut Demand, causes: &mut Causes)
    ensures grows { asked.old ≤ asked.new }
    ensures asks { Asks n asked.old asked.new causes.old causes.new }
{
    if asked.add(n).is_err() {
        causes.argument = true;
    }
}

/// Notes a request of the owner, or that it was a bad one.
fn note(n: i64, requested: &mut Demand, asked_badly: &mut bool)
    ensures notes { Notes n requested.old requested.new asked_badly.old asked_badly.new }
{
    if requested.add(n).is_err() {
        *asked_badly = true;
    }
}

/// Sees how a subscription stands: whether it has ended, and how many items its buffer holds.
fn see_standing(how: Option<How>, held: u64, looks: &mut Amount) -> Standing
    ensures ended { result.ended ≡ is_some how }
    ensures held { result.held ≡ held }
    ensures counted { amount_of looks.new ≡ amount_of looks.old + 1 }
{
    looks.add_one();
    Standing {
        ended: how.is_some(),
        held,
    }
}

/// Starts the task of a subscription, if it is at rest.
fn signal(started: &mut bool) -> Option<()>
    ensures started { started.new ≡ true }
    ensures rested { IsSome result ↔ (started.old ≡ false) }
{
    if mem::replace(started, true) {
        None
    } else {
        Some(())
    }
}
