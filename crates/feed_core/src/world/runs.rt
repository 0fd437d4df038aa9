//! Events, one after the other.
ghost use Rattle.std.specs.Prelude.{◌≡◌, ◌↔◌, true, false};
ghost use Rattle.feed_core.specs.Cause.{stops, no_causes_in};
ghost use Rattle.feed_core.specs.World.Kept.{IsKeptIn};
ghost use Rattle.feed_core.specs.World.Lawful.{IsLawfulIn};
ghost use Rattle.feed_core.specs.World.Runs.{nothing, IsPossibleIn, next_of, Leads, made, cut_after, cut_where};
ghost use Rattle.feed_core.specs.World.Table.{joined};

use super::World;
use super::events::{Cause, Event};
use super::parts::{Parts, Producing, Requesting, Runner};
use super::possible::is_capacity;
use super::steps::join;
use crate::cause::Causes;
use flow_rules::ErrorOrder;

impl World {
    /// One step of one party. Answers whether it is possible now; if it is not, it changes nothing.
    pub fn apply(&mut self, event: Event) -> bool
        ensures possible { (result ≡ true) ↔ IsPossibleIn event self.old.parts }
        ensures done { result ≡ true → self.new ≡ next_of event self.old.parts self.old.cut }
        ensures unchanged { result ≡ false → self.new ≡ self.old }
        ensures lawful { IsLawfulIn self.new.parts self.new.cut }
    {
        let Some(mut parts) = self.made else {
            return self.make(event);
        };
        if !parts.can(event) {
            return false;
        }
        self.cut = cut_after(event, &parts, self.cut);
        parts.advance(event);
        self.made = Some(parts);
        true
    }

    /// The first event, which makes the subscription.
    fn make(&mut self, event: Event) -> bool
        requires unmade { self.old ≡ nothing }
        ensures possible { (result ≡ true) ↔ IsPossibleIn event self.old.parts }
        ensures done { result ≡ true → self.new ≡ next_of event self.old.parts self.old.cut }
        ensures unchanged { result ≡ false → self.new ≡ self.old }
        ensures lawful { IsLawfulIn self.new.parts self.new.cut }
    {
        match event {
            Event::Make(capacity, order) if is_capacity(capacity) => {
                self.made = Some(new_parts(capacity, order));
                true
            }
            _ => false,
        }
    }
}

/// What the events of this list lead to, in their order; those that are not possible when they come are left out.
/// Whatever the list is, the subscription keeps its law.
pub fn all_runs(events: &[Event]) -> World
    ensures leads { Leads nothing events.now result }
    ensures kept { IsKeptIn result.parts result.cut }
    ensures lawful { IsLawfulIn result.parts result.cut }
{
    let mut world = World {
        made: None,
        cut: None,
    };
    for event in events {
        world.apply(*event);
    }
    world
}

/// A new subscription, which is told a closing error in this order: its task was never run.
fn new_parts(capacity: usize, order: ErrorOrder) -> Parts
    ensures { result ≡ made capacity order }
{
    Parts {
        capacity,
        accepted: 0,
        given: 0,
        asked: 0,
        own: 0,
        causes: Causes::none_in(order),
        active: false,
        producer: Producing::Free,
        handle: Requesting::Idle,
        runner: Runner::Fresh,
        known_put: 0,
        known_asked: 0,
    }
}

/// The cut after an event: the first signal that ends the subscription at once sets it.
fn cut_after(event: Event, parts: &Parts, cut: Option<u64>) -> Option<u64>
    ensures { result ≡ cut_after event parts.now cut }
{
    match (cut, event) {
        (None, Event::Signal(_, cause)) => cut_where(cause, parts),
        _ => cut,
    }
}

/// The cut that a signal sets, if its cause ends the subscription at once.
fn cut_where(cause: Option<Cause>, parts: &Parts) -> Option<u64>
    ensures { result ≡ cut_where (stops (joined cause (no_causes_in parts.now.causes.order))) parts.now }
{
    let mut causes = Causes::none_in(parts.causes.order);
    join(cause, &mut causes);
    match causes.stops() {
        Some(_) => Some(parts.runner.given_before(parts.given)),
        None => None,
    }
}
