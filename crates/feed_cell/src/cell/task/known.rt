//! How the task takes the next item: by what it knows, and where that is used up, by what it finds in the words.
ghost use Rattle.std.specs.Prelude.{◌≡◌, ◌↔◌, ◌<◌, true, length, IfSome, IfNone};
ghost use Rattle.feed_core.specs.Prelude.{UNBOUNDED, total_after};
ghost use Rattle.feed_core.specs.World.Table.{MaySee};
ghost use Rattle.feed_cell.specs.TaskSteps.{Carries, FindsNone, IsKnown, TakesNext};
ghost use Rattle.feed_cell.specs.Seats.{IsSameSeat};

use super::steps::{grab, measure, measure_none, see, take};
use crate::cell::MARK;
use crate::cell::seated::Seated;
use flow_rules::{Item, Listener, UNBOUNDED};

/// What the task found in this turn when it last loaded tail, and asked. Both only grow. So below them it takes items
/// without loading them again, which would move a cache line that the other sides store to.
#[derive(Clone, Copy)]
pub(crate) struct Known {
    /// How many items were put.
    pub(crate) put: u64,
    /// How many items the handle requested.
    pub(crate) asked: u64,
}

impl Known {
    /// What is known before the first load.
    pub(crate) fn nothing() -> Known
        ensures { (result.put ≡ 0) × (result.asked ≡ 0) }
    {
        Known { put: 0, asked: 0 }
    }

    /// Whether one more item than these was put and requested, if the answers of callbacks requested `own`.
    fn has_next(self, given: u64, own: u64) -> bool
        ensures { (result ≡ true) ↔ ((given < self.put) × (given < total_after self.asked own)) }
    {
        given < self.put && given < self.asked.saturating_add(own).min(UNBOUNDED)
    }
}

/// Takes the next item, if one was put and requested. Answers how many items it knows to be put, too.
pub(crate) fn next_item<B: Listener>(
    party: &mut Seated<B>,
    given: u64,
    own: u64,
    known: &mut Known,
) -> (u64, Option<Item>)
    requires carries { Carries B.told party.old.seat.me }
    requires stage { MaySee party.old.seat.me.0.runner }
    requires counted { length party.old.seat.me.0.taken ≡ given }
    requires own { own ≡ party.old.seat.me.0.own }
    requires known { IsKnown known.old party.old.seat.me.0 }
    ensures seat { IsSameSeat party.old.seat party.new.seat }
    ensures none { IfNone result.1 (FindsNone result.0 party.old.seat.me party.new.seat.me) }
    ensures some { IfSome result.1 (λ item. TakesNext item party.old.seat.me party.new.seat.me) }
    ensures known { IsKnown known.new party.new.seat.me.0 }
{
    if known.has_next(given, own) {
        grab(party);
        let item = take(party, given);
        return (known.put, Some(item));
    }
    find_item(party, given, own, known)
}

/// Takes the next item, if one was put and requested: it sees, measures, and takes. Answers how many items it saw, too.
fn find_item<B: Listener>(
    party: &mut Seated<B>,
    given: u64,
    own: u64,
    known: &mut Known,
) -> (u64, Option<Item>)
    requires carries { Carries B.told party.old.seat.me }
    requires stage { MaySee party.old.seat.me.0.runner }
    requires counted { length party.old.seat.me.0.taken ≡ given }
    requires own { own ≡ party.old.seat.me.0.own }
    requires known { IsKnown known.old party.old.seat.me.0 }
    ensures seat { IsSameSeat party.old.seat party.new.seat }
    ensures none { IfNone result.1 (FindsNone result.0 party.old.seat.me party.new.seat.me) }
    ensures some { IfSome result.1 (λ item. TakesNext item party.old.seat.me party.new.seat.me) }
    ensures known { IsKnown known.new party.new.seat.me.0 }
{
    let tail = see(party);
    known.put = tail;
    if tail == given {
        measure_none(party);
        return (tail, None);
    }
    let asked = measure(party) % MARK;
    known.asked = asked;
    if asked.saturating_add(own).min(UNBOUNDED) <= given {
        return (tail, None);
    }
    (tail, Some(take(party, given)))
}
