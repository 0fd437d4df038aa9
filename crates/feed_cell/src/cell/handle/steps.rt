//! The steps of the handle on its own word. Its signals are in `signal.rt`.
ghost use Rattle.std.specs.Prelude.{◌≡◌, ◌+◌, ◌≤◌};
ghost use Rattle.feed_core.specs.Prelude.{total_after};
ghost use Rattle.feed_cell.specs.HandleSteps.{IsAsk, Leaves};
ghost use Rattle.feed_cell.specs.HandleSteps.{MayRequest};
ghost use Rattle.feed_cell.specs.Seats.{StepsTo};

use super::plays::{AskStep, LeaveStep};
use crate::cell::MARK;
use crate::cell::seated::Seated;
use crate::cell::words::{Word, place_of};
use flow_rules::{Listener, UNBOUNDED};

/// Stores the total with this many more, and answers it.
pub(crate) fn ask_more<B: Listener>(party: &mut Seated<B>, asked: u64, more: u64) -> u64
    requires may { MayRequest party.old.seat.me }
    requires counted { party.old.seat.me.0.asked ≡ asked }
    requires bounded { asked ≤ UNBOUNDED }
    requires some { (1 ≤ more) × (more ≤ UNBOUNDED + 1) }
    ensures asked { result ≡ total_after asked more }
    ensures stored { StepsTo party.old.seat (IsAsk party.old.seat.me result) party.new.seat }
{
    let table = &party.table.shared;
    let total = (asked + more).min(UNBOUNDED);
    let at = place_of(party.capacity, Word::Asked);
    table.store::<AskStep>(&mut party.seat, at, total);
    total
}

/// Stores that the handle makes no step any more.
pub(crate) fn leave<B: Listener>(party: &mut Seated<B>, asked: u64)
    requires may { MayRequest party.old.seat.me }
    requires counted { party.old.seat.me.0.asked ≡ asked }
    requires bounded { asked ≤ UNBOUNDED }
    ensures left { StepsTo party.old.seat (Leaves party.old.seat.me) party.new.seat }
{
    let table = &party.table.shared;
    let at = place_of(party.capacity, Word::Asked);
    table.store::<LeaveStep>(&mut party.seat, at, asked + MARK);
}
