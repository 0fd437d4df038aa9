//! The task of a subscription, which whoever runs it has.
mod calls;
mod causes;
mod known;
mod looks;
pub mod plays;
mod steps;
pub mod turns;
pub mod waits;

use super::CellSeat;
use super::seated::Seated;
use flow_rules::Listener;
use std::fmt;
use std::marker::Model;

/// Where a task stands between two turns.
#[derive(Clone, Copy, Debug, PartialEq, Eq)]
pub enum Stage {
    /// It was never run: its subscriber is with it, and was told nothing.
    Fresh,
    /// It was started by a signal: its subscriber is at home.
    Home,
    /// It goes on: its subscriber is with it.
    Going,
}

/// The task of a subscription. It has to be run until it is at rest or has ended: one that is dropped takes its
/// subscriber with it.
#[must_use]
#[derive(Drop)]
pub struct Task<B: Listener> {
    pub(crate) party: Seated<B>,
    pub(crate) stage: Stage,
}

impl<B: Listener> fmt::Debug for Task<B> {
    fn fmt<W: fmt::Write>(&self, f: &mut fmt::Formatter<W>) -> fmt::Result {
        f.write_str("Task")
    }
}

impl<B: Listener> Model for Task<B> {
    ghost use Rattle.std.specs.Prelude.{◌≡◌};
    ghost use Rattle.feed_cell.specs.Parties.{TaskState, known_by_task};
    ghost use Rattle.feed_cell.specs.TaskPauses.{told_out, replied_out, IsPaused};
    ghost use Rattle.feed_cell.specs.Views.{RunsFree};

    ghost Value = { TaskState };

    ghost view = { λ t. record {
      table = t.party.seat.table_id;
      seat = t.party.seat.id;
      knows = known_by_task t.party.seat.me.0;
      told = told_out B.told t.party.seat.me.1;
      replied = replied_out B.replied t.party.seat.me.1;
    } };

    ghost invariant = { λ t.
        RunsFree t.party.seat.me.0
        × IsPaused B.told t.stage t.party.seat.me };
}

/// The seat of a task that is over, as its last turn gives it back: what it showed last. It does nothing any more, and
/// has no bytes.
#[derive(Drop)]
pub struct Spent<B: Listener> {
    pub(crate) seat: CellSeat<B>,
}

impl<B: Listener> fmt::Debug for Spent<B> {
    fn fmt<W: fmt::Write>(&self, f: &mut fmt::Formatter<W>) -> fmt::Result {
        f.write_str("Spent")
    }
}

impl<B: Listener> Model for Spent<B> {
    ghost use Rattle.feed_cell.specs.Parties.{SpentState, known_by_task};

    ghost Value = { SpentState };

    ghost view = { λ s. record {
      table = s.seat.table_id;
      seat = s.seat.id;
      knows = known_by_task s.seat.me.0;
      replied = s.seat.me.0.replied;
    } };
}
