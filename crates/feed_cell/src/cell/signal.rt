//! What both ends do: a signal, and the hand-over of the task that it started.
ghost use Rattle.std.specs.Prelude.{◌≡◌, ℕ, None, IfSome, IfNone, IsSome};
ghost use Rattle.std.specs.Arc.{arc_value};
ghost use Rattle.std.specs.Int.{bit_at};
ghost use Rattle.crossbeam_utils.specs.Padded.{padded_value};
ghost use Rattle.feed_cell.specs.Control.{RUNNING, Reads, signal_of, cause_in};
ghost use Rattle.feed_cell.specs.Parties.{IsStarted};
ghost use Rattle.feed_cell.specs.Seats.{IsSameSeat, StepsTo};
ghost use Rattle.feed_cell.specs.Signals.{MaySignal, IsSent, MustHandOver, IsHanded, IsReadySeat};
ghost use Rattle.feed_cell.specs.Views.{starts_after};

use super::seated::Seated;
use super::task::{Stage, Task};
use super::words::{Word, place_of};
use super::{CellSeat, Held, ITEM, RUN, SharedTable, View};
use atomic_table::{Play, Split};
use flow_rules::Listener;

/// A signal: a fetch-or of control, with a mask that says its cause.
pub(crate) struct SignalStep;

impl<B: Listener> Play<Held<B>, View> for SignalStep {
    ghost use Rattle.feed_cell.specs.Control.{cause_in};
    ghost use Rattle.feed_cell.specs.Signals.{Signals};

    ghost then = { λ step. Signals (cause_in step.first) };
}

/// A party that has an item or a request to signal looks whether both marks are set: a load of control.
pub(crate) struct MarksStep;

impl<B: Listener> Play<Held<B>, View> for MarksStep {
    ghost use Rattle.feed_cell.specs.Signals.{FindsMarks};

    ghost then = { λ _. FindsMarks };
}

/// The task that a signal has started gets a seat.
pub(crate) struct HandOver;

impl Split<View> for HandOver {
    ghost use Rattle.feed_cell.specs.Views.{handed, running_handed};

    ghost left = { handed };

    ghost right = { running_handed };
}

/// Signals an item or a request. If both marks are set already, a load is all that it takes: to set them again would
/// change nothing. That load must not overtake the store of tail or of asked before it, and the task's loads of these
/// must not overtake its look. Each step of a table is sequentially consistent, and without that the task could come to
/// rest with an item that nobody signalled. If the task was at rest, its seat comes back.
pub(crate) fn signal_more<B: Listener>(party: &mut Seated<B>) -> Option<CellSeat<B>>
    requires may { MaySignal None party.old.seat.me.0 }
    ensures sent { StepsTo party.old.seat (IsSent None result party.old.seat.me) party.new.seat }
    ensures starts { IfSome result
        (IsReadySeat party.old.seat.table_id party.old.capacity party.old.seat.me.0.order) }
{
    let table = &party.table.shared;
    let at = place_of(party.capacity, Word::Control);
    let found = table.load::<MarksStep>(&mut party.seat, at);
    if found & ITEM == ITEM {
        return None;
    }
    signal(party, ITEM)
}

/// Signals what this mask says. If the task was at rest, its seat comes back.
pub(crate) fn signal<B: Listener>(party: &mut Seated<B>, mask: u64) -> Option<CellSeat<B>>
    requires mask { Reads mask (signal_of (cause_in mask)) }
    requires may { MaySignal (cause_in mask) party.old.seat.me.0 }
    ensures sent { StepsTo party.old.seat
        (IsSent (cause_in mask) result party.old.seat.me) party.new.seat }
    ensures starts { IfSome result
        (IsReadySeat party.old.seat.table_id party.old.capacity party.old.seat.me.0.order) }
{
    let table = &party.table.shared;
    let at = place_of(party.capacity, Word::Control);
    let found = table.fetch_or::<SignalStep>(&mut party.seat, at, mask);
    hand_over(party, found)
}

/// Hands the task over that the signal that found this word has started, if it has.
fn hand_over<B: Listener>(party: &mut Seated<B>, found: u64) -> Option<CellSeat<B>>
    requires hands { bit_at found RUNNING ≡ 0 → MustHandOver party.old.seat.me.0 }
    ensures handed { StepsTo party.old.seat (IsHanded found result party.old.seat.me)
        party.new.seat }
    ensures starts { IfSome result
        (IsReadySeat party.old.seat.table_id party.old.capacity party.old.seat.me.0.order) }
{
    let table = &party.table.shared;
    if found & RUN != 0 {
        return None;
    }
    Some(table.split_seat::<HandOver>(&mut party.seat))
}

/// Makes the task that a signal of this party started, if it did: what was spare is spent for it.
pub(crate) fn start<B: Listener>(
    party: &Seated<B>,
    spare: &mut Option<SharedTable<B>>,
    seat: Option<CellSeat<B>>,
) -> Option<Task<B>>
    requires ready { IsSome spare.old }
    requires fits { IfSome spare.old (λ spare.
        (padded_value (arc_value spare)).shared.table_id ≡ party.now.seat.table_id) }
    requires handed { IfSome seat
        (IsReadySeat party.now.seat.table_id party.now.capacity party.now.seat.me.0.order) }
    ensures none { IfNone result ((seat ≡ None) × (spare.new ≡ spare.old)) }
    ensures spent { IfSome result (λ task. spare.new ≡ None) }
    ensures started { IfSome result
        (IsStarted party.now.seat.table_id party.now.capacity party.now.seat.me.0.order) }
    ensures some { IfSome result (λ task. IsSome seat) }
    ensures counts { (started : ℕ) → starts_after result started ≡ starts_after seat started }
{
    let seat = seat?;
    let table = spare.take()?;
    let party = Seated {
        table,
        seat,
        capacity: party.capacity,
    };
    Some(Task {
        party,
        stage: Stage::Home,
    })
}
