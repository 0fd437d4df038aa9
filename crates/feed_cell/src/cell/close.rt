//! How a subscription is closed for good: its producer's end and its handle are given back.
pub mod again;
mod joined;

ghost use Rattle.std.specs.Prelude.{◌≡◌, ◌%◌, ◌-◌, ◌==◌, ◌<◌, ◌≤◌, ◌⊎◌, ℕ, Bool, true, false, [], Option, Some, None, IfSome, IfOk, IfErr};
ghost use Rattle.std.specs.Int.{bit_at};
ghost use Rattle.std.specs.Mem.Slots.{IsFull, slots_items, slots_len};
ghost use mathlib.Core.Option.{some};
ghost use lib.ListN.{get_elem?};
ghost use Rattle.feed_core.specs.World.Table.{MayBegin};
ghost use Rattle.feed_cell.specs.Control.{CANCELLED, MARK, RUNNING};
ghost use Rattle.flow_rules.specs.Feed.{End};
ghost use Rattle.feed_cell.specs.Left.{IsLeftOf, OnGuest, IsHomeBy, IsLaneWith, lane_without};
ghost use Rattle.feed_cell.specs.Parties.{HandleState, KnowsEnd, KnowsHandle, not_ready};
ghost use Rattle.feed_cell.specs.ProducerSteps.{MayOffer};
ghost use Rattle.feed_cell.specs.WordPlaces.{HasItsWords, place, word_count};
ghost use Rattle.feed_cell.specs.TaskAnswers.{IsNoted};

use self::joined::{Gather, join_if_of_one_table};
use super::handle::Handle;
use super::handle::steps::leave;
use super::producer::Producer;
use super::seated::Seated;
use super::words::{Word, place_of};
use super::{CANCELLED, CellSeat, CellTable, Held, Lodger, MARK, RUN};
use atomic_table::Closed;
use feed_core::Lane;
use flow_rules::{Listener, UNBOUNDED};
use std::alloc::Global;
use std::sync::Arc;

/// Gives back the two ends of a subscription, and takes it apart, with its subscriber. Items that were put and not
/// taken are dropped. The handle makes no step after this. If the subscription is still shared, by a task or by its own
/// handle, the producer's end comes back, not ready.
///
/// A lane that doesn't run is settled: its subscriber was told all that its demand and its ending allow. One that runs
/// has lost a task, with its subscriber, or its own handle was never closed.
///
/// With the subscription's own handle, what that requested is part of the total, and its cancel and its bad requests
/// are among the causes. With the handle of another, nothing is said of what this one's requested.
pub fn close<B: Listener>(producer: Producer<B>, handle: Handle<B>) -> Result<Lane<B>, Producer<B>>
    ensures left { IfOk result (IsLeftOf B.told B.replied producer.end None) }
    ensures own { handle.table ≡ producer.table
        → IfOk result (IsLeftOf B.told B.replied producer.end (Some handle)) }
    ensures back { IfErr result (λ back. back ≡ not_ready producer) }
{
    let mut asking = step_out(handle);
    let (table, mut seat, capacity) = unshared(producer)?;
    join_if_of_one_table::<_, _, _, _, Gather>(&table.shared, &mut seat, &mut asking);
    Ok(take_apart(table, seat, capacity))
}

/// The handle makes its last step. Its seat, which knows what it requested, comes back.
fn step_out<B: Listener>(handle: Handle<B>) -> CellSeat<B>
    ensures seat { (result.table_id ≡ handle.table) × (result.me.1 ≡ []) }
    ensures knows { KnowsHandle handle result.me.0 }
{
    let Handle {
        mut party,
        spare,
        asked,
        cancelled: _,
    } = handle;
    leave(&mut party, asked);
    drop(spare);
    party.into_seat()
}

/// Takes the table out with the producer's seat and the capacity, if nobody else shares it. Otherwise the producer's
/// end comes back, not ready.
fn unshared<B: Listener>(
    producer: Producer<B>,
) -> Result<(CellTable<B>, CellSeat<B>, u64), Producer<B>>
    ensures seat { IfOk result (λ parts. parts.1.table_id ≡ parts.0.shared.table_id) }
    ensures table { IfOk result (λ parts. parts.1.table_id ≡ producer.table) }
    ensures words { IfOk result (λ parts. HasItsWords parts.2 parts.1.table_id) }
    ensures sized { IfOk result (λ parts. parts.1.me.0.capacity ≡ parts.2) }
    ensures may { IfOk result (λ parts. MayOffer parts.1.me) }
    ensures knows { IfOk result (λ parts. KnowsEnd producer.end parts.1.me.0) }
    ensures back { IfErr result (λ back. back ≡ not_ready producer) }
{
    let Producer {
        party,
        spare,
        tail,
        closing,
    } = producer;
    let Seated {
        table,
        seat,
        capacity,
    } = party;
    drop(spare);
    match Arc::try_unwrap(table) {
        Ok(table) => Ok((table.into_inner(), seat, capacity)),
        Err(table) => Err(Producer {
            party: Seated {
                table,
                seat,
                capacity,
            },
            spare: None,
            tail,
            closing,
        }),
    }
}

/// Takes a subscription apart that nobody shares any more, with the producer's seat, which may have taken the handle's
/// in.
fn take_apart<B: Listener>(table: CellTable<B>, seat: CellSeat<B>, capacity: u64) -> Lane<B>
    requires table { (seat.table_id ≡ table.shared.table_id) × HasItsWords capacity seat.table_id }
    requires sized { seat.me.0.capacity ≡ capacity }
    requires may { (seat.me.0.puts ≡ true) × MayBegin seat.me.0.producing }
    ensures left { (end : End) (handle : Option HandleState)
        → KnowsEnd end seat.me.0 → IfSome handle (λ handle. KnowsHandle handle seat.me.0)
        → IsLeftOf B.told B.replied end handle result }
{
    let closed = table.close_with(seat);
    let head = word_of(&closed, capacity, Word::Head);
    let tail = word_of(&closed, capacity, Word::Tail);
    let asked = word_of(&closed, capacity, Word::Asked);
    let control = word_of(&closed, capacity, Word::Control);
    let last = last_slot(closed);
    lane_of(head, tail, asked, control, last)
}

/// What a word of a table says that nobody shares any more.
fn word_of<B: Listener>(closed: &Closed<Held<B>, Global>, capacity: u64, word: Word) -> u64
    requires full { IsFull closed.now.words }
    requires counted { slots_len closed.now.words ≡ word_count capacity }
    ensures { get_elem? (slots_items closed.now.words) (place capacity word) ≡ some result }
{
    closed.word(place_of(capacity, word))
}

/// What is left, by the words of a subscription and what its subscriber's slot holds.
fn lane_of<B: Listener>(head: u64, tail: u64, asked: u64, control: u64, last: Held<B>) -> Lane<B>
    ensures there { IsHomeBy head control
        → OnGuest last (IsLaneWith head tail asked control result) }
    ensures noted { IsHomeBy head control → OnGuest last (IsNoted B.replied) }
    ensures away { head < MARK → bit_at control RUNNING ≡ 1
        → result ≡ lane_without (head % MARK) tail (asked % MARK) (bit_at control CANCELLED == 1) }
{
    let given = head % MARK;
    let requested = asked % MARK;
    let cancelled = is_cancelled(control);
    let is_home = head >= MARK || control & RUN == 0;
    match last {
        Held::Guest(guest) if is_home => {
            let Lodger {
                subscriber,
                own,
                how,
                given: _,
                answers,
            } = Box::into_inner(guest.lodger);
            Lane {
                subscriber: Some(subscriber),
                accepted: tail,
                given,
                asked: requested.saturating_add(own).min(UNBOUNDED),
                requested,
                cancelled,
                ending: how,
                order: Some(answers.order),
                running: head < MARK && asked < MARK,
            }
        }
        _ => Lane {
            subscriber: None,
            accepted: tail,
            given,
            asked: requested,
            requested,
            cancelled,
            ending: None,
            order: None,
            running: true,
        },
    }
}

/// Whether the handle has cancelled, by the word of marks and causes.
fn is_cancelled(control: u64) -> bool
    ensures { result ≡ (bit_at control CANCELLED == 1) }
{
    (control >> CANCELLED) & 1 == 1
}

/// What the last slot of a table holds that nobody shares any more. The others are dropped, and the memory is given
/// back.
fn last_slot<B: Listener>(mut closed: Closed<Held<B>, Global>) -> Held<B>
    requires full { IsFull closed.slots }
    requires some { 0 < slots_len closed.slots }
    ensures { get_elem? (slots_items closed.slots) (slots_len closed.slots - 1) ≡ some result }
{
    let last = closed.slot_count() - 1;
    let mut i = 0;
    while i < last {
        drop(closed.take(i));
        i += 1;
    }
    let held = closed.take(last);
    closed.free();
    held
}
