//! The steps of the producer: its looks at head, and a put. Its signals are in `signal.rt`.
ghost use Rattle.std.specs.Prelude.{◌≡◌, ◌+◌, ◌<◌, ◌≤◌, ◌^◌, ◌∷◌, ◌++◌, [], Some, None, IfSome, length};
ghost use Rattle.feed_cell.specs.Types.{Closing};
ghost use Rattle.feed_cell.specs.Offering.{Finds};
ghost use Rattle.feed_cell.specs.ProducerSteps.{FindsRoom, FindsHead};
ghost use Rattle.feed_cell.specs.ProducerSteps.{MayOffer, HasFreeSlot, HasRoomBehind, HasRoomForAll, HasPlacedOne, HasPlaced, HasPutAll};
ghost use Rattle.feed_cell.specs.Seats.{IsSameSeat, StepsTo};
ghost use Rattle.feed_cell.specs.Signals.{IsSent, IsReadySeat};
ghost use Rattle.feed_cell.specs.declared.cell.Held.TheVariants as Held;

use super::plays::{PlaceStep, PutStep, RoomStep, StandStep};
use crate::cell::seated::Seated;
use crate::cell::signal::signal;
use crate::cell::words::{Word, place_of};
use crate::cell::{CODE, COMPLETE, CellSeat, ERROR, Held, MARK};
use flow_rules::{Ending, Item, Listener};
use std::mem::ManuallyDrop;

/// What a put finds when it looks for room.
#[derive(Clone, Copy)]
pub(crate) enum Found {
    /// The subscription has ended.
    Ended,
    /// The buffer holds as many items as its capacity.
    Full,
    /// There is room, and this many items are held. The slot of the next item is out.
    Room(u64),
}

/// Looks for room, for a producer that has put this many items.
pub(crate) fn find_room<B: Listener>(party: &mut Seated<B>, tail: u64) -> Found
    requires may { MayOffer party.old.seat.me }
    requires counted { length party.old.seat.me.0.put ≡ tail }
    ensures finds { StepsTo party.old.seat (Finds tail result party.old.seat.me) party.new.seat }
{
    let head = look_for_room(party);
    if head >= MARK {
        return Found::Ended;
    }
    let held = tail - head;
    if held == party.capacity {
        return Found::Full;
    }
    Found::Room(held)
}

/// Loads head, and takes the slot of the next item out if there is room.
fn look_for_room<B: Listener>(party: &mut Seated<B>) -> u64
    requires may { MayOffer party.old.seat.me }
    ensures finds { StepsTo party.old.seat (FindsRoom party.old.seat.me result) party.new.seat }
{
    let table = &party.table.shared;
    let at = place_of(party.capacity, Word::Head);
    table.load::<RoomStep>(&mut party.seat, at)
}

/// Loads head.
pub(crate) fn see_standing<B: Listener>(party: &mut Seated<B>) -> u64
    requires may { MayOffer party.old.seat.me }
    ensures stands { StepsTo party.old.seat (FindsHead party.old.seat.me result) party.new.seat }
{
    let table = &party.table.shared;
    let at = place_of(party.capacity, Word::Head);
    table.load::<StandStep>(&mut party.seat, at)
}

/// Places the item in the slot that is out, gives that back, and takes the slot of the next item out. No other party
/// sees it before `place` has stored the new tail.
pub(crate) fn place_one<B: Listener>(party: &mut Seated<B>, number: u64, item: Item)
    requires place { HasFreeSlot number party.old.seat.me }
    requires behind { HasRoomBehind number party.old.seat.me }
    ensures placed { StepsTo party.old.seat (HasPlacedOne item party.old.seat.me) party.new.seat }
{
    let slot = party.slot_of(number);
    let table = &party.table.shared;
    let empty = table.exchange(&mut party.seat, slot, Held::Item(item));
    leave(empty);
    let at = place_of(party.capacity, Word::Tail);
    table.load::<PlaceStep>(&mut party.seat, at);
}

/// Places the item in the slot that is out, and stores the new tail: this item is put, and all that were placed before
/// it. Its number is how many were put and placed before.
pub(crate) fn place<B: Listener>(party: &mut Seated<B>, number: u64, item: Item)
    requires place { HasFreeSlot number party.old.seat.me }
    ensures put { StepsTo party.old.seat (HasPlaced item party.old.seat.me) party.new.seat }
{
    let slot = party.slot_of(number);
    let table = &party.table.shared;
    let nothing = table.exchange(&mut party.seat, slot, Held::Item(item));
    leave(nothing);
    let at = place_of(party.capacity, Word::Tail);
    table.store::<PutStep>(&mut party.seat, at, number + 1);
}

/// Places the items in their slots, in order, and puts them all by one store of tail.
pub(crate) fn place_all<B: Listener>(party: &mut Seated<B>, tail: u64, items: Vec<Item>)
    requires some { 0 < length items.items }
    requires place { HasFreeSlot tail party.old.seat.me }
    requires none_placed { party.old.seat.me.0.placed ≡ [] }
    requires room { HasRoomForAll items.items party.old.seat.me }
    requires few { tail + length items.items ≤ 2 ^ 62 }
    ensures put { StepsTo party.old.seat (HasPutAll items.items party.old.seat.me) party.new.seat }
{
    let mut items = items;
    let last = take_last(&mut items);
    let mut number = tail;
    for item in items {
        place_one(party, number, item);
        number += 1;
    }
    place(party, number, last);
}

/// Takes the last item.
fn take_last(items: &mut Vec<Item>) -> Item
    requires some { 0 < length items.old.items }
    ensures last { items.old.items ≡ items.new.items ++ result ∷ [] }
{
    match items.pop() {
        Some(last) => last,
        None => unreachable!(),
    }
}

/// Leaves what an empty slot held. To drop it would be to read it, which would fetch the slot from the task's cache
/// once more.
fn leave<B: Listener>(nothing: Held<B>)
    requires empty { nothing ≡ Held.Empty }
{
    let _ = ManuallyDrop::new(nothing);
}

/// Signals a close, with the code of its error, if it has one.
pub(crate) fn signal_end<B: Listener>(party: &mut Seated<B>, ending: Ending) -> Option<CellSeat<B>>
    requires may { MayOffer party.old.seat.me }
    requires unclosed { party.old.seat.me.0.closing ≡ None }
    ensures sent { StepsTo party.old.seat
        (IsSent (Some (Closing ending)) result party.old.seat.me) party.new.seat }
    ensures starts { IfSome result
        (IsReadySeat party.old.seat.table_id party.old.capacity party.old.seat.me.0.order) }
{
    match ending {
        Ending::Normal => signal(party, COMPLETE),
        Ending::Failed(code) => signal(party, (u64::from(code) << CODE) + ERROR),
    }
}
