//! Subscriptions over a lock-free table: what their parties answer in one thread, what a close leaves, and what threads do.
ghost use Rattle.std.specs.Prelude.{◌≡◌, []};

mod board;
mod closes;
mod in_order;
mod known;
mod late;
mod parties;
mod pausing;
mod putting;
mod relay;
mod several;
mod waits;

use super::desks::has_told;
use crate::Row;
use feed_core::{Lane, Outlook};
use flow_rules::{
    Collector, ErrorOrder, How, Listener, NoMemory, Shown, Signal, Subscriber, audit,
};
use parties::Parties;
use std::alloc::Global;
use std::process::Abort;
use std::test::Fail;

// How many items were accepted, given and requested, how it ended, and whether a turn is owed.
pub(super) type Left = (u64, u64, u64, Option<How>, bool);

pub(super) fn numbers<B: Listener>(lane: &Lane<B>) -> Left {
    (
        lane.accepted,
        lane.given,
        lane.asked,
        lane.ending,
        lane.running,
    )
}

// Makes the calls of a subscription for whose buffer this capacity is asked, compares each with its row, drops the task that is
// left, and closes it for good.
pub(super) fn left_of<B: Listener>(
    rt: &impl Abort,
    alloc: Global,
    listener: B,
    asked: usize,
    rows: &[Row<'_>],
) -> Result<Lane<B>, Fail>
    requires untold { B.told listener ≡ [] }
    requires unheard { B.replied listener ≡ [] }
{
    left_in_order(rt, alloc, ErrorOrder::Overtake, listener, asked, rows)
}

// The same, where a closing error and the items are told in this order.
pub(super) fn left_in_order<B: Listener>(
    rt: &impl Abort,
    alloc: Global,
    order: ErrorOrder,
    listener: B,
    asked: usize,
    rows: &[Row<'_>],
) -> Result<Lane<B>, Fail>
    requires untold { B.told listener ≡ [] }
    requires unheard { B.replied listener ≡ [] }
{
    let mut parties = Parties::new_with(alloc, asked, order, listener)?;
    let wrong = parties.first_wrong(alloc, rows)?;
    assert!(rt; wrong.is_none(), "row {wrong:?} of its parties");
    Ok(parties.close().ok_or("it is still shared")?)
}

// A whole life. Its subscriber requests one item when it is subscribed, and so it does in the lives below.
const ONE_PLACE: [Row<'static>; 9] = [
    Row::Accepted(b'x', 1, false),
    Row::Full(b'y'),
    Row::Turn(b"sx", Outlook::Resting),
    Row::Accepted(b'z', 1, true),
    Row::Request(1, false),
    Row::Turn(b"z", Outlook::Resting),
    Row::Close(true),
    Row::Turn(b"c", Outlook::Ended(How::Completed)),
    Row::Gone(b'w'),
];

const GREETED: Row<'static> = Row::Turn(b"s", Outlook::Resting);

// A life: the calls, at a capacity of 1; what the subscriber was told, if it is there; and what is left.
type Life = (&'static [Row<'static>], Option<&'static [u8]>, Left);

const LIVES: [Life; 7] = [
    (
        &ONE_PLACE,
        Some(b"sxzc"),
        (2, 2, 2, Some(How::Completed), false),
    ),
    // At rest nothing runs, whether or not something waits.
    (&[GREETED], Some(b"s"), (0, 0, 1, None, false)),
    (
        &[
            Row::Accepted(b'v', 1, false),
            Row::Turn(b"sv", Outlook::Resting),
            Row::Accepted(b'w', 1, true),
            Row::Close(false),
            Row::Turn(b"", Outlook::Resting),
        ],
        Some(b"sv"),
        (2, 1, 1, None, false),
    ),
    // A task that is dropped takes the subscriber with it: before its first turn, after an item, and after a cause to end.
    (&[], None, (0, 0, 0, None, true)),
    (
        &[
            Row::Accepted(b'v', 1, false),
            Row::Turn(b"sv", Outlook::Resting),
            Row::Accepted(b'w', 1, true),
            Row::Close(false),
        ],
        None,
        (2, 1, 0, None, true),
    ),
    (&[GREETED, Row::Cancel(true)], None, (0, 0, 0, None, true)),
    // What is called after the end changes nothing.
    (
        &[
            GREETED,
            Row::Cancel(true),
            Row::Turn(b"", Outlook::Ended(How::Cancelled)),
            Row::Request(5, false),
            Row::Gone(b'v'),
            Row::Duplicate(false),
        ],
        Some(b"s"),
        (0, 0, 1, Some(How::Cancelled), false),
    ),
];

#[test]
fn each_life_leaves_what_it_should(rt: HostRuntime) -> Result<(), Fail> {
    let alloc = rt.alloc();
    for (number, (rows, told, left)) in LIVES.iter().enumerate() {
        let lane = left_of(&rt, alloc, Shown::new(Collector::asking(alloc, 1)), 1, rows)?;
        assert!(rt; numbers(&lane) == *left, "at {number}");
        assert!(rt; is_told(alloc, &lane, *told)?, "at {number}");
    }
    Ok(())
}

// Whether the subscriber that is left was told what these letters write, or there is none.
fn is_told(
    alloc: Global,
    lane: &Lane<Shown<Collector>>,
    told: Option<&[u8]>,
) -> Result<bool, NoMemory> {
    match (&lane.subscriber, told) {
        (Some(shown), Some(told)) => has_told(alloc, shown.subscriber(), told),
        (None, None) => Ok(true),
        _ => Ok(false),
    }
}

// Where memory is refused from outside, either a call says so, or a callback, after which its subscriber is told nothing more.
#[test]
fn a_life_is_whole_or_is_refused_memory(rt: HostRuntime) -> Result<(), Fail> {
    let alloc = rt.alloc();
    let mut parties = Parties::new(alloc, 1, Shown::new(Collector::asking(alloc, 1)))?;
    let wrong = parties.first_wrong(alloc, &ONE_PLACE)?;
    let lane = parties.close().ok_or("it is still shared")?;
    if wrong.is_none() {
        assert!(rt; is_told(alloc, &lane, Some(b"sxzc"))?);
        return Ok(());
    }
    assert!(rt;
        !lane.running && lane.ending == Some(How::OutOfMemory),
        "row {wrong:?}"
    );
    let Some(shown) = &lane.subscriber else {
        return Err(Fail::new("it has no subscriber"));
    };
    let told = shown.subscriber().told();
    let items = items_in(told);
    assert!(rt; audit(told));
    // Every item that was taken was told, but for the last where its callback was refused.
    assert!(rt; items == lane.given || items.saturating_add(1) == lane.given);
    Ok(())
}

// How many items are told in a list of signals.
pub(super) fn items_in(told: &[Signal]) -> u64 {
    let mut items: u64 = 0;
    for signal in told {
        if let Signal::Next(_) = signal {
            items = items.saturating_add(1);
        }
    }
    items
}
