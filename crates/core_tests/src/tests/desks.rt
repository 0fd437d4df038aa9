//! The calls of a Desk, as rows, on listeners of each kind.
ghost use Rattle.std.specs.Prelude.{◌≡◌, []};

use super::cells::{Left, numbers};
use super::play::{first_wrong, play};
use super::subscribers::was_told;
use crate::{Row, desk_of};
use feed_core::{Lane, Outlook};
use flow_rules::{
    Collector, Fault, How, Listener, NoMemory, Shown, Subscriber, Tally, UNBOUNDED, audit,
};
use std::alloc::Global;
use std::process::Abort;
use std::test::Fail;

const DEMAND: [Row<'static>; 14] = [
    Row::Capacity(4),
    Row::Ended(None),
    Row::Request(2, false),
    Row::Turn(b"s", Outlook::Resting),
    Row::Accepted(b'x', 1, true),
    Row::Accepted(b'y', 2, false),
    Row::Accepted(b'z', 3, false),
    Row::Lag(3),
    Row::Turn(b"xy", Outlook::Resting),
    Row::Counts(3, 2, 2),
    Row::Lag(1),
    Row::Request(1, true),
    Row::Request(1, false),
    Row::Turn(b"z", Outlook::Resting),
];

const FULL_BUFFER: [Row<'static>; 8] = [
    Row::Turn(b"s", Outlook::Resting),
    Row::Accepted(b'p', 1, true),
    Row::Accepted(b'q', 2, false),
    Row::Full(b'r'),
    Row::Request(9, false),
    Row::Turn(b"pq", Outlook::Resting),
    Row::Accepted(b'r', 1, true),
    Row::Turn(b"r", Outlook::Resting),
];

const COMPLETION: [Row<'static>; 11] = [
    Row::Accepted(b'x', 1, false),
    Row::Close(false),
    Row::Turn(b"s", Outlook::Resting),
    Row::Close(false),
    Row::Gone(b'y'),
    Row::Request(1, true),
    Row::Turn(b"xc", Outlook::Ended(How::Completed)),
    Row::Request(1, false),
    Row::Ended(Some(How::Completed)),
    Row::Counts(1, 1, 2),
    Row::Gone(b'z'),
];

const ERROR: [Row<'static>; 10] = [
    Row::Accepted(b'x', 1, false),
    Row::Turn(b"s", Outlook::Resting),
    Row::Standing(false, 1),
    Row::Fail(7, true),
    Row::Close(false),
    Row::Gone(b'y'),
    Row::Turn(b"e", Outlook::Ended(How::Errored(Fault::Published(7)))),
    Row::Standing(true, 1),
    Row::Fail(8, false),
    Row::Gone(b'z'),
];

const SECOND_SUBSCRIBING: [Row<'static>; 6] = [
    Row::Turn(b"s", Outlook::Resting),
    Row::Accepted(b'x', 1, true),
    Row::Turn(b"", Outlook::Resting),
    Row::Duplicate(true),
    Row::Duplicate(false),
    Row::Turn(b"t", Outlook::Ended(How::Errored(Fault::IllegalState))),
];

const UNBOUNDED_DEMAND: [Row<'static>; 7] = [
    Row::Turn(b"s", Outlook::Resting),
    Row::Request(i64::MAX, true),
    Row::Request(i64::MAX, false),
    Row::Counts(0, 0, UNBOUNDED),
    Row::Accepted(b'x', 1, false),
    Row::Accepted(b'y', 2, false),
    Row::Turn(b"xy", Outlook::Resting),
];

/// Whether a subscriber was told what these letters write, which the Flow rules allow.
pub(super) fn has_told<S: Subscriber>(
    alloc: Global,
    subscriber: &S,
    told: &[u8],
) -> Result<bool, NoMemory> {
    Ok(was_told(alloc, subscriber, told)? && audit(subscriber.told()))
}

/// Plays rows on a collector, and compares what it was told.
fn play_on_collectors(
    rt: &impl Abort,
    alloc: Global,
    asked: usize,
    rows: &[Row<'_>],
    told: &[u8],
) -> Result<(), Fail> {
    let (collector, twin) = (Collector::new(alloc), Collector::new(alloc));
    let collector = play(rt, alloc, collector, twin, asked, rows)?;
    assert!(rt; has_told(alloc, &collector, told)?);
    Ok(())
}

/// Plays rows on a collector that shows what it was told, and compares it.
fn play_on_shown(
    rt: &impl Abort,
    alloc: Global,
    asked: usize,
    rows: &[Row<'_>],
    told: &[u8],
) -> Result<(), Fail> {
    let shown = Shown::new(Collector::new(alloc));
    let twin = Shown::new(Collector::new(alloc));
    let shown = play(rt, alloc, shown, twin, asked, rows)?;
    assert!(rt; has_told(alloc, shown.subscriber(), told)?);
    Ok(())
}

/// Plays rows on a subscriber in a box, and compares what it was told.
fn play_on_boxed_subscribers(
    rt: &impl Abort,
    alloc: Global,
    asked: usize,
    rows: &[Row<'_>],
    told: &[u8],
) -> Result<(), Fail> {
    let boxed: Box<dyn Subscriber> = Box::new(alloc, Collector::new(alloc))?;
    let twin: Box<dyn Subscriber> = Box::new(alloc, Collector::new(alloc))?;
    assert!(rt; boxed.steady() && boxed.told().is_empty() && twin.told().is_empty());
    let boxed = play(rt, alloc, Shown::new(boxed), Shown::new(twin), asked, rows)?;
    assert!(rt; has_told(alloc, boxed.subscriber(), told)?);
    Ok(())
}

/// Plays rows on a listener in a box, which doesn't show what it was told.
fn play_on_boxed_listeners(
    rt: &impl Abort,
    alloc: Global,
    asked: usize,
    rows: &[Row<'_>],
) -> Result<(), Fail> {
    let boxed: Box<dyn Listener> = Box::new(alloc, Tally::new())?;
    let twin: Box<dyn Listener> = Box::new(alloc, Tally::new())?;
    let _ = play(rt, alloc, boxed, twin, asked, rows)?;
    Ok(())
}

/// Plays rows on listeners of each kind that are refused nothing, and compares what those were told that show it.
pub(super) fn play_on_all(
    rt: &impl Abort,
    alloc: Global,
    asked: usize,
    rows: &[Row<'_>],
    told: &[u8],
) -> Result<(), Fail> {
    play_on_collectors(rt, alloc, asked, rows, told)?;
    play_on_shown(rt, alloc, asked, rows, told)?;
    play_on_boxed_subscribers(rt, alloc, asked, rows, told)?;
    play_on_boxed_listeners(rt, alloc, asked, rows)
}

#[test]
fn demand_is_respected(rt: HostRuntime) -> Result<(), Fail> {
    play_on_all(&rt, rt.alloc(), 3, &DEMAND, b"sxyz")
}

#[test]
fn a_full_buffer_gives_the_item_back(rt: HostRuntime) -> Result<(), Fail> {
    play_on_all(&rt, rt.alloc(), 2, &FULL_BUFFER, b"spqr")
}

#[test]
fn completion_comes_after_the_items(rt: HostRuntime) -> Result<(), Fail> {
    play_on_all(&rt, rt.alloc(), 4, &COMPLETION, b"sxc")
}

#[test]
fn an_error_overtakes_the_items(rt: HostRuntime) -> Result<(), Fail> {
    play_on_all(&rt, rt.alloc(), 4, &ERROR, b"se")
}

#[test]
fn a_second_subscribing_starts_the_task_once(rt: HostRuntime) -> Result<(), Fail> {
    play_on_all(&rt, rt.alloc(), 4, &SECOND_SUBSCRIBING, b"st")
}

/// Whether a Desk that was called so leaves this many items accepted, taken and requested, this end, and a turn that is owed or not.
fn leaves(
    rt: &impl Abort,
    alloc: Global,
    rows: &[Row<'_>],
    told: &[u8],
    want: Left,
) -> Result<(), Fail> {
    let mut desk = desk_of(alloc, 4, Collector::new(alloc))?;
    let wrong = first_wrong(alloc, &mut desk, rows)?;
    assert!(rt; wrong.is_none(), "row {wrong:?}");
    is_left(rt, alloc, &desk.into_lane(), told, want)
}

/// Compares these numbers of what is left of a Desk, and what its subscriber was told.
fn is_left(
    rt: &impl Abort,
    alloc: Global,
    lane: &Lane<Collector>,
    told: &[u8],
    want: Left,
) -> Result<(), Fail> {
    assert!(rt; numbers(lane) == want);
    let Some(subscriber) = &lane.subscriber else {
        return Err(Fail::new("no subscriber"));
    };
    assert!(rt; has_told(alloc, subscriber, told)?);
    Ok(())
}

#[test]
fn a_lane_is_left_of_it(rt: HostRuntime) -> Result<(), Fail> {
    let alloc = rt.alloc();
    leaves(&rt, alloc, &[], b"", (0, 0, 0, None, true))?;
    leaves(&rt, alloc, &DEMAND, b"sxyz", (3, 3, 4, None, false))?;
    leaves(
        &rt,
        alloc,
        &COMPLETION,
        b"sxc",
        (1, 1, 2, Some(How::Completed), false),
    )
}

#[test]
fn demand_stays_unbounded(rt: HostRuntime) -> Result<(), Fail> {
    play_on_all(&rt, rt.alloc(), 4, &UNBOUNDED_DEMAND, b"sxy")
}

#[test]
fn a_turn_gives_64_items(rt: HostRuntime) -> Result<(), Fail> {
    let mut rows = [Row::Ended(None); 71];
    rows[0] = Row::Turn(b"s", Outlook::Resting);
    rows[1] = Row::Request(65, true);
    for lag in 1..66 {
        rows[lag + 1] = Row::Accepted(b'x', lag as u64, false);
    }
    rows[67] = Row::Turn(&[b'x'; 64], Outlook::Again);
    rows[68] = Row::Close(false);
    rows[69] = Row::Turn(b"xc", Outlook::Ended(How::Completed));
    rows[70] = Row::Counts(65, 65, 65);
    let mut told = [b'x'; 67];
    told[0] = b's';
    told[66] = b'c';
    play_on_all(&rt, rt.alloc(), 65, &rows, &told)
}
