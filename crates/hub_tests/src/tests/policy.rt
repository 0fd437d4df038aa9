//! Publications that some subscriptions are waited for in, and others lose, as rows.
ghost use Rattle.std.specs.Prelude.{◌≤◌, IfOk};
ghost use Rattle.feed_core.specs.Feed.{end_of};
ghost use Rattle.flow_rules.specs.declared.item.TheConstants.{MOST_PUBLICATIONS};
ghost use Rattle.publisher_hub.specs.Hub.{hub_of};
ghost use Rattle.publisher_hub.specs.Sound.{IsSound};

use crate::{Ask, Row, Trial, Why};
use feed_core::Desk;
use flow_rules::{Collector, Ending, MOST_PUBLICATIONS, Refusal};
use publisher_hub::OnFull::{Drop, Wait};
use std::alloc::Global;
use std::test::Fail;

// Two of each kind at rest: all get the item. Then nobody does, since two are full that are waited for. Once these are gone, only the
// others are full, and lose all.
const TWO_OF_EACH: [Row<'static>; 25] = [
    Row::Asks(Ask::Figures(&[])),
    Row::Adds(b'a', Wait),
    Row::Adds(b'b', Drop),
    Row::Adds(b'c', Wait),
    Row::Adds(b'd', Drop),
    Row::HasRoom(true),
    Row::Publishes(Ok((1, 0))),
    Row::HasRoom(false),
    Row::Publishes(Err(Why::Full)),
    Row::Asks(Ask::Figures(&[
        (b'a', Wait, [1, 1, 0]),
        (b'b', Drop, [1, 1, 0]),
        (b'c', Wait, [1, 1, 0]),
        (b'd', Drop, [1, 1, 0]),
    ])),
    Row::Asks(Ask::Dropped(1, Some(0))),
    Row::Asks(Ask::TakesFeed(0, true)),
    Row::Publishes(Err(Why::Full)),
    Row::Asks(Ask::TakesFeed(2, true)),
    Row::HasRoom(true),
    Row::Publishes(Ok((0, 2))),
    Row::Publishes(Ok((0, 2))),
    Row::Asks(Ask::Figures(&[(b'b', Drop, [1, 1, 2]), (b'd', Drop, [1, 1, 2])])),
    Row::Asks(Ask::Dropped(0, Some(0))),
    Row::Asks(Ask::Dropped(1, Some(2))),
    Row::Asks(Ask::Dropped(3, Some(2))),
    Row::Asks(Ask::Offers(Ok(-2))),
    Row::Asks(Ask::Ends(false)),
    Row::Asks(Ask::Figures(&[(b'b', Drop, [1, 1, 3]), (b'd', Drop, [1, 1, 3])])),
    Row::Publishes(Err(Why::Closed(Ending::Normal))),
];

// One that may lose is full, and one that is waited for has room.
const A_LOSER_IS_FULL: [Row<'static>; 9] = [
    Row::Adds(b'a', Drop),
    Row::Publishes(Ok((1, 0))),
    Row::Adds(b'b', Wait),
    Row::HasRoom(true),
    Row::Asks(Ask::Shows(2, 1, false)),
    Row::Publishes(Ok((1, 1))),
    Row::Asks(Ask::Dropped(0, Some(1))),
    Row::Asks(Ask::Dropped(1, Some(0))),
    Row::HasRoom(false),
];

// One that is waited for is full, and one that may lose has room: it gets nothing.
const A_WAITER_IS_FULL: [Row<'static>; 9] = [
    Row::Adds(b'a', Wait),
    Row::Publishes(Ok((1, 0))),
    Row::Adds(b'b', Drop),
    Row::HasRoom(false),
    Row::Publishes(Err(Why::Full)),
    Row::Asks(Ask::TakesFeed(0, true)),
    Row::Asks(Ask::Shows(1, 0, true)),
    Row::Publishes(Ok((1, 0))),
    Row::Asks(Ask::Dropped(1, Some(0))),
];

// Both are full: nothing is lost. The calls that treat all alike do so still: one waits for both, one drops at both.
const BOTH_ARE_FULL: [Row<'static>; 9] = [
    Row::Adds(b'a', Wait),
    Row::Adds(b'b', Drop),
    Row::Asks(Ask::Publishes(Ok(1))),
    Row::Publishes(Err(Why::Full)),
    Row::Asks(Ask::Dropped(1, Some(0))),
    Row::Asks(Ask::Publishes(Err(Why::Full))),
    Row::Asks(Ask::Offers(Ok(-2))),
    Row::Asks(Ask::Dropped(0, Some(1))),
    Row::Asks(Ask::Dropped(1, Some(1))),
];

const LAST_ITEM: [Row<'static>; 2] = [
    Row::Publishes(Ok((0, 0))),
    Row::Publishes(Err(Why::Number(13))),
];

// A Hub with buffers of one item, and with this next serial number.
fn hub_at(alloc: Global, serial: u64) -> Result<Trial<Desk<Collector>>, Refusal>
    requires { serial ≤ MOST_PUBLICATIONS }
    ensures { IfOk result (λ trial. IsSound (hub_of end_of trial.hub)) }
{
    Trial::starting_at(alloc, 1, serial)
}

// The place of the first row that a Hub does not answer as the row says.
pub(super) fn first_wrong(
    trial: &mut Trial<Desk<Collector>>,
    rows: &[Row<'_>],
) -> Result<Option<usize>, Refusal>
    requires { IsSound (hub_of end_of trial.old.hub) }
{
    for (place, row) in rows.iter().enumerate() {
        if !trial.goes(*row)? {
            return Ok(Some(place));
        }
    }
    Ok(None)
}

#[test]
fn each_kind_is_waited_for_or_loses(rt: HostRuntime) -> Result<(), Fail> {
    let days: [&[Row<'static>]; 4] = [
        &TWO_OF_EACH,
        &A_LOSER_IS_FULL,
        &A_WAITER_IS_FULL,
        &BOTH_ARE_FULL,
    ];
    for (number, rows) in days.into_iter().enumerate() {
        let wrong = first_wrong(&mut hub_at(rt.alloc(), 0)?, rows)?;
        assert!(rt; wrong.is_none(), "hub {number}, row {wrong:?}");
    }
    Ok(())
}

#[test]
fn the_last_publication_by_policy_is_made_once(rt: HostRuntime) -> Result<(), Fail> {
    let wrong = first_wrong(&mut hub_at(rt.alloc(), MOST_PUBLICATIONS - 1)?, &LAST_ITEM)?;
    assert!(rt; wrong.is_none(), "row {wrong:?}");
    Ok(())
}
