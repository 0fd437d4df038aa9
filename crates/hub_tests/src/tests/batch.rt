//! Publications of batches of texts: how many there is room for.
ghost use Rattle.std.specs.Prelude.{◌≤◌, IfOk};
ghost use Rattle.feed_core.specs.Feed.{end_of};
ghost use Rattle.flow_rules.specs.declared.item.TheConstants.{MOST_PUBLICATIONS};
ghost use Rattle.publisher_hub.specs.Hub.{hub_of};
ghost use Rattle.publisher_hub.specs.Sound.{IsSound};

use super::policy::first_wrong;
use crate::{Ask, Row, Trial, Why};
use feed_core::Desk;
use flow_rules::{Collector, Ending, MOST_PUBLICATIONS, Refusal};
use publisher_hub::OnFull::{Drop, Wait};
use std::alloc::Global;
use std::test::Fail;

// One that came later has more room, and one that may lose items is waited for like any other.
const LEAST_ROOM: [Row<'static>; 10] = [
    Row::Adds(b'a', Wait),
    Row::Asks(Ask::Publishes(Ok(1))),
    Row::Adds(b'b', Drop),
    Row::Asks(Ask::PublishesBatch(1, Ok((1, 2)))),
    Row::Asks(Ask::PublishesBatch(64, Ok((2, 4)))),
    Row::Asks(Ask::PublishesBatch(64, Err(Why::Full))),
    Row::Asks(Ask::Dropped(0, Some(0))),
    Row::Asks(Ask::TakesFeed(0, true)),
    Row::Asks(Ask::PublishesBatch(64, Ok((1, 4)))),
    Row::Asks(Ask::Dropped(1, Some(0))),
];

const AFTER_THE_CLOSE: [Row<'static>; 3] = [
    Row::Adds(b'a', Wait),
    Row::Asks(Ask::Ends(false)),
    Row::Asks(Ask::PublishesBatch(2, Err(Why::Closed(Ending::Normal)))),
];

const LAST_THREE: [Row<'static>; 4] = [
    Row::Adds(b'a', Wait),
    Row::Asks(Ask::PublishesBatch(64, Ok((3, 3)))),
    Row::Asks(Ask::PublishesBatch(64, Err(Why::Number(13)))),
    Row::Asks(Ask::Publishes(Err(Why::Number(13)))),
];

// A Hub with buffers of this capacity, and with this next serial number.
fn hub_at(alloc: Global, asked: usize, serial: u64) -> Result<Trial<Desk<Collector>>, Refusal>
    requires { serial ≤ MOST_PUBLICATIONS }
    ensures { IfOk result (λ trial. IsSound (hub_of end_of trial.hub)) }
{
    Trial::starting_at(alloc, asked, serial)
}

#[test]
fn as_many_are_published_as_have_room_everywhere(rt: HostRuntime) -> Result<(), Fail> {
    let wrong = first_wrong(&mut hub_at(rt.alloc(), 4, 0)?, &LEAST_ROOM)?;
    assert!(rt; wrong.is_none(), "row {wrong:?}");
    let wrong = first_wrong(&mut hub_at(rt.alloc(), 4, 0)?, &AFTER_THE_CLOSE)?;
    assert!(rt; wrong.is_none(), "after the close, row {wrong:?}");
    Ok(())
}

#[test]
fn sixty_four_texts_go_into_buffers_of_any_size(rt: HostRuntime) -> Result<(), Fail> {
    for (asked, first, second) in [
        (1, Ok((1, 1)), Err(Why::Full)),
        (4, Ok((4, 4)), Err(Why::Full)),
        (256, Ok((64, 64)), Ok((64, 128))),
    ] {
        let rows = [
            Row::Adds(b'a', Wait),
            Row::Adds(b'b', Wait),
            Row::Asks(Ask::PublishesBatch(64, first)),
            Row::Asks(Ask::PublishesBatch(64, second)),
        ];
        let wrong = first_wrong(&mut hub_at(rt.alloc(), asked, 0)?, &rows)?;
        assert!(rt; wrong.is_none(), "capacity {asked}, row {wrong:?}");
    }
    Ok(())
}

#[test]
fn no_more_are_published_than_there_are_serial_numbers(rt: HostRuntime) -> Result<(), Fail> {
    let wrong = first_wrong(
        &mut hub_at(rt.alloc(), 4, MOST_PUBLICATIONS - 3)?,
        &LAST_THREE,
    )?;
    assert!(rt; wrong.is_none(), "row {wrong:?}");
    Ok(())
}
