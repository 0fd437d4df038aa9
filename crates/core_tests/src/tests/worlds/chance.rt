//! Lists of events by chance: the code and the second reading of the table agree at every event of them.
use super::table::next;
use feed_core::world::{Cause, Event, Side, all_runs};
use flow_rules::{Answer, Ending, ErrorOrder, Fault, How};
use std::process::Abort;
use std::test::Fail;

/// Each kind of event, those of a turn and of a put more than once.
const EVENTS: [Event; 60] = [
    Event::Room,
    Event::Room,
    Event::Put,
    Event::Put,
    Event::PutMore,
    Event::PutMore,
    Event::Signal(Side::Producer, None),
    Event::Signal(Side::Producer, None),
    Event::Hand(Side::Producer),
    Event::Hand(Side::Producer),
    Event::Ask(1),
    Event::Ask(1),
    Event::Ask(0),
    Event::Ask(u64::MAX),
    Event::Signal(Side::Handle, None),
    Event::Signal(Side::Handle, None),
    Event::Hand(Side::Handle),
    Event::Hand(Side::Handle),
    Event::Look(Answer::Go),
    Event::Look(Answer::Go),
    Event::Look(Answer::Go),
    Event::Look(Answer::Request(1)),
    Event::Look(Answer::Request(i64::MAX)),
    Event::Look(Answer::Request(0)),
    Event::Look(Answer::Cancel),
    Event::Look(Answer::Fail(5)),
    Event::Peek(Answer::Go),
    Event::Peek(Answer::Go),
    Event::Peek(Answer::Request(1)),
    Event::Peek(Answer::Request(0)),
    Event::Peek(Answer::Cancel),
    Event::Peek(Answer::Fail(5)),
    Event::See,
    Event::See,
    Event::See,
    Event::Measure,
    Event::Measure,
    Event::Measure,
    Event::Take,
    Event::Take,
    Event::Take,
    Event::TakeKnown,
    Event::TakeKnown,
    Event::TakeKnown,
    Event::TakeKnown,
    Event::Rest,
    Event::Rest,
    Event::Rest,
    Event::Signal(Side::Producer, Some(Cause::State)),
    Event::Signal(Side::Producer, Some(Cause::Closing(Ending::Normal))),
    Event::Signal(Side::Producer, Some(Cause::Closing(Ending::Failed(7)))),
    Event::Signal(Side::Handle, Some(Cause::Cancel)),
    Event::Signal(Side::Handle, Some(Cause::Argument)),
    Event::End(How::Cancelled),
    Event::End(How::Failed(5)),
    Event::End(How::OutOfMemory),
    Event::End(How::Completed),
    Event::End(How::Errored(Fault::IllegalArgument)),
    Event::End(How::Errored(Fault::IllegalState)),
    Event::End(How::Errored(Fault::Published(7))),
];

/// How many events a list has.
const LENGTH: usize = 160;

/// The next number of a sequence that looks like chance.
fn next_number(number: u64) -> u64 {
    number
        .wrapping_mul(6_364_136_223_846_793_005)
        .wrapping_add(1_442_695_040_888_963_407)
}

/// A list of events that this number begins, after the one that makes the subscription, and the number that begins the next list.
fn list_of(number: u64, capacity: usize, order: ErrorOrder) -> ([Event; LENGTH], u64) {
    let mut events = [Event::Make(capacity, order); LENGTH];
    let mut number = number;
    for place in 1..LENGTH {
        number = next_number(number);
        events[place] = EVENTS[(number >> 33) as usize % 60];
    }
    (events, number)
}

/// Whether the code and the table agree at each of these events, and how many were possible.
fn agrees(events: &[Event]) -> (bool, u64) {
    let mut world = all_runs(&[]);
    let mut parts = None;
    let mut agrees = true;
    let mut possible = 0_u64;
    for event in events {
        let found = world.apply(*event);
        let then = next(parts, *event);
        agrees = agrees && found == then.is_some();
        if found {
            possible = possible.saturating_add(1);
            parts = then;
        }
        agrees = agrees && world.parts() == parts;
    }
    (agrees && all_runs(events) == world, possible)
}

#[test]
fn the_code_and_the_table_agree(rt: HostRuntime) -> Result<(), Fail> {
    let mut number = 1;
    let mut possible = 0_u64;
    for list in 0..3000_usize {
        let order = if list % 2 == 0 {
            ErrorOrder::Overtake
        } else {
            ErrorOrder::AfterItems
        };
        let (events, then) = list_of(number, [1, 2, 4][list % 3], order);
        number = then;
        let (agrees, some) = agrees(&events);
        assert!(rt; agrees, "list {list}");
        possible = possible.saturating_add(some);
    }
    assert!(rt; possible > 50_000, "{possible} were possible");
    Ok(())
}
