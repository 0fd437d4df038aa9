//! Several items by one signal.
use super::{CLOSED, MADE, NO_CAUSES, Row, SIGNAL_PUT};
use feed_core::world::{Cause, Event, Parts, Producing, Runner, Side, all_runs};
use flow_rules::{Answer, Ending, ErrorOrder};
use std::process::Abort;
use std::test::Fail;

/// A subscription with room for four items, in which two were put, and neither was signalled.
const TWO: Parts = Parts {
    capacity: 4,
    accepted: 2,
    producer: Producing::HasPut,
    ..MADE
};

/// How it becomes so.
const TWO_AT_ONCE: [Event; 4] = [
    Event::Make(4, ErrorOrder::Overtake),
    Event::Room,
    Event::Put,
    Event::PutMore,
];

const SEVERAL: [Row<'static>; 8] = [
    (&[], true, Some(TWO)),
    // As many as there is room for, and no more.
    (
        &[Event::PutMore, Event::PutMore],
        true,
        Some(Parts { accepted: 4, ..TWO }),
    ),
    (
        &[Event::PutMore, Event::PutMore, Event::PutMore],
        false,
        Some(Parts { accepted: 4, ..TWO }),
    ),
    // Only ahead of the signal, which is one for all.
    (
        &[SIGNAL_PUT, Event::PutMore],
        false,
        Some(Parts {
            active: true,
            producer: Producing::Free,
            ..TWO
        }),
    ),
    // A look for room comes before the first, not before the second.
    (
        &[SIGNAL_PUT, Event::Room, Event::PutMore],
        false,
        Some(Parts {
            active: true,
            producer: Producing::HasRoom,
            ..TWO
        }),
    ),
    // The task counts either all that were put by then, or, before the next one, fewer.
    (
        &[Event::Peek(Answer::Go), Event::See, Event::PutMore],
        true,
        Some(Parts {
            accepted: 3,
            runner: Runner::Saw(NO_CAUSES, 2),
            known_put: 2,
            ..TWO
        }),
    ),
    // No close comes between a put and its signal.
    (
        &[Event::Signal(Side::Producer, Some(Cause::Closing(Ending::Normal)))],
        false,
        Some(TWO),
    ),
    // None follows a close.
    (
        &[
            SIGNAL_PUT,
            Event::Signal(Side::Producer, Some(Cause::Closing(Ending::Normal))),
            Event::Room,
            Event::PutMore,
        ],
        false,
        Some(Parts {
            active: true,
            causes: CLOSED,
            producer: Producing::HasRoom,
            ..TWO
        }),
    ),
];

/// Whether a row that begins after two items were put at once is as it says.
fn is_as_after_two(row: &Row<'_>) -> bool {
    let (events, is_possible, parts) = *row;
    let mut world = all_runs(&[]);
    let mut found = false;
    for event in TWO_AT_ONCE {
        found = world.apply(event);
    }
    for event in events {
        found = world.apply(*event);
    }
    found == is_possible && world.parts() == parts
}

#[test]
fn several_items_are_put_ahead_of_one_signal(rt: HostRuntime) -> Result<(), Fail> {
    for (place, row) in SEVERAL.iter().enumerate() {
        assert!(rt; is_as_after_two(row), "row {place}");
    }
    Ok(())
}
