//! An item by what the task saw before its look.
use super::{CANCELLED, MADE, NO_CAUSES, Row, SIGNAL_CANCEL, SIGNAL_PUT};
use feed_core::Causes;
use feed_core::world::{Cause, Event, Parts, Runner, Side, all_runs};
use flow_rules::{Answer, Ending, ErrorOrder};
use std::process::Abort;
use std::test::Fail;

/// Closed with an error that overtakes the items.
const FAILED: Causes = Causes {
    closing: Some(Ending::Failed(7)),
    ..NO_CAUSES
};

/// Two items are put, the task has taken the first of them, and the handle has requested one.
const ONE_OF_TWO: [Event; 12] = [
    Event::Make(2, ErrorOrder::Overtake),
    Event::Ask(1),
    Event::Signal(Side::Handle, None),
    Event::Room,
    Event::Put,
    SIGNAL_PUT,
    Event::Room,
    Event::Put,
    SIGNAL_PUT,
    Event::Peek(Answer::Go),
    Event::See,
    Event::Measure,
];

/// What there is then.
const HALF: Parts = Parts {
    capacity: 2,
    accepted: 2,
    given: 1,
    asked: 1,
    active: true,
    runner: Runner::Taken,
    known_put: 2,
    known_asked: 1,
    ..MADE
};

const KNOWN: [Row<'static>; 7] = [
    // What the callback of the first item requests counts at once.
    (
        &[
            Event::Take,
            Event::Peek(Answer::Request(1)),
            Event::TakeKnown,
        ],
        true,
        Some(Parts {
            given: 2,
            own: 1,
            ..HALF
        }),
    ),
    // Each item by a peek of its own.
    (&[Event::Take, Event::TakeKnown], false, Some(HALF)),
    // What was requested, but not measured, doesn't count.
    (
        &[
            Event::Take,
            Event::Ask(1),
            Event::Signal(Side::Handle, None),
            Event::Peek(Answer::Go),
            Event::TakeKnown,
        ],
        false,
        Some(Parts {
            asked: 2,
            runner: Runner::Looked(NO_CAUSES),
            ..HALF
        }),
    ),
    // Once it was measured, it does.
    (
        &[
            Event::Take,
            Event::Ask(1),
            Event::Signal(Side::Handle, None),
            Event::Peek(Answer::Go),
            Event::See,
            Event::Measure,
            Event::Take,
        ],
        true,
        Some(Parts {
            given: 2,
            asked: 2,
            known_asked: 2,
            ..HALF
        }),
    ),
    // A peek that saw a cancel gives nothing.
    (
        &[
            Event::Take,
            SIGNAL_CANCEL,
            Event::Peek(Answer::Request(1)),
            Event::TakeKnown,
        ],
        false,
        Some(Parts {
            own: 1,
            causes: CANCELLED,
            runner: Runner::Looked(CANCELLED),
            ..HALF
        }),
    ),
    // Nor does one that saw an error that overtakes the items.
    (
        &[
            Event::Take,
            Event::Signal(Side::Producer, Some(Cause::Closing(Ending::Failed(7)))),
            Event::Peek(Answer::Request(1)),
            Event::TakeKnown,
        ],
        false,
        Some(Parts {
            own: 1,
            causes: FAILED,
            runner: Runner::Looked(FAILED),
            ..HALF
        }),
    ),
    // One item may follow a cancel that came after the peek, and no second one.
    (
        &[
            Event::Take,
            Event::Peek(Answer::Request(2)),
            SIGNAL_CANCEL,
            Event::TakeKnown,
            Event::Peek(Answer::Go),
            Event::TakeKnown,
        ],
        false,
        Some(Parts {
            given: 2,
            own: 2,
            causes: CANCELLED,
            runner: Runner::Looked(CANCELLED),
            ..HALF
        }),
    ),
];

/// Whether a row that begins where one of two items is about to be taken is as it says.
fn is_as_after_one_of_two(row: &Row<'_>) -> bool {
    let (events, is_possible, parts) = *row;
    let mut world = all_runs(&ONE_OF_TWO);
    let mut found = false;
    for event in events {
        found = world.apply(*event);
    }
    found == is_possible && world.parts() == parts
}

#[test]
fn an_item_is_taken_by_what_was_seen_before(rt: HostRuntime) -> Result<(), Fail> {
    for (place, row) in KNOWN.iter().enumerate() {
        assert!(rt; is_as_after_one_of_two(row), "row {place}");
    }
    Ok(())
}
