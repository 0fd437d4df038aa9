//! One subscription over all interleavings, event by event.
mod chance;
mod errors;
mod known;
mod peeks;
mod several;
mod table;

use feed_core::Causes;
use feed_core::world::{
    Cause, Event, Parts, Producing, Requesting, Runner, Side, all_runs,
    at_most_one_item_follows_an_end, worlds_at_rest_forget_nothing,
};
use flow_rules::{Answer, Ending, ErrorOrder, How};
use std::process::Abort;
use std::test::Fail;

const NO_CAUSES: Causes = Causes {
    order: ErrorOrder::Overtake,
    cancel: false,
    argument: false,
    state: false,
    closing: None,
    failed: None,
    memory: false,
};

const CANCELLED: Causes = Causes {
    cancel: true,
    ..NO_CAUSES
};

const CLOSED: Causes = Causes {
    closing: Some(Ending::Normal),
    ..NO_CAUSES
};

/// A subscription with room for one item, as it is made.
const MADE: Parts = Parts {
    capacity: 1,
    accepted: 0,
    given: 0,
    asked: 0,
    own: 0,
    causes: NO_CAUSES,
    active: false,
    producer: Producing::Free,
    handle: Requesting::Idle,
    runner: Runner::Fresh,
    known_put: 0,
    known_asked: 0,
};

const SIGNAL_PUT: Event = Event::Signal(Side::Producer, None);

const SIGNAL_CANCEL: Event = Event::Signal(Side::Handle, Some(Cause::Cancel));

/// Events, whether the last one is possible, and what there is after them.
type Row<'a> = (&'a [Event], bool, Option<Parts>);

/// The task rests; an item starts it; it takes the item.
const REST_AND_WAKE: [Row<'static>; 5] = [
    (&[Event::Make(3, ErrorOrder::Overtake)], false, None),
    (
        &[Event::Make(1, ErrorOrder::Overtake), Event::See],
        false,
        Some(MADE),
    ),
    (
        &[
            Event::Make(2, ErrorOrder::Overtake),
            Event::Look(Answer::Request(1)),
            Event::See,
            Event::Measure,
            Event::Rest,
        ],
        true,
        Some(Parts {
            capacity: 2,
            own: 1,
            runner: Runner::Nobody,
            ..MADE
        }),
    ),
    (
        &[
            Event::Make(2, ErrorOrder::Overtake),
            Event::Look(Answer::Request(1)),
            Event::See,
            Event::Measure,
            Event::Rest,
            Event::Room,
            Event::Put,
            SIGNAL_PUT,
        ],
        true,
        Some(Parts {
            capacity: 2,
            accepted: 1,
            own: 1,
            active: true,
            producer: Producing::Hands,
            runner: Runner::Coming,
            ..MADE
        }),
    ),
    (
        &[
            Event::Make(2, ErrorOrder::Overtake),
            Event::Look(Answer::Request(1)),
            Event::See,
            Event::Measure,
            Event::Rest,
            Event::Room,
            Event::Put,
            SIGNAL_PUT,
            Event::Hand(Side::Producer),
            Event::Look(Answer::Go),
            Event::See,
            Event::Measure,
            Event::Take,
        ],
        true,
        Some(Parts {
            capacity: 2,
            accepted: 1,
            given: 1,
            own: 1,
            runner: Runner::Taken,
            known_put: 1,
            ..MADE
        }),
    ),
];

/// What a race must not lose: an item, a cancel, a completion, one of two tasks.
const RACES: [Row<'static>; 6] = [
    // An item that came after the runner had counted: it doesn't rest.
    (
        &[
            Event::Make(1, ErrorOrder::Overtake),
            Event::Look(Answer::Request(1)),
            Event::See,
            Event::Measure,
            Event::Room,
            Event::Put,
            SIGNAL_PUT,
            Event::Rest,
        ],
        true,
        Some(Parts {
            accepted: 1,
            own: 1,
            active: true,
            runner: Runner::Ready,
            ..MADE
        }),
    ),
    // A second signal starts no second task.
    (
        &[
            Event::Make(1, ErrorOrder::Overtake),
            Event::Look(Answer::Go),
            Event::See,
            Event::Measure,
            Event::Rest,
            Event::Signal(Side::Producer, Some(Cause::Closing(Ending::Normal))),
            SIGNAL_CANCEL,
        ],
        true,
        Some(Parts {
            causes: Causes {
                cancel: true,
                ..CLOSED
            },
            active: true,
            producer: Producing::Hands,
            runner: Runner::Coming,
            ..MADE
        }),
    ),
    // The items are counted after a look alone, and not before it.
    (
        &[
            Event::Make(1, ErrorOrder::Overtake),
            Event::Look(Answer::Go),
            Event::See,
            Event::See,
        ],
        false,
        Some(Parts {
            runner: Runner::Saw(NO_CAUSES, 0),
            ..MADE
        }),
    ),
    // A look that saw no completion completes nothing.
    (
        &[
            Event::Make(1, ErrorOrder::Overtake),
            Event::Look(Answer::Go),
            Event::Signal(Side::Producer, Some(Cause::Closing(Ending::Normal))),
            Event::See,
            Event::Measure,
            Event::End(How::Completed),
        ],
        false,
        Some(Parts {
            causes: CLOSED,
            active: true,
            runner: Runner::Measured(NO_CAUSES, 0, 0),
            ..MADE
        }),
    ),
    // One item may follow a cancel, and no second one.
    (
        &[
            Event::Make(2, ErrorOrder::Overtake),
            Event::Room,
            Event::Put,
            SIGNAL_PUT,
            Event::Room,
            Event::Put,
            Event::Look(Answer::Request(2)),
            Event::See,
            Event::Measure,
            SIGNAL_CANCEL,
            Event::Take,
            Event::Take,
        ],
        false,
        Some(Parts {
            capacity: 2,
            accepted: 2,
            given: 1,
            own: 2,
            causes: CANCELLED,
            active: true,
            producer: Producing::HasPut,
            runner: Runner::Taken,
            known_put: 2,
            ..MADE
        }),
    ),
    // A look that saw a cancel gives nothing.
    (
        &[
            Event::Make(1, ErrorOrder::Overtake),
            SIGNAL_CANCEL,
            Event::Look(Answer::Go),
            Event::See,
        ],
        false,
        Some(Parts {
            causes: CANCELLED,
            runner: Runner::Looked(CANCELLED),
            ..MADE
        }),
    ),
];

/// Whether the last event is possible or not, as the row says, and leads to what it says, and so does the whole list.
fn is_as(row: &Row<'_>) -> bool {
    let (events, is_possible, parts) = *row;
    let mut world = all_runs(&[]);
    let mut found = false;
    for event in events {
        found = world.apply(*event);
    }
    found == is_possible && world.parts() == parts && all_runs(events) == world
}

#[test]
fn a_signal_starts_a_task_at_rest(rt: HostRuntime) -> Result<(), Fail> {
    worlds_at_rest_forget_nothing();
    for (place, row) in REST_AND_WAKE.iter().enumerate() {
        assert!(rt; is_as(row), "row {place}");
    }
    Ok(())
}

#[test]
fn no_race_loses_anything(rt: HostRuntime) -> Result<(), Fail> {
    at_most_one_item_follows_an_end();
    for (place, row) in RACES.iter().enumerate() {
        assert!(rt; is_as(row), "row {place}");
    }
    Ok(())
}

#[test]
fn a_world_shows_its_parts(rt: HostRuntime) -> Result<(), Fail> {
    let nothing = all_runs(&[]);
    assert!(rt; nothing.parts() == None && nothing.capacity() == 0 && nothing.cut() == None);
    assert!(rt; nothing.runner() == Runner::Nobody && !nothing.runner().is_started());
    let world = all_runs(&[
        Event::Make(2, ErrorOrder::Overtake),
        Event::Look(Answer::Request(3)),
        Event::Room,
        Event::Put,
        Event::Ask(4),
        SIGNAL_PUT,
        Event::See,
        Event::Measure,
        Event::Take,
        Event::Signal(Side::Handle, None),
        SIGNAL_CANCEL,
    ]);
    assert!(rt; (world.capacity(), world.accepted(), world.given()) == (2, 1, 1));
    assert!(rt; (world.asked(), world.own(), world.cut()) == (4, 3, Some(0)));
    assert!(rt; world.active() && world.causes() == CANCELLED);
    assert!(rt; world.producer() == Producing::Free && world.handle() == Requesting::Idle);
    assert!(rt; world.runner() == Runner::Taken && world.runner().is_started());
    assert!(rt; !world.runner().is_over());
    Ok(())
}
