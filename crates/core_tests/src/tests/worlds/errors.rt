//! A closing error, which overtakes the items or waits for them.
use super::{MADE, NO_CAUSES, Row, SIGNAL_PUT, is_as};
use feed_core::Causes;
use feed_core::world::{Cause, Event, Parts, Runner, Side};
use flow_rules::{Answer, Ending, ErrorOrder, Fault, How};
use std::process::Abort;
use std::test::Fail;

/// Closed with an error that overtakes the items.
const FAILED: Causes = Causes {
    closing: Some(Ending::Failed(7)),
    ..NO_CAUSES
};

/// Closed with an error that waits for the items.
const FAILED_LATE: Causes = Causes {
    order: ErrorOrder::AfterItems,
    closing: Some(Ending::Failed(7)),
    ..NO_CAUSES
};

const SIGNAL_FAIL: Event = Event::Signal(Side::Producer, Some(Cause::Closing(Ending::Failed(7))));

/// A closing error overtakes an item, or waits for it.
const ERRORS: [Row<'static>; 5] = [
    // One that overtakes bars the runner from the item, which it would see next.
    (
        &[
            Event::Make(1, ErrorOrder::Overtake),
            Event::Room,
            Event::Put,
            SIGNAL_PUT,
            SIGNAL_FAIL,
            Event::Look(Answer::Request(1)),
            Event::See,
        ],
        false,
        Some(Parts {
            accepted: 1,
            own: 1,
            causes: FAILED,
            runner: Runner::Looked(FAILED),
            ..MADE
        }),
    ),
    // One that waits doesn't end what the look found.
    (
        &[
            Event::Make(1, ErrorOrder::AfterItems),
            Event::Room,
            Event::Put,
            SIGNAL_PUT,
            SIGNAL_FAIL,
            Event::Look(Answer::Request(1)),
            Event::End(How::Errored(Fault::Published(7))),
        ],
        false,
        Some(Parts {
            accepted: 1,
            own: 1,
            causes: FAILED_LATE,
            runner: Runner::Looked(FAILED_LATE),
            ..MADE
        }),
    ),
    // The item is given first, and then the error is told.
    (
        &[
            Event::Make(1, ErrorOrder::AfterItems),
            Event::Room,
            Event::Put,
            SIGNAL_PUT,
            SIGNAL_FAIL,
            Event::Look(Answer::Request(1)),
            Event::See,
            Event::Measure,
            Event::Take,
            Event::Look(Answer::Go),
            Event::See,
            Event::Measure,
            Event::End(How::Errored(Fault::Published(7))),
        ],
        true,
        Some(Parts {
            accepted: 1,
            given: 1,
            own: 1,
            causes: FAILED_LATE,
            runner: Runner::Over(How::Errored(Fault::Published(7))),
            known_put: 1,
            ..MADE
        }),
    ),
    // Nothing rests while the error is due.
    (
        &[
            Event::Make(1, ErrorOrder::AfterItems),
            SIGNAL_FAIL,
            Event::Look(Answer::Go),
            Event::See,
            Event::Measure,
            Event::Rest,
        ],
        false,
        Some(Parts {
            causes: FAILED_LATE,
            runner: Runner::Measured(FAILED_LATE, 0, 0),
            ..MADE
        }),
    ),
    // It rests while an item waits for demand.
    (
        &[
            Event::Make(1, ErrorOrder::AfterItems),
            Event::Room,
            Event::Put,
            SIGNAL_PUT,
            SIGNAL_FAIL,
            Event::Look(Answer::Go),
            Event::See,
            Event::Measure,
            Event::Rest,
        ],
        true,
        Some(Parts {
            accepted: 1,
            causes: FAILED_LATE,
            runner: Runner::Nobody,
            known_put: 1,
            ..MADE
        }),
    ),
];

#[test]
fn a_closing_error_overtakes_or_waits(rt: HostRuntime) -> Result<(), Fail> {
    for (place, row) in ERRORS.iter().enumerate() {
        assert!(rt; is_as(row), "row {place}");
    }
    Ok(())
}
