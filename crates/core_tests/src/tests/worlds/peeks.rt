//! A peek: a look that leaves the mark of something new.
use super::{CANCELLED, MADE, NO_CAUSES, Row, SIGNAL_CANCEL, SIGNAL_PUT, is_as};
use feed_core::world::{Event, Parts, Runner, Side};
use flow_rules::{Answer, ErrorOrder};
use std::process::Abort;
use std::test::Fail;

const PEEKS: [Row<'static>; 5] = [
    // What was new stays so.
    (
        &[
            Event::Make(1, ErrorOrder::Overtake),
            Event::Room,
            Event::Put,
            SIGNAL_PUT,
            Event::Peek(Answer::Request(1)),
        ],
        true,
        Some(Parts {
            accepted: 1,
            own: 1,
            active: true,
            runner: Runner::Looked(NO_CAUSES),
            ..MADE
        }),
    ),
    // So a rest after a peek alone is missed.
    (
        &[
            Event::Make(1, ErrorOrder::Overtake),
            Event::Ask(1),
            Event::Signal(Side::Handle, None),
            Event::Peek(Answer::Go),
            Event::See,
            Event::Measure,
            Event::Rest,
        ],
        true,
        Some(Parts {
            asked: 1,
            active: true,
            runner: Runner::Ready,
            known_asked: 1,
            ..MADE
        }),
    ),
    // A look after the measure makes up for it.
    (
        &[
            Event::Make(1, ErrorOrder::Overtake),
            Event::Ask(1),
            Event::Signal(Side::Handle, None),
            Event::Peek(Answer::Go),
            Event::See,
            Event::Measure,
            Event::Look(Answer::Go),
            Event::See,
            Event::Measure,
            Event::Rest,
        ],
        true,
        Some(Parts {
            asked: 1,
            runner: Runner::Nobody,
            known_asked: 1,
            ..MADE
        }),
    ),
    // That look brings no answer: the peek before it brought the last one.
    (
        &[
            Event::Make(1, ErrorOrder::Overtake),
            Event::Peek(Answer::Request(1)),
            Event::See,
            Event::Measure,
            Event::Look(Answer::Request(1)),
        ],
        false,
        Some(Parts {
            own: 1,
            runner: Runner::Measured(NO_CAUSES, 0, 1),
            ..MADE
        }),
    ),
    // A peek that saw a cancel gives nothing.
    (
        &[
            Event::Make(1, ErrorOrder::Overtake),
            SIGNAL_CANCEL,
            Event::Peek(Answer::Go),
            Event::See,
        ],
        false,
        Some(Parts {
            causes: CANCELLED,
            active: true,
            runner: Runner::Looked(CANCELLED),
            ..MADE
        }),
    ),
];

#[test]
fn a_peek_leaves_what_is_new(rt: HostRuntime) -> Result<(), Fail> {
    for (place, row) in PEEKS.iter().enumerate() {
        assert!(rt; is_as(row), "row {place}");
    }
    Ok(())
}
