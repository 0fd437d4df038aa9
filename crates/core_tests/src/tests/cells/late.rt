//! A closing error that waits for the items: of a Desk, and over a lock-free table.
use super::{is_told, left_in_order};
use crate::Row;
use crate::tests::desks::has_told;
use crate::tests::play::first_wrong;
use feed_core::{Desk, Outlook};
use flow_rules::{Collector, ErrorOrder, Fault, How, NoMemory, Shown, capacity};
use std::process::Abort;
use std::test::Fail;

const ERRED: Outlook = Outlook::Ended(How::Errored(Fault::Published(7)));

const GREETED: Row<'static> = Row::Turn(b"s", Outlook::Resting);

// The calls, at a capacity of 2, and what the subscriber was told.
type Life = (&'static [Row<'static>], &'static [u8]);

const LIVES: [Life; 6] = [
    // The error comes with the last item.
    (
        &[
            Row::Accepted(b'x', 1, false),
            Row::Accepted(b'y', 2, false),
            Row::Fail(7, false),
            Row::Close(false),
            Row::Gone(b'z'),
            GREETED,
            Row::Request(1, true),
            Row::Turn(b"x", Outlook::Resting),
            Row::Standing(false, 1),
            Row::Request(1, true),
            Row::Turn(b"ye", ERRED),
            Row::Standing(true, 0),
            Row::Counts(2, 2, 2),
            Row::Gone(b'z'),
        ],
        b"sxye",
    ),
    // Where no item waits, it comes at once.
    (
        &[GREETED, Row::Fail(7, true), Row::Turn(b"e", ERRED)],
        b"se",
    ),
    (&[Row::Fail(7, false), Row::Turn(b"se", ERRED)], b"se"),
    // A cancel, a second subscribing and a bad request come before it.
    (
        &[
            Row::Accepted(b'x', 1, false),
            GREETED,
            Row::Fail(7, true),
            Row::Turn(b"", Outlook::Resting),
            Row::Cancel(true),
            Row::Turn(b"", Outlook::Ended(How::Cancelled)),
        ],
        b"s",
    ),
    (
        &[
            Row::Accepted(b'x', 1, false),
            GREETED,
            Row::Fail(7, true),
            Row::Duplicate(false),
            Row::Turn(b"t", Outlook::Ended(How::Errored(Fault::IllegalState))),
        ],
        b"st",
    ),
    (
        &[
            Row::Accepted(b'x', 1, false),
            GREETED,
            Row::Fail(7, true),
            Row::Request(0, false),
            Row::Turn(b"a", Outlook::Ended(How::Errored(Fault::IllegalArgument))),
        ],
        b"sa",
    ),
];

#[test]
fn a_late_error_of_a_desk(rt: HostRuntime) -> Result<(), Fail> {
    let alloc = rt.alloc();
    for (number, (rows, told)) in LIVES.iter().enumerate() {
        let made = Desk::new_with(
            alloc,
            capacity(2)?,
            ErrorOrder::AfterItems,
            Collector::new(alloc),
        );
        let mut desk = match made {
            Ok(desk) => desk,
            Err(_) => return Err(NoMemory.into()),
        };
        let wrong = first_wrong(alloc, &mut desk, rows)?;
        assert!(rt; wrong.is_none(), "row {wrong:?} at {number}");
        assert!(rt; has_told(alloc, desk.subscriber(), told)?, "at {number}");
    }
    Ok(())
}

#[test]
fn a_late_error_over_a_table(rt: HostRuntime) -> Result<(), Fail> {
    let alloc = rt.alloc();
    for (number, (rows, told)) in LIVES.iter().enumerate() {
        let listener = Shown::new(Collector::new(alloc));
        let lane = left_in_order(&rt, alloc, ErrorOrder::AfterItems, listener, 2, rows)?;
        assert!(rt; is_told(alloc, &lane, Some(told))?, "at {number}");
    }
    Ok(())
}
