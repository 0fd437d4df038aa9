//! The endings of a subscription: what calls its task to an end, what a callback answers, and memory that a callback is refused.
ghost use Rattle.std.specs.Prelude.{◌≡◌, []};

use super::desks::{has_told, play_on_all};
use super::play::play;
use crate::Row;
use feed_core::Outlook;
use flow_rules::{Answer, Collector, Fault, How, NoMemory, UNBOUNDED};
use std::alloc::Global;
use std::process::Abort;
use std::test::Fail;
use test_kit::{Answering, Refused};

const CANCELLED: Outlook = Outlook::Ended(How::Cancelled);

const FAILED: Outlook = Outlook::Ended(How::Failed(7));

const BAD_ARGUMENT: Outlook = Outlook::Ended(How::Errored(Fault::IllegalArgument));

const UNBOUNDED_REQUEST: Answer = Answer::Request(i64::MAX);

const BAD_REQUEST: [Row<'static>; 10] = [
    Row::Request(1, false),
    Row::Turn(b"s", Outlook::Resting),
    Row::Request(0, true),
    Row::Request(-1, false),
    Row::Accepted(b'x', 1, false),
    Row::Fail(7, false),
    Row::Turn(b"a", BAD_ARGUMENT),
    Row::Request(5, false),
    Row::Counts(1, 0, 6),
    Row::Gone(b'y'),
];

const CANCEL: [Row<'static>; 11] = [
    Row::Request(9, false),
    Row::Turn(b"s", Outlook::Resting),
    Row::Accepted(b'x', 1, true),
    Row::Request(-1, false),
    Row::Cancel(false),
    Row::Cancel(false),
    Row::Request(1, false),
    Row::Turn(b"", CANCELLED),
    Row::Cancel(false),
    Row::Counts(1, 0, 9),
    Row::Gone(b'y'),
];

const CANCEL_AT_ONCE: [Row<'static>; 3] = [
    Row::Cancel(false),
    Row::Turn(b"s", CANCELLED),
    Row::Ended(Some(How::Cancelled)),
];

#[test]
fn a_bad_request_ends_it(rt: HostRuntime) -> Result<(), Fail> {
    play_on_all(&rt, rt.alloc(), 4, &BAD_REQUEST, b"sa")
}

#[test]
fn a_cancel_ends_it(rt: HostRuntime) -> Result<(), Fail> {
    play_on_all(&rt, rt.alloc(), 4, &CANCEL, b"s")?;
    play_on_all(&rt, rt.alloc(), 4, &CANCEL_AT_ONCE, b"s")
}

#[test]
fn a_refused_callback_ends_it(rt: HostRuntime) -> Result<(), Fail> {
    let alloc = rt.alloc();
    // The callbacks that are answered, what they tell, and how many items are given.
    let rows: [(u32, &[u8], u64); 4] = [(0, b"", 0), (1, b"s", 1), (2, b"sx", 2), (3, b"sxy", 2)];
    for (callbacks, told, given) in rows {
        let rows = [
            Row::Request(9, false),
            Row::Accepted(b'x', 1, false),
            Row::Accepted(b'y', 2, false),
            Row::Close(false),
            Row::Turn(told, Outlook::Ended(How::OutOfMemory)),
            Row::Counts(2, given, 9),
            Row::Ended(Some(How::OutOfMemory)),
            Row::Request(1, false),
            Row::Gone(b'z'),
        ];
        let refused = Refused::after(Collector::new(alloc), callbacks);
        let twin = Refused::after(Collector::new(alloc), callbacks);
        let refused = play(&rt, alloc, refused, twin, 4, &rows)?;
        assert!(rt; has_told(alloc, refused.listener(), told)?);
    }
    Ok(())
}

#[test]
fn each_answer(rt: HostRuntime) -> Result<(), Fail> {
    let alloc = rt.alloc();
    // The callbacks that go on before one that answers so, what the turn tells, and its outlook.
    let rows: [(u32, Answer, &[u8], Outlook); 8] = [
        (1, Answer::Cancel, b"sv", CANCELLED),
        (1, Answer::Fail(7), b"sv", FAILED),
        (1, Answer::Request(0), b"sva", BAD_ARGUMENT),
        (1, Answer::Request(2), b"svwx", Outlook::Resting),
        (0, Answer::Cancel, b"s", CANCELLED),
        (0, Answer::Fail(7), b"s", FAILED),
        (0, Answer::Request(-1), b"sa", BAD_ARGUMENT),
        (0, Answer::Request(3), b"svwxy", Outlook::Resting),
    ];
    for (callbacks, answer, told, outlook) in rows {
        let rows = [
            Row::Request(1, false),
            Row::Accepted(b'v', 1, false),
            Row::Accepted(b'w', 2, false),
            Row::Accepted(b'x', 3, false),
            Row::Accepted(b'y', 4, false),
            Row::Accepted(b'z', 5, false),
            Row::Turn(told, outlook),
        ];
        let answering = Answering::after(callbacks, answer);
        let twin = Answering::after(callbacks, answer);
        let _ = play(&rt, alloc, answering, twin, 8, &rows)?;
    }
    Ok(())
}

#[test]
fn a_terminal_callback_is_not_obeyed(rt: HostRuntime) -> Result<(), Fail> {
    let alloc = rt.alloc();
    for answer in [Answer::Request(-1), Answer::Cancel, Answer::Fail(7)] {
        let rows = [
            Row::Request(1, false),
            Row::Accepted(b'x', 1, false),
            Row::Close(false),
            Row::Turn(b"sxc", Outlook::Ended(How::Completed)),
            Row::Counts(1, 1, 1),
        ];
        let answering = Answering::after(2, answer);
        let twin = Answering::after(2, answer);
        let _ = play(&rt, alloc, answering, twin, 8, &rows)?;
    }
    Ok(())
}

/// What calls a task to an end, the strongest first.
const CAUSES: [Row<'static>; 5] = [
    Row::Cancel(false),
    Row::Request(0, false),
    Row::Duplicate(false),
    Row::Fail(7, false),
    Row::Close(false),
];

/// For each of the causes, as the first one, and then for each as the second: what the turn after both tells, as a letter.
const TOLD_OF_TWO: [&[u8; 5]; 5] = [b"-----", b"-aaaa", b"-attt", b"-atee", b"-atcc"];

/// What a turn tells with an item that waits, and its end, where the letter of what it tells is this, or none.
fn end_by(letter: u8) -> (&'static [u8], How) {
    match letter {
        b'a' => (b"a", How::Errored(Fault::IllegalArgument)),
        b't' => (b"t", How::Errored(Fault::IllegalState)),
        b'e' => (b"e", How::Errored(Fault::Published(7))),
        b'c' => (b"vc", How::Completed),
        _ => (b"", How::Cancelled),
    }
}

/// Sets this cause, and each of them after it.
fn play_after(
    rt: &impl Abort,
    alloc: Global,
    first: Row<'static>,
    letters: &[u8],
) -> Result<(), Fail> {
    for (second, letter) in CAUSES.iter().zip(letters) {
        let (told, how) = end_by(*letter);
        let rows = [
            Row::Request(9, false),
            Row::Turn(b"s", Outlook::Resting),
            Row::Accepted(b'v', 1, true),
            first,
            *second,
            Row::Turn(told, Outlook::Ended(how)),
            Row::Ended(Some(how)),
        ];
        let (collector, twin) = (Collector::new(alloc), Collector::new(alloc));
        let _ = play(rt, alloc, collector, twin, 4, &rows)?;
    }
    Ok(())
}

#[test]
fn of_two_causes_the_stronger_is_told(rt: HostRuntime) -> Result<(), Fail> {
    for (first, letters) in CAUSES.iter().zip(&TOLD_OF_TWO) {
        play_after(&rt, rt.alloc(), *first, letters.as_slice())?;
    }
    Ok(())
}

/// `onSubscribe`, so many items, and what comes then, as letters.
fn told_items(alloc: Global, items: u32, last: &[u8]) -> Result<Vec<u8>, NoMemory> {
    let mut told = Vec::new(alloc);
    told.push(b's')?;
    for _ in 0..items {
        told.push(b'x')?;
    }
    for letter in last {
        told.push(*letter)?;
    }
    Ok(told)
}

/// The item whose callback answers so, the items that the turn tells and what comes then, its outlook, and the total.
const AT_AN_ITEM: [(u32, Answer, (u32, &[u8]), Outlook, u64); 12] = [
    (1, Answer::Cancel, (1, b""), CANCELLED, 64),
    (32, Answer::Cancel, (32, b""), CANCELLED, 64),
    (64, Answer::Cancel, (64, b""), CANCELLED, 64),
    (1, Answer::Fail(7), (1, b""), FAILED, 64),
    (32, Answer::Fail(7), (32, b""), FAILED, 64),
    (64, Answer::Fail(7), (64, b""), FAILED, 64),
    (1, Answer::Request(-1), (1, b"a"), BAD_ARGUMENT, 64),
    (32, Answer::Request(-1), (32, b"a"), BAD_ARGUMENT, 64),
    (64, Answer::Request(-1), (64, b""), Outlook::Again, 64),
    (1, Answer::Request(5), (64, b""), Outlook::Again, 69),
    (32, UNBOUNDED_REQUEST, (64, b""), Outlook::Again, UNBOUNDED),
    (64, Answer::Request(5), (64, b""), Outlook::Again, 69),
];

#[test]
fn each_answer_at_an_item(rt: HostRuntime) -> Result<(), Fail> {
    let alloc = rt.alloc();
    for (item, answer, (items, last), outlook, asked) in AT_AN_ITEM {
        let told = told_items(alloc, items, last)?;
        let mut rows = [Row::Request(64, false); 68];
        for lag in 1..65 {
            rows[lag] = Row::Accepted(b'x', lag as u64, false);
        }
        rows[65] = Row::Turn(told.as_slice(), outlook);
        rows[66] = Row::Counts(64, u64::from(items), asked);
        rows[67] = Row::Capacity(64);
        let answering = Answering::after(item, answer);
        let twin = Answering::after(item, answer);
        let _ = play(&rt, alloc, answering, twin, 64, &rows)?;
    }
    Ok(())
}

#[test]
fn a_callback_asks_and_is_refused_later(rt: HostRuntime) -> Result<(), Fail> {
    let alloc = rt.alloc();
    let rows = [
        Row::Request(1, false),
        Row::Accepted(b'v', 1, false),
        Row::Accepted(b'w', 2, false),
        Row::Accepted(b'x', 3, false),
        Row::Turn(b"svw", Outlook::Ended(How::OutOfMemory)),
        Row::Counts(3, 3, 3),
    ];
    let refused = Refused::after(Answering::after(1, Answer::Request(2)), 3);
    let twin = Refused::after(Answering::after(1, Answer::Request(2)), 3);
    let _ = play(&rt, alloc, refused, twin, 8, &rows)?;
    Ok(())
}

#[test]
fn each_ending_is_refused_memory(rt: HostRuntime) -> Result<(), Fail> {
    let alloc = rt.alloc();
    // What ends the subscription, the callbacks that are answered, what they tell, and the end.
    let rows: [(Row<'static>, u32, &[u8], How); 10] = [
        (Row::Cancel(false), 0, b"", How::OutOfMemory),
        (Row::Cancel(false), 1, b"s", How::Cancelled),
        (Row::Request(0, false), 0, b"", How::OutOfMemory),
        (Row::Request(0, false), 1, b"s", How::OutOfMemory),
        (Row::Duplicate(false), 0, b"", How::OutOfMemory),
        (Row::Duplicate(false), 1, b"s", How::OutOfMemory),
        (Row::Fail(7, false), 0, b"", How::OutOfMemory),
        (Row::Fail(7, false), 1, b"s", How::OutOfMemory),
        (Row::Close(false), 0, b"", How::OutOfMemory),
        (Row::Close(false), 1, b"s", How::OutOfMemory),
    ];
    for (ending, callbacks, told, how) in rows {
        let rows = [
            Row::Request(9, false),
            ending,
            Row::Turn(told, Outlook::Ended(how)),
            Row::Ended(Some(how)),
            Row::Request(1, false),
            Row::Gone(b'z'),
        ];
        let refused = Refused::after(Collector::new(alloc), callbacks);
        let twin = Refused::after(Collector::new(alloc), callbacks);
        let refused = play(&rt, alloc, refused, twin, 4, &rows)?;
        assert!(rt; has_told(alloc, refused.listener(), told)?);
    }
    Ok(())
}
