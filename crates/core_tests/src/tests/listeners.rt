//! What the listeners answer, and what they do with what they are told.
use super::subscribers::was_told;
use crate::item_with;
use flow_rules::{Answer, Collector, Fault, GoesOn, Listener, NoMemory, Printer, Tally};
use std::alloc::Global;
use std::io;
use std::io::{Error, ErrorKind, Write};
use std::mem::size_of;
use std::test::Fail;
use test_kit::{Answering, Refused};

/// What five callbacks answer.
pub(super) type Answers = [Result<Answer, NoMemory>; 5];

const GOES: Answers = [Ok(Answer::Go); 5];

/// Answers of which the first so many are `Go`, and the others this one.
fn going(callbacks: usize, then: Result<Answer, NoMemory>) -> Answers {
    let mut answers = [then; 5];
    for place in 0..callbacks.min(5) {
        answers[place] = Ok(Answer::Go);
    }
    answers
}

/// What each callback answers, when they are called in turn, `on_next` with two items.
pub(super) fn call_each<B: Listener>(alloc: Global, listener: &mut B) -> Result<Answers, NoMemory> {
    let one = item_with(alloc, b"x")?;
    let other = item_with(alloc, b"y")?;
    Ok([
        listener.on_subscribe(),
        listener.on_next(&one),
        listener.on_next(&other),
        listener.on_complete(),
        listener.on_error(Fault::Published(7)),
    ])
}

#[test]
fn a_tally_counts_items(rt: HostRuntime) -> Result<(), Fail> {
    let mut tally = Tally::new();
    assert!(rt; tally.items() == 0);
    assert!(rt; call_each(rt.alloc(), &mut tally)? == GOES);
    assert!(rt; tally.items() == 2);
    // What it was told takes no byte.
    assert!(rt; size_of::<Tally>() == 8);
    Ok(())
}

const ANSWERS: [Answer; 4] = [
    Answer::Go,
    Answer::Request(3),
    Answer::Cancel,
    Answer::Fail(7),
];

/// Whether this answer is given after so many callbacks, and not by one that goes on.
fn is_given(alloc: Global, callbacks: u32, answer: Answer) -> Result<bool, NoMemory> {
    let mut wanted = GOES;
    if callbacks < 5 {
        wanted[callbacks as usize] = Ok(answer);
    }
    let mut listener = Answering::after(callbacks, answer);
    let mut going_on = GoesOn(Answering::after(callbacks, answer));
    Ok(call_each(alloc, &mut listener)? == wanted && call_each(alloc, &mut going_on)? == GOES)
}

#[test]
fn each_answer_is_given(rt: HostRuntime) -> Result<(), Fail> {
    for number in 0..24 {
        let (answer, callbacks) = (ANSWERS[number / 6], number as u32 % 6);
        assert!(rt;
            is_given(rt.alloc(), callbacks, answer)?,
            "{answer:?} after {callbacks}"
        );
    }
    Ok(())
}

/// Whether one that is refused memory after so many callbacks answers so many, and has told what these letters write.
fn is_refused(alloc: Global, callbacks: u32, told: &[u8]) -> Result<bool, NoMemory> {
    let wanted = going(callbacks as usize, Err(NoMemory));
    let mut refused = Refused::after(Collector::new(alloc), callbacks);
    Ok(call_each(alloc, &mut refused)? == wanted && was_told(alloc, refused.listener(), told)?)
}

#[test]
fn a_refused_one_keeps_what_it_answered(rt: HostRuntime) -> Result<(), Fail> {
    let rows: [(u32, &[u8]); 6] = [
        (0, b""),
        (1, b"s"),
        (2, b"sx"),
        (3, b"sxy"),
        (4, b"sxyc"),
        (5, b"sxyce"),
    ];
    for (callbacks, told) in rows {
        assert!(rt;
            is_refused(rt.alloc(), callbacks, told)?,
            "after {callbacks}"
        );
    }
    Ok(())
}

/// A writer that takes so many writes, and fails then: at the next one alone, or at each.
#[derive(Drop)]
struct Failing {
    taken: Vec<u8>,
    writes: u32,
    recovers: bool,
}

impl Write for Failing {
    fn write(&mut self, bytes: &[u8]) -> io::Result<usize> {
        if self.writes == 0 {
            if self.recovers {
                self.writes = u32::MAX;
            }
            return Err(Error::from(ErrorKind::BrokenPipe));
        }
        self.writes -= 1;
        self.taken.extend_from_slice(bytes)?;
        Ok(bytes.len())
    }

    fn flush(&mut self) -> io::Result<()> {
        Ok(())
    }
}

/// Whether a printer with this writer answers `Go` to this many callbacks and then `Cancel`, and writes this. It answers `Go` to a
/// terminal signal in any case, since that answer is not obeyed.
fn prints(
    alloc: Global,
    writer: Failing,
    callbacks: usize,
    written: &[u8],
) -> Result<bool, NoMemory> {
    let mut printer = Printer::new(writer);
    let mut wanted = going(callbacks, Ok(Answer::Cancel));
    wanted[3] = Ok(Answer::Go);
    wanted[4] = Ok(Answer::Go);
    let is_answered = call_each(alloc, &mut printer)? == wanted;
    let has_failed = printer.has_failed();
    let is_written = printer.into_writer().taken.as_slice() == written;
    Ok(is_answered && is_written && has_failed == (callbacks < 5))
}

/// The writes that are taken, the callbacks that are answered `Go`, and what is written.
const PRINTED: [(u32, usize, &[u8]); 5] = [
    (0, 1, b""),
    (1, 1, b"x"),
    (2, 2, b"x\n"),
    (3, 2, b"x\ny"),
    (4, 5, b"x\ny\n"),
];

#[test]
fn a_printer_writes_lines_until_a_write_fails(rt: HostRuntime) -> Result<(), Fail> {
    let alloc = rt.alloc();
    for (writes, callbacks, written) in PRINTED {
        for recovers in [false, true] {
            let writer = Failing {
                taken: Vec::new(alloc),
                writes,
                recovers,
            };
            assert!(rt;
                prints(alloc, writer, callbacks, written)?,
                "{writes} writes, recovers {recovers}"
            );
        }
    }
    Ok(())
}

/// A writer that holds back what it is given until it is flushed.
#[derive(Drop)]
struct Holding {
    held: Vec<u8>,
    taken: Vec<u8>,
}

impl Write for Holding {
    fn write(&mut self, bytes: &[u8]) -> io::Result<usize> {
        self.held.extend_from_slice(bytes)?;
        Ok(bytes.len())
    }

    fn flush(&mut self) -> io::Result<()> {
        self.taken.extend_from_slice(self.held.as_slice())?;
        self.held.clear();
        Ok(())
    }
}

/// What a printer's writer has taken once it was told an item and then its end.
fn taken_at_the_end(alloc: Global, fault: Option<Fault>) -> Result<Vec<u8>, NoMemory> {
    let item = item_with(alloc, b"x")?;
    let mut printer = Printer::new(Holding {
        held: Vec::new(alloc),
        taken: Vec::new(alloc),
    });
    let _ = printer.on_subscribe()?;
    let _ = printer.on_next(&item)?;
    let _ = match fault {
        Some(fault) => printer.on_error(fault)?,
        None => printer.on_complete()?,
    };
    Ok(printer.into_writer().taken)
}

#[test]
fn a_printer_flushes_its_writer_at_each_end(rt: HostRuntime) -> Result<(), Fail> {
    for fault in [None, Some(Fault::Published(7)), Some(Fault::IllegalState)] {
        let taken = taken_at_the_end(rt.alloc(), fault)?;
        assert!(rt; taken.as_slice() == b"x\n".as_slice(), "{fault:?}");
    }
    Ok(())
}
