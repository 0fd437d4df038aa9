//! What comes while a task takes items that it has seen before: four items are there when its turn begins, and it stops
//! in the middle of the second.
use super::pausing::{Gate, Pausing};
use super::putting::Putting;
use crate::{item_with, signals};
use feed_cell::{Cell, Handle, Patience, Task, Turn};
use feed_core::{Outlook, Seen};
use flow_rules::{Ending, Fault, Feed, How, NoMemory, Put, capacity};
use std::alloc::Global;
use std::process::Abort;
use std::sync::{Arc, Wait};
use std::test::Fail;
use std::thread;
use std::thread::Threads;

const ITEMS: [u8; 4] = *b"wxyz";

// What comes.
#[derive(Clone, Copy)]
enum Call {
    Cancel,
    Fail,
    Request(i64),
    Put(u8),
}

// How many items were requested before, what comes in the middle of the second, what the turn tells, and its outlook.
type Life = (i64, Call, &'static [u8], Outlook);

const LIVES: [Life; 7] = [
    // No item follows, for each is taken after a peek of its own.
    (4, Call::Cancel, b"swx", Outlook::Ended(How::Cancelled)),
    (
        4,
        Call::Fail,
        b"swxe",
        Outlook::Ended(How::Errored(Fault::Published(7))),
    ),
    (
        4,
        Call::Request(0),
        b"swxa",
        Outlook::Ended(How::Errored(Fault::IllegalArgument)),
    ),
    // What is requested counts, though it was not known before, and no more than that.
    (2, Call::Request(2), b"swxyz", Outlook::Resting),
    (2, Call::Request(1), b"swxy", Outlook::Resting),
    // And so does what is put.
    (5, Call::Put(b'v'), b"swxyzv", Outlook::Resting),
    (4, Call::Put(b'v'), b"swxyz", Outlook::Resting),
];

// Runs one turn. What it told, and its outlook.
fn turn_of(task: Task<Pausing>, mut seen: Seen) -> (Seen, Outlook) {
    let outlook = match task.turn(&mut seen, &mut Patience::waits()) {
        Turn::Again(_) => Outlook::Again,
        Turn::Resting(_) => Outlook::Resting,
        Turn::Ended(how, _) => Outlook::Ended(how),
    };
    (seen, outlook)
}

// Puts an item with this letter. Whether it was accepted, and started no task.
fn puts(alloc: Global, putting: &mut Putting<Pausing>, letter: u8) -> Result<bool, NoMemory> {
    let item = item_with(alloc, &[letter])?;
    Ok(match putting.put(item)? {
        Put::Accepted { start, .. } => start.is_none(),
        Put::Full(_) | Put::Gone(_) => false,
    })
}

// Makes the call. Whether it started no task.
fn makes(
    alloc: Global,
    putting: &mut Putting<Pausing>,
    handle: &mut Handle<Pausing>,
    call: Call,
) -> Result<bool, NoMemory> {
    putting.producer.ready()?;
    handle.ready()?;
    Ok(match call {
        Call::Cancel => handle.cancel().is_none(),
        Call::Fail => putting.producer.end(Ending::Failed(7)).is_none(),
        Call::Request(n) => handle.request(n).is_none(),
        Call::Put(letter) => puts(alloc, putting, letter)?,
    })
}

// Whether a life is as it says, with room for this many items.
fn is_so<R: Threads + Wait + Send + Copy + 'static>(
    rt: R,
    alloc: Global,
    places: usize,
    life: &Life,
) -> Result<bool, Fail> {
    let (requested, later, told, outlook) = *life;
    let gate = Arc::new(alloc, Gate::new())?;
    let listener = Pausing::at_the_second(Arc::try_clone(&gate)?);
    let Ok((producer, mut handle, task)) = Cell::new(alloc, capacity(places)?, listener) else {
        return Err(NoMemory.into());
    };
    let mut putting = Putting::new(producer);
    let mut is_ready = true;
    for letter in ITEMS {
        is_ready = puts(alloc, &mut putting, letter)? && is_ready;
    }
    handle.ready()?;
    is_ready = handle.request(requested).is_none() && is_ready;
    let seen = Seen::new(alloc)?;
    let turning = thread::spawn(&rt, move || turn_of(task, seen))?;
    for _ in rt.forever() {
        if gate.is_reached() {
            break;
        }
        thread::yield_now();
    }
    let is_quiet = makes(alloc, &mut putting, &mut handle, later)?;
    let was_there = gate.let_go();
    let (seen, found) = turning.join(&rt);
    let wanted = signals(alloc, told)?;
    Ok(
        is_ready
            && is_quiet
            && was_there
            && found == outlook
            && seen.as_slice() == wanted.as_slice(),
    )
}

#[test]
fn what_comes_amid_known_items(rt: HostRuntime) -> Result<(), Fail> {
    for places in [8, 32, 256] {
        for (place, life) in LIVES.iter().enumerate() {
            assert!(rt;
                is_so(rt, rt.alloc(), places, life)?,
                "life {place} of {places}"
            );
        }
    }
    Ok(())
}
