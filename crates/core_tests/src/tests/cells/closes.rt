//! Closes: of a subscription that is still shared, with its own handle, and with the handle of another.
use super::parties::Parties;
use super::{Left, numbers};
use crate::Row;
use feed_cell::{Cell, Handle, Patience, Producer, Task, Turn, close, close_again, is_shared};
use feed_core::{Lane, Outlook, Seen};
use flow_rules::{Collector, Feed, How, NoMemory, Shown, Signal, Subscriber, capacity};
use std::alloc::Global;
use std::process::Abort;
use std::test::Fail;

type Told = Shown<Collector>;

// The ends of a subscription at rest, whose subscriber was subscribed and requested nothing.
fn at_rest(rt: &impl Abort, alloc: Global) -> Result<(Producer<Told>, Handle<Told>), Fail> {
    let mut parties = Parties::new(alloc, 1, Shown::new(Collector::new(alloc)))?;
    let wrong = parties.first_wrong(alloc, &[Row::Turn(b"s", Outlook::Resting)])?;
    assert!(rt; wrong.is_none() && parties.task.is_none());
    Ok(parties.into_ends())
}

// Whether there is a task that rests after a turn.
fn rests(alloc: Global, task: Option<Task<Told>>) -> Result<bool, NoMemory> {
    let mut seen = Seen::new(alloc)?;
    match task {
        Some(task) => Ok(matches!(
            task.turn(&mut seen, &mut Patience::hurries()),
            Turn::Resting(_)
        )),
        None => Ok(false),
    }
}

// Closes a subscription that is still shared. Its producer comes back, which has not ended and holds nothing.
fn comes_back(
    rt: &impl Abort,
    producer: Producer<Told>,
    handle: Handle<Told>,
) -> Result<Producer<Told>, Fail> {
    let Err(mut producer) = close(producer, handle) else {
        return Err(Fail::new("it is shared"));
    };
    let standing = producer.standing();
    assert!(rt; !standing.ended && standing.held == 0);
    Ok(producer)
}

// Closes a subscription, and compares what is left, and what its subscriber was told.
fn leaves(
    rt: &impl Abort,
    producer: Producer<Told>,
    handle: Handle<Told>,
    left: Left,
) -> Result<(), Fail> {
    let Ok(lane) = close(producer, handle) else {
        return Err(Fail::new("it is still shared"));
    };
    assert!(rt; numbers(&lane) == left);
    let told = lane
        .subscriber
        .as_ref()
        .map(|shown| shown.subscriber().told());
    assert!(rt; told == Some(&[Signal::Subscribed]));
    Ok(())
}

// A task that is alive keeps it shared; once that has rested, any handle will do, since its own makes no step any more.
#[test]
fn a_task_alive_gives_the_producer_back(rt: HostRuntime) -> Result<(), Fail> {
    let alloc = rt.alloc();
    let (_other, of_other) = at_rest(&rt, alloc)?;
    let parties = Parties::new(alloc, 1, Shown::new(Collector::new(alloc)))?;
    let task = parties.task;
    let producer = comes_back(&rt, parties.putting.producer, parties.handle)?;
    assert!(rt; rests(alloc, task)?);
    leaves(&rt, producer, of_other, (0, 0, 0, None, false))
}

// While its own handle lives, another's does not close it. That one's own subscription is left with no handle then.
#[test]
fn another_handle_gives_the_producer_back(rt: HostRuntime) -> Result<(), Fail> {
    let alloc = rt.alloc();
    let (one, of_one) = at_rest(&rt, alloc)?;
    let (other, of_other) = at_rest(&rt, alloc)?;
    let (_third, of_third) = at_rest(&rt, alloc)?;
    let one = comes_back(&rt, one, of_other)?;
    leaves(&rt, one, of_one, (0, 0, 0, None, false))?;
    // The other's handle made its last step in that close, so the other one is at rest for good.
    leaves(&rt, other, of_third, (0, 0, 0, None, false))
}

// A subscription whose own handle was dropped counts as one that runs, though its subscriber is there.
#[test]
fn a_lost_handle_leaves_it_running(rt: HostRuntime) -> Result<(), Fail> {
    let alloc = rt.alloc();
    let (one, of_one) = at_rest(&rt, alloc)?;
    let (_other, of_other) = at_rest(&rt, alloc)?;
    drop(of_one);
    leaves(&rt, one, of_other, (0, 0, 0, None, true))
}

// The ends of a subscription whose handle has requested two items and cancelled, and its task, which was never run.
fn cancelled(
    rt: &impl Abort,
    alloc: Global,
) -> Result<(Producer<Told>, Handle<Told>, Task<Told>), Fail> {
    let made = Cell::new(alloc, capacity(1)?, Shown::new(Collector::new(alloc)));
    let Ok((producer, mut handle, task)) = made else {
        return Err(Fail::new("there is no memory"));
    };
    let starts = handle.request(2).is_some() || handle.cancel().is_some();
    assert!(rt; !starts);
    Ok((producer, handle, task))
}

// Runs a turn of a task, which ends it as cancelled.
fn ends(rt: &impl Abort, alloc: Global, task: Task<Told>) -> Result<(), Fail> {
    let mut seen = Seen::new(alloc)?;
    let turn = task.turn(&mut seen, &mut Patience::hurries());
    assert!(rt; matches!(turn, Turn::Ended(How::Cancelled, _)));
    Ok(())
}

// Compares what is left of a cancelled subscription with what its handle did.
fn counts(rt: &impl Abort, left: Result<Lane<Told>, Producer<Told>>) -> Result<(), Fail> {
    let Ok(lane) = left else {
        return Err(Fail::new("it is still shared"));
    };
    assert!(rt; numbers(&lane) == (0, 0, 2, Some(How::Cancelled), false));
    Ok(())
}

// While a task is alive, the producer comes back from a close.
fn is_kept_by_its_task(rt: &impl Abort, alloc: Global) -> Result<(), Fail> {
    let (producer, handle, _alive) = cancelled(rt, alloc)?;
    assert!(rt; close(producer, handle).is_err());
    Ok(())
}

// Closed with its own handle, what is left counts what that did; while a task is alive, the producer comes back.
#[test]
fn its_own_handle_counts(rt: HostRuntime) -> Result<(), Fail> {
    let alloc = rt.alloc();
    is_kept_by_its_task(&rt, alloc)?;
    let (producer, handle, task) = cancelled(&rt, alloc)?;
    ends(&rt, alloc, task)?;
    counts(&rt, close(producer, handle))
}

// One at rest is not shared.
fn is_alone_at_rest(rt: &impl Abort, alloc: Global) -> Result<(), Fail> {
    let (producer, handle) = at_rest(rt, alloc)?;
    assert!(rt; !is_shared(&producer, &handle));
    Ok(())
}

// Closes a subscription that is shared, and once more. Its producer, which comes back from each close.
fn comes_back_twice(
    rt: &impl Abort,
    producer: Producer<Told>,
    handle: Handle<Told>,
) -> Result<Producer<Told>, Fail> {
    assert!(rt; is_shared(&producer, &handle));
    let Err(producer) = close(producer, handle) else {
        return Err(Fail::new("it is shared"));
    };
    match close_again(producer) {
        Err(producer) => Ok(producer),
        Ok(_) => Err(Fail::new("it is still shared")),
    }
}

// While its task is alive it is shared, and the producer comes back from each close; once that has ended it is left with what its handle did.
#[test]
fn one_whose_task_is_alive_is_shared(rt: HostRuntime) -> Result<(), Fail> {
    let alloc = rt.alloc();
    is_alone_at_rest(&rt, alloc)?;
    let (producer, handle, task) = cancelled(&rt, alloc)?;
    let producer = comes_back_twice(&rt, producer, handle)?;
    ends(&rt, alloc, task)?;
    counts(&rt, close_again(producer))
}
