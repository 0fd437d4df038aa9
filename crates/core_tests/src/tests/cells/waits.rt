//! What is learned of turns: how long a task waits that finds nothing to do.
use super::putting::Putting;
use crate::item_with;
use feed_cell::{Cell, Handle, Patience, Task, Turn};
use feed_core::Seen;
use flow_rules::{Collector, Feed, Put, capacity};
use std::alloc::Global;
use std::test::Fail;

// Turns enough for the waits to become the shortest, and one more.
const TURNS: u32 = 6;

// Runs a turn, after which the task rests.
fn rests(task: Task<Collector>, seen: &mut Seen, patience: &mut Patience) -> Result<(), Fail> {
    match task.turn(seen, patience) {
        Turn::Resting(_) => Ok(()),
        Turn::Again(_) | Turn::Ended(..) => Err(Fail::new("it doesn't rest")),
    }
}

// Requests an item of a subscription at rest. The task that this starts.
fn requested(handle: &mut Handle<Collector>) -> Result<Task<Collector>, Fail> {
    handle.ready()?;
    Ok(handle.request(1).ok_or("a request starts no task")?)
}

// The parties of a subscription with room for 64 items, whose task rested once.
fn at_rest(
    alloc: Global,
    seen: &mut Seen,
) -> Result<(Putting<Collector>, Handle<Collector>), Fail> {
    let Ok((producer, handle, task)) = Cell::new(alloc, capacity(64)?, Collector::new(alloc)) else {
        return Err(Fail::new("no memory for a subscription"));
    };
    let putting = Putting::new(producer);
    rests(task, seen, &mut Patience::hurries())?;
    Ok((putting, handle))
}

// In how many turns of a subscription that gets no item, one after the other, this patience learned something.
fn learned(
    handle: &mut Handle<Collector>,
    seen: &mut Seen,
    patience: &mut Patience,
) -> Result<u32, Fail> {
    let mut lessons: u32 = 0;
    for _ in 0..TURNS {
        let before = *patience;
        rests(requested(handle)?, seen, patience)?;
        if *patience != before {
            lessons = lessons.saturating_add(1);
        }
    }
    Ok(lessons)
}

// The same, of a new subscription.
fn lessons(alloc: Global, mut patience: Patience) -> Result<u32, Fail> {
    let mut seen = Seen::new(alloc)?;
    let (_putting, mut handle) = at_rest(alloc, &mut seen)?;
    learned(&mut handle, &mut seen, &mut patience)
}

// Waits in vain become shorter, but there is a shortest one.
#[test]
fn waits_in_vain_become_shorter(rt: HostRuntime) -> Result<(), Fail> {
    assert!(rt; lessons(rt.alloc(), Patience::waits())? == 4);
    Ok(())
}

// One who hurries waits for nothing, and so learns nothing.
#[test]
fn one_who_hurries_learns_nothing(rt: HostRuntime) -> Result<(), Fail> {
    assert!(rt; lessons(rt.alloc(), Patience::hurries())? == 0);
    Ok(())
}

// Puts two items in a row, and runs the task that the first one starts.
fn put_two(
    alloc: Global,
    putting: &mut Putting<Collector>,
    seen: &mut Seen,
    patience: &mut Patience,
) -> Result<(), Fail> {
    let Put::Accepted {
        start: Some(task),
        ..
    } = putting.put(item_with(alloc, b"x")?)?
    else {
        return Err(Fail::new("an item starts no task"));
    };
    let Put::Accepted { start: None, .. } = putting.put(item_with(alloc, b"y")?)? else {
        return Err(Fail::new("another item starts a task"));
    };
    rests(task, seen, patience)
}

// What two items in a row leave of a patience after a wait in vain behind them, and what this leaves of the longest.
fn after_two_items(alloc: Global, mut patience: Patience) -> Result<(Patience, Patience), Fail> {
    let mut seen = Seen::new(alloc)?;
    let mut longest = Patience::waits();
    let (mut putting, mut handle) = at_rest(alloc, &mut seen)?;
    rests(requested(&mut handle)?, &mut seen, &mut longest)?;
    learned(&mut handle, &mut seen, &mut patience)?;
    put_two(alloc, &mut putting, &mut seen, &mut patience)?;
    Ok((patience, longest))
}

#[test]
fn items_in_a_row_make_waits_the_longest(rt: HostRuntime) -> Result<(), Fail> {
    let (learned, longest) = after_two_items(rt.alloc(), Patience::waits())?;
    assert!(rt; learned == longest);
    let (learned, _) = after_two_items(rt.alloc(), Patience::hurries())?;
    assert!(rt; learned == Patience::hurries());
    Ok(())
}
