//! A run through a queue of the kit: one thread pushes the items, and this one pops them. There is no subscriber, no demand and no task.
ghost use Rattle.std.specs.Prelude.{◌<◌};

use crossbeam_queue::ArrayQueue;
use flow_rules::Item;
use std::alloc::Global;
use std::sync::Wait;
use std::thread;
use std::thread::Threads;
use std::time::{Clock, Instant};

/// Measures the nanoseconds of a run, if all items came in order.
pub fn time_queue<R: Threads + Wait + Clock + Sync>(
    rt: &R,
    alloc: Global,
    places: usize,
    items: Vec<Item>,
) -> Option<u128>
    requires { 0 < places }
{
    let count = items.len() as u64;
    let queue = ArrayQueue::new(alloc, places).ok()?;
    let start = Instant::now(rt).ok()?;
    let in_order = through_queue(rt, &queue, items);
    let spent = start.elapsed(rt).ok()?;
    (in_order == count).then(|| spent.as_nanos())
}

/// Pushes the items in a thread of their own, and pops them. Answers how many came in order: 0 if the thread could not be started.
fn through_queue<R: Threads + Wait + Sync>(
    rt: &R,
    queue: &ArrayQueue<Item>,
    items: Vec<Item>,
) -> u64 {
    let count = items.len() as u64;
    thread::scope(
        thread::scope_env(),
        rt,
        |scope| match scope.spawn(move || push_all(rt, queue, items)) {
            Ok(_) => pop_all(rt, queue, count),
            Err(_) => 0,
        },
    )
}

/// Pushes all items, each again as long as it comes back.
fn push_all<R: Wait>(rt: &R, queue: &ArrayQueue<Item>, items: Vec<Item>) {
    for item in items {
        let mut item = item;
        for _ in rt.forever() {
            match queue.push(rt, item) {
                Ok(()) => break,
                Err(back) => item = back,
            }
        }
    }
}

/// Pops this many items. Answers how many came in order. They are dropped, as a turn's are.
fn pop_all<R: Wait>(rt: &R, queue: &ArrayQueue<Item>, items: u64) -> u64 {
    let mut next = 0;
    for _ in 0..items {
        let item = pop_one(rt, queue);
        if item.serial == next {
            next = next.wrapping_add(1);
        }
    }
    next
}

/// Pops an item, once there is one.
fn pop_one<R: Wait>(rt: &R, queue: &ArrayQueue<Item>) -> Item {
    for _ in rt.forever() {
        if let Some(item) = queue.pop(rt) {
            return item;
        }
    }
    unreachable!()
}
