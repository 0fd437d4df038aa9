//! A run through a subscription: one thread puts the items, and this one runs the turns that tell them. All items are requested before.
ghost use Rattle.feed_core.specs.LaneCalls.{IsCapacity};

use super::in_order::InOrder;
use super::putting::{Putting, Tasks, put_all};
use crossbeam_queue::ArrayQueue;
use feed_cell::{Cell, Patience, Task, Turn};
use feed_core::Seen;
use flow_rules::Item;
use std::alloc::Global;
use std::sync::atomic::AtomicU64;
use std::sync::atomic::Ordering::SeqCst;
use std::sync::{Arc, Wait};
use std::thread;
use std::thread::Threads;
use std::time::{Clock, Instant};

/// Measures the nanoseconds of a run, if all items came in order.
pub fn time_cell<R: Threads + Wait + Clock + Sync>(
    rt: &R,
    alloc: Global,
    places: usize,
    items: Vec<Item>,
) -> Option<u128>
    requires { IsCapacity places }
{
    let count = items.len() as u64;
    let all = Arc::new(alloc, AtomicU64::new(0)).ok()?;
    let listener = InOrder::new(Arc::try_clone(&all).ok()?);
    let Ok((producer, mut handle, task)) = Cell::new(alloc, places, listener) else {
        return None;
    };
    let tasks = ArrayQueue::new(alloc, 1).ok()?;
    let seen = Seen::new(alloc).ok()?;
    let _ = handle.request(count as i64);
    tasks.push(rt, task).ok()?;
    let start = Instant::now(rt).ok()?;
    let is_run = through_cell(rt, Putting::new(producer), &tasks, seen, items);
    let spent = start.elapsed(rt).ok()?;
    (is_run && all.load(SeqCst) == count).then(|| spent.as_nanos())
}

/// Puts the items in a thread of their own, and runs the tasks. Answers false if the thread could not be started.
fn through_cell<R: Threads + Wait + Sync>(
    rt: &R,
    putting: Putting,
    tasks: &Tasks,
    seen: Seen,
    items: Vec<Item>,
) -> bool {
    thread::scope(
        thread::scope_env(),
        rt,
        |scope| match scope.spawn(move || put_all(rt, putting, tasks, items)) {
            Ok(_) => {
                run_all(rt, tasks, seen);
                true
            }
            Err(_) => false,
        },
    )
}

/// Runs each task that comes until the subscription has ended.
fn run_all<R: Wait>(rt: &R, tasks: &Tasks, mut seen: Seen) {
    let mut patience = Patience::waits();
    for _ in rt.forever() {
        if let Some(task) = tasks.pop(rt) {
            if run(rt, task, &mut seen, &mut patience) {
                break;
            }
        }
    }
}

/// Runs a task until it rests or has ended. Tells whether it has ended.
fn run<R: Wait>(rt: &R, task: Task<InOrder>, seen: &mut Seen, patience: &mut Patience) -> bool {
    let mut task = task;
    for _ in rt.forever() {
        match task.turn(seen, patience) {
            Turn::Again(next) => task = next,
            Turn::Resting(_) => return false,
            Turn::Ended(..) => return true,
        }
    }
    unreachable!()
}
