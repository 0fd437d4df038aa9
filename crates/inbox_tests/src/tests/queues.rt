//! A queue that several threads fill and empty.
use flow_rules::NoMemory;
use inbox::Queue;
use std::alloc::Global;
use std::sync::Wait;
use std::test::Fail;
use std::thread;
use std::thread::Threads;

// How many values each of two threads puts.
const VALUES: u64 = 100;

// Puts numbers from 1 on, and waits as long as there is no room.
fn fill<R: Wait>(rt: &R, queue: &Queue<u64>) {
    for value in 1..=VALUES {
        let _open = queue.push(rt, value);
    }
}

// Adds up what it takes, until there is no more.
fn add_up<R: Wait>(rt: &R, queue: &Queue<u64>) -> u64 {
    let mut sum: u64 = 0;
    for _ in rt.forever() {
        match queue.pop(rt) {
            Some(value) => sum = sum.saturating_add(value),
            None => break,
        }
    }
    sum
}

// Two threads fill a queue, and close it with a last value.
fn fill_twice<R: Threads + Wait + Sync>(rt: &R, queue: &Queue<u64>) {
    let ((), ()) = thread::join(rt, || fill(rt, queue), || fill(rt, queue));
    queue.close_with(rt, 1_000_000);
    // What comes after the close is dropped.
    queue.close_with(rt, 2_000_000);
    let _closed = queue.push(rt, 3_000_000);
}

// What two threads take together of what two others put.
fn add_up_together<R: Threads + Wait + Sync>(rt: &R, alloc: Global) -> Result<u64, NoMemory> {
    let queue = Queue::new(alloc, 2)?;
    let ((), (one, other)) = thread::join(
        rt,
        || fill_twice(rt, &queue),
        || thread::join(rt, || add_up(rt, &queue), || add_up(rt, &queue)),
    );
    Ok(one.saturating_add(other))
}

#[test]
fn each_value_is_taken_once(rt: HostRuntime) -> Result<(), Fail> {
    let sum = add_up_together(&rt, rt.alloc())?;
    assert!(rt; sum == 1_010_100, "{sum}");
    Ok(())
}

#[test]
fn a_cut_queue_gives_nothing(rt: HostRuntime) -> Result<(), Fail> {
    let queue = Queue::new(rt.alloc(), 2)?;
    assert!(rt; queue.push(&rt, 1));
    queue.close_with(&rt, 2);
    queue.cut(&rt);
    assert!(rt; queue.pop(&rt).is_none());
    assert!(rt; queue.try_push(&rt, 3).is_ok());
    assert!(rt; queue.pop(&rt).is_none());
    Ok(())
}
