//! Who is told of a change: threads of a queue that sleep, and would sleep for ever if nobody told them.
use flow_rules::NoMemory;
use inbox::Queue;
use std::alloc::Global;
use std::sync::Wait;
use std::sync::atomic::AtomicU64;
use std::sync::atomic::Ordering::SeqCst;
use std::test::Fail;
use std::thread;
use std::thread::Threads;
use std::time::{Clock, Duration};

// For how many milliseconds nothing may be taken before a queue is given up.
const MOST_NAPS: u64 = 20_000;

// A queue for one value, and how many values were taken from it.
#[derive(Drop)]
struct Narrow {
    queue: Queue<u64>,
    taken: AtomicU64,
    // How many there are.
    values: u64,
}

impl Narrow {
    fn new(alloc: Global, values: u64) -> Result<Narrow, NoMemory> {
        Ok(Narrow {
            queue: Queue::new(alloc, 1)?,
            taken: AtomicU64::new(0),
            values,
        })
    }

    // Puts all values, each as soon as there is room for it.
    fn fill<R: Wait>(&self, rt: &R) {
        for value in 0..self.values {
            if !self.queue.push(rt, value) {
                return;
            }
        }
    }

    // Takes values by waiting for them, until there are no more.
    fn empty<R: Wait>(&self, rt: &R) {
        for _ in rt.forever() {
            match self.queue.pop(rt) {
                Some(_) => {
                    self.taken.fetch_add(1, SeqCst);
                }
                None => return,
            }
        }
    }

    // Takes a value once in a while, if there is one, and never waits; until all were taken, or none was for long.
    fn empty_without_waiting<R: Clock + Wait>(&self, rt: &R) {
        let mut naps = 0_u64;
        for _ in rt.forever() {
            if naps >= MOST_NAPS || self.taken.load(SeqCst) >= self.values {
                self.queue.close(rt);
                return;
            }
            naps = match self.queue.try_pop(rt) {
                Some(_) => {
                    self.taken.fetch_add(1, SeqCst);
                    0
                }
                None => naps.saturating_add(1),
            };
            thread::sleep(rt, Duration::from_millis(1));
        }
    }

    // Waits until all values were taken, or none was for long, and closes the queue.
    fn watch<R: Clock + Wait>(&self, rt: &R) {
        let mut naps = 0_u64;
        let mut seen = 0_u64;
        for _ in rt.forever() {
            if naps >= MOST_NAPS || seen >= self.values {
                self.queue.close(rt);
                return;
            }
            thread::sleep(rt, Duration::from_millis(1));
            let taken = self.taken.load(SeqCst);
            naps = if taken == seen {
                naps.saturating_add(1)
            } else {
                0
            };
            seen = taken;
        }
    }
}

fn empty_by_two<R: Threads + Wait + Sync>(rt: &R, narrow: &Narrow) {
    let ((), ()) = thread::join(rt, || narrow.empty(rt), || narrow.empty(rt));
}

fn empty_by_four<R: Threads + Wait + Sync>(rt: &R, narrow: &Narrow) {
    let ((), ()) = thread::join(rt, || empty_by_two(rt, narrow), || empty_by_two(rt, narrow));
}

fn fill_and_watch<R: Threads + Clock + Wait + Sync>(rt: &R, narrow: &Narrow) {
    let ((), ()) = thread::join(rt, || narrow.fill(rt), || narrow.watch(rt));
}

// Whoever takes a value wakes the push that sleeps, though several pops sleep, too.
#[test]
fn a_push_that_sleeps_among_pops_is_told_of_a_pop(rt: HostRuntime) -> Result<(), Fail> {
    let narrow = Narrow::new(rt.alloc(), 5_000)?;
    let ((), ()) = thread::join(
        &rt,
        || fill_and_watch(&rt, &narrow),
        || empty_by_four(&rt, &narrow),
    );
    let taken = narrow.taken.load(SeqCst);
    assert!(rt; taken == narrow.values, "{taken} taken");
    Ok(())
}

#[test]
fn a_push_that_sleeps_is_told_of_a_try_pop(rt: HostRuntime) -> Result<(), Fail> {
    let narrow = Narrow::new(rt.alloc(), 20)?;
    let ((), ()) = thread::join(
        &rt,
        || narrow.fill(&rt),
        || narrow.empty_without_waiting(&rt),
    );
    let taken = narrow.taken.load(SeqCst);
    assert!(rt; taken == narrow.values, "{taken} taken");
    Ok(())
}
