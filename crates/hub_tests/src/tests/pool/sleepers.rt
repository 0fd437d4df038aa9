//! What workers do that sleep: who wakes them, and that each looks again.
use super::{Numbered, Runs, Site, hand_in, is_late, new_site, no_runs, start_worker};
use async_pool::{Gate, Pool, Wide};
use std::alloc::{AllocError, Global};
use std::ops::Range;
use std::process::Abort;
use std::sync::atomic::Ordering::SeqCst;
use std::sync::atomic::{AtomicBool, AtomicU64};
use std::sync::{Arc, Wait};
use std::test::Fail;
use std::thread;
use std::thread::{JoinHandle, Threads};
use std::time::{Clock, Duration, Instant};
use test_kit::wait_for;

// How often a test looks for what another thread does before it gives up.
const LOOKS: u64 = 10_000;

// How often a sleeper is woken for a job that is gone when it looks, if there is time for that.
const ROUNDS: u64 = 3000;

// How often jobs are handed in until they come as a test wants them to.
const TRIES: u64 = 10;

// Time enough for workers to find nothing, and to sleep.
fn let_them_sleep(rt: &impl Clock) {
    thread::sleep(rt, Duration::from_millis(50));
}

// Whether a counter comes to a number. It waits for that, but not for ever.
fn comes_to(rt: &impl Clock, counter: &AtomicU64, number: u64) -> bool {
    let Ok(start) = Instant::now(rt) else {
        return false;
    };
    for _ in 0..LOOKS {
        if counter.load(SeqCst) == number {
            return true;
        }
        if is_late(rt, &start) {
            return false;
        }
        thread::sleep(rt, Duration::from_millis(1));
    }
    false
}

// The workers of a pool, each in a thread of its own.
#[derive(Drop)]
struct Workers<G: Gate + Drop> {
    site: Arc<Site<Numbered, G>, Global>,
    threads: Vec<JoinHandle<u64>>,
}

// So many workers that had time to fall asleep.
fn asleep<R: Clock + Threads + Wait + Send + Copy + 'static, G: Gate + Send + Drop + 'static>(
    rt: R,
    alloc: Global,
    workers: usize,
    gate: G,
) -> Result<Workers<G>, Fail> {
    let site = new_site(alloc, workers, gate)?;
    let mut threads = Vec::with_capacity(alloc, workers)?;
    for worker in 0..workers {
        threads.push(start_worker(rt, &site, worker)?)?;
    }
    let_them_sleep(&rt);
    Ok(Workers { site, threads })
}

impl<G: Gate + Drop> Workers<G> {
    // Whether no worker has ended.
    fn sleep_on(&self) -> bool {
        self.site.ended.load(SeqCst) == 0
    }

    // Shuts the pool. How many jobs the workers ran, and one of them at most, where all of them end then.
    fn end<R: Clock + Threads + Wait>(self, rt: &R) -> Option<(u64, u64)> {
        self.site.pool.shut(rt);
        if !comes_to(rt, &self.site.ended, self.threads.len() as u64) {
            return None;
        }
        let mut all: u64 = 0;
        let mut most: u64 = 0;
        for thread in self.threads {
            let ran = thread.join(rt);
            all = all.saturating_add(ran);
            if ran > most {
                most = ran;
            }
        }
        Some((all, most))
    }
}

// Hands in a job, and waits until the jobs of its number ran so often.
fn runs_to<R: Clock + Wait>(
    rt: &R,
    pool: &Pool<Numbered>,
    again: u64,
    runs: &Runs,
    number: u64,
) -> Result<bool, AllocError> {
    let is_in = hand_in(rt, pool, 1, again, runs)?;
    let Some(run) = runs.first() else {
        return Ok(false);
    };
    Ok(is_in && comes_to(rt, run, number))
}

#[test]
fn a_shut_ends_all_that_sleep(rt: HostRuntime) -> Result<(), Fail> {
    let workers = asleep(rt, rt.alloc(), 3, Wide)?;
    assert!(rt; workers.sleep_on());
    assert!(rt; workers.end(&rt) == Some((0, 0)));
    Ok(())
}

// Hands in a job and takes one out, many times. How many jobs were left to the workers.
fn wake_for_nothing<R: Abort + Clock + Wait>(
    rt: &R,
    pool: &Pool<Numbered>,
    runs: &Runs,
) -> Result<u64, Fail> {
    let mut left: u64 = 0;
    let start = Instant::now(rt)?;
    for _ in 0..ROUNDS {
        if is_late(rt, &start) {
            break;
        }
        assert!(rt; hand_in(rt, pool, 1, 0, runs)?);
        if pool.run_one(rt).is_none() {
            left = left.saturating_add(1);
        }
        thread::sleep(rt, Duration::from_micros(100));
    }
    Ok(left)
}

#[test]
fn a_sleeper_that_finds_nothing_sleeps_on(rt: HostRuntime) -> Result<(), Fail> {
    let runs = no_runs(rt.alloc(), 1)?;
    let workers = asleep(rt, rt.alloc(), 2, Wide)?;
    let left = wake_for_nothing(&rt, &workers.site.pool, &runs)?;
    assert!(rt; workers.sleep_on());
    let (ran, _) = workers.end(&rt).ok_or("a worker does not end")?;
    assert!(rt; ran == left);
    Ok(())
}

#[test]
fn a_worker_that_sleeps_is_woken(rt: HostRuntime) -> Result<(), Fail> {
    let runs = no_runs(rt.alloc(), 1)?;
    let workers = asleep(rt, rt.alloc(), 1, Wide)?;
    for round in 1..3 {
        assert!(rt; runs_to(&rt, &workers.site.pool, 0, &runs, round)?);
        let_them_sleep(&rt);
    }
    assert!(rt; workers.end(&rt) == Some((2, 2)));
    Ok(())
}

// Hands in a job for each of these rounds, and lets all workers sleep after it. Whether the jobs ran so often each time.
fn one_at_a_time<R: Clock + Wait>(
    rt: &R,
    pool: &Pool<Numbered>,
    runs: &Runs,
    rounds: Range<u64>,
) -> Result<bool, AllocError> {
    for round in rounds {
        if !runs_to(rt, pool, 0, runs, round)? {
            return Ok(false);
        }
        let_them_sleep(rt);
    }
    Ok(true)
}

// Hands in four jobs one at a time. How many of them one worker ran at most.
fn most_of_four<R: Abort + Clock + Threads + Wait + Send + Copy + 'static>(
    rt: R,
    alloc: Global,
) -> Result<u64, Fail> {
    let runs = no_runs(alloc, 1)?;
    let workers = asleep(rt, alloc, 3, Wide)?;
    assert!(rt; one_at_a_time(&rt, &workers.site.pool, &runs, 1..5)?);
    let (all, most) = workers.end(&rt).ok_or("a worker does not end")?;
    assert!(rt; all == 4);
    Ok(most)
}

// Each job finds all workers asleep, and wakes the one that ran the job before; where others are called, no worker runs
// all four. On busy processors that one may not sleep yet, and then all is tried again.
#[test]
fn jobs_one_at_a_time_are_run_by_one_worker(rt: HostRuntime) -> Result<(), Fail> {
    let mut by_one = false;
    for _ in 0..TRIES {
        by_one = by_one || most_of_four(rt, rt.alloc())? == 4;
    }
    assert!(rt; by_one);
    Ok(())
}

// Hands in three pairs of jobs, each of which finds all workers asleep, and then twelve jobs one at a time. How many of
// the jobs one worker ran at most.
fn most_after_pairs<R: Abort + Clock + Threads + Wait + Send + Copy + 'static>(
    rt: R,
    alloc: Global,
) -> Result<u64, Fail> {
    let runs = no_runs(alloc, 1)?;
    let workers = asleep(rt, alloc, 3, Wide)?;
    let pool = &workers.site.pool;
    for pair in 1..4 {
        assert!(rt; hand_in(&rt, pool, 1, 0, &runs)?);
        assert!(rt; runs_to(&rt, pool, 0, &runs, 2 * pair)?);
        let_them_sleep(&rt);
    }
    assert!(rt; one_at_a_time(&rt, pool, &runs, 7..19)?);
    let (all, most) = workers.end(&rt).ok_or("a worker does not end")?;
    assert!(rt; all == 18);
    Ok(most)
}

// After a pair the workers run the twelve jobs in turn, four each, where otherwise one of them runs all. A pair comes
// together only if its second job is there before the worker that was called for the first has got up: on busy
// processors no pair may, and then all is tried again.
#[test]
fn jobs_that_come_together_go_to_workers_in_turn(rt: HostRuntime) -> Result<(), Fail> {
    let mut in_turn = false;
    for _ in 0..TRIES {
        in_turn = in_turn || most_after_pairs(rt, rt.alloc())? <= 10;
    }
    assert!(rt; in_turn);
    Ok(())
}

// A gate that each of two workers passes once, and that then holds whoever comes until it is opened.
#[derive(Drop)]
struct Once {
    passes: AtomicU64,
    open: AtomicBool,
}

fn new_once() -> Once {
    Once {
        passes: AtomicU64::new(0),
        open: AtomicBool::new(false),
    }
}

impl Gate for Once {
    fn pass(&self, _worker: usize) {
        if self.passes.fetch_add(1, SeqCst) >= 2 {
            wait_for(&self.open);
        }
    }
}

// The worker that puts the job back is held, so the other one has to be woken for it.
#[test]
fn a_job_put_back_wakes_a_sleeper(rt: HostRuntime) -> Result<(), Fail> {
    let runs = no_runs(rt.alloc(), 1)?;
    let workers = asleep(rt, rt.alloc(), 2, new_once())?;
    assert!(rt; comes_to(&rt, &workers.site.gate.passes, 2));
    assert!(rt; runs_to(&rt, &workers.site.pool, 1, &runs, 2)?);
    workers.site.gate.open.store(true, SeqCst);
    assert!(rt; workers.end(&rt) == Some((2, 1)));
    Ok(())
}
