//! Rounds in which all workers sleep, and as many jobs come.
use super::{Runs, is_late, new_site, no_runs, start_worker};
use async_pool::{Job, Pool, Wide};
use std::alloc::{AllocError, Global};
use std::sync::atomic::AtomicU64;
use std::sync::atomic::Ordering::SeqCst;
use std::sync::{Arc, Wait};
use std::test::Fail;
use std::thread;
use std::time::{Clock, Duration, Instant};
use test_kit::comes_to;

const ROUNDS: u64 = 3000;

const WORKERS: usize = 4;

// A job that waits until this many jobs have begun to run, so that each worker has to be awake for one.
#[derive(Drop)]
struct Meeting {
    wanted: u64,
    met: Runs,
}

impl Job for Meeting {
    type Context = u64;

    fn run<R: Wait>(self, _rt: &R, context: &mut u64) -> Option<Meeting> {
        *context = context.saturating_add(1);
        if let Some(met) = self.met.first() {
            met.fetch_add(1, SeqCst);
            comes_to(met, self.wanted);
        }
        None
    }
}

// Hands in a job for each worker. Whether all of them meet.
fn all_meet<R: Wait>(
    rt: &R,
    pool: &Pool<Meeting>,
    met: &Runs,
    wanted: u64,
) -> Result<bool, AllocError> {
    for _ in 0..WORKERS {
        let met = Arc::try_clone(met)?;
        if pool.execute(rt, Meeting { wanted, met }).is_err() {
            return Ok(false);
        }
    }
    let Some(met) = met.first() else {
        return Ok(false);
    };
    Ok(comes_to(met, wanted))
}

// Plays the rounds, if there is time for all. How many jobs met in them; nothing if those of some round didn't.
fn meet_often<R: Clock + Wait>(
    rt: &R,
    pool: &Pool<Meeting>,
    met: &Runs,
) -> Result<Option<u64>, Fail> {
    let mut wanted: u64 = 0;
    let start = Instant::now(rt)?;
    for _ in 0..ROUNDS {
        if is_late(rt, &start) {
            break;
        }
        // Time enough for workers to find nothing, and to sleep.
        thread::sleep(rt, Duration::from_micros(200));
        wanted = wanted.saturating_add(WORKERS as u64);
        if !all_meet(rt, pool, met, wanted)? {
            return Ok(None);
        }
    }
    Ok(Some(wanted))
}

#[test]
fn as_many_are_woken_as_jobs_come(rt: HostRuntime) -> Result<(), Fail> {
    let met = no_runs(rt.alloc(), 1)?;
    let site = new_site(rt.alloc(), WORKERS, Wide)?;
    let mut threads = Vec::new(rt.alloc());
    for worker in 0..WORKERS {
        threads.push(start_worker(rt, &site, worker)?)?;
    }
    let wanted = meet_often(&rt, &site.pool, &met)?;
    assert!(rt; wanted.is_some());
    site.pool.shut(&rt);
    let mut ran: u64 = 0;
    for thread in threads {
        ran = ran.saturating_add(thread.join(&rt));
    }
    assert!(rt; Some(ran) == wanted && ran > 0);
    Ok(())
}
