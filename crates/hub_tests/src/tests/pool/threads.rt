//! What a pool's threads do.
ghost use Rattle.std.specs.Prelude.{◌<◌};
ghost use Rattle.async_pool.specs.Pool.{pool_workers};

use super::{Numbered, Runs, all_ran, hand_in, new_site, no_runs, start_worker};
use async_pool::{CAPACITY, Gate, Job, MOST_WORKERS, Pool, Wide};
use std::alloc::{AllocError, Global};
use std::cell::Cell;
use std::sync::atomic::Ordering::SeqCst;
use std::sync::atomic::{AtomicBool, AtomicU64};
use std::sync::{Arc, Wait};
use std::test::Fail;
use std::thread;
use std::thread::Threads;
use test_kit::wait_for;

// How many jobs two workers run that share a pool by reference.
fn run_by_two<R: Threads + Wait + Sync>(rt: &R, pool: &Pool<Numbered>) -> u64
    requires { 1 < pool_workers pool.now }
{
    let (mut first, mut second) = (0, 0);
    let mut one = || pool.worker_loop(rt, 0, &Wide, &mut first);
    let mut other = ||
        requires { 1 < pool_workers pool.now }
    { pool.worker_loop(rt, 1, &Wide, &mut second) };
    thread::join_mut(rt, &mut one, &mut other);
    first.saturating_add(second)
}

#[test]
fn each_job_of_two_workers_ran_twice(rt: HostRuntime) -> Result<(), Fail> {
    let runs = no_runs(rt.alloc(), 100)?;
    let pool = Pool::new(rt.alloc(), 2)?;
    assert!(rt; hand_in(&rt, &pool, 100, 1, &runs)?);
    pool.shut(&rt);
    assert!(rt; run_by_two(&rt, &pool) == 200 && all_ran(&runs, 2));
    assert!(rt; pool.stop(&rt).is_empty());
    Ok(())
}

// A job that is Send, and not Sync.
#[derive(Drop)]
struct Local(Cell<u64>);

impl Job for Local {
    type Context = u64;

    fn run<R: Wait>(self, _rt: &R, context: &mut u64) -> Option<Local> {
        self.0.set(self.0.get().saturating_add(1));
        *context = self.0.get();
        None
    }
}

#[test]
fn a_job_need_not_be_sync(rt: HostRuntime) -> Result<(), Fail> {
    let site = new_site(rt.alloc(), 1, Wide)?;
    assert!(rt; site.pool.execute(&rt, Local(Cell::new(6))).is_ok());
    let worker = start_worker(rt, &site, 0)?;
    site.pool.shut(&rt);
    assert!(rt; worker.join(&rt) == 7);
    Ok(())
}

// A gate that keeps how often each worker passed it.
#[derive(Drop)]
struct Keeping(Runs);

impl Gate for Keeping {
    fn pass(&self, worker: usize) {
        if let Some(passes) = self.0.get(worker) {
            passes.fetch_add(1, SeqCst);
        }
    }
}

impl Keeping {
    // How often the worker passed, if nobody else did.
    fn passes_of(&self, worker: usize) -> Option<u64> {
        let mut passes = 0;
        for (number, count) in self.0.iter().enumerate() {
            let count = count.load(SeqCst);
            if number == worker {
                passes = count;
            } else if count > 0 {
                return None;
            }
        }
        Some(passes)
    }
}

#[test]
fn the_gate_is_passed_once_for_each_job(rt: HostRuntime) -> Result<(), Fail> {
    let runs = no_runs(rt.alloc(), 1)?;
    for worker in 0..MOST_WORKERS {
        let pool = Pool::new(rt.alloc(), MOST_WORKERS)?;
        assert!(rt; hand_in(&rt, &pool, 5, 1, &runs)?);
        pool.shut(&rt);
        let gate = Keeping(no_runs(rt.alloc(), MOST_WORKERS)?);
        let mut ran = 0;
        pool.worker_loop(&rt, worker, &gate, &mut ran);
        // Ten runs, and the look that finds that the pool is over.
        assert!(rt; ran == 10 && gate.passes_of(worker) == Some(11));
    }
    Ok(())
}

// What holds a worker until it is opened, as a gate or in a job.
#[derive(Drop)]
struct Held {
    reached: AtomicBool,
    open: AtomicBool,
}

fn new_held() -> Held {
    Held {
        reached: AtomicBool::new(false),
        open: AtomicBool::new(false),
    }
}

impl Gate for Held {
    fn pass(&self, _worker: usize) {
        self.reached.store(true, SeqCst);
        wait_for(&self.open);
    }
}

#[test]
fn a_second_loop_of_a_number_returns_at_once(rt: HostRuntime) -> Result<(), Fail> {
    for worker in 0..2 {
        let site = new_site::<Numbered, Held>(rt.alloc(), 2, new_held())?;
        let gate = Keeping(no_runs(rt.alloc(), 2)?);
        let mut ran = 0;
        site.pool.shut(&rt);
        let first = start_worker(rt, &site, worker)?;
        assert!(rt; wait_for(&site.gate.reached));
        site.pool.worker_loop(&rt, worker, &gate, &mut ran);
        assert!(rt; gate.passes_of(worker) == Some(0));
        // Once the first loop has ended, another of its number runs.
        site.gate.open.store(true, SeqCst);
        first.join(&rt);
        site.pool.worker_loop(&rt, worker, &gate, &mut ran);
        assert!(rt; gate.passes_of(worker) == Some(1));
    }
    Ok(())
}

// A job that runs once, or one that is held in its first run.
#[derive(Drop)]
enum Mixed {
    Short,
    Long {
        again: u64,
        watched: Arc<Watched, Global>,
    },
}

// What holds a long job, and how many jobs its worker had run at its end.
#[derive(Drop)]
struct Watched {
    held: Held,
    ran: AtomicU64,
}

impl Job for Mixed {
    type Context = u64;

    fn run<R: Wait>(self, _rt: &R, context: &mut u64) -> Option<Mixed> {
        *context = context.saturating_add(1);
        let Mixed::Long { again, watched } = self else {
            return None;
        };
        watched.held.pass(0);
        if again == 0 {
            watched.ran.store(*context, SeqCst);
            return None;
        }
        let again = again - 1;
        Some(Mixed::Long { again, watched })
    }
}

// Hands in a job that is run five times.
fn hand_in_long<R: Wait>(
    rt: &R,
    pool: &Pool<Mixed>,
    watched: &Arc<Watched, Global>,
) -> Result<bool, AllocError> {
    let watched = Arc::try_clone(watched)?;
    Ok(pool.execute(rt, Mixed::Long { again: 4, watched }).is_ok())
}

// Hands in as many jobs as the inbox holds, and one that comes back.
fn fill<R: Wait>(rt: &R, pool: &Pool<Mixed>) -> bool {
    for _ in 0..CAPACITY {
        if pool.execute(rt, Mixed::Short).is_err() {
            return false;
        }
    }
    pool.execute(rt, Mixed::Short).is_err()
}

#[test]
fn a_job_goes_back_where_the_inbox_is_full(rt: HostRuntime) -> Result<(), Fail> {
    let held = new_held();
    let ran = AtomicU64::new(0);
    let watched = Arc::new(rt.alloc(), Watched { held, ran })?;
    let site = new_site(rt.alloc(), 1, Wide)?;
    assert!(rt; hand_in_long(&rt, &site.pool, &watched)?);
    let worker = start_worker(rt, &site, 0)?;
    assert!(rt; wait_for(&watched.held.reached) && fill(&rt, &site.pool));
    watched.held.open.store(true, SeqCst);
    site.pool.shut(&rt);
    let ran = worker.join(&rt);
    assert!(rt; ran == 5 + CAPACITY as u64 && watched.ran.load(SeqCst) == 5);
    assert!(rt; site.pool.run_one(&rt).is_none());
    Ok(())
}
