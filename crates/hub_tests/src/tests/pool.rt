//! Pools: what one thread sees of them, and what happens between threads.
ghost use Rattle.std.specs.Prelude.{◌≡◌, ◌<◌, IfOk};
ghost use Rattle.std.specs.Arc.{arc_value};
ghost use Rattle.async_pool.specs.Pool.{pool_workers};

mod alone;
mod crowds;
mod sleepers;
mod stealing;
mod threads;
mod waking;

use async_pool::{Gate, Job, Pool};
use std::alloc::{AllocError, Global};
use std::sync::atomic::AtomicU64;
use std::sync::atomic::Ordering::SeqCst;
use std::sync::{Arc, Wait};
use std::test::Fail;
use std::thread;
use std::thread::{JoinHandle, Threads};
use std::time::{Clock, Instant};

// How many seconds a test takes for what it would do for longer.
const PATIENCE: u64 = 10;

type Runs = Arc<Vec<AtomicU64>, Global>;

// A job that counts its runs under its number. Its context counts what one thread ran.
#[derive(Drop)]
struct Numbered {
    number: usize,
    again: u64,
    runs: Runs,
}

impl Job for Numbered {
    type Context = u64;

    fn run<R: Wait>(mut self, _rt: &R, context: &mut u64) -> Option<Numbered> {
        *context = context.saturating_add(1);
        if let Some(runs) = self.runs.get(self.number) {
            runs.fetch_add(1, SeqCst);
        }
        if self.again == 0 {
            return None;
        }
        self.again -= 1;
        Some(self)
    }
}

fn no_runs(alloc: Global, jobs: usize) -> Result<Runs, AllocError> {
    let mut runs = Vec::new(alloc);
    for _ in 0..jobs {
        runs.push(AtomicU64::new(0))?;
    }
    Ok(Arc::new(alloc, runs)?)
}

fn job_of(number: usize, again: u64, runs: &Runs) -> Result<Numbered, AllocError> {
    Ok(Numbered {
        number,
        again,
        runs: Arc::try_clone(runs)?,
    })
}

// Hands in the jobs 0 to `jobs` - 1. False where one of them came back.
fn hand_in<R: Wait>(
    rt: &R,
    pool: &Pool<Numbered>,
    jobs: usize,
    again: u64,
    runs: &Runs,
) -> Result<bool, AllocError> {
    for number in 0..jobs {
        if pool.execute(rt, job_of(number, again, runs)?).is_err() {
            return Ok(false);
        }
    }
    Ok(true)
}

// The number of a job, if there is one.
fn number_of(job: Option<Numbered>) -> Option<usize> {
    Some(job?.number)
}

// Whether a test has taken enough time.
fn is_late(rt: &impl Clock, start: &Instant) -> bool {
    let Ok(time) = start.elapsed(rt) else {
        return true;
    };
    time.as_secs() >= PATIENCE
}

// Whether each job ran this often.
fn all_ran(runs: &Runs, number: u64) -> bool {
    for run in runs.iter() {
        if run.load(SeqCst) != number {
            return false;
        }
    }
    true
}

// What the threads of a pool's workers share: the pool, their gate, and how many of them have ended.
#[derive(Drop)]
struct Site<J: Job, G: Gate + Drop> {
    pool: Pool<J>,
    gate: G,
    ended: AtomicU64,
}

fn new_site<J: Job, G: Gate + Drop>(
    alloc: Global,
    workers: usize,
    gate: G,
) -> Result<Arc<Site<J, G>, Global>, Fail>
    ensures { IfOk result (λ site. pool_workers (arc_value site).pool ≡ workers) }
{
    let pool = Pool::new(alloc, workers)?;
    let ended = AtomicU64::new(0);
    Ok(Arc::new(alloc, Site { pool, gate, ended })?)
}

// A thread that runs the loop of one worker, counts itself among those that have ended, and answers with the context of
// its jobs.
fn start_worker<
    R: Threads + Wait + Send + Copy + 'static,
    J: Job<Context = u64> + 'static,
    G: Gate + Send + Drop + 'static,
>(rt: R, site: &Arc<Site<J, G>, Global>, worker: usize) -> Result<JoinHandle<u64>, AllocError>
    requires { worker < pool_workers (arc_value site.now).pool }
{
    let site = Arc::try_clone(site)?;
    Ok(thread::spawn(
        &rt,
        move ||
            requires { worker < pool_workers (arc_value site).pool }
        {
            let mut context = 0;
            site.pool.worker_loop(&rt, worker, &site.gate, &mut context);
            site.ended.fetch_add(1, SeqCst);
            context
        },
    )?)
}
