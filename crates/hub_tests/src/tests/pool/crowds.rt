//! Many jobs of several threads: each is run once, and each run ends by itself.
ghost use Rattle.std.specs.Prelude.{◌≡◌, ◌<◌, IfOk};
ghost use Rattle.std.specs.Arc.{arc_value};
ghost use Rattle.async_pool.specs.Pool.{pool_workers};

use super::{Runs, is_late, no_runs};
use async_pool::{Job, Pool, Wide};
use std::alloc::{AllocError, Global};
use std::sync::atomic::AtomicU64;
use std::sync::atomic::Ordering::SeqCst;
use std::sync::{Arc, Wait};
use std::test::Fail;
use std::thread;
use std::thread::{JoinHandle, Threads};
use std::time::{Clock, Instant};

// The jobs that each of the threads hands in.
const SHARE: usize = 250_000;

const SUBMITTERS: usize = 4;

// A job that counts its run under its number, in the context of its worker.
#[derive(Drop)]
struct Counted(usize);

impl Job for Counted {
    type Context = Runs;

    fn run<R: Wait>(self, _rt: &R, runs: &mut Runs) -> Option<Counted> {
        if let Some(run) = runs.get(self.0) {
            run.fetch_add(1, SeqCst);
        }
        None
    }
}

// What all threads share: the pool, how often each job ran, how many threads hand jobs in still, how many jobs they handed in, and when
// they began.
#[derive(Drop)]
struct Crowd {
    pool: Pool<Counted>,
    runs: Runs,
    submitting: AtomicU64,
    came: AtomicU64,
    start: Instant,
}

fn new_crowd(alloc: Global, workers: usize, start: Instant) -> Result<Arc<Crowd, Global>, Fail>
    ensures { IfOk result (λ crowd. pool_workers (arc_value crowd).pool ≡ workers) }
{
    let crowd = Crowd {
        pool: Pool::new(alloc, workers)?,
        runs: no_runs(alloc, SUBMITTERS * SHARE)?,
        submitting: AtomicU64::new(SUBMITTERS as u64),
        came: AtomicU64::new(0),
        start,
    };
    Ok(Arc::new(alloc, crowd)?)
}

// Hands in a job, again while it comes back.
fn submit<R: Wait>(rt: &R, pool: &Pool<Counted>, number: usize) {
    let mut job = Counted(number);
    for _ in rt.forever() {
        let Err(back) = pool.execute(rt, job) else {
            return;
        };
        job = back;
        thread::yield_now();
    }
}

// Hands in a share of the jobs, from this number on, if there is time for all. The last one to do so shuts the pool.
fn submit_share<R: Clock + Wait>(rt: &R, crowd: &Crowd, from: usize) {
    let mut came: u64 = 0;
    for number in from..from.saturating_add(SHARE) {
        if number % 1000 == 0 && is_late(rt, &crowd.start) {
            break;
        }
        submit(rt, &crowd.pool, number);
        came = came.saturating_add(1);
    }
    crowd.came.fetch_add(came, SeqCst);
    if crowd.submitting.fetch_sub(1, SeqCst) == 1 {
        crowd.pool.shut(rt);
    }
}

fn start_submitter<R: Clock + Threads + Wait + Send + Copy + 'static>(
    rt: R,
    crowd: &Arc<Crowd, Global>,
    from: usize,
) -> Result<JoinHandle<()>, AllocError> {
    let crowd = Arc::try_clone(crowd)?;
    Ok(thread::spawn(&rt, move || submit_share(&rt, &crowd, from))?)
}

fn start_runner<R: Threads + Wait + Send + Copy + 'static>(
    rt: R,
    crowd: &Arc<Crowd, Global>,
    worker: usize,
) -> Result<JoinHandle<()>, AllocError>
    requires { worker < pool_workers (arc_value crowd.now).pool }
{
    let crowd = Arc::try_clone(crowd)?;
    Ok(thread::spawn(
        &rt,
        move ||
            requires { worker < pool_workers (arc_value crowd).pool }
        {
            if let Ok(mut runs) = Arc::try_clone(&crowd.runs) {
                crowd.pool.worker_loop(&rt, worker, &Wide, &mut runs);
            }
        },
    )?)
}

// Whether as many jobs ran as came, and none of them twice.
fn ran_once(runs: &Runs, came: u64) -> bool {
    let mut ran: u64 = 0;
    for run in runs.iter() {
        let run = run.load(SeqCst);
        if run > 1 {
            return false;
        }
        ran = ran.saturating_add(run);
    }
    ran == came
}

// Whether this many workers run once each job that several threads hand in. All of them come, if there is time.
fn each_runs_once<R: Clock + Threads + Wait + Send + Copy + 'static>(
    rt: R,
    alloc: Global,
    workers: usize,
    start: Instant,
) -> Result<bool, Fail> {
    let crowd = new_crowd(alloc, workers, start)?;
    let mut threads = Vec::new(alloc);
    for worker in 0..workers {
        threads.push(start_runner(rt, &crowd, worker)?)?;
    }
    for share in 0..SUBMITTERS {
        threads.push(start_submitter(rt, &crowd, share * SHARE)?)?;
    }
    for thread in threads {
        thread.join(&rt);
    }
    let came = crowd.came.load(SeqCst);
    let all_came = came == (SUBMITTERS * SHARE) as u64 || is_late(&rt, &start);
    Ok(all_came && ran_once(&crowd.runs, came))
}

#[test]
fn a_million_jobs_run_once_each(rt: HostRuntime) -> Result<(), Fail> {
    let start = Instant::now(&rt)?;
    for workers in [1, 2, 4, 8] {
        let is_right = each_runs_once(rt, rt.alloc(), workers, start)?;
        assert!(rt; is_right, "{workers} workers");
    }
    Ok(())
}
