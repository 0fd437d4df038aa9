//! Prints the nanoseconds in which a pool runs short jobs: `pool_bench WORKERS CALLERS JOBS AGAIN`, with the jobs of all callers. Each job runs
//! once, and then again AGAIN times.
#![tactic(auto)]

ghost use Rattle.std.specs.Prelude.{◌≡◌, ◌<◌};
ghost use Rattle.async_pool.specs.Pool.{pool_workers};

use async_pool::{Job, Pool, Wide};
use std::sync::Wait;
use std::sync::atomic::AtomicU64;
use std::sync::atomic::Ordering::SeqCst;
use std::thread::Threads;
use std::time::Instant;
use std::{env, io, thread};

/// A job that is run again this many times.
#[derive(Drop)]
struct Short(u64);

impl Job for Short {
    type Context = u64;

    fn run<R: Wait>(self, _rt: &R, context: &mut u64) -> Option<Short> {
        *context = context.wrapping_add(1);
        Some(Short(self.0.checked_sub(1)?))
    }
}

/// Hands in this many jobs, each again as long as it comes back. The last caller shuts the pool.
fn call<R: Wait>(rt: &R, pool: &Pool<Short>, jobs: u64, again: u64, callers: &AtomicU64) {
    for _ in 0..jobs {
        for _ in rt.forever() {
            if pool.execute(rt, Short(again)).is_ok() {
                break;
            }
            thread::yield_now();
        }
    }
    if callers.fetch_sub(1, SeqCst) == 1 {
        pool.shut(rt);
    }
}

/// Runs jobs as this worker until the pool is shut, and adds how many ran.
fn work<R: Wait>(rt: &R, pool: &Pool<Short>, worker: usize, all: &AtomicU64)
    requires { worker < pool_workers pool.now }
{
    let mut ran = 0;
    pool.worker_loop(rt, worker, &Wide, &mut ran);
    all.fetch_add(ran, SeqCst);
}

/// What a run is made of.
#[derive(Clone, Copy)]
struct Plan {
    workers: usize,
    callers: u64,
    /// The jobs of each caller.
    jobs: u64,
    again: u64,
}

/// Runs the jobs of all callers. Answers how often one ran, or `None` if a thread could not be started.
fn run_all<R: Threads + Wait + Sync>(rt: &R, pool: &Pool<Short>, plan: Plan) -> Option<u64>
    requires { plan.workers ≡ pool_workers pool.now }
{
    let calling = AtomicU64::new(plan.callers);
    let calling = &calling;
    let ran = AtomicU64::new(0);
    let ran = &ran;
    let Plan {
        workers,
        callers,
        jobs,
        again,
    } = plan;
    let all = thread::scope(
        thread::scope_env(),
        rt,
        |scope|
            requires { workers ≡ pool_workers pool.now }
        {
            let mut all = true;
            for worker in 0..workers {
                all = scope
                    .spawn(
                        move ||
                            requires { worker < pool_workers pool.now }
                        { work(rt, pool, worker, ran) },
                    )
                    .is_ok()
                    && all;
            }
            for _ in 0..callers {
                all = scope
                    .spawn(move || call(rt, pool, jobs, again, calling))
                    .is_ok()
                    && all;
            }
            if !all {
                pool.shut(rt);
            }
            all
        },
    );
    if all { Some(ran.load(SeqCst)) } else { None }
}

/// Reads a word of the command line. A missing word, or one that is no number, is 0.
fn number(text: Option<String>) -> u64 {
    text.and_then(|text| text.as_str().parse::<u64>().ok())
        .unwrap_or(0)
}

fn main(rt: HostRuntime) -> io::Result<()> {
    let mut words = env::args(&rt)?.skip(1);
    let workers = number(words.next()) as usize;
    let callers = number(words.next());
    let jobs = number(words.next());
    let again = number(words.next());
    if callers == 0 {
        return Ok(());
    }
    let Ok(pool) = Pool::new(rt.alloc(), workers) else {
        return Ok(());
    };
    let jobs = jobs / callers;
    let plan = Plan {
        workers,
        callers,
        jobs,
        again,
    };
    let start = Instant::now(&rt)?;
    let ran = run_all(&rt, &pool, plan);
    let spent = start.elapsed(&rt)?;
    let wanted = jobs
        .wrapping_mul(callers)
        .wrapping_mul(again.wrapping_add(1));
    if ran == Some(wanted) {
        println!(rt; "{}", spent.as_nanos())?;
    }
    Ok(())
}
