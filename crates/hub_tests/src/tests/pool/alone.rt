//! What one thread sees of a pool.
ghost use Rattle.std.specs.Prelude.{◌<◌};
ghost use Rattle.async_pool.specs.Pool.{pool_workers};

use super::{Numbered, Runs, hand_in, job_of, no_runs, number_of};
use async_pool::{CAPACITY, Job, MOST_WORKERS, Pool, Wide};
use flow_rules::Refusal;
use std::alloc::AllocError;
use std::sync::Wait;
use std::test::Fail;

// Whether a pool gives a job back.
fn gives_back<R: Wait>(
    rt: &R,
    pool: &Pool<Numbered>,
    number: usize,
    runs: &Runs,
) -> Result<bool, AllocError> {
    let back = pool.execute(rt, job_of(number, 0, runs)?).err();
    Ok(number_of(back) == Some(number))
}

// Whether the first jobs of a pool are 0 to `jobs` - 1, which are taken out.
fn takes_in_order<R: Wait>(rt: &R, pool: &Pool<Numbered>, jobs: usize) -> bool {
    for number in 0..jobs {
        if number_of(pool.run_one(rt)) != Some(number) {
            return false;
        }
    }
    true
}

#[test]
fn a_full_pool_gives_the_job_back(rt: HostRuntime) -> Result<(), Fail> {
    let runs = no_runs(rt.alloc(), 1)?;
    let pool = Pool::new(rt.alloc(), 1)?;
    assert!(rt; hand_in(&rt, &pool, CAPACITY, 0, &runs)?);
    assert!(rt; gives_back(&rt, &pool, CAPACITY, &runs)?);
    assert!(rt; takes_in_order(&rt, &pool, 1));
    Ok(())
}

#[test]
fn a_shut_pool_gives_the_job_back(rt: HostRuntime) -> Result<(), Fail> {
    let runs = no_runs(rt.alloc(), 1)?;
    let pool = Pool::new(rt.alloc(), MOST_WORKERS)?;
    assert!(rt; hand_in(&rt, &pool, 1, 0, &runs)?);
    pool.shut(&rt);
    assert!(rt; gives_back(&rt, &pool, 1, &runs)?);
    let mut ran = 0;
    pool.worker_loop(&rt, MOST_WORKERS - 1, &Wide, &mut ran);
    assert!(rt; ran == 1 && pool.run_one(&rt).is_none());
    Ok(())
}

// Whether these are the jobs 600 to 999, and then 0 to 499.
fn are_in_order(left: &[Numbered]) -> bool {
    for (place, job) in left.iter().enumerate() {
        let number = if place < 400 {
            place + 600
        } else {
            place - 400
        };
        if job.number != number {
            return false;
        }
    }
    left.len() == 900
}

#[test]
fn stop_gives_the_jobs_left_in_order(rt: HostRuntime) -> Result<(), Fail> {
    let runs = no_runs(rt.alloc(), 1)?;
    let pool = Pool::new(rt.alloc(), 3)?;
    assert!(rt; hand_in(&rt, &pool, 1000, 0, &runs)?);
    assert!(rt; takes_in_order(&rt, &pool, 600));
    assert!(rt; hand_in(&rt, &pool, 500, 0, &runs)?);
    assert!(rt; are_in_order(pool.stop(&rt).as_slice()));
    Ok(())
}

#[test]
fn only_one_to_eight_workers(rt: HostRuntime) -> Result<(), Fail> {
    for workers in [0, MOST_WORKERS + 1, 100] {
        let refused = Pool::<Numbered>::new(rt.alloc(), workers).err();
        assert!(rt; refused == Some(Refusal::BadWorkers));
    }
    for workers in 1..MOST_WORKERS + 1 {
        assert!(rt; Pool::<Numbered>::new(rt.alloc(), workers).is_ok());
    }
    Ok(())
}

// Takes the first job out, and runs it.
fn run_first<R: Wait>(rt: &R, pool: &Pool<Numbered>, ran: &mut u64) -> Option<Numbered> {
    pool.run_one(rt)?.run(rt, ran)
}

// Whether a pool for one worker runs two jobs twice each, the first time out of its turn, and has none left.
fn runs_two<R: Wait>(rt: &R, pool: Pool<Numbered>, runs: &Runs) -> Result<bool, AllocError>
    requires { 0 < pool_workers pool }
{
    let are_in = hand_in(rt, &pool, 2, 1, runs)?;
    let mut ran = 0;
    let first = number_of(run_first(rt, &pool, &mut ran));
    pool.shut(rt);
    pool.worker_loop(rt, 0, &Wide, &mut ran);
    Ok(are_in && first == Some(0) && ran == 3 && pool.stop(rt).is_empty())
}

// Also run from outside with each request for memory refused in turn: of the pool's calls `new` alone takes memory.
#[test]
fn a_refusal_is_answered(rt: HostRuntime) -> Result<(), Fail> {
    let Ok(runs) = no_runs(rt.alloc(), 2) else {
        return Ok(());
    };
    let is_answered = match Pool::new(rt.alloc(), 1) {
        Ok(pool) => runs_two(&rt, pool, &runs)?,
        Err(refusal) => refusal == Refusal::NoMemory,
    };
    assert!(rt; is_answered);
    Ok(())
}

// A job that writes its number behind the digits of its context.
#[derive(Drop)]
struct Digit {
    number: u64,
    again: u64,
}

impl Job for Digit {
    type Context = u64;

    fn run<R: Wait>(self, _rt: &R, context: &mut u64) -> Option<Digit> {
        *context = context.wrapping_mul(10).wrapping_add(self.number);
        Some(Digit {
            number: self.number,
            again: self.again.checked_sub(1)?,
        })
    }
}

#[test]
fn a_job_that_runs_again_comes_before_the_inbox(rt: HostRuntime) -> Result<(), Fail> {
    let pool = Pool::new(rt.alloc(), 1)?;
    for (number, again) in [(1, 2), (2, 1)] {
        assert!(rt; pool.execute(&rt, Digit { number, again }).is_ok());
    }
    pool.shut(&rt);
    let mut ran = 0;
    pool.worker_loop(&rt, 0, &Wide, &mut ran);
    assert!(rt; ran == 11_122);
    Ok(())
}
