//! A pool with two workers, each a thread of this program's, that square numbers.
#![tactic(auto)]

use async_pool::{Job, Pool, Wide};
use std::sync::Wait;
use std::thread;

/// Adds the square of a number to the sum of the worker that runs it.
#[derive(Drop)]
struct Square(u64);

impl Job for Square {
    type Context = u64;

    fn run<R: Wait>(self, _rt: &R, sum: &mut u64) -> Option<Square> {
        *sum = sum.saturating_add(self.0.saturating_mul(self.0));
        None
    }
}

fn main(rt: HostRuntime) -> anyhow::Result<()> {
    let pool = Pool::new(rt.alloc(), 2)?;
    for number in 1..11 {
        if let Err(Square(number)) = pool.execute(&rt, Square(number)) {
            println!(rt; "no room for {number}")?;
        }
    }
    // From now on no new job comes in, and the workers end once none is left.
    pool.shut(&rt);
    let (mut one, mut other) = (0, 0);
    let mut first = || pool.worker_loop(&rt, 0, &Wide, &mut one);
    let mut second = || pool.worker_loop(&rt, 1, &Wide, &mut other);
    thread::join_mut(&rt, &mut first, &mut second);
    println!(rt;
        "the squares of 1 to 10 sum up to {}",
        one.saturating_add(other)
    )?;
    println!(rt; "{} jobs are left", pool.stop(&rt).len())?;
    Ok(())
}
