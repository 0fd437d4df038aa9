//! What threads take from the queues of workers that are held.
ghost use Rattle.std.specs.Prelude.{◌≡◌, IfOk};
ghost use Rattle.std.specs.Arc.{arc_value};
ghost use Rattle.async_pool.specs.Pool.{pool_workers};

use super::{Numbered, Runs, Site, hand_in, job_of, new_site, no_runs, number_of, start_worker};
use async_pool::{Gate, Pool};
use std::alloc::{AllocError, Global};
use std::sync::atomic::Ordering::SeqCst;
use std::sync::atomic::{AtomicBool, AtomicU64};
use std::sync::{Arc, Wait};
use std::test::Fail;
use test_kit::{comes_to, wait_for};

// A gate that holds worker 1 until a job has run once, and worker 0 at its second pass until it has run twice.
#[derive(Drop)]
struct ForRuns {
    runs: Runs,
    passes: AtomicU64,
}

impl ForRuns {
    // Waits until the job has run this often, but not for ever.
    fn wait_for_run(&self, number: u64) {
        if let Some(run) = self.runs.first() {
            comes_to(run, number);
        }
    }
}

impl Gate for ForRuns {
    fn pass(&self, worker: usize) {
        if worker == 1 {
            self.wait_for_run(1);
        } else if self.passes.fetch_add(1, SeqCst) == 1 {
            self.wait_for_run(2);
        }
    }
}

#[test]
fn stolen_while_held(rt: HostRuntime) -> Result<(), Fail> {
    let runs = no_runs(rt.alloc(), 1)?;
    let gate = ForRuns {
        runs: Arc::try_clone(&runs)?,
        passes: AtomicU64::new(0),
    };
    let site = new_site(rt.alloc(), 2, gate)?;
    assert!(rt; hand_in(&rt, &site.pool, 1, 1, &runs)?);
    let first = start_worker(rt, &site, 0)?;
    let second = start_worker(rt, &site, 1)?;
    site.gate.wait_for_run(2);
    site.pool.shut(&rt);
    assert!(rt; (first.join(&rt), second.join(&rt)) == (1, 1));
    Ok(())
}

// A gate that holds each worker at its second pass until it is opened.
#[derive(Drop)]
struct AtSecond {
    passes: Runs,
    held: AtomicU64,
    open: AtomicBool,
}

impl Gate for AtSecond {
    fn pass(&self, worker: usize) {
        let Some(passes) = self.passes.get(worker) else {
            return;
        };
        if passes.fetch_add(1, SeqCst) == 1 {
            self.held.fetch_add(1, SeqCst);
            wait_for(&self.open);
        }
    }
}

// A pool for two workers, and such a gate.
fn two_to_hold(alloc: Global) -> Result<Arc<Site<Numbered, AtSecond>, Global>, Fail>
    ensures { IfOk result (λ site. pool_workers (arc_value site).pool ≡ 2) }
{
    let gate = AtSecond {
        passes: no_runs(alloc, 2)?,
        held: AtomicU64::new(0),
        open: AtomicBool::new(false),
    };
    new_site(alloc, 2, gate)
}

// Whether a job of this number can be handed in.
fn is_in<R: Wait>(
    rt: &R,
    pool: &Pool<Numbered>,
    number: usize,
    runs: &Runs,
) -> Result<bool, AllocError> {
    Ok(pool.execute(rt, job_of(number, 1, runs)?).is_ok())
}

// Whether the next job that is taken out has this number.
fn takes<R: Wait>(rt: &R, pool: &Pool<Numbered>, number: usize) -> bool {
    number_of(pool.run_one(rt)) == Some(number)
}

// Each worker is held with its job, which ran once, in its own queue; the second finds its job in the inbox, before it would steal.
// A third job waits in the inbox.
#[test]
fn run_one_looks_into_the_inbox_and_then_steals(rt: HostRuntime) -> Result<(), Fail> {
    let runs = no_runs(rt.alloc(), 3)?;
    let site = two_to_hold(rt.alloc())?;
    assert!(rt; is_in(&rt, &site.pool, 0, &runs)?);
    let first = start_worker(rt, &site, 0)?;
    assert!(rt; comes_to(&site.gate.held, 1) && is_in(&rt, &site.pool, 1, &runs)?);
    let second = start_worker(rt, &site, 1)?;
    assert!(rt; comes_to(&site.gate.held, 2) && is_in(&rt, &site.pool, 2, &runs)?);
    assert!(rt; takes(&rt, &site.pool, 2) && takes(&rt, &site.pool, 0));
    assert!(rt; takes(&rt, &site.pool, 1) && site.pool.run_one(&rt).is_none());
    site.gate.open.store(true, SeqCst);
    site.pool.shut(&rt);
    assert!(rt; (first.join(&rt), second.join(&rt)) == (1, 1));
    Ok(())
}
