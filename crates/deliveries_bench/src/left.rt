//! A run as a fast one, on a publisher that has only the entries left of subscriptions that were reclaimed before.
ghost use Rattle.std.specs.Prelude.{◌≡◌};
ghost use Rattle.publisher.specs.Blanks.{AreBlanksOf};

use super::ends::{is_whole, make_submitters};
use super::fast::{Plan, send_each, subscribe_tallies};
use super::reclaiming::reclaim_many;
use flow_rules::Tally;
use publisher::{BlankPair, Ledgers, Publisher, Submitter, Subscription, finish};
use std::alloc::Global;
use std::sync::Wait;
use std::thread::Threads;
use std::time::{Clock, Instant};

/// The nanoseconds of a run.
#[derive(Drop)]
pub struct Spent {
    /// From the start of the submitters' threads until all subscribers were told all.
    pub told: u128,
    /// From there to the end of `finish`, which has a place for each subscription that ever was.
    pub finish: u128,
    /// Of a `reclaim` before.
    pub reclaim: u128,
}

/// Measures the nanoseconds of a run.
pub fn measure_left<
    L: Ledgers + Send + Sync + 'static,
    R: Threads + Wait + Clock + Copy + Send + Sync + 'static,
>(rt: R, alloc: Global, plan: &Plan, blanks: BlankPair) -> Option<Spent>
    requires blanks { AreBlanksOf blanks L.publications L.drops L.history }
{
    let publisher: Publisher<L, Tally> = Publisher::new(
        rt,
        alloc,
        blanks,
        plan.workers,
        plan.capacity,
    ).ok()?;
    let reclaim = reclaim_many(&rt, alloc, &publisher, plan.reclaimed)?;
    let subscriptions = subscribe_tallies(&rt, alloc, &publisher, plan.subscribers)?;
    let mut submitters = make_submitters(&rt, alloc, &publisher, plan.submitters)?;
    let told = time_told(&rt, alloc, plan, &publisher, &mut submitters)?;
    let start = Instant::now(&rt).ok()?;
    let all = finish_left(&rt, alloc, plan, publisher, submitters, subscriptions);
    let finish = start.elapsed(&rt).ok()?.as_nanos();
    all.then(|| Spent {
        told,
        finish,
        reclaim,
    })
}

/// Measures the nanoseconds in which the submitters publish all items, and all subscribers are told them and the close.
fn time_told<L: Ledgers + Send + Sync + 'static, R: Threads + Wait + Clock + Sync>(
    rt: &R,
    alloc: Global,
    plan: &Plan,
    publisher: &Publisher<L, Tally>,
    submitters: &mut [Submitter<L, Tally>],
) -> Option<u128> {
    let text = vec![in alloc; b'x'; plan.bytes].ok()?;
    let each = plan.items.checked_div(plan.submitters)?;
    let start = Instant::now(rt).ok()?;
    send_each(rt, alloc, text.as_slice(), each, plan.batch, submitters);
    publisher.close(rt, alloc, &mut publisher.note()).ok()?;
    publisher.wait_drained(rt);
    Some(start.elapsed(rt).ok()?.as_nanos())
}

/// Ends the publisher. Tells whether each subscriber was told all items, and the others were reclaimed.
fn finish_left<L: Ledgers + Send + Sync + 'static, R: Wait>(
    rt: &R,
    alloc: Global,
    plan: &Plan,
    publisher: Publisher<L, Tally>,
    submitters: Vec<Submitter<L, Tally>>,
    subscriptions: Vec<Subscription<L, Tally>>,
) -> bool {
    match finish(rt, alloc, publisher, submitters, subscriptions) {
        Ok(outcome) => {
            is_whole(&outcome, plan.subscribers, plan.items as u64)
                && outcome.reclaimed == plan.reclaimed as u64
        }
        Err(_) => false,
    }
}
