//! A run to subscribers that count. It takes from the start of the submitters' threads to the end of `finish`.
ghost use Rattle.std.specs.Prelude.{◌≡◌};
ghost use Rattle.publisher.specs.Blanks.{AreBlanksOf};

use super::ends::{end_all, make_submitters, send_all};
use flow_rules::{Listener, Name, Tally};
use publisher::{
    BlankPair, Ledgers, Publisher, PublisherOptions, Submitter, Subscription, USUAL_LIVE,
};
use std::alloc::Global;
use std::sync::Wait;
use std::thread;
use std::thread::Threads;
use std::time::{Clock, Instant};

/// What a run is made of.
#[derive(Drop)]
pub struct Plan {
    /// How many subscriptions are reclaimed before; none if the run is fast.
    pub reclaimed: usize,
    pub workers: usize,
    pub submitters: usize,
    pub subscribers: usize,
    pub capacity: usize,
    /// The bytes of a text.
    pub bytes: usize,
    /// The items of all submitters, a multiple of their number.
    pub items: usize,
    /// How many texts each call publishes: with 0 or 1 it is `submit`, and else `submit_all`.
    pub batch: usize,
}

/// Measures the nanoseconds of a run.
pub fn measure_fast<
    L: Ledgers + Send + Sync + 'static,
    R: Threads + Wait + Clock + Copy + Send + Sync + 'static,
>(rt: R, alloc: Global, plan: &Plan, blanks: BlankPair) -> Option<u128>
    requires blanks { AreBlanksOf blanks L.publications L.drops L.history }
{
    let text = vec![in alloc; b'x'; plan.bytes].ok()?;
    let each = plan.items.checked_div(plan.submitters)?;
    let options = PublisherOptions {
        workers: plan.workers,
        capacity: plan.capacity,
        most_live: plan.subscribers.max(USUAL_LIVE),
        ..PublisherOptions::default()
    };
    let publisher: Publisher<L, Tally> = Publisher::with_options(rt, alloc, blanks, options).ok()?;
    let subscriptions = subscribe_tallies(&rt, alloc, &publisher, plan.subscribers)?;
    let submitters = make_submitters(&rt, alloc, &publisher, plan.submitters)?;
    time_fast(
        &rt,
        alloc,
        text.as_slice(),
        plan,
        each,
        publisher,
        submitters,
        subscriptions,
    )
}

/// Subscribes this many subscribers that count, and requests all items for each.
pub fn subscribe_tallies<L: Ledgers + Send + Sync + 'static, R: Wait>(
    rt: &R,
    alloc: Global,
    publisher: &Publisher<L, Tally>,
    subscribers: usize,
) -> Option<Vec<Subscription<L, Tally>>> {
    let mut subscriptions = Vec::new(alloc);
    for number in 0..subscribers {
        let name = format!(in alloc; "s{number}").ok()?;
        let name = Name::new(name.as_str().as_bytes())?;
        let mut subscription = publisher.subscribe(rt, alloc, name, Tally::new()).ok()?;
        subscription.request(rt, i64::MAX).ok()?;
        subscriptions.push(subscription).ok()?;
    }
    Some(subscriptions)
}

/// Measures the nanoseconds in which the submitters publish `each` items, and all subscribers are told them.
fn time_fast<
    L: Ledgers + Send + Sync + 'static,
    R: Threads + Wait + Clock + Copy + Send + Sync + 'static,
>(
    rt: &R,
    alloc: Global,
    text: &[u8],
    plan: &Plan,
    each: usize,
    publisher: Publisher<L, Tally>,
    mut submitters: Vec<Submitter<L, Tally>>,
    subscriptions: Vec<Subscription<L, Tally>>,
) -> Option<u128> {
    let start = Instant::now(rt).ok()?;
    send_each(rt, alloc, text, each, plan.batch, &mut submitters);
    let all = end_all(
        rt,
        alloc,
        publisher,
        submitters,
        subscriptions,
        plan.items as u64,
    );
    let spent = start.elapsed(rt).ok()?;
    all.then(|| spent.as_nanos())
}

/// Publishes this many items with each submitter, from a thread of its own.
pub fn send_each<
    L: Ledgers + Send + Sync + 'static,
    B: Listener + Send + 'static,
    R: Threads + Wait + Sync,
>(
    rt: &R,
    alloc: Global,
    text: &[u8],
    each: usize,
    batch: usize,
    submitters: &mut [Submitter<L, B>],
) {
    let send = |_: usize, submitter: &mut Submitter<L, B>| {
        send_all(rt, alloc, submitter, text, each, batch)
    };
    let threads = submitters.len().max(1);
    thread::for_each_mut(rt, submitters, threads, &send);
}
