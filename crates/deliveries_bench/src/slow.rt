//! A run to two subscribers that sleep, for which all items wait when they are requested. Meanwhile a call of the publisher is made again
//! and again.
ghost use Rattle.publisher.specs.Blanks.{AreBlanksOf};

use super::ends::{NAMES, end_all, make_submitters, send_singly};
use super::sleeper::Sleeper;
use flow_rules::{Listener, Name};
use publisher::{BlankPair, Ledgers, Publisher, Submitter, Subscription};
use std::alloc::Global;
use std::sync::atomic::AtomicU64;
use std::sync::atomic::Ordering::SeqCst;
use std::sync::{Arc, Wait};
use std::thread;
use std::thread::Threads;
use std::time::{Clock, Duration, Instant};

/// How many subscribers sleep.
const SLEEPERS: usize = 2;

/// The items of each subscriber, which its buffer holds.
const SLEPT_ITEMS: u64 = 64;

/// The items of all subscribers.
const ALL_SLEPT: u64 = 128;

/// Measures the nanoseconds of a run, and of the longest call meanwhile.
pub fn measure_slow<
    L: Ledgers + Send + Sync + 'static,
    R: Threads + Wait + Clock + Copy + Send + Sync + 'static,
>(rt: R, alloc: Global, workers: usize, blanks: BlankPair) -> Option<(u128, u128)>
    requires blanks { AreBlanksOf blanks L.publications L.drops L.history }
{
    let slept = Arc::new(alloc, AtomicU64::new(0)).ok()?;
    let publisher: Publisher<L, Sleeper<R>> = Publisher::new(
        rt,
        alloc,
        blanks,
        workers,
        SLEPT_ITEMS as usize,
    ).ok()?;
    let mut subscriptions = subscribe_sleepers(rt, alloc, &publisher, &slept)?;
    let mut submitters = make_submitters(&rt, alloc, &publisher, 1)?;
    publish_slept(&rt, alloc, &mut submitters);
    let (spent, longest) = time_slow(&rt, &publisher, &mut subscriptions, &*slept)?;
    end_all(
        &rt,
        alloc,
        publisher,
        submitters,
        subscriptions,
        SLEPT_ITEMS,
    )
    .then(|| (spent, longest))
}

/// Subscribes the subscribers that sleep.
fn subscribe_sleepers<
    L: Ledgers + Send + Sync + 'static,
    R: Wait + Clock + Copy + Send + Sync + 'static,
>(
    rt: R,
    alloc: Global,
    publisher: &Publisher<L, Sleeper<R>>,
    slept: &Arc<AtomicU64, Global>,
) -> Option<Vec<Subscription<L, Sleeper<R>>>> {
    let mut subscriptions = Vec::new(alloc);
    for name in NAMES.iter().take(SLEEPERS) {
        let name = Name::new(name.as_bytes())?;
        let sleeper = Sleeper::new(rt, Arc::try_clone(slept).ok()?);
        let subscription = publisher.subscribe(&rt, alloc, name, sleeper).ok()?;
        subscriptions.push(subscription).ok()?;
    }
    Some(subscriptions)
}

/// Publishes the items of a run, which wait for demand.
fn publish_slept<L: Ledgers + Send, B: Listener + Send, R: Wait>(
    rt: &R,
    alloc: Global,
    submitters: &mut [Submitter<L, B>],
) {
    for submitter in submitters.iter_mut() {
        send_singly(rt, alloc, submitter, b"x", SLEPT_ITEMS as usize);
    }
}

/// Measures the nanoseconds until all items that wait are slept over, and those of the longest call meanwhile.
fn time_slow<
    L: Ledgers + Send + Sync + 'static,
    B: Listener + Send + 'static,
    R: Threads + Wait + Clock + Sync,
>(
    rt: &R,
    publisher: &Publisher<L, B>,
    subscriptions: &mut [Subscription<L, B>],
    slept: &AtomicU64,
) -> Option<(u128, u128)> {
    let start = Instant::now(rt).ok()?;
    let ((), longest) = thread::join(
        rt,
        || request_all(rt, subscriptions),
        || watch(rt, publisher, slept),
    );
    let spent = start.elapsed(rt).ok()?;
    Some((spent.as_nanos(), longest?))
}

/// Requests all items with each subscription.
fn request_all<L: Ledgers + Send, B: Listener + Send, R: Wait>(
    rt: &R,
    subscriptions: &mut [Subscription<L, B>],
) {
    for subscription in subscriptions.iter_mut() {
        let _ = subscription.request(rt, i64::MAX);
    }
}

/// Measures the nanoseconds of the longest call of `number_of_subscribers` until all items were slept over.
fn watch<L: Ledgers + Send + Sync + 'static, B: Listener + Send + 'static, R: Wait + Clock>(
    rt: &R,
    publisher: &Publisher<L, B>,
    slept: &AtomicU64,
) -> Option<u128> {
    let mut longest = 0;
    for _ in rt.forever() {
        if slept.load(SeqCst) >= ALL_SLEPT {
            break;
        }
        let start = Instant::now(rt).ok()?;
        if publisher.number_of_subscribers(rt) != SLEEPERS {
            return None;
        }
        longest = longest.max(start.elapsed(rt).ok()?.as_nanos());
        thread::sleep(rt, Duration::from_millis(1));
    }
    Some(longest)
}
