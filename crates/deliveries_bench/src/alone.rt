//! A run of one item at a time to one subscriber at rest. It takes from the call of `submit` until the subscriber was told.
ghost use Rattle.std.specs.Prelude.{◌≡◌};
ghost use Rattle.publisher.specs.Blanks.{AreBlanksOf};

use super::bell::Bell;
use super::ends::{NAMES, end_all, make_submitters};
use flow_rules::Name;
use publisher::{BlankPair, Ledgers, Publisher, Submitter};
use std::alloc::Global;
use std::sync::atomic::AtomicU64;
use std::sync::atomic::Ordering::SeqCst;
use std::sync::{Arc, Wait};
use std::thread::Threads;
use std::time::{Clock, Duration, Instant};
use std::{hint, thread};

/// The bytes of each text.
const TEXT: [u8; 16] = [b'x'; 16];

/// How often the submitter looks whether the subscriber was told before it gives up.
const MOST_LOOKS: u64 = 1_000_000_000;

/// Measures the nanoseconds that all items of a run take together, with this pause before each, in microseconds.
pub fn measure_alone<
    L: Ledgers + Send + Sync + 'static,
    R: Threads + Wait + Clock + Copy + Send + Sync + 'static,
>(rt: R, alloc: Global, workers: usize, items: usize, pause: u64, blanks: BlankPair) -> Option<u128>
    requires blanks { AreBlanksOf blanks L.publications L.drops L.history }
{
    let publisher: Publisher<L, Bell> = Publisher::new(rt, alloc, blanks, workers, 256).ok()?;
    let rung = Arc::new(alloc, AtomicU64::new(0)).ok()?;
    let bell = Bell::new(Arc::try_clone(&rung).ok()?);
    let name = Name::new(NAMES[0].as_bytes())?;
    let mut subscription = publisher.subscribe(&rt, alloc, name, bell).ok()?;
    subscription.request(&rt, i64::MAX).ok()?;
    let mut submitters = make_submitters(&rt, alloc, &publisher, 1)?;
    let spent = ring_all(&rt, alloc, submitters.first_mut()?, &rung, items, pause)?;
    let mut subscriptions = Vec::new(alloc);
    subscriptions.push(subscription).ok()?;
    end_all(
        &rt,
        alloc,
        publisher,
        submitters,
        subscriptions,
        items as u64,
    )
    .then(|| spent)
}

/// Publishes this many items, each after a pause and once the one before was told.
fn ring_all<L: Ledgers + Send, R: Wait + Clock>(
    rt: &R,
    alloc: Global,
    submitter: &mut Submitter<L, Bell>,
    rung: &AtomicU64,
    items: usize,
    pause: u64,
) -> Option<u128> {
    let mut spent: u128 = 0;
    for item in 0..items {
        thread::sleep(rt, Duration::from_micros(pause));
        let start = Instant::now(rt).ok()?;
        submitter.submit(rt, alloc, &TEXT).ok()?;
        wait_for(rung, (item as u64).saturating_add(1));
        spent = spent.saturating_add(start.elapsed(rt).ok()?.as_nanos());
    }
    Some(spent)
}

/// Looks until this many items were told.
fn wait_for(rung: &AtomicU64, items: u64) {
    for _ in 0..MOST_LOOKS {
        if rung.load(SeqCst) >= items {
            return;
        }
        hint::spin_loop();
    }
}
