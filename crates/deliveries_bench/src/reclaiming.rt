//! Subscriptions that come, end and are reclaimed before a run, some at a time.
use flow_rules::{How, Name, Refusal, Tally};
use publisher::{Ledgers, Publisher, Subscription, USUAL_LIVE};
use std::alloc::Global;
use std::sync::Wait;
use std::thread;
use std::time::{Clock, Instant};

/// How often a subscription is tried to be reclaimed that has ended, but whose task a thread still has.
const MOST_TRIES: u64 = 1_000_000;

/// Has this many subscriptions come, end and be reclaimed, 64 at a time. Measures the nanoseconds of a `reclaim`, on an
/// average of the last ones.
pub fn reclaim_many<L: Ledgers + Send + Sync + 'static, R: Wait + Clock>(
    rt: &R,
    alloc: Global,
    publisher: &Publisher<L, Tally>,
    many: usize,
) -> Option<u128> {
    let mut spent = come_and_go(rt, alloc, publisher, many % USUAL_LIVE)?;
    for _ in 0..many / USUAL_LIVE {
        spent = come_and_go(rt, alloc, publisher, USUAL_LIVE)?;
    }
    Some(spent)
}

/// Has this many subscriptions come and end, and reclaims them. Measures the nanoseconds of a `reclaim` on average.
fn come_and_go<L: Ledgers + Send + Sync + 'static, R: Wait + Clock>(
    rt: &R,
    alloc: Global,
    publisher: &Publisher<L, Tally>,
    many: usize,
) -> Option<u128> {
    let mut subscriptions = subscribe_many(rt, alloc, publisher, many)?;
    cancel_all(rt, &mut subscriptions)?;
    for subscription in subscriptions.iter() {
        subscription.wait_end(rt);
    }
    let start = Instant::now(rt).ok()?;
    let all = reclaim_all(rt, alloc, publisher, subscriptions);
    let spent = start.elapsed(rt).ok()?.as_nanos();
    all.then(|| spent / (many.max(1) as u128))
}

/// Subscribes this many subscribers.
fn subscribe_many<L: Ledgers + Send + Sync + 'static, R: Wait>(
    rt: &R,
    alloc: Global,
    publisher: &Publisher<L, Tally>,
    many: usize,
) -> Option<Vec<Subscription<L, Tally>>> {
    let mut subscriptions = Vec::new(alloc);
    for place in 0..many {
        let name = format!(in alloc; "gone{place}").ok()?;
        let name = Name::parse(name.as_str()).ok()?;
        let subscription = publisher.subscribe(rt, alloc, name, Tally::new()).ok()?;
        subscriptions.push(subscription).ok()?;
    }
    Some(subscriptions)
}

/// Cancels each of these.
fn cancel_all<L: Ledgers + Send, R: Wait>(
    rt: &R,
    subscriptions: &mut [Subscription<L, Tally>],
) -> Option<()> {
    for subscription in subscriptions.iter_mut() {
        subscription.cancel(rt).ok()?;
    }
    Some(())
}

/// Reclaims all of these, which have ended. Tells whether each was reclaimed.
fn reclaim_all<L: Ledgers + Send + Sync + 'static, R: Wait>(
    rt: &R,
    alloc: Global,
    publisher: &Publisher<L, Tally>,
    subscriptions: Vec<Subscription<L, Tally>>,
) -> bool {
    let mut all = true;
    for subscription in subscriptions {
        all &= reclaim(rt, alloc, publisher, subscription);
    }
    all
}

/// Reclaims one that has ended, once the thread that ended it has let go of its task. Tells whether it was, and was cancelled.
fn reclaim<L: Ledgers + Send + Sync + 'static, R: Wait>(
    rt: &R,
    alloc: Global,
    publisher: &Publisher<L, Tally>,
    subscription: Subscription<L, Tally>,
) -> bool {
    let mut subscription = subscription;
    for _ in 0..MOST_TRIES {
        match publisher.reclaim(rt, alloc, subscription) {
            Ok(left) => return matches!(left.lane.ending, Some(How::Cancelled)),
            Err(refused) => match refused.into_parts() {
                (Refusal::StillHeld(_), back) => subscription = back,
                _ => return false,
            },
        }
        thread::yield_now();
    }
    false
}
