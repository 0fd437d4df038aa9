//! One slow subscriber that may lose items, beside three that are waited for.
ghost use Rattle.std.specs.Prelude.{◌≡◌, []};
ghost use Rattle.publisher.specs.Blanks.{AreBlanksOf};

use flow_rules::Tally;
use publisher::{BlankPair, Ledgers, NamedLane, OnFull, Stats, Submitter, Subscription};
use std::alloc::Global;
use std::env;
use std::marker::Brand;
use std::sync::Wait;
use std::test::Fail;
use std::thread::Threads;
use test_stand::{Stand, name_of};

// After how many items the slow one requests another.
const PACE: u64 = 100;

// What all have got, and what the slow one has.
#[derive(Debug, PartialEq, Eq, Drop)]
struct Report {
    // How many items the three that are waited for were told together, and how many they have dropped.
    told: u64,
    dropped: u64,
    // How many the slow one was told and has dropped together, and how many it dropped.
    slow: u64,
    slow_dropped: u64,
    // How many drops the answers told of.
    answered: u64,
}

// Subscribes one that requests this many items.
fn subscribe<L: Ledgers + Send + Sync + 'static, R: Wait>(
    stand: &mut Stand<L, Tally>,
    rt: &R,
    name: &str,
    on_full: OnFull,
    demand: i64,
) -> Result<(), Fail> {
    let name = name_of(name)?;
    let subscribed = stand
        .publisher
        .subscribe_with(rt, stand.alloc, name, Tally::new(), on_full);
    let Ok(mut subscription) = subscribed else {
        return Err(Fail::new("subscribe refuses"));
    };
    subscription.request(rt, demand)?;
    stand.subscriptions.push(subscription)?;
    Ok(())
}

// Publishes all items, while the slow one requests few. How many drops the answers told of.
fn publish_many<L: Ledgers + Send, R: Wait>(
    rt: &R,
    alloc: Global,
    submitter: &mut Submitter<L, Tally>,
    slow: &mut Subscription<L, Tally>,
    items: u64,
) -> Result<u64, Fail> {
    let mut answered = 0_u64;
    for number in 0..items {
        let published = submitter.publish(rt, alloc, b"x")?;
        answered = answered.saturating_add(u64::from(published.dropped));
        if number % PACE == 0 {
            slow.request(rt, 1)?;
        }
    }
    Ok(answered)
}

// Adds what is left of a subscription.
fn count(report: &mut Report, left: &NamedLane<Tally>) {
    let told = match &left.lane.subscriber {
        Some(tally) => tally.items(),
        None => 0,
    };
    if left.entry == 3 {
        report.slow = told.saturating_add(left.dropped);
        report.slow_dropped = left.dropped;
    } else {
        report.told = report.told.saturating_add(told);
        report.dropped = report.dropped.saturating_add(left.dropped);
    }
}

// Whether these are the figures of four that took part in this many publications, of which the slow one alone lost some.
fn are_of_four(stats: &Stats, items: u64, lost: u64) -> bool {
    if (stats.live.len(), stats.made, stats.published) != (4, 4, items) {
        return false;
    }
    for one in stats.live.iter() {
        let dropped = match one.on_full {
            OnFull::Wait => 0,
            OnFull::Drop => lost,
        };
        if one.dropped != dropped || one.accepted.saturating_add(dropped) != items {
            return false;
        }
    }
    true
}

// Subscribes the four, publishes all, and has the slow one told what its buffer holds. How many drops the answers told
// of.
fn publish_to_four<L: Ledgers + Send + Sync + 'static, R: Wait>(
    rt: &R,
    stand: &mut Stand<L, Tally>,
    items: u64,
) -> Result<u64, Fail> {
    for name in ["a", "b", "c"] {
        subscribe(stand, rt, name, OnFull::Wait, i64::MAX)?;
    }
    subscribe(stand, rt, "slow", OnFull::Drop, 1)?;
    let (Some(submitter), Some(slow)) = (
        stand.submitters.first_mut(),
        stand.subscriptions.last_mut(),
    ) else {
        return Err(Fail::new("there is no submitter or no subscription"));
    };
    let answered = publish_many(rt, stand.alloc, submitter, slow, items)?;
    slow.request(rt, i64::MAX)?;
    let stats = stand.publisher.stats(rt, stand.alloc)?;
    if !are_of_four(&stats, items, answered) {
        return Err(Fail::new("stats tell other figures"));
    }
    stand.close(rt)?;
    stand.publisher.wait_drained(rt);
    Ok(answered)
}

// What the four have at the end.
fn four<L: Ledgers + Send + Sync + 'static, R: Threads + Wait + Copy + Send + Sync + 'static>(
    rt: R,
    alloc: Global,
    blanks: BlankPair,
    items: u64,
) -> Result<Report, Fail>
    requires blanks { AreBlanksOf blanks L.publications L.drops L.history }
{
    let mut stand: Stand<L, Tally> = Stand::new(rt, alloc, blanks, 2, 8)?;
    let answered = publish_to_four(&rt, &mut stand, items);
    let finished = stand.finish(&rt);
    let mut report = Report {
        told: 0,
        dropped: 0,
        slow: 0,
        slow_dropped: 0,
        answered: answered?,
    };
    let Ok(outcome) = finished else {
        return Err(Fail::new("finish refuses"));
    };
    for left in outcome.lanes.iter() {
        count(&mut report, left);
    }
    Ok(report)
}

// How many items a run from outside asks for.
fn items_of(rt: &HostRuntime) -> u64 {
    let asked = env::var(rt, "ITEMS").ok();
    asked
        .and_then(|text| text.as_str().parse::<u64>().ok())
        .unwrap_or(20_000)
}

#[test]
fn a_slow_one_loses_and_three_get_all(rt: HostRuntime) -> Result<(), Fail> {
    let items = items_of(&rt);
    let report = four::<Brand, _>(rt, rt.alloc(), BlankPair::new(rt.alloc())?, items)?;
    assert!(rt;
        report.told == items.saturating_mul(3) && report.dropped == 0,
        "one that is waited for lost items: {report:?}"
    );
    assert!(rt;
        report.slow == items && report.slow_dropped == report.answered,
        "the slow one: {report:?}"
    );
    assert!(rt; report.answered > 0, "nothing was lost: {report:?}");
    Ok(())
}
