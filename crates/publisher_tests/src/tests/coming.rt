//! Subscriptions that come and go.
ghost use Rattle.std.specs.Prelude.{◌≡◌};
ghost use Rattle.publisher.specs.Blanks.{AreBlanksOf};

use flow_rules::{How, Refusal, Tally};
use publisher::{BlankPair, Ledgers};
use std::alloc::Global;
use std::env;
use std::marker::Brand;
use std::sync::Wait;
use std::test::Fail;
use std::thread::Threads;
use test_stand::{Stand, name_of};

// How many subscriptions may be live.
const LIVE: usize = 64;

// Has as many subscribe as may be live, and all of them cancelled, this many times. How many are left that were
// cancelled.
fn come_and_go<
    L: Ledgers + Send + Sync + 'static,
    R: Threads + Wait + Copy + Send + Sync + 'static,
>(rt: R, alloc: Global, blanks: BlankPair, rounds: u64) -> Result<usize, Fail>
    requires blanks { AreBlanksOf blanks L.publications L.drops L.history }
{
    let mut stand: Stand<L, Tally> = Stand::new(rt, alloc, blanks, 1, 1)?;
    for round in 0..rounds {
        fill(&rt, &mut stand)?;
        empty(&rt, &mut stand)?;
        if stand.publisher.number_of_subscribers(&rt) != 0 {
            return Err(Fail::new("one is live"));
        }
        let stats = stand.publisher.stats(&rt, alloc)?;
        let made = round.saturating_add(1).saturating_mul(LIVE as u64);
        if !stats.live.is_empty() || stats.made != made || stats.reclaimed != 0 {
            return Err(Fail::new("stats count others"));
        }
    }
    count_cancelled(&rt, stand)
}

// Has as many subscribe as may be live. One more is refused.
fn fill<L: Ledgers + Send + Sync + 'static, R: Wait>(
    rt: &R,
    stand: &mut Stand<L, Tally>,
) -> Result<(), Fail> {
    for number in 0..LIVE {
        let name = format!(in stand.alloc; "s{number}")?;
        stand.subscribe(rt, name.as_str(), Tally::new())?;
    }
    let more = name_of("more")?;
    match stand
        .publisher
        .subscribe(rt, stand.alloc, more, Tally::new())
    {
        Err(refused) => match refused.refusal() {
            Refusal::TooMany => Ok(()),
            _ => Err(Fail::new("one more is refused, but not as one too many")),
        },
        Ok(_) => Err(Fail::new("one more is not refused as one too many")),
    }
}

// Cancels the last ones, and waits for their ends.
fn empty<L: Ledgers + Send + Sync + 'static, R: Wait>(
    rt: &R,
    stand: &mut Stand<L, Tally>,
) -> Result<(), Fail> {
    let ended = stand.subscriptions.len().saturating_sub(LIVE);
    for subscription in stand.subscriptions[ended..].iter_mut() {
        subscription.cancel(rt)?;
        subscription.wait_end(rt);
    }
    Ok(())
}

// Ends the publisher, and counts the subscriptions that were cancelled.
fn count_cancelled<L: Ledgers + Send + Sync + 'static, R: Wait>(
    rt: &R,
    stand: Stand<L, Tally>,
) -> Result<usize, Fail> {
    let outcome = match stand.finish(rt) {
        Ok(outcome) => outcome,
        Err(refused) => return Err(refused.into()),
    };
    let mut cancelled: usize = 0;
    for left in outcome.lanes.iter() {
        if left.lane.ending == Some(How::Cancelled) {
            cancelled = cancelled.saturating_add(1);
        }
    }
    Ok(cancelled)
}

// How many rounds a run from outside asks for, which compares what memory they take.
fn rounds_of(rt: &HostRuntime) -> u64 {
    let asked = env::var(rt, "ROUNDS").ok();
    asked
        .and_then(|text| text.as_str().parse::<u64>().ok())
        .unwrap_or(100)
}

#[test]
fn thousands_come_and_go(rt: HostRuntime) -> Result<(), Fail> {
    let rounds = rounds_of(&rt);
    let blanks = BlankPair::new(rt.alloc())?;
    let left = come_and_go::<Brand, _>(rt, rt.alloc(), blanks, rounds)?;
    let is_each = (left / LIVE) as u64 == rounds && left % LIVE == 0;
    assert!(rt; is_each, "{left} in {rounds} rounds");
    Ok(())
}
