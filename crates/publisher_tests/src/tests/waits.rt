//! Who waits until one subscription, or all, have ended, while others end or there are none.
ghost use Rattle.publisher.specs.Blanks.{AreBlanksOf};

use flow_rules::{Refusal, Tally};
use publisher::{BlankPair, Ledgers, Publisher, Subscription};
use std::alloc::Global;
use std::marker::Brand;
use std::sync::Wait;
use std::test::Fail;
use std::thread;
use std::thread::Threads;
use std::time::{Clock, Duration};
use test_stand::Stand;

// Lets another thread come to its sleep, as is likely.
fn nap<R: Clock>(rt: &R) {
    thread::sleep(rt, Duration::from_millis(1));
}

// Closes, once another thread is likely to sleep.
fn close_later<L: Ledgers + Send + Sync + 'static, R: Clock + Wait>(
    rt: &R,
    alloc: Global,
    publisher: &Publisher<L, Tally>,
) -> Result<(), Refusal> {
    nap(rt);
    let mut note = publisher.note();
    publisher.close(rt, alloc, &mut note)
}

// Waits until all have ended. Whether a note that knew nothing is told of the close then.
fn wait_drained<L: Ledgers + Send + Sync + 'static, R: Wait>(
    rt: &R,
    publisher: &Publisher<L, Tally>,
) -> bool {
    publisher.wait_drained(rt);
    let mut note = publisher.note();
    publisher.is_closed(&mut note)
}

// One thread waits until all have ended, and another one closes. No turn follows the close.
fn drain<L: Ledgers + Send + Sync + 'static, R: Clock + Threads + Wait + Sync>(
    rt: &R,
    alloc: Global,
    publisher: &Publisher<L, Tally>,
) -> Result<bool, Refusal> {
    let (is_closed, closed) = thread::join(
        rt,
        || wait_drained(rt, publisher),
        || close_later(rt, alloc, publisher),
    );
    closed?;
    Ok(is_closed)
}

// Drains a publisher without subscriptions, or whose only one has ended before.
fn drain_without_turns<
    L: Ledgers + Send + Sync + 'static,
    R: Clock + Threads + Wait + Copy + Send + Sync + 'static,
>(rt: R, alloc: Global, blanks: BlankPair, has_subscription: bool) -> Result<bool, Fail>
    requires blanks { AreBlanksOf blanks L.publications L.drops L.history }
{
    let mut stand: Stand<L, Tally> = Stand::new(rt, alloc, blanks, 1, 4)?;
    let is_closed = drain_stand(&rt, &mut stand, has_subscription);
    let _ = stand.end(&rt);
    is_closed
}

fn drain_stand<L: Ledgers + Send + Sync + 'static, R: Clock + Threads + Wait + Sync>(
    rt: &R,
    stand: &mut Stand<L, Tally>,
    has_subscription: bool,
) -> Result<bool, Fail> {
    if has_subscription {
        stand.subscribe(rt, "a", Tally::new())?;
        stand.cancel(rt, 0)?;
        stand.wait_end(rt, 0);
    }
    Ok(drain(rt, stand.alloc, &stand.publisher)?)
}

#[test]
fn a_close_wakes_who_waits_for_the_end_of_all(rt: HostRuntime) -> Result<(), Fail> {
    for round in 0..50 {
        for has_subscription in [false, true] {
            let blanks = BlankPair::new(rt.alloc())?;
            let is_closed = drain_without_turns::<Brand, _>(
                rt,
                rt.alloc(),
                blanks,
                has_subscription,
            )?;
            assert!(rt; is_closed, "no note knows of the close in round {round}");
        }
    }
    Ok(())
}

// Waits until a subscription has ended. Whether it has then.
fn wait_end<L: Ledgers + Send + Sync + 'static, R: Wait>(
    rt: &R,
    subscription: &mut Subscription<L, Tally>,
) -> bool {
    subscription.wait_end(rt);
    subscription.has_ended(rt)
}

// Cancels a subscription beside one that is waited for, and ends that later by a close.
fn cancel_and_close<L: Ledgers + Send + Sync + 'static, R: Clock + Wait>(
    rt: &R,
    alloc: Global,
    publisher: &Publisher<L, Tally>,
    other: &mut Subscription<L, Tally>,
) -> Result<(), Refusal> {
    nap(rt);
    other.cancel(rt)?;
    other.wait_end(rt);
    close_later(rt, alloc, publisher)
}

// One thread waits for the end of a subscription, and another one cancels the one beside it before.
fn end_one_of_two<L: Ledgers + Send + Sync + 'static, R: Clock + Threads + Wait + Sync>(
    rt: &R,
    alloc: Global,
    publisher: &Publisher<L, Tally>,
    one: &mut Subscription<L, Tally>,
    other: &mut Subscription<L, Tally>,
) -> Result<bool, Refusal> {
    let (has_ended, closed) = thread::join(
        rt,
        || wait_end(rt, one),
        || cancel_and_close(rt, alloc, publisher, other),
    );
    closed?;
    Ok(has_ended)
}

fn wait_beside_a_cancel<
    L: Ledgers + Send + Sync + 'static,
    R: Clock + Threads + Wait + Copy + Send + Sync + 'static,
>(rt: R, alloc: Global, blanks: BlankPair) -> Result<bool, Fail>
    requires blanks { AreBlanksOf blanks L.publications L.drops L.history }
{
    let mut stand: Stand<L, Tally> = Stand::new(rt, alloc, blanks, 1, 4)?;
    let has_ended = wait_for_one(&rt, &mut stand);
    let _ = stand.end(&rt);
    has_ended
}

fn wait_for_one<L: Ledgers + Send + Sync + 'static, R: Clock + Threads + Wait + Sync>(
    rt: &R,
    stand: &mut Stand<L, Tally>,
) -> Result<bool, Fail> {
    stand.subscribe(rt, "a", Tally::new())?;
    stand.subscribe(rt, "b", Tally::new())?;
    let [one, other] = stand.subscriptions.as_mut_slice() else {
        return Err(Fail::new("there are no two subscriptions"));
    };
    Ok(end_one_of_two(rt, stand.alloc, &stand.publisher, one, other)?)
}

#[test]
fn who_waits_for_one_end_waits_on_at_another(rt: HostRuntime) -> Result<(), Fail> {
    for round in 0..50 {
        let blanks = BlankPair::new(rt.alloc())?;
        let has_ended = wait_beside_a_cancel::<Brand, _>(rt, rt.alloc(), blanks)?;
        assert!(rt; has_ended, "the wait ended too early in round {round}");
    }
    Ok(())
}
