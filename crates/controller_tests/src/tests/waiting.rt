//! One thread cancels while one or two others wait for the end.
ghost use Rattle.publisher.specs.Blanks.{AreBlanksOf};

use super::{CAPACITY, end, give_back, share};
use flow_rules::{How, NoMemory, Tally};
use publisher::{BlankPair, Controller, Ledgers};
use std::alloc::Global;
use std::marker::Brand;
use std::sync::Wait;
use std::test::Fail;
use std::thread;
use std::thread::Threads;
use std::time::{Clock, Duration};
use test_stand::Stand;

// Waits for the end by a controller. Whether it has come then.
fn wait_end<L: Ledgers + Send + Sync + 'static, R: Wait>(
    rt: &R,
    controller: &Controller<L, Tally>,
) -> bool {
    controller.wait_end(rt);
    controller.has_ended(rt)
}

// Cancels by a controller, once other threads are likely to sleep.
fn cancel_later<L: Ledgers + Send + Sync + 'static, R: Clock + Wait>(
    rt: &R,
    controller: &mut Controller<L, Tally>,
) -> Result<(), NoMemory> {
    thread::sleep(rt, Duration::from_millis(1));
    controller.cancel(rt)
}

// One thread waits for the end and another cancels. Whether it has ended then, and whether the subscription came back while the
// other controller was there.
fn cancel_beside_a_wait<L: Ledgers + Send + Sync + 'static, R: Clock + Threads + Wait + Sync>(
    rt: &R,
    stand: &mut Stand<L, Tally>,
) -> Result<(bool, bool), Fail> {
    stand.subscribe(rt, "a", Tally::new())?;
    let owner = share(stand)?;
    let mut other = owner.another(stand.alloc)?;
    let (has_ended, cancelled) = thread::join(
        rt,
        || wait_end(rt, &owner),
        || cancel_later(rt, &mut other),
    );
    cancelled?;
    match owner.into_subscription() {
        Ok(subscription) => {
            stand.subscriptions.push(subscription)?;
            Ok((has_ended, true))
        }
        Err(owner) => {
            drop(owner);
            give_back(stand, other)?;
            Ok((has_ended, false))
        }
    }
}

fn cancel_on_a_stand<
    L: Ledgers + Send + Sync + 'static,
    R: Clock + Threads + Wait + Copy + Send + Sync + 'static,
>(rt: R, alloc: Global, blanks: BlankPair) -> Result<(bool, bool, Option<How>), Fail>
    requires blanks { AreBlanksOf blanks L.publications L.drops L.history }
{
    let mut stand: Stand<L, Tally> = Stand::new(rt, alloc, blanks, 1, CAPACITY)?;
    let (has_ended, came_back) = cancel_beside_a_wait(&rt, &mut stand)?;
    let (ending, _) = end(&rt, stand)?;
    Ok((has_ended, came_back, ending))
}

#[test]
fn one_cancels_while_another_waits(rt: HostRuntime) -> Result<(), Fail> {
    for round in 0..50 {
        let blanks = BlankPair::new(rt.alloc())?;
        let (has_ended, came_back, ending) = cancel_on_a_stand::<Brand, _>(rt, rt.alloc(), blanks)?;
        assert!(rt; has_ended, "the wait ended too early in round {round}");
        assert!(rt;
            !came_back,
            "it came back while another controller was there"
        );
        assert!(rt;
            ending == Some(How::Cancelled),
            "it ended otherwise in round {round}"
        );
    }
    Ok(())
}

// Three threads have a subscription for which this many items wait: two wait for its end, and the third one cancels. Whether it has
// ended then, as each of them sees it.
fn cancel_beside_two_waits<L: Ledgers + Send + Sync + 'static, R: Clock + Threads + Wait + Sync>(
    rt: &R,
    stand: &mut Stand<L, Tally>,
    items: u64,
) -> Result<bool, Fail> {
    stand.subscribe(rt, "a", Tally::new())?;
    for _ in 0..items {
        let _ = stand.submit(rt, b"an item")?;
    }
    let one = share(stand)?;
    let two = one.another(stand.alloc)?;
    let mut three = one.another(stand.alloc)?;
    let (first, second) = thread::join(
        rt,
        || wait_end(rt, &one),
        || wait_and_cancel(rt, &two, &mut three),
    );
    let second = second?;
    let have_ended = first && second && three.has_ended(rt);
    drop(one);
    drop(two);
    give_back(stand, three)?;
    Ok(have_ended)
}

// One thread waits for the end and another one cancels. Whether it has come then.
fn wait_and_cancel<L: Ledgers + Send + Sync + 'static, R: Clock + Threads + Wait + Sync>(
    rt: &R,
    waiting: &Controller<L, Tally>,
    other: &mut Controller<L, Tally>,
) -> Result<bool, NoMemory> {
    let (has_ended, cancelled) = thread::join(
        rt,
        || wait_end(rt, waiting),
        || cancel_later(rt, other),
    );
    cancelled?;
    Ok(has_ended)
}

fn cancel_for_two_on_a_stand<
    L: Ledgers + Send + Sync + 'static,
    R: Clock + Threads + Wait + Copy + Send + Sync + 'static,
>(rt: R, alloc: Global, blanks: BlankPair, items: u64) -> Result<(bool, Option<How>, u64), Fail>
    requires blanks { AreBlanksOf blanks L.publications L.drops L.history }
{
    let mut stand: Stand<L, Tally> = Stand::new(rt, alloc, blanks, 1, CAPACITY)?;
    let have_ended = cancel_beside_two_waits(&rt, &mut stand, items)?;
    let (ending, told) = end(&rt, stand)?;
    Ok((have_ended, ending, told))
}

#[test]
fn one_cancels_while_two_wait(rt: HostRuntime) -> Result<(), Fail> {
    for round in 0..100 {
        let blanks = BlankPair::new(rt.alloc())?;
        // In every second round no item waits.
        let items = if round % 2 == 0 { 0 } else { 3 };
        let (have_ended, ending, told) = cancel_for_two_on_a_stand::<Brand, _>(
            rt,
            rt.alloc(),
            blanks,
            items,
        )?;
        assert!(rt; have_ended, "a wait ended too early in round {round}");
        assert!(rt;
            ending == Some(How::Cancelled) && told == 0,
            "it ended otherwise, or was told {told} items in round {round}"
        );
    }
    Ok(())
}
