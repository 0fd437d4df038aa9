//! Two threads that request.
ghost use Rattle.publisher.specs.Blanks.{AreBlanksOf};

use super::{CAPACITY, end, give_back, share};
use flow_rules::{NoMemory, Tally};
use publisher::{BlankPair, Controller, Ledgers};
use std::alloc::Global;
use std::marker::Brand;
use std::sync::Wait;
use std::test::Fail;
use std::thread;
use std::thread::Threads;
use test_stand::Stand;

// How often each of two controllers requests an item.
const REQUESTS: u64 = 50;

// Requests item by item.
fn request<L: Ledgers + Send + Sync + 'static, R: Wait>(
    rt: &R,
    controller: &mut Controller<L, Tally>,
) -> Result<(), NoMemory> {
    for _ in 0..REQUESTS {
        controller.request(rt, 1)?;
    }
    Ok(())
}

// Waits until only what was not requested waits in the buffer.
fn wait_for_lag<L: Ledgers + Send + Sync + 'static, R: Wait>(
    rt: &R,
    controller: &Controller<L, Tally>,
) {
    for _ in rt.forever() {
        if controller.lag(rt) == CAPACITY as u64 {
            return;
        }
        thread::yield_now();
    }
}

// Two threads request, and then the publisher publishes what was requested and what the buffer holds. How many items were requested.
fn request_by_both<L: Ledgers + Send + Sync + 'static, R: Threads + Wait + Sync>(
    rt: &R,
    stand: &mut Stand<L, Tally>,
) -> Result<u64, Fail> {
    stand.subscribe(rt, "a", Tally::new())?;
    let mut owner = share(stand)?;
    let mut other = owner.another(stand.alloc)?;
    let (one, two) = thread::join(rt, || request(rt, &mut owner), || request(rt, &mut other));
    one?;
    two?;
    for _ in 0..2 * REQUESTS + CAPACITY as u64 {
        let _ = stand.submit(rt, b"an item")?;
    }
    wait_for_lag(rt, &owner);
    let requested = owner.requested(rt);
    other.cancel(rt)?;
    owner.wait_end(rt);
    drop(other);
    give_back(stand, owner)?;
    Ok(requested)
}

fn request_on_a_stand<
    L: Ledgers + Send + Sync + 'static,
    R: Threads + Wait + Copy + Send + Sync + 'static,
>(rt: R, alloc: Global, blanks: BlankPair) -> Result<(u64, u64), Fail>
    requires blanks { AreBlanksOf blanks L.publications L.drops L.history }
{
    let mut stand: Stand<L, Tally> = Stand::new(rt, alloc, blanks, 1, CAPACITY)?;
    let requested = request_by_both(&rt, &mut stand)?;
    let (_, told) = end(&rt, stand)?;
    Ok((requested, told))
}

#[test]
fn requests_of_two_controllers_add_up(rt: HostRuntime) -> Result<(), Fail> {
    for round in 0..20 {
        let blanks = BlankPair::new(rt.alloc())?;
        let (requested, told) = request_on_a_stand::<Brand, _>(rt, rt.alloc(), blanks)?;
        assert!(rt;
            requested == 2 * REQUESTS && told == 2 * REQUESTS,
            "{requested} requested and {told} told in round {round}"
        );
    }
    Ok(())
}
