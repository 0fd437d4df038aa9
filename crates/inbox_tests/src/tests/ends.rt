//! Ends that a thread finds in its inbox: an error, its own cancel, and items for which there is no room.
ghost use Rattle.publisher.specs.Blanks.{AreBlanksOf};
ghost use Rattle.std.specs.Prelude.{◌≡◌};

use super::{add_inbox, cancel, take_one};
use flow_rules::{How, Refusal, Watching};
use inbox::{Inbox, Inlet};
use publisher::{BlankPair, Ledgers};
use std::alloc::Global;
use std::marker::Brand;
use std::sync::Wait;
use std::test::Fail;
use std::thread;
use std::thread::Threads;
use test_stand::Stand;

// Closes the publisher with the error 7, and waits for the end of the first subscription.
fn fail<L: Ledgers + Send + Sync + 'static, R: Wait + Copy + Send + 'static>(
    rt: &R,
    stand: &Stand<L, Watching<Inlet<R>>>,
) -> Result<(), Fail> {
    let mut note = stand.publisher.note();
    stand
        .publisher
        .close_exceptionally(rt, stand.alloc, &mut note, 7)?;
    stand.wait_end(rt, 0);
    Ok(())
}

// What a thread is told after an error, and after it has cancelled.
fn take_after_ends<
    L: Ledgers + Send + Sync + 'static,
    R: Threads + Wait + Copy + Send + Sync + 'static,
>(rt: R, alloc: Global, blanks: BlankPair) -> Result<String, Fail>
    requires blanks { AreBlanksOf blanks L.publications L.drops L.history }
{
    let mut stand: Stand<L, Watching<Inlet<R>>> = Stand::new(rt, alloc, blanks, 1, 4)?;
    let told = two_after_ends(&rt, &mut stand);
    let _ = stand.end(&rt);
    told
}

fn two_after_ends<L: Ledgers + Send + Sync + 'static, R: Wait + Copy + Send + 'static>(
    rt: &R,
    stand: &mut Stand<L, Watching<Inlet<R>>>,
) -> Result<String, Fail> {
    let mut failed = add_inbox(rt, stand, "a", 2)?;
    let mut cancelled = add_inbox(rt, stand, "b", 2)?;
    stand.submit(rt, b"x")?;
    let first = take_one(rt, stand, 1, &mut cancelled)?;
    cancel(rt, stand, 1, &mut cancelled)?;
    let second = take_one(rt, stand, 1, &mut cancelled)?;
    let how = cancelled.ending();
    fail(rt, stand)?;
    let before = failed.ending();
    let third = take_one(rt, stand, 0, &mut failed)?;
    let (ending, fault) = (failed.ending(), failed.fault());
    let told = format!(in stand.alloc;
        "{first} {second} {how:?}; {before:?} {third} {ending:?} {fault:?}"
    )?;
    Ok(told)
}

#[test]
fn an_inbox_is_told_of_an_error_and_of_its_cancel(rt: HostRuntime) -> Result<(), Fail> {
    let blanks = BlankPair::new(rt.alloc())?;
    let told = take_after_ends::<Brand, _>(rt, rt.alloc(), blanks)?;
    let wanted = "true false Some(Cancelled); \
        None false Some(Errored(Published(7))) Some(Published(7))";
    assert!(rt; told.as_str() == wanted, "{told}");
    assert!(rt; matches!(Inbox::pair(rt, rt.alloc(), 0), Err(Refusal::BadCapacity)));
    Ok(())
}

// Takes what there is, up to ten items, and counts it.
fn take_rest<L: Ledgers + Send + Sync + 'static, R: Wait + Copy + Send + 'static>(
    rt: &R,
    stand: &mut Stand<L, Watching<Inlet<R>>>,
    inbox: &mut Inbox,
) -> Result<u64, Fail> {
    let mut taken = 0_u64;
    for _ in 0..10 {
        if !take_one(rt, stand, 0, inbox)? {
            return Ok(taken);
        }
        taken = taken.saturating_add(1);
    }
    Ok(taken)
}

// Waits until nothing is left in the buffer of the first subscription.
fn drain<L: Ledgers + Send + Sync + 'static, R: Wait + Copy + Send + 'static>(
    rt: &R,
    stand: &Stand<L, Watching<Inlet<R>>>,
) {
    let Some(subscription) = stand.subscriptions.first() else {
        return;
    };
    for _ in rt.forever() {
        if subscription.lag(rt) == 0 {
            break;
        }
        thread::yield_now();
    }
}

// What a thread finds that has requested as many items as this beside its inbox, after as many were published and an
// error closed the publisher; and how its subscription has ended.
fn take_beside<
    L: Ledgers + Send + Sync + 'static,
    R: Threads + Wait + Copy + Send + Sync + 'static,
>(rt: R, alloc: Global, blanks: BlankPair, items: i64) -> Result<String, Fail>
    requires blanks { AreBlanksOf blanks L.publications L.drops L.history }
{
    let mut stand: Stand<L, Watching<Inlet<R>>> = Stand::new(rt, alloc, blanks, 1, 8)?;
    let found = find_beside(&rt, &mut stand, items);
    let outcome = stand.end(&rt);
    let (taken, ending) = found?;
    let is_same = ending == outcome.lanes.first().and_then(|left| left.lane.ending);
    Ok(format!(in alloc; "{taken} taken, {ending:?} {is_same}")?)
}

fn find_beside<L: Ledgers + Send + Sync + 'static, R: Wait + Copy + Send + 'static>(
    rt: &R,
    stand: &mut Stand<L, Watching<Inlet<R>>>,
    items: i64,
) -> Result<(u64, Option<How>), Fail> {
    let mut inbox = add_inbox(rt, stand, "a", 2)?;
    stand.request(rt, 0, items)?;
    for _ in 0..items {
        stand.submit(rt, b"x")?;
    }
    drain(rt, stand);
    fail(rt, stand)?;
    let taken = take_rest(rt, stand, &mut inbox)?;
    Ok((taken, inbox.ending()))
}

// With two items all places are taken, and the end has one of its own; with more the first that finds no place fails.
#[test]
fn an_end_finds_its_place_though_all_are_taken(rt: HostRuntime) -> Result<(), Fail> {
    for (items, wanted) in [
        (1, "1 taken, Some(Errored(Published(7))) true"),
        (2, "2 taken, Some(Errored(Published(7))) true"),
        (3, "2 taken, Some(Failed(4)) true"),
        (5, "2 taken, Some(Failed(4)) true"),
    ] {
        let blanks = BlankPair::new(rt.alloc())?;
        let told = take_beside::<Brand, _>(rt, rt.alloc(), blanks, items)?;
        assert!(rt; told.as_str() == wanted, "{items}: {told}");
    }
    Ok(())
}
