//! A thread that takes what is there already, and never waits for the next item.
ghost use Rattle.publisher.specs.Blanks.{AreBlanksOf};

use super::add_inbox;
use flow_rules::{NoMemory, Watching};
use inbox::{Inbox, Inlet};
use publisher::{BlankPair, Ledgers, Subscription};
use std::alloc::Global;
use std::marker::Brand;
use std::sync::Wait;
use std::test::Fail;
use std::thread;
use std::thread::Threads;
use test_stand::Stand;

// How often a thread looks for an item before it gives up.
const MOST_LOOKS: u64 = 10_000_000;

// Takes the next item once it is there, but doesn't look for ever. Its number of its source, if it came.
fn take_soon<L: Ledgers + Send + Sync + 'static, R: Wait + Copy + Send>(
    rt: &R,
    inbox: &mut Inbox,
    subscription: &mut Subscription<L, Watching<Inlet<R>>>,
) -> Result<Option<u64>, NoMemory> {
    for _ in 0..MOST_LOOKS {
        if let Some(item) = inbox.try_next(rt, subscription)? {
            return Ok(Some(item.seq));
        }
        thread::yield_now();
    }
    Ok(None)
}

// What a thread is answered before anything was published, by three items, after them, and after the close.
fn try_on<L: Ledgers + Send + Sync + 'static, R: Threads + Wait + Copy + Send + Sync + 'static>(
    rt: &R,
    stand: &mut Stand<L, Watching<Inlet<R>>>,
) -> Result<String, Fail> {
    let mut inbox = add_inbox(rt, stand, "a", 8)?;
    let (Some(submitter), Some(subscription)) = (
        stand.submitters.first_mut(),
        stand.subscriptions.first_mut(),
    ) else {
        return Err(Fail::new("there is no submitter or no subscription"));
    };
    let before = inbox.try_next(rt, subscription)?.is_some();
    for _ in 0..3 {
        let _ = submitter.submit(rt, stand.alloc, b"an item")?;
    }
    let one = take_soon(rt, &mut inbox, subscription)?;
    let two = take_soon(rt, &mut inbox, subscription)?;
    let three = take_soon(rt, &mut inbox, subscription)?;
    let after = inbox.try_next(rt, subscription)?.is_some();
    stand
        .publisher
        .close(rt, stand.alloc, &mut stand.publisher.note())?;
    subscription.wait_end(rt);
    let last = inbox.try_next(rt, subscription)?.is_some();
    Ok(format!(in stand.alloc;
        "{before} {one:?} {two:?} {three:?} {after} {last} {:?}",
        inbox.ending()
    )?)
}

fn try_on_a_stand<
    L: Ledgers + Send + Sync + 'static,
    R: Threads + Wait + Copy + Send + Sync + 'static,
>(rt: R, alloc: Global, blanks: BlankPair) -> Result<String, Fail>
    requires blanks { AreBlanksOf blanks L.publications L.drops L.history }
{
    let mut stand: Stand<L, Watching<Inlet<R>>> = Stand::new(rt, alloc, blanks, 1, 4)?;
    let told = try_on(&rt, &mut stand);
    let _ = stand.end(&rt);
    told
}

#[test]
fn a_thread_takes_what_is_there(rt: HostRuntime) -> Result<(), Fail> {
    for round in 0..50 {
        let blanks = BlankPair::new(rt.alloc())?;
        let told = try_on_a_stand::<Brand, _>(rt, rt.alloc(), blanks)?;
        let wanted = "false Some(0) Some(1) Some(2) false false Some(Completed)";
        assert!(rt; told.as_str() == wanted, "{told} in round {round}");
    }
    Ok(())
}
