//! Calls of an inbox that are refused memory: nothing has changed then, and the same call does its work later.
ghost use Rattle.publisher.specs.Blanks.{AreBlanksOf};

use super::add_inbox;
use flow_rules::{NoMemory, Watching};
use inbox::{Inbox, Inlet};
use publisher::{BlankPair, Ledgers, Subscription};
use std::alloc::Global;
use std::marker::Brand;
use std::sync::Wait;
use std::test::Fail;
use std::thread::Threads;
use test_stand::Stand;

// Takes an item, and once more if that is refused. Whether there was one.
fn take_at_last<L: Ledgers + Send + Sync + 'static, R: Wait + Copy + Send + 'static>(
    rt: &R,
    subscription: &mut Subscription<L, Watching<Inlet<R>>>,
    inbox: &mut Inbox,
) -> Result<bool, NoMemory> {
    match inbox.next(rt, subscription) {
        Ok(item) => Ok(item.is_some()),
        Err(NoMemory) => Ok(inbox.next(rt, subscription)?.is_some()),
    }
}

// Cancels. If that is refused, an item comes out that waits, and then it cancels once more. Whether nothing else came of
// the refusal.
fn cancel_at_last<L: Ledgers + Send + Sync + 'static, R: Wait + Copy + Send + 'static>(
    rt: &R,
    subscription: &mut Subscription<L, Watching<Inlet<R>>>,
    inbox: &mut Inbox,
) -> Result<bool, NoMemory> {
    match inbox.cancel(rt, subscription) {
        Ok(()) => Ok(true),
        Err(NoMemory) => {
            let is_open = inbox.ending().is_none();
            let is_there = take_at_last(rt, subscription, inbox)?;
            inbox.cancel(rt, subscription)?;
            Ok(is_open && is_there)
        }
    }
}

// What a thread finds that takes one of two items, and cancels.
fn take_and_cancel<L: Ledgers + Send + Sync + 'static, R: Wait + Copy + Send + 'static>(
    rt: &R,
    stand: &mut Stand<L, Watching<Inlet<R>>>,
) -> Result<String, Fail> {
    let mut inbox = add_inbox(rt, stand, "a", 4)?;
    stand.submit(rt, b"x")?;
    stand.submit(rt, b"y")?;
    let Some(subscription) = stand.subscriptions.first_mut() else {
        return Err(Fail::new("there is no subscription"));
    };
    let first = take_at_last(rt, subscription, &mut inbox)?;
    let second = cancel_at_last(rt, subscription, &mut inbox)?;
    let third = take_at_last(rt, subscription, &mut inbox)?;
    Ok(format!(in stand.alloc; "{first} {second} {third} {:?}", inbox.ending())?)
}

fn cancel_on_a_stand<
    L: Ledgers + Send + Sync + 'static,
    R: Threads + Wait + Copy + Send + Sync + 'static,
>(rt: R, alloc: Global, blanks: BlankPair) -> Result<String, Fail>
    requires blanks { AreBlanksOf blanks L.publications L.drops L.history }
{
    let mut stand: Stand<L, Watching<Inlet<R>>> = Stand::new(rt, alloc, blanks, 1, 4)?;
    let found = take_and_cancel(&rt, &mut stand);
    let _ = stand.end(&rt);
    found
}

#[test]
fn a_refused_call_changes_nothing(rt: HostRuntime) -> Result<(), Fail> {
    let blanks = BlankPair::new(rt.alloc())?;
    let found = cancel_on_a_stand::<Brand, _>(rt, rt.alloc(), blanks)?;
    assert!(rt;
        found.as_str() == "true true false Some(Cancelled)",
        "{found}"
    );
    Ok(())
}
