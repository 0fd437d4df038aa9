//! A thread that takes items from an inbox when it wants them.
ghost use Rattle.publisher.specs.Blanks.{AreBlanksOf};
ghost use Rattle.std.specs.Prelude.{◌≡◌};

use super::add_inbox;
use flow_rules::{Refusal, Watching};
use inbox::{Inbox, Inlet};
use publisher::{BlankPair, Ledgers, Publisher, Submitter, Subscription};
use std::alloc::Global;
use std::marker::Brand;
use std::sync::Wait;
use std::test::Fail;
use std::thread;
use std::thread::Threads;
use test_stand::Stand;

// How many items a source sends.
const ITEMS: u64 = 200;

// Publishes all items, and closes.
fn send<L: Ledgers + Send + Sync + 'static, R: Wait + Copy + Send>(
    rt: &R,
    alloc: Global,
    publisher: &Publisher<L, Watching<Inlet<R>>>,
    submitter: &mut Submitter<L, Watching<Inlet<R>>>,
) -> Result<(), Refusal> {
    for _ in 0..ITEMS {
        submitter.submit(rt, alloc, b"a text that is longer than thirty bytes")?;
    }
    publisher.close(rt, alloc, &mut publisher.note())
}

// Takes items until there is none, and counts those that came in their order.
fn take<L: Ledgers + Send + Sync + 'static, R: Wait + Copy + Send>(
    rt: &R,
    inbox: &mut Inbox,
    subscription: &mut Subscription<L, Watching<Inlet<R>>>,
) -> Result<u64, Refusal> {
    let mut taken = 0;
    for _ in 0..=ITEMS {
        match inbox.next(rt, subscription)? {
            Some(item) if item.seq == taken => taken = taken.saturating_add(1),
            _ => return Ok(taken),
        }
    }
    Ok(taken)
}

// What a thread takes that asks for batches of this size, while another one publishes.
fn take_while_sent<
    L: Ledgers + Send + Sync + 'static,
    R: Threads + Wait + Copy + Send + Sync + 'static,
>(rt: R, alloc: Global, blanks: BlankPair, batch: u32) -> Result<String, Fail>
    requires blanks { AreBlanksOf blanks L.publications L.drops L.history }
{
    let mut stand: Stand<L, Watching<Inlet<R>>> = Stand::new(rt, alloc, blanks, 2, 4)?;
    let told = take_beside_sender(&rt, &mut stand, batch);
    let _ = stand.end(&rt);
    told
}

fn take_beside_sender<
    L: Ledgers + Send + Sync + 'static,
    R: Threads + Wait + Copy + Send + Sync + 'static,
>(rt: &R, stand: &mut Stand<L, Watching<Inlet<R>>>, batch: u32) -> Result<String, Fail> {
    let mut inbox = add_inbox(rt, stand, "a", batch)?;
    let (Some(submitter), Some(subscription)) = (
        stand.submitters.first_mut(),
        stand.subscriptions.first_mut(),
    ) else {
        return Err(Fail::new("there is no submitter or no subscription"));
    };
    let (alloc, publisher) = (stand.alloc, &stand.publisher);
    let taken = send_and_take(rt, alloc, publisher, submitter, subscription, &mut inbox)?;
    let ahead = subscription.requested().saturating_sub(taken);
    Ok(format!(in alloc; "{taken} taken, {ahead} ahead, {:?}", inbox.ending())?)
}

// One thread publishes, and another one takes.
fn send_and_take<
    L: Ledgers + Send + Sync + 'static,
    R: Threads + Wait + Copy + Send + Sync + 'static,
>(
    rt: &R,
    alloc: Global,
    publisher: &Publisher<L, Watching<Inlet<R>>>,
    submitter: &mut Submitter<L, Watching<Inlet<R>>>,
    subscription: &mut Subscription<L, Watching<Inlet<R>>>,
    inbox: &mut Inbox,
) -> Result<u64, Refusal> {
    let (sent, taken) = thread::join(
        rt,
        || send(rt, alloc, publisher, submitter),
        || take(rt, inbox, subscription),
    );
    sent?;
    taken
}

#[test]
fn a_thread_takes_each_item_in_its_order(rt: HostRuntime) -> Result<(), Fail> {
    for (batch, wanted) in [
        (1, "200 taken, 1 ahead, Some(Completed)"),
        (3, "200 taken, 3 ahead, Some(Completed)"),
        (64, "200 taken, 56 ahead, Some(Completed)"),
    ] {
        let blanks = BlankPair::new(rt.alloc())?;
        let told = take_while_sent::<Brand, _>(rt, rt.alloc(), blanks, batch)?;
        assert!(rt; told.as_str() == wanted, "{told}");
    }
    Ok(())
}
