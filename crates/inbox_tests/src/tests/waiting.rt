//! Several threads that wait, each for its own inbox.
ghost use Rattle.publisher.specs.Blanks.{AreBlanksOf};
ghost use Rattle.std.specs.Prelude.{◌≡◌};

use super::{add_inbox, last_of};
use flow_rules::{Refusal, Watching};
use inbox::{Inbox, Inlet};
use publisher::{BlankPair, Ledgers, Publisher, Submitter, Subscription};
use std::alloc::Global;
use std::marker::Brand;
use std::sync::Wait;
use std::test::Fail;
use std::thread;
use std::thread::Threads;
use test_stand::Stand;

// How many items are published.
const ITEMS: u64 = 50;

// A thread's inbox, with what it took.
#[derive(Drop)]
struct Taker<L: Ledgers + Send, R: Wait + Copy + Send> {
    inbox: Inbox,
    subscription: Subscription<L, Watching<Inlet<R>>>,
    taken: u64,
}

// Subscribes one taker more.
fn add_taker<L: Ledgers + Send + Sync + 'static, R: Threads + Wait + Copy + Send + Sync + 'static>(
    rt: &R,
    stand: &mut Stand<L, Watching<Inlet<R>>>,
    name: &str,
    takers: &mut Vec<Taker<L, R>>,
) -> Result<(), Fail> {
    let inbox = add_inbox(rt, stand, name, 4)?;
    takers.push(Taker {
        inbox,
        subscription: last_of(stand)?,
        taken: 0,
    })?;
    Ok(())
}

// Takes all items in their order; the first that is out of it ends this.
fn take_all<L: Ledgers + Send, R: Wait + Copy + Send>(rt: &R, taker: &mut Taker<L, R>) {
    for _ in 0..=ITEMS {
        match taker.inbox.next(rt, &mut taker.subscription) {
            Ok(Some(item)) if item.serial == taker.taken => taker.taken = item
                .serial
                .saturating_add(1),
            _ => return,
        }
    }
}

// Has three take, each in a thread of its own.
fn take_each<L: Ledgers + Send + Sync + 'static, R: Threads + Wait + Copy + Send + Sync + 'static>(
    rt: &R,
    one: &mut Taker<L, R>,
    two: &mut Taker<L, R>,
    three: &mut Taker<L, R>,
) {
    let ((), ()) = thread::join(rt, || take_all(rt, one), || take_two(rt, two, three));
}

fn take_two<L: Ledgers + Send + Sync + 'static, R: Threads + Wait + Copy + Send + Sync + 'static>(
    rt: &R,
    one: &mut Taker<L, R>,
    other: &mut Taker<L, R>,
) {
    let ((), ()) = thread::join(rt, || take_all(rt, one), || take_all(rt, other));
}

// Publishes all items once the others had time to wait, and closes.
fn send<L: Ledgers + Send + Sync + 'static, R: Wait + Copy + Send>(
    rt: &R,
    alloc: Global,
    publisher: &Publisher<L, Watching<Inlet<R>>>,
    submitter: &mut Submitter<L, Watching<Inlet<R>>>,
) -> Result<(), Refusal> {
    for _ in 0..1000 {
        thread::yield_now();
    }
    for _ in 0..ITEMS {
        submitter.submit(rt, alloc, b"x")?;
    }
    publisher.close(rt, alloc, &mut publisher.note())
}

// What each of several threads takes while another one publishes.
fn take_together<
    L: Ledgers + Send + Sync + 'static,
    R: Threads + Wait + Copy + Send + Sync + 'static,
>(rt: R, alloc: Global, blanks: BlankPair) -> Result<String, Fail>
    requires blanks { AreBlanksOf blanks L.publications L.drops L.history }
{
    let mut stand: Stand<L, Watching<Inlet<R>>> = Stand::new(rt, alloc, blanks, 1, 4)?;
    let told = take_in_turns(&rt, &mut stand);
    let _ = stand.end(&rt);
    told
}

fn take_in_turns<
    L: Ledgers + Send + Sync + 'static,
    R: Threads + Wait + Copy + Send + Sync + 'static,
>(rt: &R, stand: &mut Stand<L, Watching<Inlet<R>>>) -> Result<String, Fail> {
    let mut takers = Vec::new(stand.alloc);
    for name in ["a", "b", "c"] {
        add_taker(rt, stand, name, &mut takers)?;
    }
    let sent = send_and_take(rt, stand, &mut takers);
    let told = give_back(stand, takers)?;
    sent?;
    Ok(told)
}

// One thread publishes while the others take.
fn send_and_take<
    L: Ledgers + Send + Sync + 'static,
    R: Threads + Wait + Copy + Send + Sync + 'static,
>(
    rt: &R,
    stand: &mut Stand<L, Watching<Inlet<R>>>,
    takers: &mut Vec<Taker<L, R>>,
) -> Result<(), Refusal> {
    let (alloc, publisher) = (stand.alloc, &stand.publisher);
    let (Some(submitter), [one, two, three]) = (stand.submitters.first_mut(), takers.as_mut_slice())
    else {
        return Err(Refusal::Unknown);
    };
    let (sent, ()) = thread::join(
        rt,
        || send(rt, alloc, publisher, submitter),
        || take_each(rt, one, two, three),
    );
    sent
}

// Gives the subscriptions back, and tells what each taker took.
fn give_back<L: Ledgers + Send + Sync + 'static, R: Wait + Copy + Send + 'static>(
    stand: &mut Stand<L, Watching<Inlet<R>>>,
    takers: Vec<Taker<L, R>>,
) -> Result<String, Fail> {
    let mut told = String::new(stand.alloc);
    for taker in takers {
        let ending = taker.inbox.ending();
        told.push_str(&format!(in stand.alloc; "{} {ending:?};", taker.taken)?)?;
        stand.subscriptions.push(taker.subscription)?;
    }
    Ok(told)
}

#[test]
fn each_of_several_threads_takes_all(rt: HostRuntime) -> Result<(), Fail> {
    let blanks = BlankPair::new(rt.alloc())?;
    let told = take_together::<Brand, _>(rt, rt.alloc(), blanks)?;
    let wanted = "50 Some(Completed);50 Some(Completed);50 Some(Completed);";
    assert!(rt; told.as_str() == wanted, "{told}");
    Ok(())
}
