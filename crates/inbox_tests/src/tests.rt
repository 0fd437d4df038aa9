//! Tests of the public calls, one subject a file: what no clause can say.
mod closures;
mod ends;
mod errors;
mod pulling;
mod queues;
mod refusing;
mod telling;
mod trying;
mod waiting;

use flow_rules::Watching;
use inbox::{Inbox, Inlet};
use publisher::{Ledgers, Subscription};
use std::sync::Wait;
use std::test::Fail;
use test_stand::Stand;

// Subscribes an inbox that requests this many items in advance.
fn add_inbox<L: Ledgers + Send + Sync + 'static, R: Wait + Copy + Send + 'static>(
    rt: &R,
    stand: &mut Stand<L, Watching<Inlet<R>>>,
    name: &str,
    batch: u32,
) -> Result<Inbox, Fail> {
    let (inlet, inbox) = Inbox::pair(*rt, stand.alloc, batch)?;
    stand.subscribe(rt, name, Watching::new(inlet))?;
    Ok(inbox)
}

// Takes the last subscription out of a stand. It goes back by `subscriptions`.
fn last_of<L: Ledgers + Send + Sync + 'static, R: Wait + Copy + Send + 'static>(
    stand: &mut Stand<L, Watching<Inlet<R>>>,
) -> Result<Subscription<L, Watching<Inlet<R>>>, Fail> {
    match stand.subscriptions.pop() {
        Some(subscription) => Ok(subscription),
        None => Err(Fail::new("there is no subscription")),
    }
}

// Takes the next item of the subscription of this place, if there is one; whether there was.
fn take_one<L: Ledgers + Send + Sync + 'static, R: Wait + Copy + Send + 'static>(
    rt: &R,
    stand: &mut Stand<L, Watching<Inlet<R>>>,
    place: usize,
    inbox: &mut Inbox,
) -> Result<bool, Fail> {
    match stand.subscriptions.get_mut(place) {
        Some(subscription) => Ok(inbox.next(rt, subscription)?.is_some()),
        None => Err(Fail::new("there is no subscription")),
    }
}

// Cancels the subscription of this place by its inbox.
fn cancel<L: Ledgers + Send + Sync + 'static, R: Wait + Copy + Send + 'static>(
    rt: &R,
    stand: &mut Stand<L, Watching<Inlet<R>>>,
    place: usize,
    inbox: &mut Inbox,
) -> Result<(), Fail> {
    match stand.subscriptions.get_mut(place) {
        Some(subscription) => Ok(inbox.cancel(rt, subscription)?),
        None => Err(Fail::new("there is no subscription")),
    }
}
