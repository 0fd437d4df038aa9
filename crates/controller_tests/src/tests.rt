//! A subscription that several threads share: some wait for its end and another cancels, or two request.
mod requesting;
mod waiting;

use flow_rules::{How, Tally};
use publisher::{Controller, Ledgers};
use std::sync::Wait;
use std::test::Fail;
use test_stand::Stand;

// How many items a buffer holds.
const CAPACITY: usize = 4;

// Takes the last subscription out of the stand, and shares it.
fn share<L: Ledgers + Send + Sync + 'static>(
    stand: &mut Stand<L, Tally>,
) -> Result<Controller<L, Tally>, Fail> {
    let Some(subscription) = stand.subscriptions.pop() else {
        return Err(Fail::new("there is no subscription"));
    };
    match subscription.share(stand.alloc) {
        Ok(controller) => Ok(controller),
        Err(refused) => Err(refused.into()),
    }
}

// Gives the subscription back to the stand, if this is its last controller.
fn give_back<L: Ledgers + Send + Sync + 'static>(
    stand: &mut Stand<L, Tally>,
    last: Controller<L, Tally>,
) -> Result<(), Fail> {
    match last.into_subscription() {
        Ok(subscription) => {
            stand.subscriptions.push(subscription)?;
            Ok(())
        }
        Err(_) => Err(Fail::new("another controller is there")),
    }
}

// How the only subscription of a stand ended, and how many items it was told.
fn end<L: Ledgers + Send + Sync + 'static, R: Wait>(
    rt: &R,
    stand: Stand<L, Tally>,
) -> Result<(Option<How>, u64), Fail> {
    let mut outcome = stand.end(rt);
    let Some(left) = outcome.lanes.pop() else {
        return Err(Fail::new("there is no lane"));
    };
    let ending = left.lane.ending;
    match left.into_subscriber() {
        Some(tally) => Ok((ending, tally.items())),
        None => Err(Fail::new("a turn is running")),
    }
}
