//! How a subscription stands, and who waits for its end.
ghost use Rattle.publisher.specs.Blanks.{AreBlanksOf};

use flow_rules::{DropHandler, Item, Name, Refusal, Tally};
use publisher::{BlankPair, Ledgers, Publisher, Subscription};
use std::alloc::Global;
use std::marker::Brand;
use std::sync::Wait;
use std::test::Fail;
use std::thread;
use std::thread::Threads;
use test_stand::Stand;

// How often a thread looks for a lag before it gives up.
const MOST_LOOKS: u64 = 10_000_000;

// Counts what is dropped.
#[derive(Drop)]
struct Drops(u64);

impl DropHandler for Drops {
    fn on_drop(&mut self, _: Name, _: &Item) -> bool {
        self.0 = self.0.saturating_add(1);
        false
    }
}

// What a subscription tells of itself without demand, with some, and at its end; and how many of four offers find its
// buffer full.
fn look_three_times<
    L: Ledgers + Send + Sync + 'static,
    R: Threads + Wait + Copy + Send + Sync + 'static,
>(rt: R, alloc: Global, blanks: BlankPair) -> Result<String, Fail>
    requires blanks { AreBlanksOf blanks L.publications L.drops L.history }
{
    let mut stand: Stand<L, Tally> = Stand::new(rt, alloc, blanks, 1, 4)?;
    let report = three_looks(&rt, &mut stand);
    let _ = stand.end(&rt);
    report
}

fn three_looks<L: Ledgers + Send + Sync + 'static, R: Wait>(
    rt: &R,
    stand: &mut Stand<L, Tally>,
) -> Result<String, Fail> {
    stand.subscribe(rt, "a", Tally::new())?;
    stand.submit(rt, b"x")?;
    stand.submit(rt, b"y")?;
    let mut report = look_at_each(rt, stand)?;
    stand.request(rt, 0, 1)?;
    fall(rt, stand, 0, 1);
    report.push_str(&look_at_each(rt, stand)?)?;
    let dropped = count_drops(stand, rt, 4)?;
    stand.cancel(rt, 0)?;
    stand.wait_end(rt, 0);
    report.push_str(&look_at_each(rt, stand)?)?;
    Ok(format!(in stand.alloc; "{report}dropped {dropped}")?)
}

// How many of this many offers find a full buffer.
fn count_drops<L: Ledgers + Send + Sync + 'static, R: Wait>(
    stand: &mut Stand<L, Tally>,
    rt: &R,
    offers: u32,
) -> Result<u64, Fail> {
    let mut drops = Drops(0);
    let Some(submitter) = stand.submitters.first_mut() else {
        return Err(Fail::new("there is no submitter"));
    };
    for _ in 0..offers {
        let _ = submitter.offer_with(rt, stand.alloc, b"z", &mut drops)?;
    }
    Ok(drops.0)
}

// What each subscription tells of itself, in order.
fn look_at_each<L: Ledgers + Send + Sync + 'static, R: Wait>(
    rt: &R,
    stand: &Stand<L, Tally>,
) -> Result<String, Fail> {
    let mut report = String::new(stand.alloc);
    for subscription in stand.subscriptions.iter() {
        let lag = subscription.lag(rt);
        let requested = subscription.requested();
        let has_ended = subscription.has_ended(rt);
        let told = format!(in stand.alloc; "lag {lag} of {requested}, ended {has_ended}; ")?;
        report.push_str(&told)?;
    }
    Ok(report)
}

// Waits until the lag of the subscription of this place has fallen so far, but not for ever.
fn fall<L: Ledgers + Send + Sync + 'static, R: Wait>(
    rt: &R,
    stand: &Stand<L, Tally>,
    place: usize,
    lag: u64,
) {
    let Some(subscription) = stand.subscriptions.get(place) else {
        return;
    };
    for _ in 0..MOST_LOOKS {
        if subscription.lag(rt) <= lag {
            return;
        }
        thread::yield_now();
    }
}

#[test]
fn a_subscription_tells_how_it_stands(rt: HostRuntime) -> Result<(), Fail> {
    let blanks = BlankPair::new(rt.alloc())?;
    let told = look_three_times::<Brand, _>(rt, rt.alloc(), blanks)?;
    let wanted =
        "lag 2 of 0, ended false; lag 1 of 1, ended false; lag 0 of 1, ended true; dropped 1";
    assert!(rt; told.as_str() == wanted, "{told}");
    Ok(())
}

// What two subscriptions tell of themselves while one was given more than the other, and once it has ended.
fn look_at_two<
    L: Ledgers + Send + Sync + 'static,
    R: Threads + Wait + Copy + Send + Sync + 'static,
>(rt: R, alloc: Global, blanks: BlankPair) -> Result<String, Fail>
    requires blanks { AreBlanksOf blanks L.publications L.drops L.history }
{
    let mut stand: Stand<L, Tally> = Stand::new(rt, alloc, blanks, 1, 4)?;
    let report = looks_at_two(&rt, &mut stand);
    let _ = stand.end(&rt);
    report
}

fn looks_at_two<L: Ledgers + Send + Sync + 'static, R: Wait>(
    rt: &R,
    stand: &mut Stand<L, Tally>,
) -> Result<String, Fail> {
    stand.subscribe(rt, "a", Tally::new())?;
    stand.subscribe(rt, "b", Tally::new())?;
    stand.request(rt, 1, 1)?;
    stand.submit(rt, b"x")?;
    stand.submit(rt, b"y")?;
    fall(rt, stand, 1, 1);
    let mut report = look_at_each(rt, stand)?;
    stand.cancel(rt, 1)?;
    stand.wait_end(rt, 1);
    report.push_str(&look_at_each(rt, stand)?)?;
    Ok(report)
}

#[test]
fn each_subscription_tells_how_it_stands_itself(rt: HostRuntime) -> Result<(), Fail> {
    let blanks = BlankPair::new(rt.alloc())?;
    let told = look_at_two::<Brand, _>(rt, rt.alloc(), blanks)?;
    let wanted =
        "lag 2 of 0, ended false; lag 1 of 1, ended false; lag 2 of 0, ended false; lag 0 of 1, ended true; ";
    assert!(rt; told.as_str() == wanted, "{told}");
    Ok(())
}

// Whether two subscriptions have ended once a thread has waited for the end of one, and another thread for the end of
// all, while a third one closes, and requests for the one that waits for demand.
fn wait_for_ends<
    L: Ledgers + Send + Sync + 'static,
    R: Threads + Wait + Copy + Send + Sync + 'static,
>(rt: R, alloc: Global, blanks: BlankPair) -> Result<bool, Fail>
    requires blanks { AreBlanksOf blanks L.publications L.drops L.history }
{
    let mut stand: Stand<L, Tally> = Stand::new(rt, alloc, blanks, 1, 4)?;
    let have_ended = have_two_ended(&rt, &mut stand);
    let _ = stand.end(&rt);
    have_ended
}

fn have_two_ended<L: Ledgers + Send + Sync + 'static, R: Threads + Wait + Sync>(
    rt: &R,
    stand: &mut Stand<L, Tally>,
) -> Result<bool, Fail> {
    stand.subscribe(rt, "a", Tally::new())?;
    stand.subscribe(rt, "b", Tally::new())?;
    stand.request(rt, 0, 1)?;
    stand.submit(rt, b"x")?;
    let [one, other] = stand.subscriptions.as_mut_slice() else {
        return Err(Fail::new("there are no two subscriptions"));
    };
    wait_and_close(rt, stand.alloc, &stand.publisher, one, other)?;
    Ok(one.has_ended(rt) && other.has_ended(rt))
}

fn wait_and_close<L: Ledgers + Send + Sync + 'static, R: Threads + Wait + Sync>(
    rt: &R,
    alloc: Global,
    publisher: &Publisher<L, Tally>,
    one: &mut Subscription<L, Tally>,
    other: &mut Subscription<L, Tally>,
) -> Result<(), Refusal> {
    let ((), closed) = thread::join(
        rt,
        || wait_end(rt, one),
        || drain_and_close(rt, alloc, publisher, other),
    );
    closed
}

fn wait_end<L: Ledgers + Send + Sync + 'static, R: Wait>(
    rt: &R,
    subscription: &mut Subscription<L, Tally>,
) {
    subscription.wait_end(rt);
}

// One thread waits until all have ended, and another one closes.
fn drain_and_close<L: Ledgers + Send + Sync + 'static, R: Threads + Wait + Sync>(
    rt: &R,
    alloc: Global,
    publisher: &Publisher<L, Tally>,
    other: &mut Subscription<L, Tally>,
) -> Result<(), Refusal> {
    let ((), closed) = thread::join(
        rt,
        || publisher.wait_drained(rt),
        || close(rt, alloc, publisher, other),
    );
    closed
}

// Closes, and then requests for the subscriber that waits for demand.
fn close<L: Ledgers + Send + Sync + 'static, R: Wait>(
    rt: &R,
    alloc: Global,
    publisher: &Publisher<L, Tally>,
    waiting: &mut Subscription<L, Tally>,
) -> Result<(), Refusal> {
    let mut note = publisher.note();
    publisher.close(rt, alloc, &mut note)?;
    waiting.request(rt, 1)?;
    Ok(())
}

#[test]
fn those_who_wait_for_an_end_are_woken(rt: HostRuntime) -> Result<(), Fail> {
    for round in 0..100 {
        let blanks = BlankPair::new(rt.alloc())?;
        let have_ended = wait_for_ends::<Brand, _>(rt, rt.alloc(), blanks)?;
        assert!(rt; have_ended, "one goes on in round {round}");
    }
    Ok(())
}
