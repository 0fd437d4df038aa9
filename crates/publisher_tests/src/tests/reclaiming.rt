//! Subscriptions that are told ten items each, end in one way after the other, and are reclaimed. Later ones get their
//! numbers.
ghost use Rattle.std.specs.Prelude.{◌≡◌};
ghost use Rattle.flow_rules.specs.Callback.{heard_nothing};
ghost use Rattle.publisher.specs.Blanks.{AreBlanksOf};

use flow_rules::{Answer, Fault, How, Refusal};
use publisher::{BlankPair, Ledgers, NamedLane, Submitter, Subscription};
use std::alloc::Global;
use std::marker::Brand;
use std::sync::Wait;
use std::test::Fail;
use std::thread::Threads;
use std::{env, thread};
use test_kit::Answering;
use test_stand::Stand;

// How many subscriptions are live at a time.
const LIVE: u32 = 64;

// How many items each of two submitters publishes to them.
const ITEMS: u64 = 5;

// How many items each subscription is told.
const TOLD: u64 = 2 * ITEMS;

// The listener of the subscription of this number, whichever had it before. Three of five have it end at the last item.
fn listener(number: u32) -> Answering
    ensures { result ≡ heard_nothing }
{
    let answer = match number % 5 {
        0 => Answer::Cancel,
        1 => Answer::Fail(7),
        2 => Answer::Request(0),
        _ => Answer::Go,
    };
    Answering::after(TOLD as u32, answer)
}

// How it ends. The owner cancels the fourth of five, and requests a wrong number with the fifth.
fn ending(number: u32) -> How {
    match number % 5 {
        0 | 3 => How::Cancelled,
        1 => How::Failed(7),
        _ => How::Errored(Fault::IllegalArgument),
    }
}

// Has this many rounds of subscriptions come and go. How many there were.
fn come_and_go<
    L: Ledgers + Send + Sync + 'static,
    R: Threads + Wait + Copy + Send + Sync + 'static,
>(rt: R, alloc: Global, blanks: BlankPair, rounds: u32) -> Result<u64, Fail>
    requires blanks { AreBlanksOf blanks L.publications L.drops L.history }
{
    let mut stand: Stand<L, Answering> = Stand::new(rt, alloc, blanks, 2, 16)?;
    stand.add_submitter(&rt)?;
    for round in 0..rounds {
        subscribe_all(&rt, &mut stand)?;
        publish_all(&rt, &mut stand)?;
        end_all(&rt, &mut stand)?;
        reclaim_all(&rt, &mut stand, round as u64)?;
    }
    count_reclaimed(&rt, stand)
}

// Has as many subscribe as may be live, each of which requests what it is told. They have the same numbers in each
// round, since the ones before them were reclaimed from the last on.
fn subscribe_all<L: Ledgers + Send + Sync + 'static, R: Wait>(
    rt: &R,
    stand: &mut Stand<L, Answering>,
) -> Result<(), Fail> {
    for number in 0..LIVE {
        let name = format!(in stand.alloc; "s{number}")?;
        stand.subscribe(rt, name.as_str(), listener(number))?;
        stand.request(rt, number as usize, TOLD as i64)?;
        match stand.subscriptions.last() {
            Some(subscription) if subscription.entry() == number => (),
            _ => return Err(Fail::new("it has another number")),
        }
    }
    Ok(())
}

// Two threads publish at the same time.
fn publish_all<L: Ledgers + Send + Sync + 'static, R: Threads + Wait + Sync>(
    rt: &R,
    stand: &mut Stand<L, Answering>,
) -> Result<(), Fail> {
    let alloc = stand.alloc;
    let (Some(mut other), Some(submitter)) = (stand.submitters.pop(), stand.submitters.first_mut())
    else {
        return Err(Fail::new("there are no two submitters"));
    };
    let (one, two) = thread::join(
        rt,
        || publish(rt, alloc, submitter),
        || publish(rt, alloc, &mut other),
    );
    stand.submitters.push(other)?;
    one?;
    two?;
    Ok(())
}

fn publish<L: Ledgers + Send + Sync + 'static, R: Wait>(
    rt: &R,
    alloc: Global,
    submitter: &mut Submitter<L, Answering>,
) -> Result<(), Refusal> {
    for _ in 0..ITEMS {
        let _ = submitter.submit(rt, alloc, b"an item")?;
    }
    Ok(())
}

// Ends those that have not ended by their last item, once they were given it, and waits for all ends.
fn end_all<L: Ledgers + Send + Sync + 'static, R: Wait>(
    rt: &R,
    stand: &mut Stand<L, Answering>,
) -> Result<(), Fail> {
    for subscription in stand.subscriptions.iter_mut() {
        wait_given(rt, subscription);
        match subscription.entry() % 5 {
            3 => subscription.cancel(rt)?,
            4 => subscription.request(rt, 0)?,
            _ => (),
        }
        subscription.wait_end(rt);
    }
    Ok(())
}

fn wait_given<L: Ledgers + Send + Sync + 'static, R: Wait>(
    rt: &R,
    subscription: &Subscription<L, Answering>,
) {
    for _ in rt.forever() {
        if subscription.lag(rt) == 0 {
            return;
        }
        thread::yield_now();
    }
}

// Reclaims all, from the last on, and looks at what is left of each, and how many there were then.
fn reclaim_all<L: Ledgers + Send + Sync + 'static, R: Wait>(
    rt: &R,
    stand: &mut Stand<L, Answering>,
    round: u64,
) -> Result<(), Fail> {
    for _ in 0..LIVE {
        let Some(last) = stand.subscriptions.last() else {
            break;
        };
        let entry = last.entry();
        let place = stand.subscriptions.len() - 1;
        let left = stand.reclaim(rt, place)?;
        if left.entry != entry || !is_right(&left, round) {
            return Err(Fail::new("what is left is not that of the subscription"));
        }
    }
    let many = round.saturating_add(1).saturating_mul(LIVE as u64);
    let stats = stand.publisher.stats(rt, stand.alloc)?;
    if stats.made != many || stats.reclaimed != many {
        return Err(Fail::new("stats count others"));
    }
    Ok(())
}

// Whether it took part in all items of its round and in no other, was given each, and ended as it should.
fn is_right(left: &NamedLane<Answering>, round: u64) -> bool {
    let lane = &left.lane;
    left.since == round.saturating_mul(TOLD)
        && left.dropped == 0
        && !left.late
        && lane.accepted == TOLD
        && lane.given == TOLD
        && lane.asked >= TOLD
        && lane.ending == Some(ending(left.entry))
        && !lane.running
        && lane.subscriber.is_some()
}

// Closes the publisher, which has no lane left and whose last ticket is spent, and counts the subscriptions that were
// reclaimed.
fn count_reclaimed<L: Ledgers + Send + Sync + 'static, R: Wait>(
    rt: &R,
    stand: Stand<L, Answering>,
) -> Result<u64, Fail> {
    stand.close(rt)?;
    let outcome = match stand.finish(rt) {
        Ok(outcome) => outcome,
        Err(refused) => return Err(refused.into()),
    };
    if !outcome.lanes.is_empty() || !outcome.drained {
        return Err(Fail::new("a lane or a ticket is left"));
    }
    if outcome.made != outcome.reclaimed {
        return Err(Fail::new("one is lost"));
    }
    Ok(outcome.reclaimed)
}

// How many rounds a run from outside asks for, which compares what memory they take.
fn rounds_of(rt: &HostRuntime) -> u32 {
    let asked = env::var(rt, "ROUNDS").ok();
    asked
        .and_then(|text| text.as_str().parse::<u32>().ok())
        .unwrap_or(16)
}

#[test]
fn a_thousand_are_reclaimed(rt: HostRuntime) -> Result<(), Fail> {
    let rounds = rounds_of(&rt);
    let blanks = BlankPair::new(rt.alloc())?;
    let many = come_and_go::<Brand, _>(rt, rt.alloc(), blanks, rounds)?;
    assert!(rt;
        many == (rounds as u64).saturating_mul(LIVE as u64),
        "{many} in {rounds} rounds"
    );
    Ok(())
}
