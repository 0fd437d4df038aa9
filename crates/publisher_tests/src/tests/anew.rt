//! Numbers that are given anew, and how many subscriptions may be live.
ghost use Rattle.publisher.specs.Blanks.{AreBlanksOf};

use flow_rules::{ErrorOrder, Refusal, Tally};
use publisher::{BlankPair, Ledgers, MOST_LIVE, Publisher, PublisherOptions};
use std::alloc::Global;
use std::marker::Brand;
use std::sync::Wait;
use std::test::Fail;
use std::thread;
use std::thread::Threads;
use test_stand::{Stand, name_of};

// Options with this many live subscriptions.
fn options(most_live: usize) -> PublisherOptions {
    PublisherOptions {
        workers: 1,
        capacity: 4,
        order: ErrorOrder::Overtake,
        most_live,
    }
}

// A publisher of which this many subscriptions may be live, without owners.
fn stand_of<L: Ledgers + Send + Sync + 'static, R: Threads + Wait + Copy + Send + 'static>(
    rt: R,
    alloc: Global,
    blanks: BlankPair,
    most_live: usize,
) -> Result<Stand<L, Tally>, Fail>
    requires blanks { AreBlanksOf blanks L.publications L.drops L.history }
{
    let publisher = Publisher::with_options(rt, alloc, blanks, options(most_live))?;
    Ok(Stand::of(alloc, publisher))
}

// Has this many subscribe, each under a name of its own, after so many others.
fn subscribe_some<L: Ledgers + Send + Sync + 'static, R: Wait>(
    rt: &R,
    stand: &mut Stand<L, Tally>,
    others: u32,
    many: u32,
) -> Result<(), Fail> {
    for more in 0..many {
        let number = others.saturating_add(more);
        let name = format!(in stand.alloc; "s{number}")?;
        stand.subscribe(rt, name.as_str(), Tally::new())?;
    }
    Ok(())
}

// Cancels the subscription of this place among those that are there, and reclaims it. Its number.
fn reclaim_at<L: Ledgers + Send + Sync + 'static, R: Wait>(
    rt: &R,
    stand: &mut Stand<L, Tally>,
    place: usize,
) -> Result<u32, Fail> {
    stand.cancel(rt, place)?;
    stand.wait_end(rt, place);
    Ok(stand.reclaim(rt, place)?.entry)
}

// The number of the last one that subscribed, and how many were made before it.
fn last_numbers<L: Ledgers + Send + Sync + 'static>(stand: &Stand<L, Tally>) -> Option<(u32, u64)> {
    stand
        .subscriptions
        .last()
        .map(|it| (it.entry(), it.made_before()))
}

// Whether the next subscribing is refused as one too many.
fn is_full<L: Ledgers + Send + Sync + 'static, R: Wait>(
    rt: &R,
    stand: &Stand<L, Tally>,
) -> Result<bool, Fail> {
    let name = name_of("more")?;
    match stand
        .publisher
        .subscribe(rt, stand.alloc, name, Tally::new())
    {
        Err(refused) => match refused.refusal() {
            Refusal::TooMany => Ok(true),
            _ => Ok(false),
        },
        Ok(_) => Ok(false),
    }
}

// Three subscribe, two of which are reclaimed; two get their numbers, the last reclaimed first; and one more is the
// next. After the close no number is given anew.
fn give_anew<L: Ledgers + Send + Sync + 'static, R: Threads + Wait + Copy + Send + 'static>(
    rt: R,
    alloc: Global,
    blanks: BlankPair,
) -> Result<(), Fail>
    requires blanks { AreBlanksOf blanks L.publications L.drops L.history }
{
    let mut stand: Stand<L, Tally> = stand_of(rt, alloc, blanks, 64)?;
    subscribe_some(&rt, &mut stand, 0, 3)?;
    if (
        reclaim_at(&rt, &mut stand, 0)?,
        reclaim_at(&rt, &mut stand, 0)?,
    ) != (0, 1)
    {
        return Err(Fail::new("others were reclaimed"));
    }
    for (others, number) in [(3_u32, 1_u32), (4, 0), (5, 3)] {
        subscribe_some(&rt, &mut stand, others, 1)?;
        if last_numbers(&stand) != Some((number, others as u64)) {
            return Err(Fail::new("a number is not given anew, or twice"));
        }
    }
    if reclaim_at(&rt, &mut stand, 3)? != 3 {
        return Err(Fail::new("another was reclaimed"));
    }
    stand.close(&rt)?;
    subscribe_some(&rt, &mut stand, 9, 1)?;
    if last_numbers(&stand) != Some((4, 6)) {
        return Err(Fail::new("a number is given anew after the close"));
    }
    look_at_left(&rt, stand)
}

// What is left: a lane for each but the reclaimed ones, in order of subscription and not of their numbers.
fn look_at_left<L: Ledgers + Send + Sync + 'static, R: Wait>(
    rt: &R,
    stand: Stand<L, Tally>,
) -> Result<(), Fail> {
    let outcome = match stand.finish(rt) {
        Ok(outcome) => outcome,
        Err(refused) => return Err(refused.into()),
    };
    let numbers = [(2, 2), (1, 3), (0, 4), (4, 6)];
    if (outcome.made, outcome.reclaimed) != (7, 3) || outcome.lanes.len() != numbers.len() {
        return Err(Fail::new("they are counted wrong"));
    }
    for (left, (number, made_before)) in outcome.lanes.iter().zip(numbers) {
        if (left.entry, left.made_before) != (number, made_before) || left.late != (number == 4) {
            return Err(Fail::new("a lane is another"));
        }
    }
    Ok(())
}

// As many as may be live subscribe, and one more is refused until one was reclaimed.
fn fill<L: Ledgers + Send + Sync + 'static, R: Threads + Wait + Copy + Send + 'static>(
    rt: R,
    alloc: Global,
    blanks: BlankPair,
    most_live: u32,
) -> Result<(), Fail>
    requires blanks { AreBlanksOf blanks L.publications L.drops L.history }
{
    let mut stand: Stand<L, Tally> = stand_of(rt, alloc, blanks, most_live as usize)?;
    subscribe_some(&rt, &mut stand, 0, most_live)?;
    if !is_full(&rt, &stand)? {
        return Err(Fail::new("one more is not refused"));
    }
    let number = reclaim_at(&rt, &mut stand, 0)?;
    subscribe_some(&rt, &mut stand, most_live, 1)?;
    if last_numbers(&stand) != Some((number, most_live as u64)) || !is_full(&rt, &stand)? {
        return Err(Fail::new("the number is not given anew"));
    }
    match stand.finish(&rt) {
        Ok(outcome) if outcome.made == (most_live as u64).saturating_add(1) => Ok(()),
        Ok(_) => Err(Fail::new("refused ones are counted")),
        Err(refused) => Err(refused.into()),
    }
}

#[test]
fn numbers_are_given_anew(rt: HostRuntime) -> Result<(), Fail> {
    let blanks = BlankPair::new(rt.alloc())?;
    give_anew::<Brand, _>(rt, rt.alloc(), blanks)
}

#[test]
fn one_may_be_live(rt: HostRuntime) -> Result<(), Fail> {
    let blanks = BlankPair::new(rt.alloc())?;
    fill::<Brand, _>(rt, rt.alloc(), blanks, 1)
}

#[test]
fn two_hundred_may_be_live(rt: HostRuntime) -> Result<(), Fail> {
    let blanks = BlankPair::new(rt.alloc())?;
    fill::<Brand, _>(rt, rt.alloc(), blanks, 200)
}

#[test]
fn more_than_any_publisher_may_have_are_refused(rt: HostRuntime) -> Result<(), Fail> {
    let blanks = BlankPair::new(rt.alloc())?;
    let most = MOST_LIVE.saturating_add(1);
    let refused = is_refused::<Brand, _>(rt, rt.alloc(), blanks, most)?;
    assert!(rt; refused);
    Ok(())
}

#[test]
fn as_many_as_any_publisher_may_have_are_not_refused(rt: HostRuntime) -> Result<(), Fail> {
    let blanks = BlankPair::new(rt.alloc())?;
    let refused = is_refused::<Brand, _>(rt, rt.alloc(), blanks, MOST_LIVE)?;
    assert!(rt; !refused);
    Ok(())
}

// Whether a publisher of which this many may be live is refused as one of too many.
fn is_refused<L: Ledgers + Send + Sync + 'static, R: Threads + Wait + Copy + Send + 'static>(
    rt: R,
    alloc: Global,
    blanks: BlankPair,
    most_live: usize,
) -> Result<bool, Fail>
    requires blanks { AreBlanksOf blanks L.publications L.drops L.history }
{
    match Publisher::<L, Tally>::with_options(rt, alloc, blanks, options(most_live)) {
        Ok(publisher) => {
            let stand = Stand::of(alloc, publisher);
            match stand.finish(&rt) {
                Ok(_) => Ok(false),
                Err(refused) => Err(refused.into()),
            }
        }
        Err(Refusal::TooMany) => Ok(true),
        Err(refusal) => Err(refusal.into()),
    }
}
