//! Days at a publisher: what happens behind the lock, and what is left at the end. A day that goes another way than it
//! should says its name, the first step or line that differs, what was wanted and what was found.
mod act;
mod batches;
mod closing;
mod controlled;
mod day;
mod dropping;
mod ending;
mod heard;
mod late;
mod left;
mod limits;
mod missing;
mod player;
mod policy;
mod races;
mod reclaiming;
mod refused;
mod step;
mod told;
mod waiting;
mod waking;

use day::{Day, RefusedDay};
use flow_rules::ErrorOrder;
use player::play;
use publisher::{BlankPair, PublisherOptions, USUAL_LIVE};
use refused::sharing;
use std::alloc::Global;
use std::marker::Brand;
use std::process::Abort;
use std::sync::Wait;
use std::test::Fail;
use std::thread::Threads;
use std::time::{Clock, Instant};
use told::Told;

// How a day goes that is played at a publisher of its own.
fn played<R: Clock + Threads + Wait + Copy + Send + 'static>(
    rt: R,
    alloc: Global,
    workers: usize,
    order: ErrorOrder,
    round: u64,
    day: &Day,
) -> Result<Told, Fail> {
    let options = PublisherOptions {
        workers,
        capacity: day.capacity,
        order,
        most_live: USUAL_LIVE,
    };
    let blanks = BlankPair::new(alloc)?;
    play::<Brand, R>(rt, alloc, blanks, options, round, day)
}

// Plays a day, and compares how it went with what it says.
fn compare<R: Abort + Clock + Threads + Wait + Copy + Send + 'static>(
    rt: R,
    alloc: Global,
    workers: usize,
    order: ErrorOrder,
    round: u64,
    day: &Day,
) -> Result<(), Fail> {
    let told = played(rt, alloc, workers, order, round, day)?;
    if let Some(difference) = told.difference(alloc, day)? {
        let name = day.name;
        assert!(rt;
            false,
            "{name}: {workers} workers, round {round}, {difference}"
        );
    }
    Ok(())
}

// Plays each day with one worker and with two.
fn compare_all<R: Abort + Clock + Threads + Wait + Copy + Send + 'static>(
    rt: R,
    alloc: Global,
    order: ErrorOrder,
    days: &[Day],
) -> Result<(), Fail> {
    for day in days {
        compare(rt, alloc, 1, order, 0, day)?;
        compare(rt, alloc, 2, order, 0, day)?;
    }
    Ok(())
}

#[test]
fn a_close_ends_what_it_should(rt: HostRuntime) -> Result<(), Fail> {
    compare_all(rt, rt.alloc(), ErrorOrder::Overtake, &closing::DAYS)
}

#[test]
fn what_is_not_handed_in_is_named(rt: HostRuntime) -> Result<(), Fail> {
    compare_all(rt, rt.alloc(), ErrorOrder::Overtake, &missing::DAYS)
}

#[test]
fn each_drop_is_counted_and_its_handler_asked(rt: HostRuntime) -> Result<(), Fail> {
    compare_all(rt, rt.alloc(), ErrorOrder::Overtake, &dropping::DAYS)
}

#[test]
fn those_at_rest_are_woken(rt: HostRuntime) -> Result<(), Fail> {
    compare_all(rt, rt.alloc(), ErrorOrder::Overtake, &waking::DAYS)
}

#[test]
fn those_that_say_so_are_waited_for(rt: HostRuntime) -> Result<(), Fail> {
    compare_all(rt, rt.alloc(), ErrorOrder::Overtake, &policy::DAYS)
}

#[test]
fn a_batch_is_published_by_policy(rt: HostRuntime) -> Result<(), Fail> {
    compare_all(rt, rt.alloc(), ErrorOrder::Overtake, &batches::DAYS)
}

#[test]
fn submitters_that_wait_are_woken(rt: HostRuntime) -> Result<(), Fail> {
    compare_all(rt, rt.alloc(), ErrorOrder::Overtake, &waiting::DAYS)
}

#[test]
fn those_that_ended_are_reclaimed(rt: HostRuntime) -> Result<(), Fail> {
    compare_all(rt, rt.alloc(), ErrorOrder::Overtake, &reclaiming::DAYS)
}

#[test]
fn controllers_share_a_subscription(rt: HostRuntime) -> Result<(), Fail> {
    compare_all(rt, rt.alloc(), ErrorOrder::Overtake, &controlled::DAYS)
}

#[test]
fn one_ends_and_the_others_go_on(rt: HostRuntime) -> Result<(), Fail> {
    compare_all(rt, rt.alloc(), ErrorOrder::Overtake, &ending::DAYS)
}

#[test]
fn texts_and_capacities_have_limits(rt: HostRuntime) -> Result<(), Fail> {
    compare_all(rt, rt.alloc(), ErrorOrder::Overtake, &limits::DAYS)
}

#[test]
fn a_late_error_waits_for_the_items(rt: HostRuntime) -> Result<(), Fail> {
    compare_all(rt, rt.alloc(), ErrorOrder::AfterItems, &late::DAYS)
}

// How often a race is run, if there is time for that, and how many seconds there are.
const ROUNDS: u64 = 100;

const TIME: u64 = 15;

#[test]
fn no_race_leaves_anybody_asleep(rt: HostRuntime) -> Result<(), Fail> {
    let start = Instant::now(&rt)?;
    for round in 0..ROUNDS {
        if start.elapsed(&rt)?.as_secs() >= TIME {
            break;
        }
        for day in &races::DAYS {
            compare(rt, rt.alloc(), 2, ErrorOrder::Overtake, round, day)?;
        }
    }
    Ok(())
}

// Plays each day, on which memory may be refused, with one worker.
fn play_refused<R: Abort + Clock + Threads + Wait + Copy + Send + 'static>(
    rt: R,
    alloc: Global,
    days: &[RefusedDay],
) -> Result<(), Fail> {
    for refused in days {
        let told = played(rt, alloc, 1, ErrorOrder::Overtake, 0, &refused.day)?;
        if !told.is_of(refused) {
            let name = refused.day.name;
            let difference = told.difference(alloc, &refused.day)?;
            assert!(rt; false, "{name}: {difference:?}");
        }
    }
    Ok(())
}

// Run from outside, too, with each request for memory refused in turn: a call that is refused changes nothing, and
// leaves no ticket behind, which would keep the count open; a subscriber whose callback is refused is told no more, and
// no other; and what was to be shared or made anew goes on. If the end itself is refused, nothing is left.
#[test]
fn a_refusal_changes_nothing_else(rt: HostRuntime) -> Result<(), Fail> {
    play_refused(rt, rt.alloc(), &refused::DAYS)?;
    play_refused(rt, rt.alloc(), &sharing::DAYS)
}
