//! Prints the nanoseconds in which a publisher gives items to its subscribers. `deliveries_bench fast WORKERS SUBMITTERS SUBSCRIBERS
//! CAPACITY BYTES ITEMS [BATCH]` measures subscribers that count, with the items of all submitters, each published by `submit`, or BATCH of
//! them by one `submit_all`. `deliveries_bench slow WORKERS` measures two subscribers that sleep, and prints the nanoseconds of the longest
//! call of `number_of_subscribers`, too. `deliveries_bench alone WORKERS ITEMS PAUSE` measures one subscriber at rest, who is told one item at
//! a time, with a pause of this many microseconds before each. `deliveries_bench left RECLAIMED WORKERS ..` measures as `fast` does, after
//! this many subscriptions came, ended and were reclaimed, and prints the nanoseconds until all subscribers were told all, those of `finish`
//! after that, and those of a `reclaim` before.
#![tactic(auto)]

mod alone;
mod bell;
mod ends;
mod fast;
mod left;
mod reclaiming;
mod sleeper;
mod slow;

use alone::measure_alone;
use fast::{Plan, measure_fast};
use left::{Spent, measure_left};
use publisher::BlankPair;
use slow::measure_slow;
use std::alloc::Global;
use std::marker::Brand;
use std::sync::Wait;
use std::thread::Threads;
use std::time::Clock;
use std::{env, io};

/// Measures subscribers that count, on a publisher with new ledgers.
fn fast_run<R: Threads + Wait + Clock + Copy + Send + Sync + 'static>(
    rt: R,
    alloc: Global,
    plan: &Plan,
) -> Option<u128> {
    measure_fast::<Brand, R>(rt, alloc, plan, BlankPair::new(alloc).ok()?)
}

/// Measures subscribers that count after others were reclaimed, on a publisher with new ledgers.
fn left_run<R: Threads + Wait + Clock + Copy + Send + Sync + 'static>(
    rt: R,
    alloc: Global,
    plan: &Plan,
) -> Option<Spent> {
    measure_left::<Brand, R>(rt, alloc, plan, BlankPair::new(alloc).ok()?)
}

/// Measures subscribers that sleep, on a publisher with new ledgers.
fn slow_run<R: Threads + Wait + Clock + Copy + Send + Sync + 'static>(
    rt: R,
    alloc: Global,
    workers: usize,
) -> Option<(u128, u128)> {
    measure_slow::<Brand, R>(rt, alloc, workers, BlankPair::new(alloc).ok()?)
}

/// Measures one subscriber at rest, on a publisher with new ledgers.
fn alone_run<R: Threads + Wait + Clock + Copy + Send + Sync + 'static>(
    rt: R,
    alloc: Global,
    workers: usize,
    items: usize,
    pause: usize,
) -> Option<u128> {
    let blanks = BlankPair::new(alloc).ok()?;
    measure_alone::<Brand, R>(rt, alloc, workers, items, pause as u64, blanks)
}

/// What is measured.
#[derive(Clone, Copy)]
enum Kind {
    Fast,
    Left,
    Slow,
    Alone,
}

/// Reads the first word of the command line; a missing one is `fast`.
fn read_kind(word: Option<String>) -> Kind {
    match word {
        Some(word) if word.as_str() == "left" => Kind::Left,
        Some(word) if word.as_str() == "slow" => Kind::Slow,
        Some(word) if word.as_str() == "alone" => Kind::Alone,
        _ => Kind::Fast,
    }
}

/// Reads a word of the command line. A missing word, or one that is no number, is 0.
fn number(text: Option<String>) -> usize {
    text.and_then(|text| text.as_str().parse::<usize>().ok())
        .unwrap_or(0)
}

/// Measures what this kind is, and prints it. A run that failed prints nothing.
fn print_times<R: Threads + Wait + Clock + Print + Copy + Send + Sync + 'static>(
    rt: R,
    alloc: Global,
    kind: Kind,
    plan: &Plan,
) -> io::Result<()> {
    match kind {
        Kind::Fast => {
            if let Some(spent) = fast_run(rt, alloc, plan) {
                println!(rt; "{spent}")?;
            }
        }
        Kind::Left => {
            if let Some(
                Spent {
                    told,
                    finish,
                    reclaim,
                },
            ) = left_run(rt, alloc, plan)
            {
                println!(rt; "{told} {finish} {reclaim}")?;
            }
        }
        Kind::Slow => {
            if let Some((spent, longest)) = slow_run(rt, alloc, plan.workers) {
                println!(rt; "{spent} {longest}")?;
            }
        }
        Kind::Alone => {
            let (items, pause) = (plan.submitters, plan.subscribers);
            if let Some(spent) = alone_run(rt, alloc, plan.workers, items, pause) {
                println!(rt; "{spent}")?;
            }
        }
    }
    Ok(())
}

fn main(rt: HostRuntime) -> io::Result<()> {
    let mut words = env::args(&rt)?.skip(1);
    let kind = read_kind(words.next());
    let reclaimed = match kind {
        Kind::Left => number(words.next()),
        _ => 0,
    };
    let plan = Plan {
        reclaimed,
        workers: number(words.next()),
        submitters: number(words.next()),
        subscribers: number(words.next()),
        capacity: number(words.next()),
        bytes: number(words.next()),
        items: number(words.next()),
        batch: number(words.next()),
    };
    print_times(rt, rt.alloc(), kind, &plan)
}
