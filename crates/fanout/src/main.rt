//! Ships lines from sources to any number of sinks, in constant memory. Each sink is a subscription: one that waits gets
//! every line, and one that is lossy loses whole lines if its reader is slow, and stops nobody.
#![tactic(auto)]

mod arguments;
mod board;
mod cause;
mod clash;
mod doors;
mod fault;
mod filter;
mod intake;
mod limit;
mod lines;
mod notice;
mod options;
mod page;
mod pen;
mod piece;
mod plan;
mod policy;
mod progress;
mod report;
mod session;
mod sink;
mod site;
mod source;
mod strand;
mod strands;
mod tap;

use arguments::all_words;
use board::Board;
use clap::error::ErrorKind;
use clash::find_clash;
use commands::{FAULT, Verdict, WRONG_USE};
use doors::Doors;
use fault::{EndFault, FanoutFault};
use notice::{say, say_given_up};
use options::{WrongPlan, command_line, read_plan};
use plan::{Format, Plan};
use publisher::BlankPair;
use report::report;
use session::run_session;
use site::Site;
use std::fmt::Display;
use std::marker::Brand;
use std::process::ExitCode;
use std::rt::Env;
use std::sync::{Arc, Wait};
use std::thread;
use std::thread::Threads;
use std::time::{Clock, Duration};

/// The exit status if a sink failed.
const SINK_FAULT: u8 = 3;

/// How many seconds the threads of sources and sinks may take to start.
const PATIENCE: u64 = 10;

/// How many milliseconds a source may take, at the end, to hear that nothing more is published.
const MOST_PUBLISHING: u32 = 5000;

fn main(rt: HostRuntime) -> ExitCode {
    match run(rt) {
        Ok(status) => ExitCode::from(status),
        Err(fault) => ExitCode::from(fail(&rt, fault, FAULT)),
    }
}

/// Does what the command line asks for, and tells the exit status.
fn run<
    R: Print
        + Eprint
        + Env
        + Doors
        + Clock
        + AllocGlobal
        + Threads
        + Wait
        + Copy
        + Send
        + Sync
        + 'static,
>(rt: R) -> Result<u8, FanoutFault> {
    rt.open_standard();
    let (words, spelling) = all_words(&rt)?;
    let command = command_line(rt.alloc())?;
    let error = match command.try_get_matches_from(words.as_slice()) {
        Ok(matches) => match read_plan(rt.alloc(), &matches, spelling) {
            Ok(plan) => return start_checked(rt, plan),
            Err(WrongPlan::Memory) => return Err(FanoutFault::Memory),
            Err(wrong) => return Ok(fail(&rt, wrong.explain(), WRONG_USE)),
        },
        Err(error) => error,
    };
    if error.kind() == ErrorKind::OutOfMemory {
        return Err(FanoutFault::Memory);
    }
    let _ = error.print(&rt);
    if error.use_stderr() {
        Ok(WRONG_USE)
    } else {
        Ok(0)
    }
}

/// Starts the session, unless one file has two names.
fn start_checked<
    R: Eprint + Doors + Clock + AllocGlobal + Threads + Wait + Copy + Send + Sync + 'static,
>(rt: R, plan: Plan) -> Result<u8, FanoutFault> {
    if let Some(clash) = find_clash(&rt, rt.alloc(), &plan)? {
        return Ok(fail(&rt, clash, WRONG_USE));
    }
    start(rt, plan)
}

/// Has a thread of its own hold the session, waits until that has ended, or need not be waited for, and reports.
fn start<R: Doors + Clock + AllocGlobal + Threads + Wait + Copy + Send + Sync + 'static>(
    rt: R,
    plan: Plan,
) -> Result<u8, FanoutFault> {
    let alloc = rt.alloc();
    let limit = rt.limit();
    let board = Board::new(alloc, plan.sources.len(), plan.sinks.len(), plan.room())?;
    let site = Site {
        alloc,
        plan: Arc::new(alloc, plan)?,
        board: Arc::new(alloc, board)?,
        limit,
        verdict: Arc::new(alloc, Verdict::new())?,
    };
    let theirs = Site {
        alloc,
        plan: Arc::try_clone(&site.plan)?,
        board: Arc::try_clone(&site.board)?,
        limit,
        verdict: Arc::try_clone(&site.verdict)?,
    };
    let session = move || {
        let ended = hold(&rt, &theirs);
        theirs.verdict.say(&rt, ended);
    };
    if thread::spawn(&rt, session).is_err() {
        return Err(FanoutFault::Memory);
    }
    let ended = wait(&rt, &site);
    site.board.close(&rt);
    settle(&rt, &site);
    if ended.is_ok() {
        give_up(&rt, &site);
    }
    let is_told = tell(&rt, &site)?;
    ended?;
    Ok(if is_told {
        status_of(&rt, &site)
    } else {
        FAULT
    })
}

/// Holds the session, on a publisher of its own.
fn hold<R: Doors + Clock + Threads + Wait + Copy + Send + Sync + 'static>(
    rt: &R,
    site: &Site,
) -> Result<(), FanoutFault> {
    let _left = run_session::<Brand, R>(rt, site, BlankPair::new(site.alloc)?)?;
    Ok(())
}

/// Waits until the session has ended, or only lossy sinks are left that are stuck. A thread that can't be started is as
/// memory that is refused.
fn wait<R: Clock + Wait>(rt: &R, site: &Site) -> Result<(), FanoutFault> {
    let mut begun = 0_u64;
    let mut stuck = 0_u64;
    for _ in rt.forever() {
        if let Some(ended) = site.verdict.wait_a_second(rt) {
            return ended;
        }
        begun = count_if(!site.board.have_all_begun(), begun);
        if begun > PATIENCE {
            return Err(FanoutFault::Memory);
        }
        stuck = count_if(are_others_over(&site.plan, &site.board), stuck);
        if stuck > site.plan.linger {
            return Ok(());
        }
    }
    unreachable!()
}

/// Says of each sink that has not ended, at the end, that it is given up.
fn give_up<R: Doors + Clock + Wait>(rt: &R, site: &Site) {
    for (sink, count) in site.plan.sinks.iter().zip(site.board.sinks.iter()) {
        if !count.has_ended() {
            say_given_up(rt, site, sink.path.as_slice());
        }
    }
}

/// Waits until no source publishes what it has counted. If all sinks have ended, no source does for long: each call is
/// refused. A source that reads isn't waited for.
fn settle<R: Clock>(rt: &R, site: &Site) {
    for _ in 0..MOST_PUBLISHING {
        if !site.board.is_publishing() {
            return;
        }
        thread::sleep(rt, Duration::from_millis(1));
    }
}

/// Counts for how many seconds a condition has held.
fn count_if(is_so: bool, seconds: u64) -> u64 {
    if is_so { seconds.saturating_add(1) } else { 0 }
}

/// Whether all sources have ended, and all sinks but lossy ones.
fn are_others_over(plan: &Plan, board: &Board) -> bool {
    board.are_sources_over()
        && plan
            .sinks
            .iter()
            .zip(board.sinks.iter())
            .all(|(sink, count)| sink.is_lossy || count.has_ended())
}

/// Writes the report on standard error, and tells whether that could be done.
fn tell<R: Doors + Clock + Wait>(rt: &R, site: &Site) -> Result<bool, FanoutFault> {
    if site.plan.format == Format::None {
        return Ok(true);
    }
    let text = report(rt, site.alloc, &site.plan, &site.board)?;
    Ok(say(rt, site.limit, text.as_str()).is_ok())
}

/// The exit status of a session that has ended, or whose sinks have.
fn status_of<R: Wait>(rt: &R, site: &Site) -> u8 {
    let board = &site.board;
    let is_source_faulty = board.sources.iter().any(|source| !matches!(
        source.fault(rt),
        None | Some(EndFault::Stopped)
    ));
    if is_source_faulty {
        return FAULT;
    }
    let is_sink_faulty = board
        .sinks
        .iter()
        .any(|sink| !sink.has_ended() || sink.fault(rt).is_some());
    if is_sink_faulty { SINK_FAULT } else { 0 }
}

/// Says why the program stops.
fn fail<R: Eprint, D: Display + Drop>(rt: &R, fault: D, status: u8) -> u8 {
    let _ = eprintln!(rt; "fanout: {fault}");
    status
}
