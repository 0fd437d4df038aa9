//! A session: a publisher from its beginning to its end, with the threads of its sources and of its sinks.
ghost use Rattle.std.specs.Prelude.{◌≡◌, [], IfOk};
ghost use Rattle.fanout.specs.Session.{TellsAll};
ghost use Rattle.publisher.specs.Blanks.{AreBlanksOf};

use crate::doors::Doors;
use crate::fault::FanoutFault;
use crate::plan::{BATCH, SinkPlan};
use crate::progress::watch;
use crate::sink::{Sink, name_of, run_sink};
use crate::site::{Inlets, Site};
use crate::source::run_source;
use commands::Verdict;
use flow_rules::{Listener, Name, NoMemory, Refusal, Watching};
use inbox::Inbox;
use publisher::{
    BlankPair, HandedIn, Ledgers, OnFull, Outcome, Publisher, SharedLedgers, Submitter,
    Subscription,
};
use std::alloc::Global;
use std::sync::Wait;
use std::thread;
use std::thread::Threads;
use std::time::{Clock, Duration};

/// How often the publisher is tried to be closed.
const MOST_TRIES: u32 = 100;

/// Makes a publisher, has all sources read and all sinks written, and ends the publisher in any case. The two ledgers
/// name it. What is left of it tells of each sink; refused, if some sink has not ended, or memory was refused.
pub fn run_session<
    L: Ledgers + Send + Sync + 'static,
    R: Doors + Clock + Threads + Wait + Copy + Send + Sync + 'static,
>(rt: &R, site: &Site, blanks: BlankPair) -> Result<Outcome<Inlets<R>>, FanoutFault>
    requires blanks { AreBlanksOf blanks L.publications L.drops L.history }
    ensures told { IfOk result (TellsAll (λ sink. sink.told)) }
{
    let publisher: Publisher<L, Inlets<R>> = Publisher::with_options(
        *rt,
        site.alloc,
        blanks,
        site.plan.publisher,
    )?;
    let mut handed_in = HandedIn::none(site.alloc);
    let shipped = ship(rt, site, &publisher, &mut handed_in);
    let ended = end(rt, site.alloc, publisher, handed_in);
    shipped?;
    Ok(ended?)
}

/// Ends a publisher. If that is refused, what is left is dropped.
fn end<L: SharedLedgers, B: Listener + Send + 'static, R: Wait>(
    rt: &R,
    alloc: Global,
    publisher: Publisher<L, B>,
    handed_in: HandedIn<L, B>,
) -> Result<Outcome<B>, Refusal>
    ensures told { IfOk result (TellsAll B.told) }
{
    match handed_in.finish(rt, alloc, publisher) {
        Ok(outcome) => Ok(outcome),
        Err(refused) => Err(refused.into_parts().0),
    }
}

/// Subscribes the sinks, has all threads work, and hands in what goes back to the publisher.
fn ship<L: SharedLedgers, R: Doors + Clock + Threads + Wait + Copy + Send + Sync + 'static>(
    rt: &R,
    site: &Site,
    publisher: &Publisher<L, Inlets<R>>,
    handed_in: &mut HandedIn<L, Inlets<R>>,
) -> Result<(), FanoutFault> {
    let mut sinks = Vec::new(site.alloc);
    let mut hired = hire_sinks(rt, site, publisher, &mut sinks);
    if hired.is_ok() {
        hired = hire_sources(rt, site, publisher, &mut handed_in.submitters);
    }
    if hired.is_ok() {
        oversee(rt, site, publisher, &mut handed_in.submitters, &mut sinks);
    }
    hand_in(sinks, &mut handed_in.subscriptions)?;
    hired
}

/// Subscribes each sink, in order.
fn hire_sinks<L: SharedLedgers, R: Wait + Copy + Send + Sync + 'static>(
    rt: &R,
    site: &Site,
    publisher: &Publisher<L, Inlets<R>>,
    sinks: &mut Vec<Sink<L, Inlets<R>>>,
) -> Result<(), FanoutFault> {
    for (number, plan) in site.plan.sinks.iter().enumerate() {
        let (inlet, inbox) = Inbox::pair(*rt, site.alloc, BATCH)?;
        let name = name_of(site.alloc, number)?;
        let listener = Watching::new(inlet);
        let subscription = subscribe(rt, site, publisher, name, listener, on_full_of(plan))?;
        sinks.push(Sink {
            subscription,
            inbox,
        })?;
    }
    Ok(())
}

/// Subscribes a sink, which was told nothing.
fn subscribe<L: SharedLedgers, B: Listener + Send + 'static, R: Wait>(
    rt: &R,
    site: &Site,
    publisher: &Publisher<L, B>,
    name: Name,
    listener: B,
    on_full: OnFull,
) -> Result<Subscription<L, B>, Refusal>
    requires untold { B.told listener ≡ [] }
    requires unheard { B.replied listener ≡ [] }
{
    Ok(publisher.subscribe_with(rt, site.alloc, name, listener, on_full)?)
}

/// What becomes of a piece that finds the buffer of a sink full.
fn on_full_of(plan: &SinkPlan) -> OnFull {
    if plan.is_lossy {
        OnFull::Drop
    } else {
        OnFull::Wait
    }
}

/// Makes a submitter for each source, in order.
fn hire_sources<L: SharedLedgers, B: Listener + Send + 'static, R: Wait>(
    rt: &R,
    site: &Site,
    publisher: &Publisher<L, B>,
    submitters: &mut Vec<Submitter<L, B>>,
) -> Result<(), FanoutFault> {
    for _ in site.plan.sources.iter() {
        let submitter = publisher.submitter(rt, site.alloc, &mut publisher.note())?;
        submitters.push(submitter)?;
    }
    Ok(())
}

/// Hands in the subscriptions of the sinks.
fn hand_in<L: SharedLedgers, B: Listener + Send>(
    sinks: Vec<Sink<L, B>>,
    subscriptions: &mut Vec<Subscription<L, B>>,
) -> Result<(), NoMemory> {
    for sink in sinks {
        subscriptions.push(sink.subscription)?;
    }
    Ok(())
}

/// Has all threads work, and tells each second how far they are, if that is asked for.
fn oversee<
    L: SharedLedgers,
    B: Listener + Send + 'static,
    R: Doors + Clock + Threads + Wait + Sync,
>(
    rt: &R,
    site: &Site,
    publisher: &Publisher<L, B>,
    submitters: &mut [Submitter<L, B>],
    sinks: &mut [Sink<L, B>],
) {
    if !site.plan.is_watched {
        work(rt, site, publisher, submitters, sinks);
        return;
    }
    let over = Verdict::new();
    thread::join(
        rt,
        || watch(rt, site, publisher, &over),
        || {
            work(rt, site, publisher, submitters, sinks);
            over.say(rt, Ok(()));
        },
    );
}

/// Has each source read and each sink written by a thread of its own, and waits for all.
fn work<L: SharedLedgers, B: Listener + Send + 'static, R: Doors + Clock + Threads + Wait + Sync>(
    rt: &R,
    site: &Site,
    publisher: &Publisher<L, B>,
    submitters: &mut [Submitter<L, B>],
    sinks: &mut [Sink<L, B>],
) {
    thread::join(
        rt,
        || run_sources(rt, site, publisher, submitters),
        || run_sinks(rt, site, publisher, sinks),
    );
}

/// Has each source read by a thread of its own, and closes the publisher afterwards.
fn run_sources<
    L: SharedLedgers,
    B: Listener + Send + 'static,
    R: Doors + Clock + Threads + Wait + Sync,
>(rt: &R, site: &Site, publisher: &Publisher<L, B>, submitters: &mut [Submitter<L, B>]) {
    let run = |number: usize, submitter: &mut Submitter<L, B>| {
        run_source(rt, site, number, submitter)
    };
    let threads = submitters.len().max(1);
    thread::for_each_mut(rt, submitters, threads, &run);
    close(rt, site, publisher);
}

/// Has each sink written by a thread of its own. If all have failed, the publisher is closed, and no source is waited for:
/// it may stand in the middle of a read.
fn run_sinks<
    L: SharedLedgers,
    B: Listener + Send + 'static,
    R: Doors + Clock + Threads + Wait + Sync,
>(rt: &R, site: &Site, publisher: &Publisher<L, B>, sinks: &mut [Sink<L, B>]) {
    let run = |number: usize, sink: &mut Sink<L, B>| run_sink(rt, site, number, sink);
    let threads = sinks.len().max(1);
    thread::for_each_mut(rt, sinks, threads, &run);
    if !site.board.are_sources_over() {
        close(rt, site, publisher);
        site.verdict.say(rt, Ok(()));
    }
}

/// Closes the publisher, if nobody has. If memory for that is refused again and again, the program ends without it.
fn close<L: SharedLedgers, B: Listener + Send + 'static, R: Clock + Wait>(
    rt: &R,
    site: &Site,
    publisher: &Publisher<L, B>,
) {
    for _ in 0..MOST_TRIES {
        let mut note = publisher.note();
        if publisher.close(rt, site.alloc, &mut note).is_ok() {
            return;
        }
        thread::sleep(rt, Duration::from_millis(1));
    }
    site.verdict.say(rt, Err(FanoutFault::Memory));
}
