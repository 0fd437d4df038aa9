//! A session: a publisher from its beginning to its end, and the terminal that drives it.
ghost use Rattle.std.specs.Prelude.{◌≡◌};
ghost use Rattle.publisher.specs.Blanks.{AreBlanksOf};

use crate::echo::Echoes;
use crate::fault::ConsoleFault;
use crate::input::Heard;
use crate::report::report;
use crate::screen::Screen;
use crate::site::Site;
use crate::source::MOST_SOURCES;
use crate::terminal::Terminal;
use commands::Verdict;
use flow_rules::Refusal;
use inbox::Queue;
use publisher::{
    BlankPair, HandedIn, Ledgers, Outcome, Publisher, PublisherOptions, Refused, finish,
};
use std::alloc::Global;
use std::sync::{Arc, Mutex, Wait};
use std::thread;
use std::thread::Threads;
use std::time::Clock;

/// Makes a publisher, has the lines of the input obeyed, ends the publisher in any case, and says what is left of it.
/// The two ledgers name the publisher.
pub fn run_session<
    L: Ledgers + Send + Sync + 'static,
    R: Print + Clock + Threads + Wait + Copy + Send + Sync + 'static,
>(
    rt: R,
    alloc: Global,
    blanks: BlankPair,
    options: PublisherOptions,
    screen: Arc<Screen<R>>,
    input: &Queue<Heard>,
    verdict: Arc<Verdict<ConsoleFault>>,
) -> Result<(), ConsoleFault>
    requires blanks { AreBlanksOf blanks L.publications L.drops L.history }
{
    let submitters = Vec::with_capacity(alloc, MOST_SOURCES)?;
    let site: Site<L, R> = Site {
        rt,
        alloc,
        publisher: Publisher::with_options(rt, alloc, blanks, options)?,
        screen,
        submitters: Mutex::new(submitters),
        verdict,
    };
    let mut handed_in = HandedIn::none(alloc);
    let driven = drive(&site, input, &mut handed_in);
    let Site {
        publisher,
        screen,
        ..
    } = site;
    let HandedIn {
        submitters,
        subscriptions,
    } = handed_in;
    let finished = finish(&rt, alloc, publisher, submitters, subscriptions);
    driven?;
    conclude(&screen, finished)
}

/// Has the lines of the input obeyed, up to their end. What goes back to the publisher is handed in.
fn drive<
    L: Ledgers + Send + Sync + 'static,
    R: Print + Clock + Threads + Wait + Copy + Send + Sync + 'static,
>(
    site: &Site<L, R>,
    input: &Queue<Heard>,
    handed_in: &mut HandedIn<L, Echoes<R>>,
) -> Result<(), ConsoleFault> {
    // There is room for all sources from the beginning, and for the terminal's own.
    handed_in.submitters.reserve(MOST_SOURCES + 1)?;
    let mut terminal = Terminal::new(site)?;
    let heard = thread::scope(
        thread::scope_env(),
        &site.rt,
        |scope| terminal.run(scope, input),
    );
    let handed = terminal.hand_in(handed_in);
    let mut submitters = site.submitters.lock(&site.rt);
    if handed_in.submitters.append(&mut submitters).is_err() {
        return Err(ConsoleFault::Memory);
    }
    if let Some(fault) = site.screen.fault() {
        return Err(fault.into());
    }
    heard?;
    Ok(handed?)
}

/// Says what the publisher leaves, also if some subscription has not ended, or is missing: then it says why afterwards.
fn conclude<B: Drop, R: Print + Clock + Wait>(
    screen: &Screen<R>,
    finished: Result<Outcome<B>, Refused<Outcome<B>>>,
) -> Result<(), ConsoleFault> {
    match finished {
        Ok(outcome) => Ok(report(screen, &outcome)?),
        Err(refused) => {
            let (refusal, outcome) = refused.into_parts();
            conclude_refused(screen, refusal, &outcome)
        }
    }
}

/// Says what a publisher leaves whose end was refused so.
fn conclude_refused<B, R: Print + Clock + Wait>(
    screen: &Screen<R>,
    refusal: Refusal,
    outcome: &Outcome<B>,
) -> Result<(), ConsoleFault> {
    // Nothing is left.
    if refusal == Refusal::NoMemory {
        return Err(ConsoleFault::Memory);
    }
    report(screen, outcome)?;
    if matches!(refusal, Refusal::Unsettled(_)) {
        Ok(())
    } else {
        Err(refusal.into())
    }
}
