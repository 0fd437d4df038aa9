//! A publisher at a terminal: each line of standard input is obeyed at once, on a publisher with worker threads, and
//! what its subscribers are told is written as it happens.
#![tactic(auto)]

mod desk;
mod echo;
mod fault;
mod input;
mod options;
mod order;
mod report;
mod screen;
mod session;
mod site;
mod source;
mod terminal;

use clap::error::ErrorKind;
use commands::{FAULT, GONE, OutputFault, Verdict, WRONG_USE, command_words};
use fault::ConsoleFault;
use flow_rules::Refusal;
use inbox::Queue;
use input::{MOST_LINES, start_reading};
use options::{Options, Terminals, command_line};
use publisher::BlankPair;
use screen::Screen;
use session::run_session;
use std::fmt::Display;
use std::io::{IsTerminal, Read};
use std::marker::Brand;
use std::process::ExitCode;
use std::rt::Env;
use std::sync::{Arc, Wait};
use std::thread;
use std::thread::Threads;
use std::time::{Clock, Instant};

/// What the program says first to a person.
const GREETING: &str = "`help` lists the commands, Ctrl-D ends";

fn main(rt: HostRuntime) -> ExitCode {
    let terminals = Terminals {
        input: rt.stdin().is_terminal(),
        output: rt.stdout().is_terminal(),
    };
    match run(rt, rt.reader(), terminals) {
        Ok(status) => status,
        Err(ConsoleFault::Gone) => ExitCode::from(GONE),
        Err(fault) => {
            let status = status_of(&fault);
            fail(&rt, fault, status)
        }
    }
}

/// Does what the command line asks for, with this standard input.
fn run<
    R: Print + Eprint + Env + Clock + AllocGlobal + Threads + Wait + Copy + Send + Sync + 'static,
    I: Read + Send + Drop + 'static,
>(rt: R, reader: I, terminals: Terminals) -> Result<ExitCode, ConsoleFault> {
    let Some(words) = command_words(&rt)? else {
        return Ok(fail(&rt, "an argument is not UTF-8", WRONG_USE));
    };
    let command = command_line(rt.alloc()).map_err(|_| ConsoleFault::Memory)?;
    let error = match command.try_get_matches_from(words.as_slice()) {
        Ok(matches) => {
            start(rt, reader, Options::read(&matches, terminals))?;
            return Ok(ExitCode::SUCCESS);
        }
        Err(error) => error,
    };
    if error.kind() == ErrorKind::OutOfMemory {
        return Err(ConsoleFault::Memory);
    }
    if let Err(fault) = error.print(&rt) {
        return Err(OutputFault::of(fault.kind()).into());
    }
    if error.use_stderr() {
        Ok(ExitCode::from(WRONG_USE))
    } else {
        Ok(ExitCode::SUCCESS)
    }
}

/// Has a thread of its own hold the session, and waits until that has ended, or can't.
fn start<
    R: Print + Clock + AllocGlobal + Threads + Wait + Copy + Send + Sync + 'static,
    I: Read + Send + Drop + 'static,
>(rt: R, reader: I, options: Options) -> Result<(), ConsoleFault> {
    let verdict = Arc::new(rt.alloc(), Verdict::new()).map_err(|_| ConsoleFault::Memory)?;
    let theirs = Arc::try_clone(&verdict).map_err(|_| ConsoleFault::Memory)?;
    let session = move || {
        let ended = match Arc::try_clone(&theirs) {
            Ok(verdict) => open(rt, reader, options, verdict),
            Err(_) => Err(ConsoleFault::Memory),
        };
        theirs.say(&rt, ended);
    };
    match thread::spawn(&rt, session) {
        Ok(_) => verdict.wait(&rt),
        Err(_) => Err(ConsoleFault::Memory),
    }
}

/// Opens the terminal on this standard input, and on standard output.
fn open<
    R: Print + Clock + AllocGlobal + Threads + Wait + Copy + Send + Sync + 'static,
    I: Read + Send + Drop + 'static,
>(
    rt: R,
    reader: I,
    options: Options,
    verdict: Arc<Verdict<ConsoleFault>>,
) -> Result<(), ConsoleFault> {
    let alloc = rt.alloc();
    let start = if options.is_stamped {
        Some(Instant::now(&rt).map_err(|_| ConsoleFault::Read)?)
    } else {
        None
    };
    let lines = Queue::new(alloc, MOST_LINES)?;
    let input = Arc::new(alloc, lines).map_err(|_| ConsoleFault::Memory)?;
    let theirs = Arc::try_clone(&input).map_err(|_| ConsoleFault::Memory)?;
    let shown = Screen::new(rt, alloc, start, options.terminals.output, theirs);
    let screen = Arc::new(alloc, shown).map_err(|_| ConsoleFault::Memory)?;
    let lines = Arc::try_clone(&input).map_err(|_| ConsoleFault::Memory)?;
    start_reading(rt, alloc, reader, lines)?;
    if options.terminals.input && options.terminals.output {
        screen.say(GREETING)?;
    }
    run_session::<Brand, R>(
        rt,
        alloc,
        BlankPair::new(alloc)?,
        options.publisher,
        screen,
        &input,
        verdict,
    )
}

/// Says why the program stops.
fn fail<R: Eprint, D: Display + Drop>(rt: &R, fault: D, status: u8) -> ExitCode {
    let _ = eprintln!(rt; "console: {fault}");
    ExitCode::from(status)
}

/// The exit status of a fault: that of a wrong command line if what was asked for is refused.
fn status_of(fault: &ConsoleFault) -> u8 {
    match fault {
        ConsoleFault::Refused(Refusal::BadCapacity | Refusal::BadWorkers | Refusal::BadCommand) =>
            WRONG_USE,
        _ => FAULT,
    }
}
