//! The command line. `lines_demo script` plays a script on a publisher and its subscriptions: it reads commands from
//! standard input, one a line, and answers each on standard output. `lines_demo threads` publishes the lines of
//! standard input from threads, and reports on standard output what each subscriber was told.
#![tactic(auto)]

use clap::error::ErrorKind;
use clap::{Arg, ArgAction, ArgMatches, Command};
use commands::{FAULT, GONE, OutputFault, WRONG_USE, command_words};
use flow_rules::Refusal;
use script::{Keeping, ScriptFault, explain_standard_input, play_standard_input};
use std::alloc::{AllocError, Global};
use std::fmt::Display;
use std::process::ExitCode;
use std::rt::Env;
use std::sync::Wait;
use std::thread::Threads;
use threads::{CAPACITY, FAIL, LinesFault, SUBSCRIBERS, WORKERS, run_standard_input};

mod reader;
mod script;
mod threads;

/// What `--version` prints after the name.
const VERSION: &str = "0.1.0";

/// The subcommand that plays a script, its flag for subscribers that keep nothing, and the one for what explains it.
const SCRIPT: &str = "script";

const FORGET: &str = "forget";

const EXPLAIN: &str = "explain";

/// The subcommand that publishes lines from threads.
const THREADS: &str = "threads";

/// What `--help` says of runs on threads, for a terminal of 80 columns.
const LINES: &str = "A line of standard input is `SOURCE TEXT`, SOURCE a number up to 4,294,967,295.
All of it is read first. Then each source publishes its texts in order from a
thread of its own, and when all have ended the publisher is closed. The report
has, for each subscriber in order and each source in ascending order, a line
`NAME SOURCE TEXT` for each item that it was told, in order; then
  NAME complete K   it was told all K items, and completed
  NAME open K       it was told as many as it requested, and has not ended
  NAME memory K     a callback was refused memory after K items
  NAME failed C K   its callback failed with the code C at item K, as `--fail`
                    asks
then `handled NAME C` if the publisher's handler heard of a failure, and at last
`drained 1` if every subscription has ended, else `drained 0`. The status is 0
if every subscriber completed, and else 3. What is refused prints on standard
error a line that says why, and `lines_demo: refused N WORD`, with status 2: the
input, too, if a subscriber requests fewer items than there are lines, and its
buffer can't hold the others; and `--fail`, if no subscriber has its NAME. There
are 16 sources at most, and 64 subscribers; a text has 4,096 bytes at most, a
name 32, and the input 16,777,216.";

/// What `--help` says of scripts, for a terminal of 80 columns.
const SCRIPTS: &str = "Commands of a script, one a line, and their answers:
  cap N           cap C     asks for a capacity of the buffers, before any other
                            command but `late`
  late            late      lets the error of a `fail` wait for the items, before
                            any other command but `cap`
  sub NAME N      sub NAME  subscribes with this name, and requests N items
  offer TEXT      offer R   publishes; R is the longest backlog, or minus the
                            number of drops; 0 if nobody takes it
  retry TEXT      retry R calls K
                            publishes as offer does, and once more, K times, if
                            there was no room
  submit TEXT     submit R  publishes, and is refused if it would wait for room
  request NAME N  ok        the latest of this name requests N items more; an N
                            below 1 is a bad request
  cancel NAME     ok        the latest of this name is cancelled
  close           ok        closes the publisher: each subscriber completes after
                            its items
  fail C          ok        closes it with the error C, before the items that
                            wait; after `late`, after them
  run             idle      makes turns until none is owed, after a line for each
                            signal that they tell:
                            NAME subscribed, NAME next TEXT, NAME complete,
                            NAME memory, NAME error published C (of `fail`),
                            NAME error argument (of a bad request),
                            NAME error state (of a second `sub` of NAME)
A command that is refused is answered `refused N WORD`.

All of standard input is read before the first command is obeyed. A script has
16,777,216 bytes at most, a line 4,200, a text 4,096 and a name 32. A number has
19 digits at most, and is 9,223,372,036,854,775,807 at most; C is 4,294,967,295
at most. N of `request` may be negative, down to -9,223,372,036,854,775,808.";

fn main(rt: HostRuntime) -> ExitCode {
    match run(rt) {
        Ok(status) => status,
        Err(ScriptFault::Gone) => ExitCode::from(GONE),
        Err(fault) => fail(&rt, fault, FAULT),
    }
}

/// Does what the command line asks for.
fn run<
    R: Input + Print + Eprint + Env + AllocGlobal + Threads + Wait + Copy + Send + Sync + 'static,
>(rt: R) -> Result<ExitCode, ScriptFault> {
    let Some(words) = command_words(&rt).map_err(|_| ScriptFault::Memory)? else {
        let _ = eprintln!(rt; "lines_demo: an argument is not UTF-8");
        return Ok(ExitCode::from(WRONG_USE));
    };
    let command = command_line(rt.alloc()).map_err(|_| ScriptFault::Memory)?;
    let error = match command.try_get_matches_from(words.as_slice()) {
        Ok(matches) => return Ok(obey(rt, &matches)),
        Err(error) => error,
    };
    if error.kind() == ErrorKind::OutOfMemory {
        return Err(ScriptFault::Memory);
    }
    if let Err(fault) = error.print(&rt) {
        return Err(OutputFault::of(fault.kind()).into());
    }
    if error.use_stderr() {
        Ok(ExitCode::from(WRONG_USE))
    } else {
        Ok(ExitCode::SUCCESS)
    }
}

/// Does what a right command line asks for.
fn obey<R: Input + Print + Eprint + AllocGlobal + Threads + Wait + Copy + Send + Sync + 'static>(
    rt: R,
    matches: &ArgMatches<'_>,
) -> ExitCode {
    match matches.subcommand_matches(THREADS) {
        Some(threads) => match run_standard_input(rt, threads) {
            Ok(status) => ExitCode::from(status),
            Err(LinesFault::Gone) => ExitCode::from(GONE),
            Err(fault) => {
                let status = status_of(&fault);
                fail(&rt, fault, status)
            }
        },
        None => {
            let played = if is_wanted(matches, EXPLAIN) {
                explain_standard_input(&rt, keeping(matches))
            } else {
                play_standard_input(&rt, keeping(matches))
            };
            match played {
                Ok(()) => ExitCode::SUCCESS,
                Err(ScriptFault::Gone) => ExitCode::from(GONE),
                Err(fault) => fail(&rt, fault, FAULT),
            }
        }
    }
}

/// Says why the program stops.
fn fail<R: Eprint, D: Display + Drop>(rt: &R, fault: D, status: u8) -> ExitCode {
    let _ = eprintln!(rt; "lines_demo: {fault}");
    ExitCode::from(status)
}

/// The exit status of a run that stopped: that of a wrong command line if what was asked for is refused.
fn status_of(fault: &LinesFault) -> u8 {
    match fault {
        LinesFault::Refused(
            Refusal::BadCapacity
            | Refusal::Duplicate
            | Refusal::TooMany
            | Refusal::LineTooLong
            | Refusal::BadWorkers
            | Refusal::Unknown
            | Refusal::WouldWait
            | Refusal::BadCommand,
        ) => WRONG_USE,
        _ => FAULT,
    }
}

/// What the command line says of the subscribers.
fn keeping(matches: &ArgMatches<'_>) -> Keeping {
    if is_wanted(matches, FORGET) {
        Keeping::Nothing
    } else {
        Keeping::Everything
    }
}

/// Whether the command line of a script has this flag.
fn is_wanted(matches: &ArgMatches<'_>, flag: &str) -> bool {
    match matches.subcommand_matches(SCRIPT) {
        Some(script) => script.get_flag(flag),
        None => false,
    }
}

/// The command line: one subcommand.
fn command_line<'a>(alloc: Global) -> Result<Command<'a>, AllocError> {
    Command::new(alloc, "lines_demo")
        .about("Publishes lines to subscribers")
        .version(VERSION)
        .after_help(SCRIPTS)
        .subcommand_required(true)
        .subcommand(script_line(alloc)?)?
        .subcommand(threads_line(alloc)?)
}

/// The command line of a script.
fn script_line<'a>(alloc: Global) -> Result<Command<'a>, AllocError> {
    let forget = Arg::new(alloc, FORGET)
        .long(FORGET)
        .action(ArgAction::SetTrue)
        .help("The subscribers keep nothing of what they are told");
    let explain = Arg::new(alloc, EXPLAIN)
        .long(EXPLAIN)
        .action(ArgAction::SetTrue)
        .help("Says on standard error why lines were refused, and what a `run` left");
    Command::new(alloc, SCRIPT)
        .about("Plays the script on standard input")
        .after_help(SCRIPTS)
        .arg(forget)?
        .arg(explain)
}

/// The command line of a run on threads.
fn threads_line<'a>(alloc: Global) -> Result<Command<'a>, AllocError> {
    let workers = Arg::new(alloc, WORKERS)
        .long("workers")
        .value_name("W")
        .required(true)
        .action(ArgAction::Set)
        .help("How many threads run callbacks, 1 to 8");
    let capacity = Arg::new(alloc, CAPACITY)
        .long("cap")
        .value_name("N")
        .required(true)
        .action(ArgAction::Set)
        .help("The room of a buffer, to a power of two, up to 65536");
    let fail = Arg::new(alloc, FAIL)
        .long("fail")
        .value_name("NAME:K:C")
        .action(ArgAction::Set)
        .help("Its callback fails at its item K, from 1 on, with the code C");
    let subscribers = Arg::new(alloc, SUBSCRIBERS)
        .value_name("NAME:D")
        .required(true)
        .num_args(1..)
        .help("A subscriber of this name, which requests D items");
    let explain = Arg::new(alloc, EXPLAIN)
        .long(EXPLAIN)
        .action(ArgAction::SetTrue)
        .help("Changes nothing: why an option or a line is refused is said in any case");
    Command::new(alloc, THREADS)
        .about("Publishes the lines on standard input, each source's from a thread of its own")
        .after_help(LINES)
        .arg(workers)?
        .arg(capacity)?
        .arg(fail)?
        .arg(explain)?
        .arg(subscribers)
}
