//! The command line, as its help tells it.
use clap::builder::ValueParser;
use clap::{Arg, ArgAction, Command};
use publisher::MOST_WORKERS;
use std::alloc::{AllocError, Global};

pub(super) const FILE: &str = "file";

pub(super) const TO: &str = "to";

pub(super) const LOSSY: &str = "lossy";

pub(super) const GREP: &str = "grep";

pub(super) const NOT: &str = "not";

pub(super) const FROM: &str = "from";

pub(super) const APPEND: &str = "append";

pub(super) const REPORT: &str = "report";

pub(super) const PROGRESS: &str = "progress";

pub(super) const LINGER: &str = "linger";

pub(super) const WORKERS: &str = "workers";

pub(super) const CAPACITY: &str = "cap";

/// The most texts that wait for a sink in its buffer.
const MOST_TEXTS: u64 = 65_536;

/// What `--version` prints after the name.
const VERSION: &str = "0.1.0";

/// What `--help` says at its end, for a terminal of 80 columns.
const HELP: &str = "Examples:
  tail -F app.log | fanout all.log --grep error errors.log --lossy /dev/ttyS0
  fanout --from a.fifo --from b.fifo --to - --report json
  make 2>&1 | fanout - --append build.log
Each sink gets the bytes of its lines, in their order. One that waits gets every
line, and a lossy one loses whole lines if its reader is slow. A sink that fails
ends alone. The status is 0, 1 if a source failed, 2 for a wrong command line,
and 3 if a sink failed and no source did.";

/// The command line.
pub fn command_line<'a>(alloc: Global) -> Result<Command<'a>, AllocError> {
    let file = Arg::new(alloc, FILE)
        .value_name("FILE")
        .num_args(0..)
        .action(ArgAction::Append)
        .help("A sink that gets every line; - is standard output");
    let command = Command::new(alloc, "fanout")
        .about("Copies lines to any number of sinks; a slow lossy sink never stops the others")
        .version(VERSION)
        .after_help(HELP)
        .arg(file)?
        .arg(list(alloc, TO, "FILE", "A sink that gets every line, as FILE"))?
        .arg(list(
            alloc,
            LOSSY,
            "FILE",
            "A sink that loses whole lines if its reader is slow",
        ))?
        .arg(list(
            alloc,
            GREP,
            "TEXT",
            "Pass only lines that contain TEXT to the next sink",
        ))?
        .arg(list(
            alloc,
            NOT,
            "TEXT",
            "Pass only lines that do not contain TEXT to the next sink",
        ))?
        .arg(list(alloc, FROM, "FILE", "A source [standard input]"))?;
    add_settings(alloc, command)
}

/// An option that may stand several times.
fn list<'a>(alloc: Global, name: &'a str, value: &'a str, help: &'a str) -> Arg<'a> {
    Arg::new(alloc, name)
        .long(name)
        .value_name(value)
        .action(ArgAction::Append)
        .help(help)
}

/// Adds the options that are for all.
fn add_settings<'a>(alloc: Global, command: Command<'a>) -> Result<Command<'a>, AllocError> {
    let append = Arg::new(alloc, APPEND)
        .long(APPEND)
        .action(ArgAction::SetTrue)
        .help("Append to the files instead of emptying them");
    let report = Arg::new(alloc, REPORT)
        .long(REPORT)
        .value_name("FORMAT")
        .action(ArgAction::Set)
        .value_parser(["text", "json", "csv", "none"].as_slice())
        .help("Format of the final report on standard error [text]");
    let progress = Arg::new(alloc, PROGRESS)
        .long(PROGRESS)
        .action(ArgAction::SetTrue)
        .help("Tell each second how many lines came, and the texts that wait for each sink");
    let linger = number(alloc, LINGER, "SECONDS", 0, u64::MAX).help(
        "How long a stuck lossy sink is waited for at the end [2]",
    );
    let workers = number(alloc, WORKERS, "W", 1, MOST_WORKERS as u64).help(
        "How many threads hand lines to sinks, 1 to 8 [2]",
    );
    let capacity = number(alloc, CAPACITY, "N", 1, MOST_TEXTS).help(
        "How many texts of up to 4096 bytes may wait for a sink, to a power of two [16]",
    );
    command
        .arg(append)?
        .arg(report)?
        .arg(progress)?
        .arg(linger)?
        .arg(workers)?
        .arg(capacity)
}

/// An option with a number.
fn number<'a>(alloc: Global, name: &'a str, value: &'a str, least: u64, most: u64) -> Arg<'a> {
    Arg::new(alloc, name)
        .long(name)
        .value_name(value)
        .action(ArgAction::Set)
        .value_parser(ValueParser::Unsigned(least, most))
}
