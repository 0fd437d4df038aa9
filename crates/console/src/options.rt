//! The command line.
use clap::builder::ValueParser;
use clap::{Arg, ArgAction, ArgMatches, Command};
use flow_rules::ErrorOrder;
use publisher::{MOST_WORKERS, PublisherOptions};
use std::alloc::{AllocError, Global};

const WORKERS: &str = "workers";

const CAPACITY: &str = "cap";

const LATE: &str = "late";

const STAMP: &str = "stamp";

/// What `--version` prints after the name.
const VERSION: &str = "0.1.0";

/// What `--help` says at its end, for a terminal of 80 columns.
const HELP: &str = "Each line of standard input is a command, which is obeyed at once; `help` lists
them. What a command is answered begins with `= `. What a subscriber is told
stands on a line of its own as its callback runs: `NAME subscribed`,
`NAME next TEXT`, `NAME complete`, `NAME error published C` (of `fail`),
`NAME error argument` (of a bad request), `NAME error state` (of a second `sub`
of NAME). `submit` is done by a thread of its source, and answered when it
returns. `wait` takes no other line until each source has published what it was
handed, or waits for room that only a later line can make; so do `close`, `fail`
and the end of the input. Then the publisher is closed, what still waits is
refused, and it is said of each subscriber that did not leave how it ended and
how many items it was told.";

/// Which streams are terminals.
#[derive(Clone, Copy)]
pub struct Terminals {
    /// Standard input.
    pub input: bool,
    /// Standard output.
    pub output: bool,
}

/// What the command line asks for.
#[derive(Clone, Copy)]
pub struct Options {
    /// The publisher's.
    pub publisher: PublisherOptions,
    /// Whether each line begins with a time.
    pub is_stamped: bool,
    /// Which streams are terminals.
    pub terminals: Terminals,
}

impl Options {
    /// What the matches say.
    pub fn read(matches: &ArgMatches<'_>, terminals: Terminals) -> Options {
        let mut publisher = PublisherOptions::default();
        publisher.workers = number_of(matches, WORKERS, publisher.workers);
        publisher.capacity = number_of(matches, CAPACITY, publisher.capacity);
        publisher.order = order_of(matches);
        Options {
            publisher,
            is_stamped: matches.get_flag(STAMP),
            terminals,
        }
    }
}

/// When subscribers are told the error of `fail`.
fn order_of(matches: &ArgMatches<'_>) -> ErrorOrder {
    if matches.get_flag(LATE) {
        ErrorOrder::AfterItems
    } else {
        ErrorOrder::Overtake
    }
}

/// The number that an option says, or the default.
fn number_of(matches: &ArgMatches<'_>, option: &str, default: usize) -> usize {
    matches.get_one::<usize>(option).unwrap_or(default)
}

/// The command line.
pub fn command_line<'a>(alloc: Global) -> Result<Command<'a>, AllocError> {
    let workers = Arg::new(alloc, WORKERS)
        .long("workers")
        .value_name("W")
        .action(ArgAction::Set)
        .value_parser(ValueParser::Unsigned(1, MOST_WORKERS as u64))
        .help("How many threads run callbacks, 1 to 8 [2]");
    let capacity = Arg::new(alloc, CAPACITY)
        .long("cap")
        .value_name("N")
        .action(ArgAction::Set)
        .value_parser(ValueParser::Unsigned(1, usize::MAX as u64))
        .help("The room of a buffer, to a power of two, up to 65536 [256]");
    let late = Arg::new(alloc, LATE)
        .long("late")
        .action(ArgAction::SetTrue)
        .help("Lets the error of `fail` wait for the items before it");
    let stamp = Arg::new(alloc, STAMP)
        .long("stamp")
        .action(ArgAction::SetTrue)
        .help("Begins each line with the microseconds since the start");
    Command::new(alloc, "console")
        .about("A publisher at a terminal")
        .version(VERSION)
        .after_help(HELP)
        .arg(workers)?
        .arg(capacity)?
        .arg(late)?
        .arg(stamp)
}
