//! What the command line says, as a plan.
mod command;

use crate::arguments::Spelling;
use crate::filter::Rule;
use crate::plan::{Format, MOST, Plan, STANDARD, SinkPlan};
use clap::ArgMatches;
pub use command::command_line;
use command::{
    APPEND, CAPACITY, FILE, FROM, GREP, LINGER, LOSSY, NOT, PROGRESS, REPORT, TO, WORKERS,
};
use publisher::PublisherOptions;
use std::alloc::{AllocError, AllocFailed, Global};
use std::mem;

/// How many texts may wait in the buffer of a sink, if nothing else is asked for.
const TEXTS: usize = 16;

/// For how many seconds a lossy sink may be stuck at the end, if nothing else is asked for.
const LINGER_SECONDS: u64 = 2;

/// A sink or a filter, and where it stands on the command line.
#[derive(Clone, Copy)]
struct Word<'a> {
    place: usize,
    meaning: Meaning,
    text: &'a str,
}

/// What a word is.
#[derive(Clone, Copy, PartialEq, Eq)]
enum Meaning {
    Waiting,
    Lossy,
    Wanted,
    Unwanted,
}

/// Why a command line is refused that has the right form.
#[derive(Clone, Copy)]
pub enum WrongPlan {
    /// There is no sink.
    NoSink,
    /// There are more than [`MOST`] sources or sinks.
    TooMany,
    /// A filter has no sink behind it.
    IdleFilter,
    /// Memory was refused.
    Memory,
}

impl From<AllocError> for WrongPlan {
    fn from(_refused: AllocError) -> WrongPlan {
        WrongPlan::Memory
    }
}

impl<T: Drop> From<AllocFailed<T>> for WrongPlan {
    fn from(_refused: AllocFailed<T>) -> WrongPlan {
        WrongPlan::Memory
    }
}

impl WrongPlan {
    /// Says why.
    pub fn explain(self) -> &'static str {
        match self {
            WrongPlan::NoSink => "there is no sink: name a file, or - for standard output",
            WrongPlan::TooMany => "there are more than 64 sources or sinks",
            WrongPlan::IdleFilter => "a --grep or --not stands behind all sinks",
            WrongPlan::Memory => "memory",
        }
    }
}

/// What the matches ask for.
pub fn read_plan(
    alloc: Global,
    matches: &ArgMatches<'_>,
    spelling: Spelling,
) -> Result<Plan, WrongPlan> {
    let mut publisher = PublisherOptions::default();
    publisher.workers = number_of(matches, WORKERS, publisher.workers);
    publisher.capacity = number_of(matches, CAPACITY, TEXTS);
    let sources = sources_of(alloc, matches, spelling)?;
    let sinks = sinks_of(alloc, matches, spelling)?;
    if sources.len() > MOST || sinks.len() > MOST {
        return Err(WrongPlan::TooMany);
    }
    Ok(Plan {
        sources,
        sinks,
        is_appending: matches.get_flag(APPEND),
        format: format_of(matches),
        is_watched: matches.get_flag(PROGRESS),
        linger: matches.get_one::<u64>(LINGER).unwrap_or(LINGER_SECONDS),
        publisher,
    })
}

/// The number that an option says, or the default.
fn number_of(matches: &ArgMatches<'_>, option: &str, default: usize) -> usize {
    matches.get_one::<usize>(option).unwrap_or(default)
}

/// How the report is to be written.
fn format_of(matches: &ArgMatches<'_>) -> Format {
    match matches.get_str(REPORT) {
        Some("json") => Format::Json,
        Some("csv") => Format::Csv,
        Some("none") => Format::None,
        _ => Format::Text,
    }
}

/// The files that are read.
fn sources_of(
    alloc: Global,
    matches: &ArgMatches<'_>,
    spelling: Spelling,
) -> Result<Vec<Vec<u8>>, WrongPlan> {
    let mut sources = Vec::new(alloc);
    for path in matches.get_strs(FROM).unwrap_or(&[]) {
        sources.push(spelling.bytes_of(alloc, path)?)?;
    }
    if sources.is_empty() {
        sources.push(Vec::from_slice(alloc, STANDARD)?)?;
    }
    Ok(sources)
}

/// The sinks, each with the filters that stand before it.
fn sinks_of(
    alloc: Global,
    matches: &ArgMatches<'_>,
    spelling: Spelling,
) -> Result<Vec<SinkPlan>, WrongPlan> {
    let mut sinks = Vec::new(alloc);
    let mut rules = Vec::new(alloc);
    for word in words_of(alloc, matches)?.as_slice() {
        match word.meaning {
            Meaning::Wanted | Meaning::Unwanted => rules.push(Rule {
                word: spelling.bytes_of(alloc, word.text)?,
                is_wanted: word.meaning == Meaning::Wanted,
            })?,
            Meaning::Waiting | Meaning::Lossy => {
                sinks.push(SinkPlan {
                    path: spelling.bytes_of(alloc, word.text)?,
                    is_lossy: word.meaning == Meaning::Lossy,
                    rules: mem::replace(&mut rules, Vec::new(alloc)),
                })?;
            }
        }
    }
    if !rules.is_empty() {
        return Err(WrongPlan::IdleFilter);
    }
    if sinks.is_empty() {
        return Err(WrongPlan::NoSink);
    }
    Ok(sinks)
}

/// The sinks and filters, in the order of the command line.
fn words_of<'a>(alloc: Global, matches: &ArgMatches<'a>) -> Result<Vec<Word<'a>>, AllocError> {
    let mut words = Vec::new(alloc);
    add_words(&mut words, matches, FILE, Meaning::Waiting)?;
    add_words(&mut words, matches, TO, Meaning::Waiting)?;
    add_words(&mut words, matches, LOSSY, Meaning::Lossy)?;
    add_words(&mut words, matches, GREP, Meaning::Wanted)?;
    add_words(&mut words, matches, NOT, Meaning::Unwanted)?;
    words.as_mut_slice().sort_unstable_by_key(|word| word.place);
    Ok(words)
}

/// Adds the words of an argument.
fn add_words<'a>(
    words: &mut Vec<Word<'a>>,
    matches: &ArgMatches<'a>,
    argument: &str,
    meaning: Meaning,
) -> Result<(), AllocError> {
    let places = matches.indices_of(argument).unwrap_or(&[]);
    let texts = matches.get_strs(argument).unwrap_or(&[]);
    for (place, text) in places.iter().zip(texts.iter()) {
        words.push(Word {
            place: *place,
            meaning,
            text,
        })?;
    }
    Ok(())
}
