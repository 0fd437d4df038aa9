//! Says on standard error what is wrong with a command line or an input of `threads` that is refused. It decides
//! nothing: whether anything is refused, [`Plan::read`] and [`Input::read`](super::input::Input::read) say.
use super::input::{MOST_SOURCES, add_source, parse_publication};
use super::plan::{CAPACITY, FAIL, Plan, SUBSCRIBERS, WORKERS, parse_failure, parse_subscriber};
use clap::ArgMatches;
use commands::{Excerpt, Form, Mistake, Part, parse_digits, split_line, strip_return};
use flow_rules::{Refusal, capacity};
use std::alloc::Global;

/// Says which option or word of the command line is refused, and why. What can't be written is left out.
pub fn explain_plan<R: Eprint>(rt: &R, matches: &ArgMatches<'_>, refusal: &Refusal) {
    match refusal {
        Refusal::BadCommand => explain_form(rt, matches),
        Refusal::BadWorkers => explain_option(rt, matches, WORKERS, refusal),
        Refusal::BadCapacity => explain_option(rt, matches, CAPACITY, refusal),
        Refusal::Unknown => explain_option(rt, matches, FAIL, refusal),
        Refusal::NoMemory => {}
        _ => {
            let _ = eprintln!(rt; "NAME:D: {}", refusal.explain());
        }
    }
}

/// Says why the value of an option is refused.
fn explain_option<R: Eprint>(rt: &R, matches: &ArgMatches<'_>, option: &str, refusal: &Refusal) {
    let value = matches.get_str(option).unwrap_or("");
    let _ = eprintln!(rt;
        "--{option} {}: {}",
        Excerpt::new(value.as_bytes()),
        refusal.explain()
    );
}

/// Says which option or word has another form than it should.
fn explain_form<R: Eprint>(rt: &R, matches: &ArgMatches<'_>) {
    for option in [WORKERS, CAPACITY] {
        let value = matches.get_str(option).unwrap_or("").as_bytes();
        if parse_digits(value).is_none() {
            let mistake = Mistake::of(Form::with("a number", Part::Number), value);
            let _ = eprintln!(rt; "--{option}: {mistake}");
            return;
        }
    }
    if let Some(value) = matches.get_str(FAIL) {
        if parse_failure(value.as_bytes()).is_none() {
            let excerpt = Excerpt::new(value.as_bytes());
            let _ = eprintln!(rt; "--fail {excerpt}: it is NAME:K:C, and K is 1 or more");
            return;
        }
    }
    for word in matches.get_raw(SUBSCRIBERS).unwrap_or(&[]) {
        if parse_subscriber(word.as_bytes()).is_none() {
            let excerpt = Excerpt::new(word.as_bytes());
            let _ = eprintln!(rt; "{excerpt}: a subscriber is NAME:D");
            return;
        }
    }
}

/// Says which line of the input is refused, and why, or who can't take all lines; nothing if nothing is refused.
pub fn explain_input<R: Eprint>(rt: &R, alloc: Global, plan: &Plan, bytes: &[u8]) {
    let mut sources = Vec::new(alloc);
    // The first line of a source too many: what is wrong with a later line comes before it.
    let mut surplus = None;
    let mut rest = bytes;
    let mut number: u64 = 0;
    let mut many: usize = 0;
    while !rest.is_empty() {
        let (line, after) = split_line(rest);
        number = number.saturating_add(1);
        let line = strip_return(line);
        if !line.is_empty() {
            many = many.saturating_add(1);
            let Some(source) = source_of(rt, number, line) else {
                return;
            };
            // If memory is refused here, the run will say so.
            let _ = add_source(&mut sources, source);
            if sources.len() > MOST_SOURCES && surplus.is_none() {
                surplus = Some(number);
            }
        }
        rest = after;
    }
    match surplus {
        Some(number) => {
            let _ = eprintln!(rt;
                "line {number}: there are {MOST_SOURCES} sources before its own, which is the most"
            );
        }
        None => explain_waiting(rt, plan, many),
    }
}

/// The source of a line; `None` if the line is wrong, after it was said how.
fn source_of<R: Eprint>(rt: &R, number: u64, line: &[u8]) -> Option<u32> {
    let _ = match parse_publication(line) {
        Ok(publication) => return Some(publication.source),
        Err(Refusal::BadCommand) => {
            let form = Form::with_two("SOURCE TEXT", Part::Source, Part::Text);
            eprintln!(rt; "line {number}: {}", Mistake::of(form, line))
        }
        Err(refusal) => eprintln!(rt; "line {number}: {}", refusal.explain()),
    };
    None
}

/// Says which subscriber can't take this many lines, if one can't.
fn explain_waiting<R: Eprint>(rt: &R, plan: &Plan, many: usize) {
    let room = capacity(plan.capacity()).unwrap_or(0);
    let beyond = many.saturating_sub(room) as u64;
    for subscriber in plan.subscribers() {
        if subscriber.demand < beyond {
            let _ = eprintln!(rt;
                "{}:{}: it requests {} of {many} items, and its buffer holds {room}",
                subscriber.name, subscriber.demand, subscriber.demand
            );
            return;
        }
    }
}
