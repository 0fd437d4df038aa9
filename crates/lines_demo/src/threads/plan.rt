//! The plan of a run: what the command line asks for.
ghost use Rattle.std.specs.Prelude.{◌≡◌, ◌⊎◌, IfErr, IfOk, None, Some, codes, map};
ghost use Rattle.flow_rules.specs.declared.refusal.Refusal.TheVariants as Refusal;
ghost use Rattle.clap.specs.Matches.{first_value, found_of};
ghost use Rattle.lines_demo.specs.Threads.Plan.{fail_of, has_twice, is_among, is_unknown, spelled_failure, spelled_subscriber, spelled_subscribers};

use async_pool::MOST_WORKERS;
use clap::ArgMatches;
use commands::{parse_code, parse_digits, parse_number, split_at_byte};
use flow_rules::{Name, Refusal, capacity};
use publisher_hub::USUAL_LIVE;
use std::alloc::Global;
use std::marker::Model;

/// The id of the option for the number of workers.
pub const WORKERS: &str = "workers";

/// The id of the option for the capacity of each buffer.
pub const CAPACITY: &str = "cap";

/// The id of the option for a subscriber that fails.
pub const FAIL: &str = "fail";

/// The id of the words `NAME:D`.
pub const SUBSCRIBERS: &str = "subscribers";

/// A subscriber of the command line: its name, and how many items it requests.
#[derive(Clone, Copy)]
pub struct NamedDemand {
    /// The name that it subscribes with.
    pub name: Name,
    /// How many items it requests, up to 2^63-1.
    pub demand: u64,
}

/// A subscriber that fails: its name, at which item, counted from 1, and with which code.
#[derive(Clone, Copy)]
pub struct NamedFailure {
    /// The name of the subscriber.
    pub name: Name,
    /// The number of the item whose callback fails, from 1 to 2^63-1.
    pub item: u64,
    /// The code that it fails with.
    pub code: u32,
}

/// What the command line asks for: a number of workers, a capacity of the buffers, subscribers, and which of them
/// fails, if one does.
#[derive(Drop)]
pub struct Plan {
    workers: usize,
    capacity: usize,
    subscribers: Vec<NamedDemand>,
    fail: Option<NamedFailure>,
}

impl Model for Plan {
    ghost use Rattle.std.specs.Prelude.{◌≤◌};
    ghost use Rattle.async_pool.specs.Crew.{IsWorkerCount};
    ghost use Rattle.lines_demo.specs.Threads.Plan.{PlanState};

    ghost Value = { PlanState };

    ghost view = { λ p.
        record {
          workers = p.workers;
          capacity = p.capacity;
          subscribers = p.subscribers.items;
          fail = p.fail;
        } };

    ghost invariant = { λ p. IsWorkerCount p.workers × (1 ≤ p.capacity) };
}

impl Plan {
    ghost use Rattle.std.specs.Prelude.{◌≡◌, ◌≤◌, map};
    ghost use Rattle.std.specs.List.{list_any};
    ghost use Rattle.async_pool.specs.Crew.{IsWorkerCount};
    ghost use Rattle.lines_demo.specs.Prelude.{capacity_of};
    ghost use Rattle.lines_demo.specs.Threads.Plan.{IsOrLacksMemory, checked_plan, plan_of, plan_of_matches};
    ghost use Rattle.lines_demo.specs.Threads.Input.{would_block};

    /// The plan that a command line of `threads` spells: its options [`WORKERS`] and [`CAPACITY`], its words
    /// [`SUBSCRIBERS`], and its option [`FAIL`], if that is there.
    ///
    /// Refused 12 if one of the others is missing, or one of them has another form; then 7 for any number of workers
    /// but 1 to 8; 1 if the capacity is 0; 3 if a name stands twice; 4 if there are more than 64 subscribers; and 10 if
    /// no subscriber has the name of the one that fails. 5 if a growth is refused.
    pub fn read(alloc: Global, matches: &ArgMatches<'_>) -> Result<Plan, Refusal>
        ensures { IsOrLacksMemory result (plan_of_matches matches.now) }
    {
        let Some(workers) = matches.get_str(WORKERS) else {
            return Err(Refusal::BadCommand);
        };
        let Some(capacity) = matches.get_str(CAPACITY) else {
            return Err(Refusal::BadCommand);
        };
        let Some(words) = matches.get_raw(SUBSCRIBERS) else {
            return Err(Refusal::BadCommand);
        };
        let fail = read_fail(matches)?;
        Plan::of_words(alloc, workers.as_bytes(), capacity.as_bytes(), words, fail)
    }

    /// The plan that the values of `--workers` and `--cap` and the words `NAME:D` spell, with this failure.
    #[tactic(auto, unfolding(crate::specs::Threads::Plan::plan_of))]
    fn of_words(
        alloc: Global,
        workers: &[u8],
        capacity: &[u8],
        words: &[&str],
        fail: Option<NamedFailure>,
    ) -> Result<Plan, Refusal>
        ensures { IsOrLacksMemory result
            (plan_of workers.now capacity.now (map (λ w. w.now) words.now) fail) }
    {
        let Some(workers) = parse_digits(workers) else {
            return Err(Refusal::BadCommand);
        };
        let Some(capacity) = parse_digits(capacity) else {
            return Err(Refusal::BadCommand);
        };
        let subscribers = parse_subscribers(alloc, words)?;
        Plan::checked(workers, capacity, subscribers, fail)
    }

    /// The plan of these numbers, subscribers and failure, if it isn't refused.
    fn checked(
        workers: u64,
        capacity: u64,
        subscribers: Vec<NamedDemand>,
        fail: Option<NamedFailure>,
    ) -> Result<Plan, Refusal>
        ensures { result ≡ checked_plan workers capacity subscribers.items fail }
    {
        if workers < 1 || workers > MOST_WORKERS as u64 {
            return Err(Refusal::BadWorkers);
        }
        if capacity == 0 {
            return Err(Refusal::BadCapacity);
        }
        if stands_twice(&subscribers) {
            return Err(Refusal::Duplicate);
        }
        if subscribers.len() > USUAL_LIVE {
            return Err(Refusal::TooMany);
        }
        if is_unknown(&fail, &subscribers) {
            return Err(Refusal::Unknown);
        }
        Ok(Plan {
            workers: workers as usize,
            capacity: capacity as usize,
            subscribers,
            fail,
        })
    }

    /// How many workers there are, 1 to 8.
    pub fn workers(&self) -> usize
        ensures value { result ≡ self.now.workers }
        ensures allowed { IsWorkerCount result }
    {
        self.workers
    }

    /// The capacity that is asked for, 1 or more.
    pub fn capacity(&self) -> usize
        ensures value { result ≡ self.now.capacity }
        ensures positive { 1 ≤ result }
    {
        self.capacity
    }

    /// The subscribers, in their order.
    pub fn subscribers(&self) -> &[NamedDemand]
        ensures { result.now ≡ self.now.subscribers }
    {
        self.subscribers.as_slice()
    }

    /// Which subscriber fails, if one does.
    pub fn fail(&self) -> Option<NamedFailure>
        ensures { result ≡ self.now.fail }
    {
        self.fail
    }

    /// Whether a publication might wait for ever, if this many items are published: some subscriber requests fewer, and
    /// its buffer does not hold the others.
    pub fn would_block(&self, many: usize) -> bool
        ensures { result
            ≡ list_any (would_block (capacity_of self.now.capacity) many) self.now.subscribers }
    {
        let Ok(capacity) = capacity(self.capacity) else {
            return true;
        };
        let beyond = many.saturating_sub(capacity) as u64;
        self.subscribers
            .iter()
            .any(|subscriber| subscriber.demand < beyond)
    }
}

/// The subscribers that the words spell. Refused 12 if one of them spells none.
fn parse_subscribers(alloc: Global, words: &[&str]) -> Result<Vec<NamedDemand>, Refusal>
    ensures ok { IfOk result (λ subscribers.
        spelled_subscribers (map (λ w. w.now) words.now) ≡ Some subscribers.items) }
    ensures refusals { IfErr result (λ refusal. (refusal ≡ Refusal.NoMemory)
        ⊎ ((refusal ≡ Refusal.BadCommand)
        × (spelled_subscribers (map (λ w. w.now) words.now) ≡ None))) }
{
    let mut subscribers = Vec::new(alloc);
    for word in words {
        let Some(subscriber) = parse_subscriber(word.as_bytes()) else {
            return Err(Refusal::BadCommand);
        };
        if subscribers.push(subscriber).is_err() {
            return Err(Refusal::NoMemory);
        }
    }
    Ok(subscribers)
}

/// The subscriber that a word `NAME:D` spells.
#[tactic(auto, unfolding(crate::specs::Threads::Plan::spelled_subscriber))]
pub(super) fn parse_subscriber(word: &[u8]) -> Option<NamedDemand>
    ensures { result ≡ spelled_subscriber word.now }
{
    let (name, demand) = split_at_byte(word, b':');
    Some(NamedDemand {
        name: Name::new(name)?,
        demand: parse_number(demand)?,
    })
}

/// The failure that the option [`FAIL`] spells, if the command line has it. Refused 12 if it spells none.
fn read_fail(matches: &ArgMatches<'_>) -> Result<Option<NamedFailure>, Refusal>
    ensures { result ≡ fail_of (first_value (found_of matches.now) (codes "fail")) }
{
    let Some(word) = matches.get_str(FAIL) else {
        return Ok(None);
    };
    match parse_failure(word.as_bytes()) {
        Some(failure) => Ok(Some(failure)),
        None => Err(Refusal::BadCommand),
    }
}

/// The failure that a word `NAME:K:C` spells.
#[tactic(auto, unfolding(crate::specs::Threads::Plan::spelled_failure))]
pub(super) fn parse_failure(word: &[u8]) -> Option<NamedFailure>
    ensures { result ≡ spelled_failure word.now }
{
    let (name, rest) = split_at_byte(word, b':');
    let (item, code) = split_at_byte(rest, b':');
    let name = Name::new(name)?;
    let item = parse_number(item)?;
    let code = parse_code(code)?;
    if item == 0 {
        return None;
    }
    Some(NamedFailure { name, item, code })
}

/// Whether a subscriber is to fail whose name is that of none of these.
fn is_unknown(fail: &Option<NamedFailure>, subscribers: &[NamedDemand]) -> bool
    ensures { result ≡ is_unknown fail.now subscribers.now }
{
    match fail {
        Some(failure) => !is_in(&failure.name, subscribers),
        None => false,
    }
}

/// Whether a name stands twice. Each is compared with all that follow; a command line has room for some hundred
/// thousand.
fn stands_twice(subscribers: &[NamedDemand]) -> bool
    ensures { result ≡ has_twice subscribers.now }
{
    let mut rest = subscribers;
    while let Some((first, others)) = rest.split_first() {
        if is_in(&first.name, others) {
            return true;
        }
        rest = others;
    }
    false
}

/// Whether the name is that of one of these.
fn is_in(name: &Name, subscribers: &[NamedDemand]) -> bool
    ensures { result ≡ is_among name.now subscribers.now }
{
    subscribers
        .iter()
        .any(|subscriber| subscriber.name == *name)
}
