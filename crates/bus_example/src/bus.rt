//! The bus: what is done with its publisher, from the first subscription to the close.
ghost use Rattle.std.specs.Prelude.{◌≡◌, []};
ghost use Rattle.publisher.specs.Blanks.{AreBlanksOf};

use flow_rules::{DropHandler, Item, Listener, Name, Refusal};
use publisher::{
    BlankPair, HandedIn, Ledgers, OnFull, Outcome, Publisher, PublisherOptions, SharedLedgers,
    Submitter, Subscription,
};
use std::alloc::Global;
use std::sync::{Mutex, Wait};
use std::thread;
use std::thread::Threads;

/// How many threads publish lines.
const SOURCES: usize = 3;

/// The lines of each thread.
const LINES: u64 = 100;

/// How many lines the slow subscriber takes at a time.
const PORTION: i64 = 10;

/// The subscribers of the bus, which were told nothing.
#[derive(Drop)]
pub struct Bus<B> {
    pub file: B,
    pub counter: B,
    pub slow: B,
}

/// Makes a publisher, runs the bus on it, and ends the publisher in any case. The two ledgers name the publisher.
pub fn run_bus<
    L: Ledgers + Send + Sync + 'static,
    B: Listener + Send + 'static,
    R: Threads + Wait + Copy + Send + Sync + 'static,
>(
    rt: R,
    alloc: Global,
    blanks: BlankPair,
    options: PublisherOptions,
    bus: Bus<B>,
) -> anyhow::Result<Outcome<B>>
    requires blanks { AreBlanksOf blanks L.publications L.drops L.history }
    requires untold { (B.told bus.file ≡ [])
        × ((B.told bus.counter ≡ []) × (B.told bus.slow ≡ [])) }
    requires unheard { (B.replied bus.file ≡ [])
        × ((B.replied bus.counter ≡ []) × (B.replied bus.slow ≡ [])) }
{
    let publisher: Publisher<L, B> = Publisher::with_options(rt, alloc, blanks, options)?;
    let mut handed_in = HandedIn::none(alloc);
    let published = publish_on(&rt, alloc, &publisher, bus, &mut handed_in);
    let finished = handed_in.finish(&rt, alloc, publisher);
    published?;
    Ok(finished?)
}

/// Subscribes all, publishes the lines of three sources, and closes. What has to go back to the publisher is handed in.
fn publish_on<L: SharedLedgers, B: Listener + Send + 'static, R: Threads + Wait + Sync>(
    rt: &R,
    alloc: Global,
    publisher: &Publisher<L, B>,
    bus: Bus<B>,
    handed_in: &mut HandedIn<L, B>,
) -> Result<(), Refusal>
    requires untold { (B.told bus.file ≡ [])
        × ((B.told bus.counter ≡ []) × (B.told bus.slow ≡ [])) }
    requires unheard { (B.replied bus.file ≡ [])
        × ((B.replied bus.counter ≡ []) × (B.replied bus.slow ≡ [])) }
{
    let Bus {
        file,
        counter,
        slow,
    } = bus;
    // Subscribe, each under a name of its own.
    let file = publisher.subscribe(rt, alloc, Name::parse("file")?, file)?;
    handed_in.subscriptions.push(file)?;
    let counter = publisher.subscribe(rt, alloc, Name::parse("counter")?, counter)?;
    handed_in.subscriptions.push(counter)?;
    // This one may lose lines: the sources don't wait for it.
    let name = Name::parse("slow")?;
    let mut slow = publisher.subscribe_with(rt, alloc, name, slow, OnFull::Drop)?;
    // A submitter for each source. A new note knows of no close, and so the submitter doesn't either, until it is told.
    for _ in 0..SOURCES {
        let submitter = publisher.submitter(rt, alloc, &mut publisher.note())?;
        handed_in.submitters.push(submitter)?;
    }
    // Publish from three threads, while a fourth requests for the slow subscriber; all are joined.
    let published = publish_all(rt, alloc, &mut handed_in.submitters, &mut slow);
    handed_in.subscriptions.push(slow)?;
    // Close: each subscriber completes after its last line. The publisher is finished afterwards, in any case.
    publisher.close(rt, alloc, &mut publisher.note())?;
    publisher.wait_drained(rt);
    published
}

/// Publishes all lines, while another thread requests for the slow subscriber. The first refusal that a source meets is
/// told.
fn publish_all<L: SharedLedgers, B: Listener + Send + 'static, R: Threads + Wait + Sync>(
    rt: &R,
    alloc: Global,
    submitters: &mut [Submitter<L, B>],
    slow: &mut Subscription<L, B>,
) -> Result<(), Refusal> {
    let (published, ()) = thread::join(
        rt,
        || publish_each(rt, alloc, submitters),
        || request_all(rt, slow),
    );
    published
}

/// Publishes the lines of each source from a thread of its own.
fn publish_each<L: SharedLedgers, B: Listener + Send + 'static, R: Threads + Wait + Sync>(
    rt: &R,
    alloc: Global,
    submitters: &mut [Submitter<L, B>],
) -> Result<(), Refusal> {
    let refused = Mutex::new(None);
    let publish = |source: usize, submitter: &mut Submitter<L, B>| {
        if let Err(refusal) = publish_lines(rt, alloc, source, submitter) {
            refused.lock(rt).get_or_insert(refusal);
        }
    };
    thread::for_each_mut(rt, submitters, SOURCES, &publish);
    match refused.into_inner() {
        None => Ok(()),
        Some(refusal) => Err(refusal),
    }
}

/// Requests all lines for a slow subscriber, a portion at a time.
fn request_all<L: SharedLedgers, B: Listener + Send, R: Wait>(
    rt: &R,
    slow: &mut Subscription<L, B>,
) {
    for _ in 0..LINES {
        // Refused only if memory is: nothing has changed then, and the next portion is requested all the same.
        let _ = slow.request(rt, PORTION);
        thread::yield_now();
    }
}

/// Publishes the lines of a source: the first by offers, which drop a line if there is no room, and the others by
/// `publish`, which waits for the file and the counter. Refused 5 if memory is, and 2 after a close, which comes later
/// here.
fn publish_lines<L: SharedLedgers, B: Listener + Send, R: Wait>(
    rt: &R,
    alloc: Global,
    source: usize,
    submitter: &mut Submitter<L, B>,
) -> Result<(), Refusal> {
    let mut drops = Drops(0);
    for number in 0..LINES {
        let line: &[u8] = if number % 10 == 0 {
            b"error: it broke"
        } else {
            b"info: it works"
        };
        if source == 0 {
            submitter.offer_with(rt, alloc, line, &mut drops)?;
        } else {
            submitter.publish(rt, alloc, line)?;
        }
    }
    Ok(())
}

/// Counts the lines that are dropped.
#[derive(Drop)]
struct Drops(u64);

impl DropHandler for Drops {
    fn on_drop(&mut self, _name: Name, _item: &Item) -> bool {
        self.0 = self.0.saturating_add(1);
        false
    }
}
