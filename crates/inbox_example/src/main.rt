//! Publishes lines from one thread, and takes them in another one, as from a channel.
#![tactic(auto)]

ghost use Rattle.publisher.specs.Blanks.{AreBlanksOf};

use flow_rules::{Name, NoMemory, Refusal, Watching};
use inbox::{Inbox, Inlet};
use publisher::{
    BlankPair, HandedIn, Ledgers, Outcome, Publisher, PublisherOptions, SharedLedgers, Submitter,
    Subscription,
};
use std::alloc::Global;
use std::marker::Brand;
use std::sync::Wait;
use std::thread;
use std::thread::Threads;

/// The subscriber of an inbox.
type Taker<R> = Watching<Inlet<R>>;

/// What is published.
const LINES: [&str; 4] = ["the first", "the second", "the third", "the last"];

/// What the thread has found that takes the lines.
#[derive(Drop)]
struct Found {
    lines: u64,
    bytes: u64,
}

/// Publishes all lines, and closes in any case, since the other thread waits for the end.
fn send<L: SharedLedgers, R: Wait + Copy + Send>(
    rt: &R,
    alloc: Global,
    publisher: &Publisher<L, Taker<R>>,
    submitter: &mut Submitter<L, Taker<R>>,
) -> Result<(), Refusal> {
    let mut sent = Ok(0);
    for line in LINES {
        if sent.is_ok() {
            sent = submitter.submit(rt, alloc, line.as_bytes());
        }
    }
    publisher.close(rt, alloc, &mut publisher.note())?;
    sent?;
    Ok(())
}

/// Takes lines until there is none to come.
fn take<L: SharedLedgers, R: Wait + Copy + Send>(
    rt: &R,
    inbox: &mut Inbox,
    subscription: &mut Subscription<L, Taker<R>>,
) -> Result<Found, NoMemory> {
    let mut found = Found { lines: 0, bytes: 0 };
    for _ in rt.forever() {
        let Some(line) = inbox.next(rt, subscription)? else {
            break;
        };
        found.lines = found.lines.saturating_add(1);
        found.bytes = found.bytes.saturating_add(line.text.len() as u64);
    }
    Ok(found)
}

/// Subscribes an inbox, and has two threads publish and take. What has to go back to the publisher is handed in.
fn pass_on<L: SharedLedgers, R: Threads + Wait + Copy + Send + Sync>(
    rt: &R,
    alloc: Global,
    publisher: &Publisher<L, Taker<R>>,
    handed_in: &mut HandedIn<L, Taker<R>>,
) -> anyhow::Result<Found> {
    let (inlet, mut inbox) = Inbox::pair(*rt, alloc, 2)?;
    let name = Name::parse("taker")?;
    let mut subscription = publisher.subscribe(rt, alloc, name, Watching::new(inlet))?;
    let mut submitter = publisher.submitter(rt, alloc, &mut publisher.note())?;
    let (sent, found) = thread::join(
        rt,
        || send(rt, alloc, publisher, &mut submitter),
        || take(rt, &mut inbox, &mut subscription),
    );
    handed_in.subscriptions.push(subscription)?;
    handed_in.submitters.push(submitter)?;
    sent?;
    Ok(found?)
}

/// Makes a publisher, passes the lines on, and ends the publisher in any case.
fn run<L: Ledgers + Send + Sync + 'static, R: Threads + Wait + Copy + Send + Sync + 'static>(
    rt: R,
    alloc: Global,
    blanks: BlankPair,
) -> anyhow::Result<(Found, Outcome<Taker<R>>)>
    requires { AreBlanksOf blanks L.publications L.drops L.history }
{
    let options = PublisherOptions::default();
    let publisher: Publisher<L, Taker<R>> = Publisher::with_options(rt, alloc, blanks, options)?;
    let mut handed_in = HandedIn::none(alloc);
    let found = pass_on(&rt, alloc, &publisher, &mut handed_in);
    let finished = handed_in.finish(&rt, alloc, publisher);
    Ok((found?, finished?))
}

fn main(rt: HostRuntime) -> anyhow::Result<()> {
    let (found, outcome) = run::<Brand, _>(rt, rt.alloc(), BlankPair::new(rt.alloc())?)?;
    println!(rt; "{} lines of {} bytes were taken", found.lines, found.bytes)?;
    println!(rt; "{} were published", outcome.published)?;
    Ok(())
}
