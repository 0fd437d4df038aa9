//! Publishes two words to one subscriber.
#![tactic(auto)]

ghost use Rattle.publisher.specs.Blanks.{AreBlanksOf};

use flow_rules::{Name, Tally};
use publisher::{
    BlankPair, HandedIn, Ledgers, Outcome, Publisher, PublisherOptions, SharedLedgers,
};
use std::alloc::Global;
use std::marker::Brand;
use std::sync::Wait;
use std::thread::Threads;

/// Subscribes a counter, publishes to it, and closes. What has to go back to the publisher is handed in.
fn greet<L: SharedLedgers, R: Wait>(
    rt: &R,
    alloc: Global,
    publisher: &Publisher<L, Tally>,
    handed_in: &mut HandedIn<L, Tally>,
) -> anyhow::Result<()> {
    let name = Name::parse("counter")?;
    let mut counter = publisher.subscribe(rt, alloc, name, Tally::new())?;
    counter.request(rt, 9)?;
    let mut note = publisher.note();
    let mut submitter = publisher.submitter(rt, alloc, &mut note)?;
    submitter.submit(rt, alloc, b"hello")?;
    submitter.submit(rt, alloc, b"world")?;
    publisher.close(rt, alloc, &mut note)?;
    counter.wait_end(rt);
    handed_in.subscriptions.push(counter)?;
    handed_in.submitters.push(submitter)?;
    Ok(())
}

/// Makes a publisher, greets, and ends the publisher in any case. The two ledgers name the publisher.
fn hello<L: Ledgers + Send + Sync + 'static, R: Threads + Wait + Copy + Send + 'static>(
    rt: R,
    alloc: Global,
    blanks: BlankPair,
) -> anyhow::Result<Outcome<Tally>>
    requires { AreBlanksOf blanks L.publications L.drops L.history }
{
    let options = PublisherOptions::default();
    let publisher: Publisher<L, Tally> = Publisher::with_options(rt, alloc, blanks, options)?;
    let mut handed_in = HandedIn::none(alloc);
    let greeted = greet(&rt, alloc, &publisher, &mut handed_in);
    let finished = handed_in.finish(&rt, alloc, publisher);
    greeted?;
    Ok(finished?)
}

fn main(rt: HostRuntime) -> anyhow::Result<()> {
    let outcome = hello::<Brand, _>(rt, rt.alloc(), BlankPair::new(rt.alloc())?)?;
    for lane in outcome.lanes.iter() {
        if let Some(counter) = &lane.lane.subscriber {
            println!(rt; "{} was told {} items", lane.name, counter.items())?;
        }
    }
    Ok(())
}
