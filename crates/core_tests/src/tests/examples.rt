//! The examples of the crates' comments.
use feed_core::{Desk, Outlook, Seen};
use flow_rules::{
    Answer, Collector, Feed, Item, NoMemory, Put, Refusal, Subscriber, Tally, Text, audit, capacity,
};
use std::alloc::Global;
use std::test::Fail;

/// The example of `flow_rules`.
fn is_told_a_whole_life(alloc: Global) -> Result<bool, NoMemory> {
    let text = Text::new(alloc, b"x")?;
    let item = Item {
        source: 0,
        seq: 0,
        serial: 0,
        text,
    };
    let mut collector = Collector::asking(alloc, 1);
    let first = Subscriber::on_subscribe(&mut collector)?;
    let next = Subscriber::on_next(&mut collector, &item)?;
    let _ = Subscriber::on_complete(&mut collector)?;
    Ok(first == Answer::Request(1) && next == Answer::Go && audit(collector.told()))
}

/// The example of `feed_core`.
fn is_given_once_requested(alloc: Global, item: Item) -> Result<bool, Refusal> {
    let mut seen = Seen::new(alloc)?;
    let Ok(mut desk) = Desk::new(alloc, capacity(4)?, Tally::new()) else {
        return Err(Refusal::NoMemory);
    };
    let put = desk.put(item);
    let greeted = desk.turn(&mut seen);
    let woken = desk.request(1);
    if !desk.owes() {
        return Ok(false);
    }
    let served = desk.turn(&mut seen);
    let is_put = put
        == Put::Accepted {
            lag: 1,
            start: None,
        };
    let is_woken = greeted == Outlook::Resting && woken == Some(());
    Ok(is_put && is_woken && served == Outlook::Resting && desk.subscriber().items() == 1)
}

#[test]
fn the_examples_do_what_they_say(rt: HostRuntime) -> Result<(), Fail> {
    let alloc = rt.alloc();
    assert!(rt; is_told_a_whole_life(alloc)?);
    assert!(rt; is_given_once_requested(alloc, crate::item_with(alloc, b"x")?)?);
    Ok(())
}
