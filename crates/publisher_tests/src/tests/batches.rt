//! Several texts that one call publishes.
mod ending;
mod waking;

ghost use Rattle.publisher.specs.Blanks.{AreBlanksOf};

use ending::end_amid_a_batch;
use flow_rules::{Collector, Ending, How, Refusal, Signal, Subscriber, Text};
use publisher::{BlankPair, Ledgers, Publisher, Submitter, Subscription, Unsent};
use std::alloc::Global;
use std::marker::Brand;
use std::sync::Wait;
use std::test::Fail;
use std::thread;
use std::thread::Threads;
use test_stand::Stand;
use waking::wake_several;

// How often a thread looks for a lag before it gives up.
const MOST_LOOKS: u64 = 10_000_000;

// This many texts of one byte, from that of this letter on.
fn texts_from(alloc: Global, letter: u8, many: u8) -> Result<Vec<Text>, Fail> {
    let mut texts = Vec::new(alloc);
    for k in 0..many {
        texts.push(Text::new(alloc, &[letter.saturating_add(k)])?)?;
    }
    Ok(texts)
}

// Waits until this many items wait for a subscription, but not for ever; and then closes its publisher.
fn close_at<L: Ledgers + Send + Sync + 'static, R: Wait>(
    rt: &R,
    alloc: Global,
    publisher: &Publisher<L, Collector>,
    subscription: &mut Subscription<L, Collector>,
    lag: u64,
) -> Result<(), Refusal> {
    for _ in 0..MOST_LOOKS {
        if subscription.lag(rt) >= lag {
            break;
        }
        thread::yield_now();
    }
    let mut note = publisher.note();
    publisher.close(rt, alloc, &mut note)
}

// What a call says that publishes several texts.
fn said(alloc: Global, answer: Result<u64, Unsent>) -> Result<String, Fail> {
    match answer {
        Ok(lag) => Ok(format!(in alloc; "lag {lag}; ")?),
        Err(
            Unsent {
                published,
                refusal: Refusal::Closed(Ending::Normal),
            },
        ) => Ok(format!(in alloc; "{published} before the close; ")?),
        Err(Unsent { published, refusal }) => Ok(format!(in alloc;
            "{published} before {refusal}; "
        )?),
    }
}

// What calls say that publish no text, two and then ten into a buffer of four, while another thread closes; and one
// that comes after it.
fn submit_all_and_close<L: Ledgers + Send + Sync + 'static, R: Threads + Wait + Sync>(
    rt: &R,
    alloc: Global,
    publisher: &Publisher<L, Collector>,
    submitter: &mut Submitter<L, Collector>,
    subscription: &mut Subscription<L, Collector>,
) -> Result<String, Fail> {
    let none = texts_from(alloc, b'a', 0)?;
    let two = texts_from(alloc, b'a', 2)?;
    let ten = texts_from(alloc, b'c', 10)?;
    let mut report = said(alloc, submitter.submit_all(rt, alloc, none.as_slice()))?;
    report.push_str(&said(alloc, submitter.submit_all(rt, alloc, two.as_slice()))?)?;
    let rest = ten.as_slice();
    let (partly, closed) = thread::join(
        rt,
        || submitter.submit_all(rt, alloc, rest),
        || close_at(rt, alloc, publisher, subscription, 4),
    );
    closed?;
    report.push_str(&said(alloc, partly)?)?;
    report.push_str(&said(alloc, submitter.submit_all(rt, alloc, rest))?)?;
    report.push_str(&said(alloc, submitter.submit_all(rt, alloc, none.as_slice()))?)?;
    Ok(report)
}

// What was told, a word a signal.
fn told_to(alloc: Global, subscriber: &Collector) -> Result<String, Fail> {
    let mut words = String::new(alloc);
    for signal in subscriber.told() {
        match signal {
            Signal::Next(item) => {
                let byte = item.text.as_bytes().first().copied().unwrap_or(b'?');
                words.push_str(&format!(in alloc; "{} ", char::from(byte))?)?;
            }
            Signal::Complete => words.push_str("complete")?,
            _ => {}
        }
    }
    Ok(words)
}

// What the calls say, and what the subscriber is told that requests five items after them.
fn publish_and_read<
    L: Ledgers + Send + Sync + 'static,
    R: Threads + Wait + Copy + Send + Sync + 'static,
>(rt: R, alloc: Global, blanks: BlankPair) -> Result<String, Fail>
    requires blanks { AreBlanksOf blanks L.publications L.drops L.history }
{
    let mut stand: Stand<L, Collector> = Stand::new(rt, alloc, blanks, 1, 4)?;
    let report = publish_several(&rt, &mut stand);
    let finished = stand.finish(&rt);
    let mut report = report?;
    let Ok(outcome) = finished else {
        return Err(Fail::new("finish refuses"));
    };
    for left in outcome.lanes.iter() {
        if let Some(subscriber) = &left.lane.subscriber {
            report.push_str(&told_to(alloc, subscriber)?)?;
        }
    }
    Ok(report)
}

fn publish_several<L: Ledgers + Send + Sync + 'static, R: Threads + Wait + Sync>(
    rt: &R,
    stand: &mut Stand<L, Collector>,
) -> Result<String, Fail> {
    stand.subscribe(rt, "a", Collector::new(stand.alloc))?;
    let (Some(submitter), Some(subscription)) = (
        stand.submitters.first_mut(),
        stand.subscriptions.first_mut(),
    ) else {
        return Err(Fail::new("there is no submitter or no subscription"));
    };
    let report = submit_all_and_close(rt, stand.alloc, &stand.publisher, submitter, subscription)?;
    subscription.request(rt, 5)?;
    subscription.wait_end(rt);
    Ok(report)
}

#[test]
fn several_texts_are_published_by_one_call(rt: HostRuntime) -> Result<(), Fail> {
    let blanks = BlankPair::new(rt.alloc())?;
    let told = publish_and_read::<Brand, _>(rt, rt.alloc(), blanks)?;
    let wanted = "lag 0; lag 2; 2 before the close; 0 before the close; 0 before the close; \
        a b c d complete";
    assert!(rt; told.as_str() == wanted, "{told}");
    Ok(())
}

#[test]
fn a_call_wakes_several(rt: HostRuntime) -> Result<(), Fail> {
    let blanks = BlankPair::new(rt.alloc())?;
    let told = wake_several::<Brand, _>(rt, rt.alloc(), blanks)?;
    assert!(rt;
        told.as_str() == "lag 4; told all: [true, true, true]",
        "{told}"
    );
    Ok(())
}

#[test]
fn one_that_ends_amid_a_batch_gets_no_more(rt: HostRuntime) -> Result<(), Fail> {
    for round in 0..50 {
        let blanks = BlankPair::new(rt.alloc())?;
        let ends = end_amid_a_batch::<Brand, _>(rt, rt.alloc(), blanks)?;
        let wanted = [(Some(How::Cancelled), 10), (Some(How::Completed), 40)];
        assert!(rt;
            ends.as_slice() == wanted.as_slice(),
            "they ended otherwise in round {round}"
        );
    }
    Ok(())
}
