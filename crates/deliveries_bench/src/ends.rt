//! What the runs share: the submitters, what each publishes, and the end of the publisher. A run counts only if every subscriber was told
//! every item.
ghost use Rattle.std.specs.Prelude.{◌≡◌};

use flow_rules::{How, Listener, Text};
use publisher::{Ledgers, Outcome, Publisher, Submitter, Subscription, finish};
use std::alloc::Global;
use std::sync::Wait;

/// The names of subscribers, as many as there may be.
pub const NAMES: [&str; 8] = ["a", "b", "c", "d", "e", "f", "g", "h"];

/// Makes this many submitters.
pub fn make_submitters<L: Ledgers + Send + Sync + 'static, B: Listener + Send + 'static, R: Wait>(
    rt: &R,
    alloc: Global,
    publisher: &Publisher<L, B>,
    count: usize,
) -> Option<Vec<Submitter<L, B>>> {
    let mut submitters = Vec::new(alloc);
    for _ in 0..count {
        let submitter = publisher.submitter(rt, alloc, &mut publisher.note()).ok()?;
        submitters.push(submitter).ok()?;
    }
    Some(submitters)
}

/// Publishes this many items, up to one that is refused: one by one, or by calls of `submit_all` with so many texts.
pub fn send_all<L: Ledgers + Send, B: Listener + Send, R: Wait>(
    rt: &R,
    alloc: Global,
    submitter: &mut Submitter<L, B>,
    text: &[u8],
    items: usize,
    batch: usize,
) {
    if batch < 2 {
        send_singly(rt, alloc, submitter, text, items);
    } else if send_batches(rt, alloc, submitter, text, items / batch, batch).is_some() {
        send_singly(rt, alloc, submitter, text, items % batch);
    }
}

/// Publishes this many batches of so many items, whose texts are made before each, up to one that is refused.
fn send_batches<L: Ledgers + Send, B: Listener + Send, R: Wait>(
    rt: &R,
    alloc: Global,
    submitter: &mut Submitter<L, B>,
    text: &[u8],
    batches: usize,
    batch: usize,
) -> Option<()> {
    let mut texts = Vec::with_capacity(alloc, batch).ok()?;
    for _ in 0..batches {
        texts.clear();
        fill(alloc, &mut texts, text, batch)?;
        submitter.submit_all(rt, alloc, texts.as_slice()).ok()?;
    }
    Some(())
}

/// Adds this many texts of these bytes.
fn fill(alloc: Global, texts: &mut Vec<Text>, text: &[u8], many: usize) -> Option<()> {
    if text.len() > Text::LONGEST {
        return None;
    }
    for _ in 0..many {
        texts.push(Text::new(alloc, text).ok()?).ok()?;
    }
    Some(())
}

/// Publishes this many items one by one, up to one that is refused.
pub fn send_singly<L: Ledgers + Send, B: Listener + Send, R: Wait>(
    rt: &R,
    alloc: Global,
    submitter: &mut Submitter<L, B>,
    text: &[u8],
    items: usize,
) {
    for _ in 0..items {
        if submitter.submit(rt, alloc, text).is_err() {
            return;
        }
    }
}

/// Closes and ends the publisher. Tells whether each subscriber was told this many items, which were all.
pub fn end_all<L: Ledgers + Send + Sync + 'static, B: Listener + Send + 'static, R: Wait>(
    rt: &R,
    alloc: Global,
    publisher: Publisher<L, B>,
    submitters: Vec<Submitter<L, B>>,
    subscriptions: Vec<Subscription<L, B>>,
    items: u64,
) -> bool {
    let subscribers = subscriptions.len();
    let is_closed = publisher.close(rt, alloc, &mut publisher.note()).is_ok();
    match finish(rt, alloc, publisher, submitters, subscriptions) {
        Ok(outcome) => is_closed && is_whole(&outcome, subscribers, items),
        Err(_) => false,
    }
}

/// Tells whether each of this many subscribers was told this many items, and completed.
pub fn is_whole<B>(outcome: &Outcome<B>, subscribers: usize, items: u64) -> bool {
    let mut all = outcome.drained && outcome.published == items;
    for left in outcome.lanes.iter() {
        all &= matches!(left.lane.ending, Some(How::Completed)) && left.lane.given == items;
    }
    all && outcome.lanes.len() == subscribers
}
