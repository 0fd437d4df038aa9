//! A subscription that ends in the middle of a call that publishes several texts.
ghost use Rattle.publisher.specs.Blanks.{AreBlanksOf};

use super::texts_from;
use flow_rules::{Answer, How};
use publisher::{BlankPair, Ledgers};
use std::alloc::Global;
use std::sync::Wait;
use std::test::Fail;
use std::thread::Threads;
use test_kit::Answering;
use test_stand::Stand;

// How many texts one call publishes, into buffers of four.
const TEXTS: u8 = 40;

// How many items the one is told that ends amid them.
const FIRST: u32 = 10;

// Publishes texts by one call to a subscriber that cancels at the tenth and to one that takes all, and closes.
fn publish_to_both<L: Ledgers + Send + Sync + 'static, R: Wait>(
    rt: &R,
    stand: &mut Stand<L, Answering>,
) -> Result<(), Fail> {
    stand.subscribe(rt, "a", Answering::after(FIRST, Answer::Cancel))?;
    stand.subscribe(rt, "b", Answering::after(FIRST, Answer::Go))?;
    stand.request(rt, 0, i64::MAX)?;
    stand.request(rt, 1, i64::MAX)?;
    let texts = texts_from(stand.alloc, b'a', TEXTS)?;
    let Some(submitter) = stand.submitters.first_mut() else {
        return Err(Fail::new("there is no submitter"));
    };
    let _ = submitter.submit_all(rt, stand.alloc, texts.as_slice())?;
    stand.close(rt)?;
    stand.wait_end(rt, 0);
    stand.wait_end(rt, 1);
    Ok(())
}

// How each ended, and how many items it was told.
pub fn end_amid_a_batch<
    L: Ledgers + Send + Sync + 'static,
    R: Threads + Wait + Copy + Send + Sync + 'static,
>(rt: R, alloc: Global, blanks: BlankPair) -> Result<Vec<(Option<How>, u64)>, Fail>
    requires blanks { AreBlanksOf blanks L.publications L.drops L.history }
{
    let mut stand: Stand<L, Answering> = Stand::new(rt, alloc, blanks, 1, 4)?;
    let published = publish_to_both(&rt, &mut stand);
    let outcome = stand.end(&rt);
    published?;
    let mut ends = Vec::new(alloc);
    for left in outcome.lanes.iter() {
        ends.push((left.lane.ending, left.lane.given))?;
    }
    Ok(ends)
}
