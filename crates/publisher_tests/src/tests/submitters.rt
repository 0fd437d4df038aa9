//! How many submitters a publisher has at most.
ghost use Rattle.publisher.specs.Blanks.{AreBlanksOf};

use flow_rules::{Refusal, Tally};
use publisher::{BlankPair, Ledgers, MOST_SOURCES};
use std::alloc::Global;
use std::marker::Brand;
use std::sync::Wait;
use std::test::Fail;
use std::thread::Threads;
use test_stand::Stand;

// Why a publisher that has as many submitters as there may be refuses one more.
fn refuse_one_more<L: Ledgers + Send + Sync + 'static, R: Threads + Wait + Copy + Send + 'static>(
    rt: R,
    alloc: Global,
    blanks: BlankPair,
) -> Result<Option<Refusal>, Fail>
    requires blanks { AreBlanksOf blanks L.publications L.drops L.history }
{
    let mut stand: Stand<L, Tally> = Stand::new(rt, alloc, blanks, 1, 1)?;
    for _ in 1..MOST_SOURCES {
        stand.add_submitter(&rt)?;
    }
    let mut note = stand.publisher.note();
    let refusal = stand.publisher.submitter(&rt, alloc, &mut note).err();
    let _ = stand.end(&rt);
    Ok(refusal)
}

// Run from outside, too, with each request for memory refused: those of the last call come before a look at how many
// submitters there are.
#[test]
fn one_submitter_more_than_there_may_be_is_refused(rt: HostRuntime) -> Result<(), Fail> {
    let blanks = BlankPair::new(rt.alloc())?;
    let refusal = refuse_one_more::<Brand, _>(rt, rt.alloc(), blanks)?;
    if refusal == Some(Refusal::NoMemory) {
        return Err(Fail::new("error: NoMemory, of one submitter more"));
    }
    assert!(rt; refusal == Some(Refusal::TooMany), "{refusal:?}");
    Ok(())
}
