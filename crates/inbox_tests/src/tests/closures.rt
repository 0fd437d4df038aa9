//! A closure that is called with each item.
ghost use Rattle.publisher.specs.Blanks.{AreBlanksOf};
ghost use Rattle.std.specs.Prelude.{◌≡◌, []};

use flow_rules::{Answer, How, Item, Listener, Watching};
use publisher::{BlankPair, Ledgers, Look, WatchEach};
use std::alloc::Global;
use std::marker::Brand;
use std::sync::atomic::AtomicU64;
use std::sync::atomic::Ordering::SeqCst;
use std::sync::{Arc, Wait};
use std::test::Fail;
use std::thread::Threads;
use test_stand::Stand;

// How the subscription of a listener has ended that is told four texts.
fn end_of<
    L: Ledgers + Send + Sync + 'static,
    B: Listener + Send + 'static,
    R: Threads + Wait + Copy + Send + Sync + 'static,
>(rt: R, alloc: Global, blanks: BlankPair, listener: B) -> Result<Option<How>, Fail>
    requires blanks { AreBlanksOf blanks L.publications L.drops L.history }
    requires untold { B.told listener ≡ [] }
    requires unheard { B.replied listener ≡ [] }
{
    let mut stand: Stand<L, B> = Stand::new(rt, alloc, blanks, 1, 8)?;
    let told = tell_four(&rt, &mut stand, listener);
    let outcome = stand.end(&rt);
    told?;
    Ok(outcome.lanes.first().and_then(|left| left.lane.ending))
}

fn tell_four<L: Ledgers + Send + Sync + 'static, B: Listener + Send + 'static, R: Wait>(
    rt: &R,
    stand: &mut Stand<L, B>,
    listener: B,
) -> Result<(), Fail>
    requires untold { B.told listener ≡ [] }
    requires unheard { B.replied listener ≡ [] }
{
    stand.subscribe(rt, "a", listener)?;
    for text in ["a", "bc", "def", "ghij"] {
        stand.submit(rt, text.as_bytes())?;
    }
    stand.wait_end(rt, 0);
    Ok(())
}

#[test]
fn a_closure_is_called_with_each_item(rt: HostRuntime) -> Result<(), Fail> {
    let alloc = rt.alloc();
    let counted = Arc::new(alloc, AtomicU64::new(0))?;
    let bytes = Arc::try_clone(&counted)?;
    let look: Look = Box::new(alloc, move |item: &Item| {
        bytes.fetch_add(item.text.len() as u64, SeqCst);
        if item.seq == 2 {
            Answer::Cancel
        } else {
            Answer::Go
        }
    })?;
    let listener = Watching::new(WatchEach::new(look));
    let blanks = BlankPair::new(rt.alloc())?;
    let ending = end_of::<Brand, _, _>(rt, alloc, blanks, listener)?;
    assert!(rt; ending == Some(How::Cancelled), "{ending:?}");
    assert!(rt; counted.load(SeqCst) == 6);
    Ok(())
}
