//! Listeners of different types on one publisher.
ghost use Rattle.std.specs.Prelude.{◌≡◌, []};
ghost use Rattle.publisher.specs.Blanks.{AreBlanksOf};

use super::Count;
use super::acting::Act;
use flow_rules::{Answer, Fault, Item, Listener, Watch};
use publisher::{BlankPair, Ledgers};
use std::alloc::Global;
use std::sync::Wait;
use std::sync::atomic::Ordering::SeqCst;
use std::test::Fail;
use std::thread::Threads;
use test_stand::Stand;

// Counts an item as ten, and requests two.
#[derive(Drop)]
pub struct Tens(pub Count);

impl Watch for Tens {
    fn on_start(&mut self) -> Answer {
        Answer::Request(2)
    }

    fn on_item(&mut self, _item: &Item) -> Answer {
        self.0.fetch_add(10, SeqCst);
        Answer::Go
    }

    fn on_end(&mut self, _fault: Option<Fault>) {}
}

// Counts an item as one.
#[derive(Drop)]
pub struct Ones(pub Count);

impl Act for Ones {
    fn act(&mut self) {
        self.0.fetch_add(1, SeqCst);
    }
}

// What two listeners count of two items that are published: one that requests by its answers, and one for whom one item
// is requested.
pub fn mix<
    L: Ledgers + Send + Sync + 'static,
    B: Listener + Send + 'static,
    R: Threads + Wait + Copy + Send + 'static,
>(rt: R, alloc: Global, blanks: BlankPair, tens: B, ones: B) -> Result<(), Fail>
    requires blanks { AreBlanksOf blanks L.publications L.drops L.history }
    requires untold { (B.told tens ≡ []) × (B.told ones ≡ []) }
    requires unheard { (B.replied tens ≡ []) × (B.replied ones ≡ []) }
{
    let mut stand: Stand<L, B> = Stand::new(rt, alloc, blanks, 2, 2)?;
    let published = publish_two(&rt, &mut stand, tens, ones);
    let _ = stand.end(&rt);
    published
}

fn publish_two<L: Ledgers + Send + Sync + 'static, B: Listener + Send + 'static, R: Wait>(
    rt: &R,
    stand: &mut Stand<L, B>,
    tens: B,
    ones: B,
) -> Result<(), Fail>
    requires untold { (B.told tens ≡ []) × (B.told ones ≡ []) }
    requires unheard { (B.replied tens ≡ []) × (B.replied ones ≡ []) }
{
    stand.subscribe(rt, "a", tens)?;
    stand.subscribe(rt, "b", ones)?;
    stand.request(rt, 1, 1)?;
    stand.submit(rt, b"x")?;
    stand.submit(rt, b"y")?;
    Ok(())
}
