//! Two callbacks that wait for one another.
ghost use Rattle.std.specs.Prelude.{◌≡◌, IfOk};
ghost use Rattle.flow_rules.specs.Callback.{heard_nothing};
ghost use Rattle.publisher.specs.Blanks.{AreBlanksOf};

use super::acting::{Act, Acting};
use super::{Count, Flag};
use publisher::{BlankPair, Ledgers};
use std::alloc::{AllocError, Global};
use std::sync::atomic::Ordering::SeqCst;
use std::sync::atomic::{AtomicBool, AtomicU64};
use std::sync::{Arc, Wait};
use std::test::Fail;
use std::thread::Threads;
use test_kit::wait_for;
use test_stand::Stand;

// Raises its own flag, waits for the other one's, and counts if it sees that.
#[derive(Drop)]
struct Meets {
    mine: Flag,
    other: Flag,
    met: Count,
}

impl Act for Meets {
    fn act(&mut self) {
        self.mine.store(true, SeqCst);
        if wait_for(&self.other) {
            self.met.fetch_add(1, SeqCst);
        }
    }
}

// One that meets another.
fn one_that_meets(mine: &Flag, other: &Flag, met: &Count) -> Result<Acting<Meets>, AllocError>
    ensures { IfOk result (λ acting. acting ≡ heard_nothing) }
{
    Ok(Acting::new(Meets {
        mine: Arc::try_clone(mine)?,
        other: Arc::try_clone(other)?,
        met: Arc::try_clone(met)?,
    }))
}

// How many of two subscribers that are told the same item meet the other one in their callbacks.
pub fn meet<L: Ledgers + Send + Sync + 'static, R: Threads + Wait + Copy + Send + 'static>(
    rt: R,
    alloc: Global,
    blanks: BlankPair,
) -> Result<u64, Fail>
    requires blanks { AreBlanksOf blanks L.publications L.drops L.history }
{
    let one = Arc::new(alloc, AtomicBool::new(false))?;
    let other = Arc::new(alloc, AtomicBool::new(false))?;
    let met = Arc::new(alloc, AtomicU64::new(0))?;
    let (a, b) = (
        one_that_meets(&one, &other, &met)?,
        one_that_meets(&other, &one, &met)?,
    );
    let mut stand: Stand<L, Acting<Meets>> = Stand::new(rt, alloc, blanks, 2, 1)?;
    let published = publish_to_both(&rt, &mut stand, a, b);
    let _ = stand.end(&rt);
    published?;
    Ok(met.load(SeqCst))
}

fn publish_to_both<L: Ledgers + Send + Sync + 'static, R: Wait>(
    rt: &R,
    stand: &mut Stand<L, Acting<Meets>>,
    a: Acting<Meets>,
    b: Acting<Meets>,
) -> Result<(), Fail>
    requires { (a ≡ heard_nothing) × (b ≡ heard_nothing) }
{
    stand.subscribe(rt, "a", a)?;
    stand.subscribe(rt, "b", b)?;
    stand.request(rt, 0, 1)?;
    stand.request(rt, 1, 1)?;
    stand.submit(rt, b"x")?;
    Ok(())
}
