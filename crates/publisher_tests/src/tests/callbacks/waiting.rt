//! What others do while a callback runs.
ghost use Rattle.std.specs.Prelude.{◌≡◌};
ghost use Rattle.flow_rules.specs.Callback.{heard_nothing};
ghost use Rattle.publisher.specs.Blanks.{AreBlanksOf};

use super::acting::{Act, Acting};
use super::{Count, Flag};
use publisher::{BlankPair, Ledgers};
use std::alloc::{AllocError, Global};
use std::sync::atomic::Ordering::SeqCst;
use std::sync::atomic::{AtomicBool, AtomicU64};
use std::sync::{Arc, Wait};
use std::test::Fail;
use std::thread::Threads;
use test_kit::wait_for;
use test_stand::{Stand, name_of};

// Waits in its callback until it may go on, and counts if it was let go on.
#[derive(Drop)]
struct Waits {
    is_in: Flag,
    may_go: Flag,
    went_on: Count,
}

impl Act for Waits {
    fn act(&mut self) {
        self.is_in.store(true, SeqCst);
        if wait_for(&self.may_go) {
            self.went_on.fetch_add(1, SeqCst);
        }
    }
}

impl Waits {
    // One that shares all of that with another.
    fn share(&self) -> Result<Waits, AllocError> {
        Ok(Waits {
            is_in: Arc::try_clone(&self.is_in)?,
            may_go: Arc::try_clone(&self.may_go)?,
            went_on: Arc::try_clone(&self.went_on)?,
        })
    }
}

// What the calls of a publisher answer while a callback runs, and how many callbacks had gone on before the last of
// them returned, and at the end. A callback goes on only once it is let, after all calls.
pub fn call_all<L: Ledgers + Send + Sync + 'static, R: Threads + Wait + Copy + Send + 'static>(
    rt: R,
    alloc: Global,
    blanks: BlankPair,
) -> Result<String, Fail>
    requires blanks { AreBlanksOf blanks L.publications L.drops L.history }
{
    let waits = new_waits(alloc)?;
    let mut stand: Stand<L, Acting<Waits>> = Stand::new(rt, alloc, blanks, 1, 8)?;
    let answers = answers(&rt, &mut stand, &waits);
    let before = waits.went_on.load(SeqCst);
    waits.may_go.store(true, SeqCst);
    let _ = stand.end(&rt);
    let after = waits.went_on.load(SeqCst);
    Ok(format!(in alloc; "{}; {before} and {after} went on", answers?)?)
}

fn new_waits(alloc: Global) -> Result<Waits, AllocError> {
    Ok(Waits {
        is_in: Arc::new(alloc, AtomicBool::new(false))?,
        may_go: Arc::new(alloc, AtomicBool::new(false))?,
        went_on: Arc::new(alloc, AtomicU64::new(0))?,
    })
}

// Has a callback wait, makes each call then, and says what it answers.
fn answers<L: Ledgers + Send + Sync + 'static, R: Wait>(
    rt: &R,
    stand: &mut Stand<L, Acting<Waits>>,
    waits: &Waits,
) -> Result<String, Fail> {
    stand.subscribe(rt, "a", Acting::new(waits.share()?))?;
    stand.request(rt, 0, 1)?;
    stand.submit(rt, b"x")?;
    if !wait_for(&waits.is_in) {
        return Err(Fail::new("nothing is told"));
    }
    call_each(rt, stand, Acting::new(waits.share()?))
}

fn call_each<L: Ledgers + Send + Sync + 'static, R: Wait>(
    rt: &R,
    stand: &mut Stand<L, Acting<Waits>>,
    act: Acting<Waits>,
) -> Result<String, Fail>
    requires { act ≡ heard_nothing }
{
    stand.request(rt, 0, 1)?;
    let lag = stand.submit(rt, b"y")?;
    let answer = stand.offer(rt, b"z")?;
    stand.subscribe(rt, "b", act)?;
    let looks = looks(stand, rt)?;
    stand.cancel(rt, 1)?;
    stand.close(rt)?;
    Ok(format!(in stand.alloc; "lag {lag}, answer {answer}, {looks}")?)
}

// What is asked of all subscriptions.
fn looks<L: Ledgers + Send + Sync + 'static, R: Wait>(
    stand: &Stand<L, Acting<Waits>>,
    rt: &R,
) -> Result<String, Fail> {
    let lag = stand.publisher.estimate_maximum_lag(rt);
    let live = stand.publisher.number_of_subscribers(rt);
    let is_there = stand.publisher.is_subscribed(rt, name_of("a")?);
    Ok(format!(in stand.alloc; "lag {lag} of {live}, a {is_there}")?)
}
