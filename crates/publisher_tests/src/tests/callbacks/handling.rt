//! A handler of drops for whom room is made while it is asked.
ghost use Rattle.std.specs.Prelude.{◌≡◌};
ghost use Rattle.flow_rules.specs.Callback.{heard_nothing};
ghost use Rattle.publisher.specs.Blanks.{AreBlanksOf};

use super::acting::{Act, Acting};
use super::{Count, Flag};
use flow_rules::{DropHandler, Item, Name, Refusal};
use publisher::{BlankPair, Ledgers, Submitter, Subscription};
use std::alloc::{AllocError, Global};
use std::sync::atomic::Ordering::SeqCst;
use std::sync::atomic::{AtomicBool, AtomicU64};
use std::sync::{Arc, Wait};
use std::test::Fail;
use std::thread;
use std::thread::Threads;
use test_kit::{comes_to, wait_for};
use test_stand::Stand;

// Counts the items that it is told.
#[derive(Drop)]
struct Counts(Count);

impl Act for Counts {
    fn act(&mut self) {
        self.0.fetch_add(1, SeqCst);
    }
}

// Shared by who is asked about a drop, who requests then, and who counts the items that were told.
#[derive(Drop)]
struct Signs {
    is_asked: Flag,
    told: Count,
}

impl Signs {
    fn new(alloc: Global) -> Result<Signs, AllocError> {
        Ok(Signs {
            is_asked: Arc::new(alloc, AtomicBool::new(false))?,
            told: Arc::new(alloc, AtomicU64::new(0))?,
        })
    }

    fn share(&self) -> Result<Signs, AllocError> {
        Ok(Signs {
            is_asked: Arc::try_clone(&self.is_asked)?,
            told: Arc::try_clone(&self.told)?,
        })
    }
}

// Raises a flag, and has the offer tried once more if an item was told then.
impl DropHandler for Signs {
    fn on_drop(&mut self, _: Name, _: &Item) -> bool {
        self.is_asked.store(true, SeqCst);
        comes_to(&self.told, 1)
    }
}

// What the second of two offers answers, at a buffer of one place, when another thread requests an item once the
// handler is asked.
pub fn offer_twice<
    L: Ledgers + Send + Sync + 'static,
    R: Threads + Wait + Copy + Send + Sync + 'static,
>(rt: R, alloc: Global, blanks: BlankPair) -> Result<i64, Fail>
    requires blanks { AreBlanksOf blanks L.publications L.drops L.history }
{
    let signs = Signs::new(alloc)?;
    let act = Acting::new(Counts(Arc::try_clone(&signs.told)?));
    let mut stand: Stand<L, Acting<Counts>> = Stand::new(rt, alloc, blanks, 1, 1)?;
    let answer = offer_after_one(&rt, &mut stand, act, &signs);
    let _ = stand.end(&rt);
    answer
}

fn offer_after_one<L: Ledgers + Send + Sync + 'static, R: Threads + Wait + Sync>(
    rt: &R,
    stand: &mut Stand<L, Acting<Counts>>,
    act: Acting<Counts>,
    signs: &Signs,
) -> Result<i64, Fail>
    requires { act ≡ heard_nothing }
{
    stand.subscribe(rt, "a", act)?;
    stand.submit(rt, b"x")?;
    let (Some(submitter), Some(subscription)) = (
        stand.submitters.first_mut(),
        stand.subscriptions.first_mut(),
    ) else {
        return Err(Fail::new("there is no submitter or no subscription"));
    };
    Ok(offer_and_request(rt, stand.alloc, submitter, subscription, signs)?)
}

// One thread offers, and another one requests once the handler of the first is asked.
fn offer_and_request<L: Ledgers + Send + Sync + 'static, R: Threads + Wait + Sync>(
    rt: &R,
    alloc: Global,
    submitter: &mut Submitter<L, Acting<Counts>>,
    subscription: &mut Subscription<L, Acting<Counts>>,
    signs: &Signs,
) -> Result<i64, Refusal> {
    let (answer, ()) = thread::join(
        rt,
        || offer(rt, alloc, submitter, signs),
        || request_once_asked(rt, subscription, signs),
    );
    answer
}

fn offer<L: Ledgers + Send + Sync + 'static, R: Wait>(
    rt: &R,
    alloc: Global,
    submitter: &mut Submitter<L, Acting<Counts>>,
    signs: &Signs,
) -> Result<i64, Refusal> {
    let mut handler: Box<dyn DropHandler> = Box::new(alloc, signs.share()?)?;
    submitter.offer(rt, alloc, b"y", Some(&mut handler))
}

fn request_once_asked<L: Ledgers + Send + Sync + 'static, R: Wait>(
    rt: &R,
    subscription: &mut Subscription<L, Acting<Counts>>,
    signs: &Signs,
) {
    if wait_for(&signs.is_asked) {
        let _ = subscription.request(rt, 1);
    }
}
