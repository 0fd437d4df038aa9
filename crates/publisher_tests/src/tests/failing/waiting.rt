//! A handler that waits, and what others see and do meanwhile.
ghost use Rattle.publisher.specs.Blanks.{AreBlanksOf};

use flow_rules::{Answer, FailHandler, Name};
use publisher::{BlankPair, Ledgers, Outcome};
use std::alloc::{AllocError, Global};
use std::sync::atomic::AtomicBool;
use std::sync::atomic::Ordering::SeqCst;
use std::sync::{Arc, Wait};
use std::test::Fail;
use std::thread::Threads;
use test_kit::{Answering, wait_for};
use test_stand::Stand;

// Says that it is called, and waits until it may go on.
#[derive(Drop)]
struct Waits {
    is_in: Arc<AtomicBool, Global>,
    may_go: Arc<AtomicBool, Global>,
    // Whether it was let go on.
    went_on: bool,
    last: Option<(Name, u32)>,
}

impl FailHandler for Waits {
    ghost last = { λ w. w.last };

    fn on_fail(&mut self, name: Name, code: u32) {
        self.is_in.store(true, SeqCst);
        self.went_on = wait_for(&self.may_go);
        self.last = Some((name, code));
    }

    fn last(&self) -> Option<(Name, u32)> {
        self.last
    }
}

impl Waits {
    fn new(alloc: Global) -> Result<Waits, AllocError> {
        Ok(Waits {
            is_in: Arc::new(alloc, AtomicBool::new(false))?,
            may_go: Arc::new(alloc, AtomicBool::new(false))?,
            went_on: false,
            last: None,
        })
    }

    // One that shares both flags with another.
    fn share(&self) -> Result<Waits, AllocError> {
        Ok(Waits {
            is_in: Arc::try_clone(&self.is_in)?,
            may_go: Arc::try_clone(&self.may_go)?,
            went_on: false,
            last: None,
        })
    }

    // Whether it went on, and of what it heard.
    fn report(&self, alloc: Global) -> Result<String, AllocError> {
        let went_on = self.went_on;
        match self.last {
            Some((name, code)) => Ok(format!(in alloc; "went on {went_on}, last {name} {code}")?),
            None => Ok(format!(in alloc; "went on {went_on}")?),
        }
    }
}

// What is seen of a subscription, and what a submit answers, while the handler hears that it failed; and what the
// handler has heard then.
pub fn look_while_it_hears<
    L: Ledgers + Send + Sync + 'static,
    R: Threads + Wait + Copy + Send + 'static,
>(rt: R, alloc: Global, blanks: BlankPair) -> Result<String, Fail>
    requires blanks { AreBlanksOf blanks L.publications L.drops L.history }
{
    let waits = Waits::new(alloc)?;
    let handler = waits.share()?;
    let made = Stand::with_handler(rt, alloc, blanks, 1, handler);
    let mut stand: Stand<L, Answering, Waits> = made?;
    let seen = fail_and_look(&rt, &mut stand, &waits);
    waits.may_go.store(true, SeqCst);
    let Outcome { handler, .. } = stand.end(&rt);
    let seen = seen?;
    match handler {
        Some(waits) => {
            let heard = waits.report(alloc)?;
            Ok(format!(in alloc; "{seen}; {heard}")?)
        }
        None => Err(Fail::new("there is no handler")),
    }
}

// Has a subscriber fail, and looks while the handler is called.
fn fail_and_look<L: Ledgers + Send + Sync + 'static, R: Wait>(
    rt: &R,
    stand: &mut Stand<L, Answering, Waits>,
    waits: &Waits,
) -> Result<String, Fail> {
    stand.subscribe(rt, "a", Answering::after(1, Answer::Fail(7)))?;
    stand.request(rt, 0, 1)?;
    stand.submit(rt, b"x")?;
    if !wait_for(&waits.is_in) {
        return Err(Fail::new("the handler is not called"));
    }
    look(stand, rt)
}

// Whether the first subscription has ended, how many are live, and what a submit answers.
fn look<L: Ledgers + Send + Sync + 'static, R: Wait>(
    stand: &mut Stand<L, Answering, Waits>,
    rt: &R,
) -> Result<String, Fail> {
    let Some(subscription) = stand.subscriptions.first() else {
        return Err(Fail::new("there is no subscription"));
    };
    let has_ended = subscription.has_ended(rt);
    let live = stand.publisher.number_of_subscribers(rt);
    let lag = stand.submit(rt, b"y")?;
    Ok(format!(in stand.alloc; "ended {has_ended}, live {live}, lag {lag}")?)
}
