//! A handler that takes its time, while another thread waits until all have ended.
ghost use Rattle.publisher.specs.Blanks.{AreBlanksOf};

use flow_rules::{Answer, FailHandler, Name};
use publisher::{BlankPair, Ledgers};
use std::alloc::{AllocError, Global};
use std::sync::atomic::AtomicBool;
use std::sync::atomic::Ordering::SeqCst;
use std::sync::{Arc, Wait};
use std::test::Fail;
use std::thread;
use std::thread::Threads;
use std::time::{Clock, Duration};
use test_kit::{Answering, wait_for};
use test_stand::Stand;

// How often it looks whether the other thread went on, and how many milliseconds it sleeps in between.
const LOOKS: u32 = 20;

const NAP: u64 = 1;

// Says that it is called, and then waits until the other thread went on from where all have ended; but that has to wait
// for it, so it looks for a while, and has heard then.
#[derive(Drop)]
struct HearsLate<R> {
    rt: R,
    gate: Gate,
    last: Option<(Name, u32)>,
}

// Whether the handler was called, whether it has heard, and whether the thread that waits for the end of all went on.
#[derive(Drop)]
struct Gate {
    is_called: Arc<AtomicBool, Global>,
    has_heard: Arc<AtomicBool, Global>,
    went_on: Arc<AtomicBool, Global>,
}

impl Gate {
    fn new(alloc: Global) -> Result<Gate, AllocError> {
        Ok(Gate {
            is_called: Arc::new(alloc, AtomicBool::new(false))?,
            has_heard: Arc::new(alloc, AtomicBool::new(false))?,
            went_on: Arc::new(alloc, AtomicBool::new(false))?,
        })
    }

    // The same gate, for the other thread.
    fn share(&self) -> Result<Gate, AllocError> {
        Ok(Gate {
            is_called: Arc::try_clone(&self.is_called)?,
            has_heard: Arc::try_clone(&self.has_heard)?,
            went_on: Arc::try_clone(&self.went_on)?,
        })
    }
}

impl<R: Clock + Copy> FailHandler for HearsLate<R> {
    ghost last = { λ h. h.last };

    fn on_fail(&mut self, name: Name, code: u32) {
        self.gate.is_called.store(true, SeqCst);
        for _ in 0..LOOKS {
            if self.gate.went_on.load(SeqCst) {
                break;
            }
            thread::sleep(&self.rt, Duration::from_millis(NAP));
        }
        self.gate.has_heard.store(true, SeqCst);
        self.last = Some((name, code));
    }

    fn last(&self) -> Option<(Name, u32)> {
        self.last
    }
}

// Whether the handler has heard of a failure once a thread that waited for the end of all goes on.
pub fn hears_before_the_drain<
    L: Ledgers + Send + Sync + 'static,
    R: Clock + Threads + Wait + Copy + Send + 'static,
>(rt: R, alloc: Global, blanks: BlankPair) -> Result<bool, Fail>
    requires blanks { AreBlanksOf blanks L.publications L.drops L.history }
{
    let gate = Gate::new(alloc)?;
    let handler = HearsLate {
        rt,
        gate: gate.share()?,
        last: None,
    };
    let made = Stand::with_handler(rt, alloc, blanks, 1, handler);
    let mut stand: Stand<L, Answering, HearsLate<R>> = made?;
    let drained = fail_and_drain(&rt, &mut stand, &gate);
    let is_told = gate.has_heard.load(SeqCst);
    gate.went_on.store(true, SeqCst);
    let _ = stand.end(&rt);
    drained?;
    Ok(is_told)
}

// Has a subscriber fail, and waits until all have ended once the handler was called.
fn fail_and_drain<L: Ledgers + Send + Sync + 'static, R: Clock + Copy + Send + 'static, W: Wait>(
    rt: &W,
    stand: &mut Stand<L, Answering, HearsLate<R>>,
    gate: &Gate,
) -> Result<(), Fail> {
    stand.subscribe(rt, "a", Answering::after(1, Answer::Fail(7)))?;
    stand.request(rt, 0, 1)?;
    stand.submit(rt, b"x")?;
    stand.close(rt)?;
    if !wait_for(&gate.is_called) {
        return Err(Fail::new("the handler was not called"));
    }
    stand.publisher.wait_drained(rt);
    Ok(())
}
