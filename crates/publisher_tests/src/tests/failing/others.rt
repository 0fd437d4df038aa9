//! Failures of subscriptions whose numbers go to others at once, which never fail.
ghost use Rattle.publisher.specs.Blanks.{AreBlanksOf};

use flow_rules::{Answer, FailHandler, Name};
use publisher::{BlankPair, Ledgers, Outcome};
use std::alloc::Global;
use std::sync::Wait;
use std::test::Fail;
use std::thread;
use std::thread::Threads;
use std::time::{Clock, Instant};
use test_kit::Answering;
use test_stand::Stand;

// How often one fails and another one takes its number, if there is time for that, and how many seconds there are.
const ROUNDS: u64 = 20_000;

const TIME: u64 = 20;

// Counts how often it hears of `a`, and of any other name.
#[derive(Drop)]
struct Counts {
    right: u64,
    wrong: u64,
    last: Option<(Name, u32)>,
}

impl FailHandler for Counts {
    ghost last = { λ c. c.last };

    fn on_fail(&mut self, name: Name, code: u32) {
        if name.as_bytes() == b"a".as_slice() {
            self.right = self.right.saturating_add(1);
        } else {
            self.wrong = self.wrong.saturating_add(1);
        }
        self.last = Some((name, code));
    }

    fn last(&self) -> Option<(Name, u32)> {
        self.last
    }
}

// In how many rounds the handler heard of the one that failed, and how often it heard of another one.
pub struct Heard {
    pub rounds: u64,
    pub right: u64,
    pub wrong: u64,
}

// Has `a` fail in each round, and `b` get its number.
pub fn hear_beside_others<
    L: Ledgers + Send + Sync + 'static,
    R: Clock + Threads + Wait + Copy + Send + 'static,
>(rt: R, alloc: Global, blanks: BlankPair) -> Result<Heard, Fail>
    requires blanks { AreBlanksOf blanks L.publications L.drops L.history }
{
    let counts = Counts {
        right: 0,
        wrong: 0,
        last: None,
    };
    let made = Stand::with_handler(rt, alloc, blanks, 1, counts);
    let mut stand: Stand<L, Answering, Counts> = made?;
    let ran = run_rounds(&rt, &mut stand);
    let Outcome { handler, .. } = stand.end(&rt);
    let rounds = ran?;
    match handler {
        Some(Counts { right, wrong, .. }) => Ok(Heard {
            rounds,
            right,
            wrong,
        }),
        None => Err(Fail::new("there is no handler")),
    }
}

// How many rounds there was time for.
fn run_rounds<L: Ledgers + Send + Sync + 'static, R: Clock + Wait>(
    rt: &R,
    stand: &mut Stand<L, Answering, Counts>,
) -> Result<u64, Fail> {
    let start = Instant::now(rt)?;
    for round in 0..ROUNDS {
        if start.elapsed(rt)?.as_secs() >= TIME {
            return Ok(round);
        }
        fail_one(rt, stand)?;
        end_another(rt, stand)?;
    }
    Ok(ROUNDS)
}

// Has `a` fail at its first item, and reclaims it as soon as that can be done.
fn fail_one<L: Ledgers + Send + Sync + 'static, R: Wait>(
    rt: &R,
    stand: &mut Stand<L, Answering, Counts>,
) -> Result<(), Fail> {
    stand.subscribe(rt, "a", Answering::after(1, Answer::Fail(7)))?;
    stand.request(rt, 0, 1)?;
    stand.submit(rt, b"x")?;
    wait_until_ended(rt, stand);
    let _left = stand.reclaim(rt, 0)?;
    Ok(())
}

// Waits for the end without sleeping, since whoever sleeps gets up once the thread that ended it is through.
fn wait_until_ended<L: Ledgers + Send + Sync + 'static, R: Wait>(
    rt: &R,
    stand: &Stand<L, Answering, Counts>,
) {
    for _ in rt.forever() {
        match stand.subscriptions.first() {
            Some(first) if !first.has_ended(rt) => thread::yield_now(),
            _ => return,
        }
    }
}

// Subscribes `b`, and ends it.
fn end_another<L: Ledgers + Send + Sync + 'static, R: Wait>(
    rt: &R,
    stand: &mut Stand<L, Answering, Counts>,
) -> Result<(), Fail> {
    stand.subscribe(rt, "b", Answering::after(9, Answer::Go))?;
    stand.cancel(rt, 0)?;
    stand.wait_end(rt, 0);
    let _left = stand.reclaim(rt, 0)?;
    Ok(())
}
