//! A call whose texts wake several subscriptions.
ghost use Rattle.std.specs.Prelude.{◌≡◌, [], IfOk};
ghost use Rattle.publisher.specs.Blanks.{AreBlanksOf};

use super::{said, texts_from};
use flow_rules::{Answer, Fault, Item, NoMemory, Watch, Watching};
use publisher::{BlankPair, Ledgers};
use std::alloc::Global;
use std::sync::atomic::AtomicBool;
use std::sync::atomic::Ordering::SeqCst;
use std::sync::{Arc, Wait};
use std::test::Fail;
use std::thread::Threads;
use test_kit::{Notes, wait_for};
use test_stand::Stand;

type Flag = Arc<AtomicBool, Global>;

// Where a callback waits until it may go on.
#[derive(Drop)]
struct Stop {
    is_in: Flag,
    may_go: Flag,
}

impl Stop {
    fn new(alloc: Global) -> Result<Stop, NoMemory> {
        Ok(Stop {
            is_in: Arc::new(alloc, AtomicBool::new(false))?,
            may_go: Arc::new(alloc, AtomicBool::new(false))?,
        })
    }

    fn share(&self) -> Result<Stop, NoMemory> {
        Ok(Stop {
            is_in: Arc::try_clone(&self.is_in)?,
            may_go: Arc::try_clone(&self.may_go)?,
        })
    }
}

// Notes the first letter of each text that it is told, and a dot at its completion. It requests all items, once it may
// go on.
#[derive(Drop)]
struct Noting {
    notes: Notes,
    stop: Option<Stop>,
}

impl Watch for Noting {
    fn on_start(&mut self) -> Answer {
        if let Some(stop) = &self.stop {
            stop.is_in.store(true, SeqCst);
            wait_for(&stop.may_go);
        }
        Answer::Request(i64::MAX)
    }

    fn on_item(&mut self, item: &Item) -> Answer {
        let letter = item.text.as_bytes().first().copied();
        self.notes.note(letter.unwrap_or(b'?'));
        Answer::Go
    }

    fn on_end(&mut self, fault: Option<Fault>) {
        self.notes.note(if fault.is_none() { b'.' } else { b'!' });
    }
}

// A listener that notes here what it is told, and waits at this stop.
fn one_that_notes(notes: &Notes, stop: Option<Stop>) -> Result<Watching<Noting>, NoMemory>
    ensures untold { IfOk result (λ noting. noting.told ≡ []) }
    ensures unheard { IfOk result (λ noting. noting.replied ≡ []) }
{
    Ok(Watching::new(Noting {
        notes: notes.share()?,
        stop,
    }))
}

// What a call says that publishes four texts to two subscriptions at rest and to one in the middle of a callback; and
// which of these were told all of them, and their completion.
pub fn wake_several<L: Ledgers + Send + Sync + 'static, R: Threads + Wait + Copy + Send + 'static>(
    rt: R,
    alloc: Global,
    blanks: BlankPair,
) -> Result<String, Fail>
    requires blanks { AreBlanksOf blanks L.publications L.drops L.history }
{
    let stop = Stop::new(alloc)?;
    let (a, b, c) = (Notes::new(alloc)?, Notes::new(alloc)?, Notes::new(alloc)?);
    let mut stand: Stand<L, Watching<Noting>> = Stand::new(rt, alloc, blanks, 1, 4)?;
    let answer = wake_all(&rt, &mut stand, [&a, &b, &c], &stop);
    let _ = stand.end(&rt);
    let told = [a.take(b"abcd."), b.take(b"abcd."), c.take(b"abcd.")];
    Ok(format!(in alloc; "{}told all: {told:?}", answer?)?)
}

// What the call says, once all have ended.
fn wake_all<L: Ledgers + Send + Sync + 'static, R: Wait>(
    rt: &R,
    stand: &mut Stand<L, Watching<Noting>>,
    [a, b, c]: [&Notes; 3],
    stop: &Stop,
) -> Result<String, Fail> {
    stand.subscribe(rt, "a", one_that_notes(a, None)?)?;
    stand.subscribe(rt, "b", one_that_notes(b, None)?)?;
    stand.subscribe(rt, "c", one_that_notes(c, Some(stop.share()?))?)?;
    // There is one worker: when it is in the callback of the last, the other two have had their turns, and are at rest.
    if !wait_for(&stop.is_in) {
        return Err(Fail::new("nobody is told of the subscribing"));
    }
    let texts = texts_from(stand.alloc, b'a', 4)?;
    let Some(submitter) = stand.submitters.first_mut() else {
        return Err(Fail::new("there is no submitter"));
    };
    let answer = submitter.submit_all(rt, stand.alloc, texts.as_slice());
    stop.may_go.store(true, SeqCst);
    stand.close(rt)?;
    for subscription in stand.subscriptions.iter() {
        subscription.wait_end(rt);
    }
    said(stand.alloc, answer)
}
