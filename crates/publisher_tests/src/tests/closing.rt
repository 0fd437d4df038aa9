//! What is told of a close, and when.
ghost use Rattle.publisher.specs.Blanks.{AreBlanksOf};

use flow_rules::{DropHandler, Ending, Item, Name, Refusal, Tally, Text};
use publisher::{BlankPair, Ledgers, Publisher, Submitter};
use std::alloc::{AllocError, Global};
use std::marker::Brand;
use std::sync::atomic::AtomicBool;
use std::sync::atomic::Ordering::SeqCst;
use std::sync::{Arc, Wait};
use std::test::Fail;
use std::thread;
use std::thread::Threads;
use test_kit::wait_for;
use test_stand::Stand;

type Flag = Arc<AtomicBool, Global>;

// Raised by three threads in turn: the first holds the lock, the second closes, the third has asked whether the
// publisher is closed.
#[derive(Drop)]
struct Flags {
    is_held: Flag,
    is_closing: Flag,
    is_answered: Flag,
}

impl Flags {
    fn new(alloc: Global) -> Result<Flags, AllocError> {
        Ok(Flags {
            is_held: Arc::new(alloc, AtomicBool::new(false))?,
            is_closing: Arc::new(alloc, AtomicBool::new(false))?,
            is_answered: Arc::new(alloc, AtomicBool::new(false))?,
        })
    }
}

// Is asked about a drop while the lock is held, and answers once the third thread has.
#[derive(Drop)]
struct Holds {
    is_held: Flag,
    is_answered: Flag,
}

impl DropHandler for Holds {
    fn on_drop(&mut self, _: Name, _: &Item) -> bool {
        self.is_held.store(true, SeqCst);
        let _ = wait_for(&self.is_answered);
        false
    }
}

// What a third thread is told of the close while an offer holds the lock and a second one closes, and what is told
// afterwards.
fn ask_while_held<
    L: Ledgers + Send + Sync + 'static,
    R: Threads + Wait + Copy + Send + Sync + 'static,
>(rt: R, alloc: Global, blanks: BlankPair) -> Result<String, Fail>
    requires blanks { AreBlanksOf blanks L.publications L.drops L.history }
{
    let flags = Flags::new(alloc)?;
    let mut stand: Stand<L, Tally> = Stand::new(rt, alloc, blanks, 1, 1)?;
    let while_held = offer_and_close(&mut stand, &rt, &flags);
    let mut note = stand.publisher.note();
    let is_closed = stand.publisher.is_closed(&mut note);
    let ending = stand.publisher.closed_with(&mut note);
    let _ = stand.end(&rt);
    let while_held = while_held?;
    Ok(format!(in alloc; "{while_held} while it is held, then {is_closed}, {ending:?}")?)
}

// Whether a third thread is told of a close that waits for the lock, which an offer holds.
fn offer_and_close<L: Ledgers + Send + Sync + 'static, R: Threads + Wait + Sync>(
    stand: &mut Stand<L, Tally>,
    rt: &R,
    flags: &Flags,
) -> Result<bool, Fail> {
    stand.subscribe(rt, "a", Tally::new())?;
    stand.submit(rt, b"x")?;
    let (alloc, publisher) = (stand.alloc, &stand.publisher);
    let Some(submitter) = stand.submitters.first_mut() else {
        return Err(Fail::new("there is no submitter"));
    };
    let (offered, (closed, answer)) = thread::join(
        rt,
        || offer(rt, alloc, submitter, flags),
        || close_and_ask(rt, alloc, publisher, flags),
    );
    offered?;
    closed?;
    Ok(answer)
}

// Offers to a full buffer, with a handler that holds the lock.
fn offer<L: Ledgers + Send + Sync + 'static, R: Wait>(
    rt: &R,
    alloc: Global,
    submitter: &mut Submitter<L, Tally>,
    flags: &Flags,
) -> Result<(), Refusal> {
    let mut holds = Holds {
        is_held: Arc::try_clone(&flags.is_held)?,
        is_answered: Arc::try_clone(&flags.is_answered)?,
    };
    let _ = submitter.offer_with(rt, alloc, b"y", &mut holds)?;
    Ok(())
}

// One thread closes, and another one asks.
fn close_and_ask<L: Ledgers + Send + Sync + 'static, R: Threads + Wait + Sync>(
    rt: &R,
    alloc: Global,
    publisher: &Publisher<L, Tally>,
    flags: &Flags,
) -> (Result<(), Refusal>, bool) {
    thread::join(
        rt,
        || close_once_held(rt, alloc, publisher, flags),
        || ask(publisher, flags),
    )
}

// Closes once the lock is held.
fn close_once_held<L: Ledgers + Send + Sync + 'static, R: Wait>(
    rt: &R,
    alloc: Global,
    publisher: &Publisher<L, Tally>,
    flags: &Flags,
) -> Result<(), Refusal> {
    let _ = wait_for(&flags.is_held);
    flags.is_closing.store(true, SeqCst);
    let mut note = publisher.note();
    publisher.close_exceptionally(rt, alloc, &mut note, 4)
}

// Whether the publisher is closed while another thread closes it.
fn ask<L: Ledgers + Send + Sync + 'static>(publisher: &Publisher<L, Tally>, flags: &Flags) -> bool {
    let _ = wait_for(&flags.is_closing);
    let mut note = publisher.note();
    let is_closed = publisher.is_closed(&mut note);
    flags.is_answered.store(true, SeqCst);
    is_closed
}

#[test]
fn a_closing_is_read_while_the_lock_is_held(rt: HostRuntime) -> Result<(), Fail> {
    let blanks = BlankPair::new(rt.alloc())?;
    let told = ask_while_held::<Brand, _>(rt, rt.alloc(), blanks)?;
    let wanted = "false while it is held, then true, Some(Failed(4))";
    assert!(rt; told.as_str() == wanted, "{told}");
    Ok(())
}

// What a submitter from before the close is refused, which was told nothing: a text that is too long for its length,
// until it knows. And one that is made by a note that knows.
fn submit_after_the_close<
    L: Ledgers + Send + Sync + 'static,
    R: Threads + Wait + Copy + Send + Sync + 'static,
>(rt: R, alloc: Global, blanks: BlankPair) -> Result<String, Fail>
    requires blanks { AreBlanksOf blanks L.publications L.drops L.history }
{
    let mut stand: Stand<L, Tally> = Stand::new(rt, alloc, blanks, 1, 1)?;
    let report = all_refusals(&rt, &mut stand);
    let _ = stand.end(&rt);
    report
}

// Closes, makes a submitter by a note that knows, and tells what each submitter is refused.
fn all_refusals<L: Ledgers + Send + Sync + 'static, R: Wait>(
    rt: &R,
    stand: &mut Stand<L, Tally>,
) -> Result<String, Fail> {
    let mut note = stand.publisher.note();
    stand.publisher.close(rt, stand.alloc, &mut note)?;
    let late = stand.publisher.submitter(rt, stand.alloc, &mut note)?;
    stand.submitters.push(late)?;
    let mut report = String::new(stand.alloc);
    for submitter in stand.submitters.iter_mut() {
        report.push_str(&refusals(rt, stand.alloc, submitter)?)?;
    }
    Ok(report)
}

// What a submitter is refused for a text that is too long, for a short one, and for a long one that it offers.
fn refusals<L: Ledgers + Send + Sync + 'static, R: Wait>(
    rt: &R,
    alloc: Global,
    submitter: &mut Submitter<L, Tally>,
) -> Result<String, Fail> {
    let long = Vec::from_elem(alloc, b'x', Text::LONGEST + 1)?;
    let first = submitter.submit(rt, alloc, long.as_slice()).err();
    let second = submitter.submit(rt, alloc, b"x").err();
    let third = submitter.offer(rt, alloc, long.as_slice(), None).err();
    Ok(format!(in alloc;
        "{}, {}, {}; ",
        number_of(first),
        number_of(second),
        number_of(third)
    )?)
}

// The number of a refusal, and 0 of none.
fn number_of(refusal: Option<Refusal>) -> u32 {
    match refusal {
        Some(refusal) => refusal.number(),
        None => 0,
    }
}

#[test]
fn a_submitter_from_before_the_close_learns_of_it(rt: HostRuntime) -> Result<(), Fail> {
    let blanks = BlankPair::new(rt.alloc())?;
    let told = submit_after_the_close::<Brand, _>(rt, rt.alloc(), blanks)?;
    assert!(rt; told.as_str() == "6, 2, 2; 2, 2, 2; ", "{told}");
    Ok(())
}

// Whether two threads that close at once, one of them with an error, and one who asks later, are told one ending.
fn close_twice<
    L: Ledgers + Send + Sync + 'static,
    R: Threads + Wait + Copy + Send + Sync + 'static,
>(rt: R, alloc: Global, blanks: BlankPair) -> Result<bool, Fail>
    requires blanks { AreBlanksOf blanks L.publications L.drops L.history }
{
    let stand: Stand<L, Tally> = Stand::new(rt, alloc, blanks, 1, 1)?;
    let (one, other) = both_close(&rt, alloc, &stand.publisher);
    let mut note = stand.publisher.note();
    let ending = stand.publisher.closed_with(&mut note);
    let _ = stand.end(&rt);
    Ok(ending.is_some() && one? == ending && other? == ending)
}

type Told = Result<Option<Ending>, Refusal>;

fn both_close<L: Ledgers + Send + Sync + 'static, R: Threads + Wait + Sync>(
    rt: &R,
    alloc: Global,
    publisher: &Publisher<L, Tally>,
) -> (Told, Told) {
    thread::join(
        rt,
        || close(rt, alloc, publisher, None),
        || close(rt, alloc, publisher, Some(7)),
    )
}

// Closes, with a code if there is one, and tells how the publisher is closed.
fn close<L: Ledgers + Send + Sync + 'static, R: Wait>(
    rt: &R,
    alloc: Global,
    publisher: &Publisher<L, Tally>,
    code: Option<u32>,
) -> Told {
    let mut note = publisher.note();
    match code {
        Some(code) => publisher.close_exceptionally(rt, alloc, &mut note, code)?,
        None => publisher.close(rt, alloc, &mut note)?,
    }
    Ok(publisher.closed_with(&mut note))
}

#[test]
fn two_closers_are_told_one_ending(rt: HostRuntime) -> Result<(), Fail> {
    for round in 0..1000 {
        let blanks = BlankPair::new(rt.alloc())?;
        let is_one = close_twice::<Brand, _>(rt, rt.alloc(), blanks)?;
        assert!(rt; is_one, "two endings in round {round}");
    }
    Ok(())
}
