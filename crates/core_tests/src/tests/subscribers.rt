//! What subscribers are told, and which lists of signals the Flow rules allow.
use crate::{item_with, signals};
use flow_rules::{Answer, Collector, Fault, NoMemory, Subscriber, audit};
use std::alloc::Global;
use std::process::Abort;
use std::test::Fail;

/// What letters write, and whether the Flow rules allow it.
const TEXTS: [(&[u8], bool); 21] = [
    (b"", true),
    (b"s", true),
    (b"sx", true),
    (b"sxyx", true),
    (b"sc", true),
    (b"se", true),
    (b"sxyc", true),
    (b"sxye", true),
    // nothing comes before `onSubscribe`, and it comes once
    (b"x", false),
    (b"c", false),
    (b"e", false),
    (b"xs", false),
    (b"ss", false),
    (b"sxs", false),
    // nothing comes after an ending
    (b"scx", false),
    (b"sex", false),
    (b"scc", false),
    (b"sce", false),
    (b"sec", false),
    (b"see", false),
    (b"scs", false),
];

#[test]
fn an_audit_allows_the_texts_of_the_rules(rt: HostRuntime) -> Result<(), Fail> {
    for (letters, allowed) in TEXTS {
        let text = signals(rt.alloc(), letters)?;
        assert!(rt; audit(text.as_slice()) == allowed, "at {letters:?}");
    }
    Ok(())
}

/// Whether the subscriber was told what these letters write.
pub(super) fn was_told<B: Subscriber>(
    alloc: Global,
    subscriber: &B,
    letters: &[u8],
) -> Result<bool, NoMemory> {
    Ok(subscriber.told() == signals(alloc, letters)?.as_slice())
}

/// What each callback answers, when they are called in turn, `on_next` with two items.
fn call_each<B: Subscriber>(
    alloc: Global,
    subscriber: &mut B,
) -> Result<[Result<Answer, NoMemory>; 5], NoMemory> {
    let one = item_with(alloc, b"x")?;
    let other = item_with(alloc, b"y")?;
    Ok([
        subscriber.on_subscribe(),
        subscriber.on_next(&one),
        subscriber.on_next(&other),
        subscriber.on_complete(),
        subscriber.on_error(Fault::Published(7)),
    ])
}

/// Calls each callback. The subscriber answers this to the first, `Go` to the others, and then shows what it was told.
fn tell<B: Subscriber>(
    rt: &impl Abort,
    alloc: Global,
    subscriber: &mut B,
    first: Answer,
) -> Result<(), Fail> {
    let is_steady = first == Answer::Go;
    let go = Ok(Answer::Go);
    assert!(rt; subscriber.told().is_empty() && subscriber.steady() == is_steady);
    assert!(rt; call_each(alloc, subscriber)? == [Ok(first), go, go, go, go]);
    assert!(rt; was_told(alloc, subscriber, b"sxyce")? && subscriber.steady() == is_steady);
    Ok(())
}

#[test]
fn a_collector_keeps_what_it_is_told(rt: HostRuntime) -> Result<(), Fail> {
    let alloc = rt.alloc();
    tell(&rt, alloc, &mut Collector::new(alloc), Answer::Go)?;
    for n in [1, 0, -1, i64::MAX] {
        tell(
            &rt,
            alloc,
            &mut Collector::asking(alloc, n),
            Answer::Request(n),
        )?;
    }
    Ok(())
}

#[test]
fn a_box_passes_each_call_on(rt: HostRuntime) -> Result<(), Fail> {
    let alloc = rt.alloc();
    let mut boxed: Box<dyn Subscriber> = Box::new(alloc, Collector::new(alloc))?;
    tell(&rt, alloc, &mut boxed, Answer::Go)?;
    let mut boxed: Box<dyn Subscriber> = Box::new(alloc, Collector::asking(alloc, 5))?;
    tell(&rt, alloc, &mut boxed, Answer::Request(5))?;
    Ok(())
}
