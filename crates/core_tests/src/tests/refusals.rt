//! Refusals and errors, as they are numbered and printed.
use flow_rules::{BadCapacity, Ending, Fault, How, IllegalArgument, Name, NoMemory, Refusal};
use std::alloc::{AllocError, Global};
use std::fmt::Display;
use std::process::Abort;
use std::test::Fail;

/// Each refusal, with its number and its word.
fn refusals(alloc: Global, name: Name) -> [(Refusal, u32, &'static str); 14] {
    [
        (Refusal::BadCapacity, 1, "capacity"),
        (Refusal::Closed(Ending::Normal), 2, "closed"),
        (Refusal::Closed(Ending::Failed(9)), 2, "closed"),
        (Refusal::Duplicate, 3, "duplicate"),
        (Refusal::TooMany, 4, "many"),
        (Refusal::NoMemory, 5, "memory"),
        (Refusal::LineTooLong, 6, "line"),
        (Refusal::BadWorkers, 7, "workers"),
        (Refusal::StillHeld(name), 8, "held"),
        (Refusal::Unsettled(Vec::new(alloc)), 9, "unsettled"),
        (Refusal::Unknown, 10, "unknown"),
        (Refusal::WouldWait, 11, "wait"),
        (Refusal::BadCommand, 12, "command"),
        (Refusal::Exhausted, 13, "exhausted"),
    ]
}

/// Whether a value prints as this line.
fn prints<T: Display>(alloc: Global, value: &T, line: &str) -> Result<bool, AllocError> {
    Ok(format!(in alloc; "{value}")?.as_str() == line)
}

/// Whether a refusal has this number and this word, and prints them.
fn reads(alloc: Global, refusal: &Refusal, number: u32, word: &str) -> Result<bool, AllocError> {
    let line = format!(in alloc; "refused {number} {word}")?;
    let is_printed = prints(alloc, refusal, line.as_str())?;
    Ok(is_printed && refusal.number() == number && refusal.word() == word)
}

#[test]
fn a_refusal_has_a_number_and_a_word(rt: HostRuntime) -> Result<(), Fail> {
    let name = Name::new(b"a").ok_or("a name is refused")?;
    for (refusal, number, word) in refusals(rt.alloc(), name) {
        assert!(rt;
            reads(rt.alloc(), &refusal, number, word)?,
            "refusal {number}"
        );
    }
    Ok(())
}

#[test]
fn an_error_prints_its_word(rt: HostRuntime) -> Result<(), Fail> {
    assert!(rt; prints(rt.alloc(), &Refusal::Unknown, "refused 10 unknown")?);
    assert!(rt; prints(rt.alloc(), &NoMemory, "memory")?);
    assert!(rt; prints(rt.alloc(), &BadCapacity, "capacity")?);
    assert!(rt; prints(rt.alloc(), &IllegalArgument, "argument")?);
    Ok(())
}

#[test]
fn an_error_becomes_the_refusal_of_its_name(rt: HostRuntime) {
    assert!(rt; Refusal::from(NoMemory) == Refusal::NoMemory);
    assert!(rt; Refusal::from(BadCapacity) == Refusal::BadCapacity);
}

/// A refusal of unsettled subscriptions of these names.
fn unsettled(alloc: Global, names: &[&str]) -> Result<Refusal, Fail> {
    let mut unsettled = Vec::new(alloc);
    for name in names {
        unsettled.push(Name::parse(name)?)?;
    }
    Ok(Refusal::Unsettled(unsettled))
}

/// Whether a refusal is explained by this line.
fn explains(alloc: Global, refusal: Refusal, line: &str) -> Result<bool, AllocError> {
    prints(alloc, &refusal.explain(), line)
}

#[test]
fn a_refusal_is_explained_by_what_it_carries(rt: HostRuntime) -> Result<(), Fail> {
    let alloc = rt.alloc();
    let name = Name::parse("source-3")?;
    assert!(rt; explains(alloc, Refusal::StillHeld(name), "source-3 is still held")?);
    assert!(rt; explains(alloc, unsettled(alloc, &["a"])?, "not ended: a")?);
    assert!(rt; explains(alloc, unsettled(alloc, &["a", "b-2"])?, "not ended: a, b-2")?);
    for (ending, line) in [
        (Ending::Normal, "the publisher is closed"),
        (
            Ending::Failed(7),
            "the publisher is closed with the error 7",
        ),
    ] {
        assert!(rt; explains(alloc, Refusal::Closed(ending), line)?, "{line}");
    }
    Ok(())
}

// 4 is answered for live subscriptions, of which there may be more later, and for submitters, of which there may not; 13 for what is made.
#[test]
fn an_explanation_fits_each_call_that_is_refused_so(rt: HostRuntime) -> Result<(), Fail> {
    let alloc = rt.alloc();
    let many = "there are as many as there may be";
    assert!(rt; explains(alloc, Refusal::TooMany, many)?);
    let exhausted = "as many were made as there may ever be";
    assert!(rt; explains(alloc, Refusal::Exhausted, exhausted)?);
    Ok(())
}

#[test]
fn each_refusal_is_explained_in_words_of_its_own(rt: HostRuntime) -> Result<(), Fail> {
    let alloc = rt.alloc();
    let name = Name::new(b"a").ok_or("a name is refused")?;
    let mut words: Vec<String> = Vec::new(alloc);
    for (refusal, number, _) in refusals(alloc, name) {
        let explained = format!(in alloc; "{}", refusal.explain())?;
        assert!(rt;
            !explained.is_empty() && !words.contains(&explained),
            "refusal {number}"
        );
        words.push(explained)?;
    }
    Ok(())
}

/// Compares what each of these values prints.
fn are_printed<T: Display>(rt: &impl Abort, alloc: Global, rows: &[(T, &str)]) -> Result<(), Fail> {
    for (value, line) in rows {
        assert!(rt; prints(alloc, value, line)?, "{line}");
    }
    Ok(())
}

const ENDINGS: [(Ending, &str); 2] = [
    (Ending::Normal, "closed"),
    (Ending::Failed(7), "closed with the error 7"),
];

const FAULTS: [(Fault, &str); 2] = [
    (Fault::IllegalArgument, "a request that is not positive"),
    (Fault::IllegalState, "a second subscribing"),
];

const ENDS: [(How, &str); 5] = [
    (
        How::Errored(Fault::Published(7)),
        "ended with an error: the publisher was closed with the error 7",
    ),
    (How::Completed, "completed"),
    (How::Cancelled, "cancelled"),
    (How::Failed(7), "a callback failed with the code 7"),
    (How::OutOfMemory, "a callback ran out of memory"),
];

#[test]
fn ends_and_faults_are_printed_in_words(rt: HostRuntime) -> Result<(), Fail> {
    are_printed(&rt, rt.alloc(), &ENDINGS)?;
    are_printed(&rt, rt.alloc(), &FAULTS)?;
    are_printed(&rt, rt.alloc(), &ENDS)
}

/// Refused with this, and with what was handed in.
fn refused(refusal: Refusal) -> Result<(), Refusal> {
    Err((refusal, 7))?;
    Ok(())
}

#[test]
fn a_question_mark_keeps_the_refusal(rt: HostRuntime) {
    assert!(rt; refused(Refusal::Duplicate) == Err(Refusal::Duplicate));
    assert!(rt; Refusal::from((Refusal::Unknown, 7)) == Refusal::Unknown);
    assert!(rt; Refusal::from(AllocError) == Refusal::NoMemory);
    assert!(rt; NoMemory::from((NoMemory, 7)) == NoMemory);
}
