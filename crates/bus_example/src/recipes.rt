//! Recipes of docs/GUIDE.md: pieces to copy into programs, which the example itself doesn't need.
use anyhow::bail;
use flow_rules::{Listener, Name, Refusal, Text};
use publisher::{NamedLane, SharedLedgers, Submitter};
use std::alloc::Global;
use std::io::{BufRead, BufReader, Read};
use std::sync::{Mutex, Wait};

/// How many bytes of a long text stand in one piece, beside its mark.
const PIECE: usize = Text::LONGEST - 1;

/// How many texts are published by one call at most.
const AT_ONCE: usize = 64;

/// Takes what is left of a subscription apart: its name, its subscriber, and how many items that was given.
pub fn take_apart<B: Drop>(left: NamedLane<B>) -> (Name, Option<B>, u64) {
    let (name, given) = (left.name, left.lane.given);
    (name, left.into_subscriber(), given)
}

/// Publishes a text of any length in pieces. Each begins with a mark: `+` if another one follows, and `.` if it is the
/// last.
pub fn submit_long<L: SharedLedgers, B: Listener + Send, R: Wait>(
    rt: &R,
    alloc: Global,
    submitter: &mut Submitter<L, B>,
    text: &[u8],
) -> Result<(), Refusal> {
    let mut piece = Vec::with_capacity(alloc, Text::LONGEST)?;
    let mut rest = text;
    while !rest.is_empty() {
        let (part, others) = rest.split_at(rest.len().min(PIECE));
        piece.clear();
        piece.push(if others.is_empty() { b'.' } else { b'+' })?;
        piece.extend_from_slice(part)?;
        submitter.submit(rt, alloc, piece.as_slice())?;
        rest = others;
    }
    Ok(())
}

/// Publishes a text by one of the submitters that are idle, and gives that back. `None` if all are lent.
pub fn submit_lent<L: SharedLedgers, B: Listener + Send, R: Wait>(
    rt: &R,
    alloc: Global,
    idle: &Mutex<Vec<Submitter<L, B>>>,
    text: &[u8],
) -> Result<Option<u64>, Refusal> {
    let Some(mut lent) = idle.lock(rt).pop() else {
        return Ok(None);
    };
    let lag = lent.submit(rt, alloc, text);
    idle.lock(rt).push(lent)?;
    lag.map(Some)
}

/// Publishes the lines of a reader: many by one call while they come fast, and what is there as soon as they pause.
pub fn publish_lines<L: SharedLedgers, B: Listener + Send, R: Wait, I: Read>(
    rt: &R,
    alloc: Global,
    submitter: &mut Submitter<L, B>,
    reader: &mut BufReader<I>,
) -> anyhow::Result<()> {
    let mut texts = Vec::with_capacity(alloc, AT_ONCE)?;
    let mut line = Vec::new(alloc);
    for _ in 0..u64::MAX {
        line.clear();
        if reader.read_until(b'\n', &mut line)? == 0 {
            break;
        }
        if line.len() > Text::LONGEST {
            bail!("a line is too long");
        }
        texts.push(Text::new(alloc, line.as_slice())?)?;
        // The next line would have to be waited for, or these are enough.
        if reader.buffer().is_empty() || texts.len() == AT_ONCE {
            if let Err(unsent) = submitter.submit_all(rt, alloc, texts.as_slice()) {
                return Err(unsent.refusal.into());
            }
            texts.clear();
        }
    }
    Ok(())
}
