//! What is left of a publisher, as a line.
use super::heard::Heard;
use flow_rules::{ErrorOrder, How, Signal, audit};
use publisher::{NamedLane, Outcome};
use std::alloc::{AllocError, Global};
use std::test::Fail;

// As many signals as a line lists.
const LISTED: usize = 8;

// What is left, line by line: the answer of `finish`, and the lanes. Of a subscription that was cancelled amid signals
// it has how many were told when the cancel was made; and it says no more of a subscriber that was refused memory, if
// any callback may be.
pub fn outcome_lines(
    alloc: Global,
    answer: &str,
    outcome: &Outcome<Heard>,
    amid: Option<u64>,
    may_be_refused: bool,
) -> Result<Vec<String>, Fail> {
    let count = if outcome.drained { "drained" } else { "open" };
    let mut lines = Vec::new(alloc);
    lines.push(format!(in alloc; "{answer}, published {}, {count}", outcome.published)?)?;
    for left in outcome.lanes.iter() {
        lines.push(line_of(alloc, left, amid, may_be_refused)?)?;
    }
    if outcome.reclaimed > 0 {
        lines.push(format!(in alloc; "{} reclaimed", outcome.reclaimed)?)?;
    }
    Ok(lines)
}

// What is left of one subscription.
fn line_of(
    alloc: Global,
    left: &NamedLane<Heard>,
    amid: Option<u64>,
    may_be_refused: bool,
) -> Result<String, Fail> {
    if amid.is_some_and(|told| is_cancelled_amid(left, told)) {
        return Ok(format!(in alloc; "{} {:?} amid", left.name, left.lane.ending)?);
    }
    if may_be_refused && was_refused(left) {
        return Ok(format!(in alloc; "{} refused", left.name)?);
    }
    lane_line(alloc, left)
}

// What is left of one subscription that was reclaimed. No more than its number if its subscriber may have been refused
// memory.
pub fn reclaimed_line(
    alloc: Global,
    left: &NamedLane<Heard>,
    may_be_refused: bool,
) -> Result<String, Fail> {
    let number = format!(in alloc; "reclaimed {}", left.entry)?;
    if may_be_refused {
        return Ok(number);
    }
    let lane = lane_line(alloc, left)?;
    Ok(format!(in alloc; "{number}; {lane}")?)
}

// Whether one that was cancelled when this many signals were told was told in order, and one item more at most, of
// those that it accepted.
fn is_cancelled_amid(left: &NamedLane<Heard>, told: u64) -> bool {
    let lane = &left.lane;
    let Some(heard) = &lane.subscriber else {
        return false;
    };
    let signals = heard.told();
    lane.ending == Some(How::Cancelled)
        && audit(signals)
        && items_in_order(signals) == Some(lane.given)
        && lane.given <= lane.accepted
        && signals.len() as u64 <= told.saturating_add(1)
}

// Whether one that was refused memory at a callback was told in order, and all that it was given but for the last item
// at most.
fn was_refused(left: &NamedLane<Heard>) -> bool {
    let lane = &left.lane;
    let Some(heard) = &lane.subscriber else {
        return false;
    };
    let Some(items) = items_in_order(heard.told()) else {
        return false;
    };
    lane.ending == Some(How::OutOfMemory)
        && audit(heard.told())
        && lane.given <= lane.accepted
        && (items == lane.given || items.saturating_add(1) == lane.given)
}

// How many items are told, if they are the first publications in order.
fn items_in_order(signals: &[Signal]) -> Option<u64> {
    let mut items: u64 = 0;
    for signal in signals {
        if let Signal::Next(item) = signal {
            if item.serial != items {
                return None;
            }
            items = items.saturating_add(1);
        }
    }
    Some(items)
}

// One lane: its name, how it ended, how many items it accepted, dropped and requested, whether it runs, whether a
// closing error waited for its items, and what was told, or how much that is; and how many items were given, if that is
// another number than were told.
fn lane_line(alloc: Global, left: &NamedLane<Heard>) -> Result<String, Fail> {
    let lane = &left.lane;
    let runs = if lane.running { " runs" } else { "" };
    let late = match lane.order {
        Some(ErrorOrder::AfterItems) => " late",
        _ => "",
    };
    let mut line = format!(in alloc;
        "{} {:?} {} + {} of {}{runs}{late}:",
        left.name, lane.ending, lane.accepted, left.dropped, lane.asked
    )?;
    let Some(heard) = &lane.subscriber else {
        return Ok(line);
    };
    add_signals(alloc, &mut line, heard.told())?;
    if items_in(heard.told()) != lane.given {
        line.push_str(&format!(in alloc; " of {} given", lane.given)?)?;
    }
    Ok(line)
}

// How many items are told in a list of signals.
fn items_in(told: &[Signal]) -> u64 {
    let mut items: u64 = 0;
    for signal in told {
        if let Signal::Next(_) = signal {
            items = items.saturating_add(1);
        }
    }
    items
}

// Each of a few signals, or how many they are.
fn add_signals(alloc: Global, line: &mut String, told: &[Signal]) -> Result<(), Fail> {
    if told.len() > LISTED {
        line.push_str(&format!(in alloc; " {} signals", told.len())?)?;
        return Ok(());
    }
    for signal in told {
        add_signal(alloc, line, signal)?;
    }
    Ok(())
}

// A signal: an item as its source, its number of that source and how long its text is.
fn add_signal(alloc: Global, line: &mut String, signal: &Signal) -> Result<(), AllocError> {
    match signal {
        Signal::Subscribed => line.push_str(" s"),
        Signal::Next(item) => {
            let item = format!(in alloc;
                " {}.{}.{}",
                item.source,
                item.seq,
                item.text.as_bytes().len()
            )?;
            line.push_str(&item)
        }
        Signal::Complete => line.push_str(" c"),
        Signal::Error(_) => line.push_str(" e"),
    }
}
