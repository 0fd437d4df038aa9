//! Prints the nanoseconds in which one thread hands items to another, through a subscription of feed_cell or through a queue of the kit:
//! `cell_bench cell|queue CAPACITY ITEMS`; and by `cell_bench size` the bytes of a slot of a subscription's table.
#![tactic(auto)]

mod cell_run;
mod in_order;
mod items;
mod putting;
mod queue_run;

use cell_run::time_cell;
use flow_rules::{Item, capacity};
use in_order::InOrder;
use items::items_of;
use queue_run::time_queue;
use std::{env, io, mem};

/// The most items of a run, which are all made before it.
const MOST_ITEMS: usize = 1_000_000_000;

/// What a slot of a subscription's table may hold. It is here for its size.
enum Slot {
    _Empty,
    _Item(Item),
    _Guest(Box<InOrder>),
}

/// What is to be printed.
enum Kind {
    Size,
    Cell,
    Queue,
}

/// Reads the first word of the command line.
fn kind_of(word: Option<String>) -> Option<Kind> {
    match word?.as_str() {
        "size" => Some(Kind::Size),
        "cell" => Some(Kind::Cell),
        "queue" => Some(Kind::Queue),
        _ => None,
    }
}

/// Reads a word of the command line. A missing word, or one that is no number, is 0.
fn number(text: Option<String>) -> usize {
    text.and_then(|text| text.as_str().parse::<usize>().ok())
        .unwrap_or(0)
}

fn main(rt: HostRuntime) -> io::Result<()> {
    let mut words = env::args(&rt)?.skip(1);
    let Some(kind) = kind_of(words.next()) else {
        return Ok(());
    };
    let asked = number(words.next());
    let count = number(words.next());
    let is_cell = match kind {
        Kind::Size => {
            println!(rt; "{}", mem::size_of::<Slot>())?;
            return Ok(());
        }
        Kind::Cell => true,
        Kind::Queue => false,
    };
    let Ok(places) = capacity(asked) else {
        return Ok(());
    };
    if count == 0 || count > MOST_ITEMS {
        return Ok(());
    }
    let Ok(items) = items_of(rt.alloc(), count as u64) else {
        return Ok(());
    };
    let spent = if is_cell {
        time_cell(&rt, rt.alloc(), places, items)
    } else {
        time_queue(&rt, rt.alloc(), places, items)
    };
    if let Some(spent) = spent {
        println!(rt; "{spent}")?;
    }
    Ok(())
}
