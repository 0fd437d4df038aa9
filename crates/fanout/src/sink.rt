//! The sinks: each has a thread of its own, which writes the lines that its subscription is told.
use crate::board::SinkCount;
use crate::cause::Cause;
use crate::doors::Doors;
use crate::fault::{EndFault, FanoutFault};
use crate::notice::say_fault;
use crate::page::Page;
use crate::pen::{Outlet, Pen};
use crate::plan::{STANDARD, SinkPlan};
use crate::site::Site;
use crate::strands::Strands;
use flow_rules::{How, Item, Listener, Name};
use inbox::Inbox;
use publisher::{Ledgers, Subscription};
use std::alloc::Global;
use std::io::Write;
use std::sync::Wait;
use std::sync::atomic::Ordering::SeqCst;
use std::thread;
use std::time::{Clock, Duration};

/// How often a cancel is tried.
const MOST_TRIES: u32 = 100;

/// A subscription, and the inbox that takes its items.
#[derive(Drop)]
pub struct Sink<L: Ledgers + Send, B: Listener + Send> {
    pub subscription: Subscription<L, B>,
    pub inbox: Inbox,
}

/// The name with which the sink of this number subscribes.
pub fn name_of(alloc: Global, number: usize) -> Result<Name, FanoutFault> {
    let text = format!(in alloc; "sink-{number}")?;
    match Name::parse(text.as_str()) {
        Ok(name) => Ok(name),
        Err(_) => Err(FanoutFault::Memory),
    }
}

/// Writes the lines of the sink of this number up to the end, or until that fails: then its subscription is cancelled, and
/// nobody waits for it any more, and why is said at once.
pub fn run_sink<L: Ledgers + Send, B: Listener + Send, R: Doors + Clock + Wait>(
    rt: &R,
    site: &Site,
    number: usize,
    sink: &mut Sink<L, B>,
) {
    let count = site.board.sinks.get(number);
    let plan = site.plan.sinks.get(number);
    if let (Some(count), Some(plan)) = (count, plan) {
        count.begun.store(1, SeqCst);
        let ended = open_and_write(rt, site, plan, count, sink);
        if ended.is_err() {
            cancel(rt, site, sink);
        }
        let is_closed = site.board.is_closed.lock(rt);
        if *is_closed {
            return;
        }
        if let Err(fault) = ended {
            say_fault(rt, site, plan.path.as_slice(), fault);
        }
        count.end(rt, ended.err());
    }
}

/// Opens its file, and writes its lines.
fn open_and_write<L: Ledgers + Send, B: Listener + Send, R: Doors + Clock + Wait>(
    rt: &R,
    site: &Site,
    plan: &SinkPlan,
    count: &SinkCount,
    sink: &mut Sink<L, B>,
) -> Result<(), EndFault> {
    let path = plan.path.as_slice();
    let outlet = if path == STANDARD {
        Outlet::Output(rt.output())
    } else {
        match rt.create(path, site.plan.is_appending) {
            Ok(file) => Outlet::File(file),
            Err(error) => return Err(EndFault::Open(Cause::of(&error))),
        }
    };
    let pen = Pen::new(rt, outlet, site.limit, plan.is_lossy);
    write_told(rt, site, plan, count, pen, sink)
}

/// Writes its lines to this writer.
fn write_told<L: Ledgers + Send, B: Listener + Send, R: Wait, W: Write + Drop>(
    rt: &R,
    site: &Site,
    plan: &SinkPlan,
    count: &SinkCount,
    writer: W,
    sink: &mut Sink<L, B>,
) -> Result<(), EndFault> {
    let sources = site.plan.sources.len();
    let mut page = Page::new(site.alloc, writer, count)?;
    let mut strands = Strands::new(
        site.alloc,
        sources,
        plan.rules.as_slice(),
        plan.is_lossy || sources > 1,
        count,
    )?;
    for _ in rt.forever() {
        match next(rt, &mut page, sink)? {
            Some(item) => strands.take(&item, &mut page)?,
            None => break,
        }
        if page.was_written() {
            let _waiting = site.board.look(count);
        }
    }
    strands.end(&site.board, &mut page)?;
    page.flush()?;
    match sink.inbox.ending() {
        Some(How::Completed) => Ok(()),
        // An item was refused its memory.
        _ => Err(EndFault::Memory),
    }
}

/// Takes the next item; `None` at the end. If it isn't there yet, what waits to be written is written first.
fn next<L: Ledgers + Send, B: Listener + Send, R: Wait, W: Write + Drop>(
    rt: &R,
    page: &mut Page<'_, W>,
    sink: &mut Sink<L, B>,
) -> Result<Option<Item>, EndFault> {
    let Sink {
        subscription,
        inbox,
    } = sink;
    if let Some(item) = inbox.try_next(rt, subscription)? {
        return Ok(Some(item));
    }
    page.flush()?;
    Ok(inbox.next(rt, subscription)?)
}

/// Cancels its subscription. If memory for that is refused again and again, the program ends without it.
fn cancel<L: Ledgers + Send, B: Listener + Send, R: Clock + Wait>(
    rt: &R,
    site: &Site,
    sink: &mut Sink<L, B>,
) {
    let Sink {
        subscription,
        inbox,
    } = sink;
    for _ in 0..MOST_TRIES {
        if inbox.cancel(rt, subscription).is_ok() {
            return;
        }
        thread::sleep(rt, Duration::from_millis(1));
    }
    site.verdict.say(rt, Err(FanoutFault::Memory));
}
