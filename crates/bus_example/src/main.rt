//! An event bus: three threads publish log lines to a file, to a count by severity, and to a subscriber that is slow and
//! may lose lines.
//!
//! A publisher's life is: it is made; each subscriber subscribes, and what it shall be told is requested; each source
//! of lines gets a submitter; threads publish, and are joined; the publisher is closed; and it is finished, which gives
//! the subscribers back.
#![tactic(auto)]

mod bus;
mod guide;
mod recipes;
mod watches;

use anyhow::{bail, ensure};
use bus::{Bus, run_bus};
use flow_rules::{Listener, Watching};
use publisher::{BlankPair, PublisherOptions};
use std::fs;
use std::io::BufWriter;
use std::marker::Brand;
use std::sync::Arc;
use std::sync::atomic::Ordering::SeqCst;
use std::sync::atomic::{AtomicBool, AtomicU64};
use watches::{BySeverity, Severities, Slow, ToFile};

/// Listeners of different types stand on one bus as boxes.
type Subscriber = Box<dyn Listener + Send>;

fn main(rt: HostRuntime) -> anyhow::Result<()> {
    let alloc = rt.alloc();
    let severities = Arc::new(
        alloc,
        Severities {
            errors: AtomicU64::new(0),
            others: AtomicU64::new(0),
        },
    )?;
    let log = BufWriter::new(alloc, fs::create(&rt, "events.log")?)?;
    let is_cut = Arc::new(alloc, AtomicBool::new(false))?;
    let to_file = ToFile {
        log,
        is_cut: Arc::try_clone(&is_cut)?,
    };
    let file: Subscriber = Box::new(alloc, Watching::new(to_file))?;
    let by_severity = BySeverity(Arc::try_clone(&severities)?);
    let counter: Subscriber = Box::new(alloc, Watching::new(by_severity))?;
    let slow: Subscriber = Box::new(alloc, Watching::new(Slow))?;
    let bus = Bus {
        file,
        counter,
        slow,
    };
    let options = PublisherOptions {
        capacity: 64,
        ..PublisherOptions::default()
    };
    let outcome = run_bus::<Brand, Subscriber, _>(rt, alloc, BlankPair::new(alloc)?, options, bus)?;
    for lane in outcome.lanes.iter() {
        let lines = lane.lane.accepted.saturating_add(lane.dropped);
        println!(rt; "{}: {lines} lines told or dropped", lane.name)?;
    }
    println!(rt; "{} lines published", outcome.published)?;
    for lane in outcome.lanes.iter() {
        eprintln!(rt; "{} lost {} lines", lane.name, lane.dropped)?;
    }
    let errors = severities.errors.load(SeqCst);
    let counted = severities.others.load(SeqCst).saturating_add(errors);
    eprintln!(rt; "{counted} lines counted, {errors} of them errors")?;
    // A subscription that failed is no refusal: whoever finishes the publisher looks.
    if let Some((name, how)) = outcome.first_failure() {
        bail!("{name}: {how}");
    }
    ensure!(
        !is_cut.load(SeqCst),
        "the last lines could not be written to events.log"
    );
    Ok(())
}
