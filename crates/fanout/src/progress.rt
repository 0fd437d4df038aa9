//! The line a second that says how fast lines come, and how many texts wait in the buffer of each sink.
use crate::doors::Doors;
use crate::fault::FanoutFault;
use crate::notice::say;
use crate::report::NameText;
use crate::sink::name_of;
use crate::site::Site;
use commands::Verdict;
use flow_rules::{Listener, Name};
use publisher::{Ledgers, Publisher, Stats};
use std::sync::Wait;
use std::time::Clock;

/// What the sources had published when it was last told.
#[derive(Drop)]
struct Pace {
    lines: u64,
    bytes: u64,
}

/// Tells each second how far a publisher is, until it is said that the work is over. If memory for that is refused, the
/// program ends.
pub fn watch<L: Ledgers + Send, B: Listener + Send, R: Doors + Clock + Wait>(
    rt: &R,
    site: &Site,
    publisher: &Publisher<L, B>,
    over: &Verdict<FanoutFault>,
) {
    let mut pace = Pace { lines: 0, bytes: 0 };
    for _ in rt.forever() {
        if over.wait_a_second(rt).is_some() {
            return;
        }
        match line(rt, site, publisher, &mut pace) {
            Ok(line) => {
                let _ = say(rt, site.limit, line.as_str());
            }
            Err(fault) => {
                site.verdict.say(rt, Err(fault));
                return;
            }
        }
    }
}

/// What came since it was last told, and the texts that wait for each sink, of the most that may: those of one moment.
fn line<L: Ledgers + Send, B: Listener + Send, R: Wait>(
    rt: &R,
    site: &Site,
    publisher: &Publisher<L, B>,
    pace: &mut Pace,
) -> Result<String, FanoutFault> {
    let mut text = String::new(site.alloc);
    let lines = site.board.lines();
    let bytes = site.board.bytes();
    let new_lines = lines.saturating_sub(pace.lines);
    let new_bytes = bytes.saturating_sub(pace.bytes);
    *pace = Pace { lines, bytes };
    write!(text, "fanout: {new_lines} lines/s, {new_bytes} bytes/s")?;
    let stats = publisher.stats(rt, site.alloc)?;
    let most = publisher.max_buffer_capacity();
    for (number, sink) in site.plan.sinks.iter().enumerate() {
        let path = NameText(sink.path.as_slice());
        if site.board.has_ended(number) {
            write!(text, "; {path} ended")?;
        } else {
            let lag = lag_of(&stats, name_of(site.alloc, number)?);
            write!(text, "; {path} {lag}/{most}")?;
        }
    }
    text.push_str("\n")?;
    Ok(text)
}

/// How many texts wait for the sink with this name; none once it is handed no more.
fn lag_of(stats: &Stats, name: Name) -> u64 {
    match stats.live.iter().find(|one| one.name == name) {
        Some(figures) => figures.lag,
        None => 0,
    }
}
