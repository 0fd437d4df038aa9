//! The three subscribers of the bus.
use flow_rules::{Answer, Fault, Item, Watch};
use std::io::Write;
use std::sync::Arc;
use std::sync::atomic::Ordering::SeqCst;
use std::sync::atomic::{AtomicBool, AtomicU64};

/// Writes each line to a file, as fast as lines come.
#[derive(Drop)]
pub struct ToFile<W: Write + Drop> {
    pub log: W,
    /// Set if the last flush fails. Whoever shall know has a share of it.
    pub is_cut: Arc<AtomicBool>,
}

impl<W: Write + Drop> Watch for ToFile<W> {
    fn on_start(&mut self) -> Answer {
        Answer::Request(i64::MAX)
    }

    fn on_item(&mut self, item: &Item) -> Answer {
        let written = self.log.write_all(item.text.as_bytes());
        if written.is_err() || self.log.write_all(b"\n").is_err() {
            // The subscription ends with this code of our own, and the others go on.
            return Answer::Fail(1);
        }
        Answer::Go
    }

    fn on_end(&mut self, _fault: Option<Fault>) {
        // No answer is obeyed any more, so the subscription can't fail.
        if self.log.flush().is_err() {
            self.is_cut.store(true, SeqCst);
        }
    }
}

/// How many lines there were of each severity: two numbers, however many lines come. Whoever has a share of them may
/// read them at any time.
#[derive(Drop)]
pub struct Severities {
    pub errors: AtomicU64,
    pub others: AtomicU64,
}

/// Counts the lines by their severity.
#[derive(Drop)]
pub struct BySeverity(pub Arc<Severities>);

impl Watch for BySeverity {
    fn on_start(&mut self) -> Answer {
        Answer::Request(i64::MAX)
    }

    fn on_item(&mut self, item: &Item) -> Answer {
        let count = if item.text.as_bytes().starts_with(b"error") {
            &self.0.errors
        } else {
            &self.0.others
        };
        count.fetch_add(1, SeqCst);
        Answer::Go
    }

    fn on_end(&mut self, _fault: Option<Fault>) {}
}

/// Requests nothing by itself: the owner of its subscription does.
#[derive(Drop)]
pub struct Slow;

impl Watch for Slow {
    fn on_start(&mut self) -> Answer {
        Answer::Go
    }

    fn on_item(&mut self, _item: &Item) -> Answer {
        Answer::Go
    }

    fn on_end(&mut self, _fault: Option<Fault>) {}
}
