//! How far the sources are, and for whom they wait: `wait`, and what comes before a close.
//!
//! A source stands still if the text that it publishes waits for a subscription that stands still, too: one that was
//! told all that it requested, and whose buffer is full. Only a later line can request, so nothing changes until then.
//! But a source that has published its text looks the same until it has counted that. So the publications that the
//! sources have counted are added up before the look, and compared afterwards with the number that the publisher has
//! made: if both are equal, no source was between a publication and its count.
use super::{Named, PAUSE, Source, Terminal};
use crate::desk::{Desk, Doing};
use crate::order::Call;
use flow_rules::Refusal;
use publisher::Ledgers;
use std::sync::Wait;
use std::sync::atomic::Ordering::SeqCst;
use std::thread;
use std::thread::Threads;
use std::time::{Clock, Duration};

/// How the answer to `wait` begins.
const WAIT: &str = "wait";

impl<
    'e,
    L: Ledgers + Send + Sync + 'static,
    R: Print + Clock + Threads + Wait + Copy + Send + Sync + 'static,
> Terminal<'e, L, R> {
    /// Waits until each source has answered all that it was handed, or stands still. The answer says which stand still,
    /// and for whom. Refused 5 if memory for a look is refused.
    pub(super) fn wait(&self) -> Result<String, Refusal> {
        self.settle()?;
        let mut answer = String::from_str(self.site.alloc, WAIT)?;
        for source in &self.sources {
            if let Some(named) = self.blocker(&source.desk) {
                self.add_waiting(&mut answer, source, named)?;
            }
        }
        Ok(answer)
    }

    /// Adds that a source waits for a subscription.
    fn add_waiting(
        &self,
        answer: &mut String,
        source: &Source,
        named: &Named<L, R>,
    ) -> Result<(), Refusal> {
        let room = self.site.publisher.max_buffer_capacity();
        let link = if answer.len() == WAIT.len() { "" } else { "," };
        let waiting = format!(in self.site.alloc;
            "{link} {} waits for {} ({room} of {room})",
            source.number, named.name
        )?;
        answer.push_str(waiting.as_str())?;
        Ok(())
    }

    /// Waits until each source has answered all that it was handed, or stands still; or until a line can't be written.
    /// Refused 5 if memory for a look is refused.
    pub(super) fn settle(&self) -> Result<(), Refusal> {
        let site = self.site;
        for _ in site.rt.forever() {
            if site.screen.fault().is_some() || self.have_settled()? {
                return Ok(());
            }
            thread::sleep(&site.rt, Duration::from_millis(PAUSE));
        }
        unreachable!()
    }

    /// Tells whether each source has answered all that it was handed, or stands still.
    fn have_settled(&self) -> Result<bool, Refusal> {
        let counted = self.counted();
        for source in &self.sources {
            if !source.desk.progress(&self.site.rt).is_done()
                && self.blocker(&source.desk).is_none()
            {
                return Ok(false);
            }
        }
        if self.are_done() {
            return Ok(true);
        }
        self.were_all_counted(counted)
    }

    /// Tells whether a source stands still. Refused 5 if memory for a look is refused.
    pub(super) fn stands_still(&self, desk: &Desk) -> Result<bool, Refusal> {
        let counted = self.counted();
        if self.blocker(desk).is_none() {
            return Ok(false);
        }
        self.were_all_counted(counted)
    }

    /// Tells whether each source has answered all that it was handed.
    pub(super) fn are_done(&self) -> bool {
        for source in &self.sources {
            if !source.desk.progress(&self.site.rt).is_done() {
                return false;
            }
        }
        true
    }

    /// Tells whether a text was handed to a source that is neither published nor refused.
    pub(super) fn is_any_left(&self) -> bool {
        for source in &self.sources {
            if source.desk.progress(&self.site.rt).left > 0 {
                return true;
            }
        }
        false
    }

    /// Counts the publications that the terminal knows of: its own, and those that its sources have counted.
    fn counted(&self) -> u64 {
        let mut counted = self.offered;
        for source in &self.sources {
            let published = source.desk.progress(&self.site.rt).published;
            counted = counted.saturating_add(published);
        }
        counted
    }

    /// Tells whether the publisher has made no more publications than this, which was counted before. Refused 5 if memory
    /// for the look is refused.
    fn were_all_counted(&self, counted: u64) -> Result<bool, Refusal> {
        let site = self.site;
        let stats = site.publisher.stats(&site.rt, site.alloc)?;
        Ok(stats.published == counted)
    }

    /// Finds the first subscription that stands still, of those that this source waits for with the text that it
    /// publishes.
    fn blocker(&self, desk: &Desk) -> Option<&Named<L, R>> {
        match desk.progress(&self.site.rt).doing {
            Doing::Publishing(call) => self.stuck(call),
            Doing::Taking | Doing::Answering => None,
        }
    }

    /// Finds the first subscription that stands still, of those that such a call waits for. Once the publisher is closed
    /// nothing waits.
    pub(super) fn stuck(&self, call: Call) -> Option<&Named<L, R>> {
        let publisher = &self.site.publisher;
        if publisher.is_closed(&mut publisher.note()) {
            return None;
        }
        for named in &self.named {
            if call.waits_for(named.on_full) && self.is_stuck(named) {
                return Some(named);
            }
        }
        None
    }

    /// Waits until each subscription whose buffer is full was told all that it requested, or has room; or until a line
    /// can't be written. Nothing may be published meanwhile.
    pub(super) fn let_tell(&self) {
        let site = self.site;
        for named in &self.named {
            for _ in site.rt.forever() {
                if !self.is_full(named) || was_told_all(named) || site.screen.fault().is_some() {
                    break;
                }
                thread::sleep(&site.rt, Duration::from_millis(PAUSE));
            }
        }
    }

    /// Tells whether a subscription stands still: it was told all that it requested, its buffer is full, and nobody ends
    /// it.
    fn is_stuck(&self, named: &Named<L, R>) -> bool {
        was_told_all(named) && self.is_full(named)
    }

    /// Tells whether the buffer of a subscription is full, and nobody ends it.
    fn is_full(&self, named: &Named<L, R>) -> bool {
        let site = self.site;
        let room = site.publisher.max_buffer_capacity() as u64;
        !named.is_ending && named.subscription.lag(&site.rt) == room
    }
}

/// Tells whether the subscriber of a subscription was told all that it requested.
fn was_told_all<L: Ledgers + Send, R: Print + Clock + Wait + Copy + Send + Sync + 'static>(
    named: &Named<L, R>,
) -> bool {
    named.told.load(SeqCst) == named.subscription.requested()
}
