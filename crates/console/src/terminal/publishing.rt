//! What concerns all subscriptions: `offer`, `retry`, `submit`, `publish`, `close` and `fail`.
use super::{PAUSE, Source, Terminal};
use crate::desk::Desk;
use crate::order::Call;
use crate::site::Site;
use crate::source::{Handed, MOST_SOURCES, start_source};
use commands::Reply;
use flow_rules::{DropHandler, Ending, Item, Name, NoMemory, Refusal};
use publisher::Ledgers;
use std::alloc::{AllocError, Global};
use std::sync::{Arc, Wait};
use std::thread;
use std::thread::{Scope, Threads};
use std::time::{Clock, Duration};

impl<
    'e,
    L: Ledgers + Send + Sync + 'static,
    R: Print + Clock + Threads + Wait + Copy + Send + Sync + 'static,
> Terminal<'e, L, R> {
    /// Offers a text.
    pub(super) fn offer(&mut self, text: &[u8]) -> Result<Reply, Refusal> {
        let site = self.site;
        let answer = self.submitter.offer(&site.rt, site.alloc, text, None)?;
        self.offered = self.offered.saturating_add(1);
        Ok(Reply::Offered(answer))
    }

    /// Offers a text, and offers it once more to each subscriber that has no room.
    pub(super) fn retry(&mut self, text: &[u8]) -> Result<Reply, Refusal> {
        let site = self.site;
        let mut calls = Retries(0);
        let answer = self
            .submitter
            .offer_with(&site.rt, site.alloc, text, &mut calls)?;
        self.offered = self.offered.saturating_add(1);
        Ok(Reply::Retried(answer, calls.0))
    }

    /// Hands a text to a source, which is started if it is new, and which answers it. If that will wait for a
    /// subscription until a later line requests, it is said, unless another text waits already. It waits while
    /// [`MOST_TEXTS`](crate::source::MOST_TEXTS) wait for the source. Refused 11 if the source stands still then.
    pub(super) fn publish<'s, 'v: 's>(
        &mut self,
        scope: &'s Scope<'s, &'v ()>,
        call: Call,
        number: u32,
        text: &[u8],
    ) -> Result<(), Refusal>
    where
        'e: 's,
    {
        let desk = self.desk_of(scope, number)?;
        let site = self.site;
        let text = copy_of(site.alloc, text)?;
        if !self.is_any_left() {
            self.say_waiting(call, number);
        }
        desk.count(&site.rt);
        let handed = self.hand_to(&desk, Handed { call, text });
        if handed.is_err() {
            desk.discount(&site.rt);
        }
        handed
    }

    /// Says for whom a source is about to wait, if it is. No other source publishes meanwhile, so no buffer gets fuller.
    fn say_waiting(&self, call: Call, number: u32) {
        self.let_tell();
        let Some(named) = self.stuck(call) else {
            return;
        };
        let Site {
            publisher,
            screen,
            ..
        } = self.site;
        let room = publisher.max_buffer_capacity();
        // The screen keeps what has failed, and the terminal looks there.
        let _ = screen.say(format_args!(
            "= {} {number} waits for {} ({room} of {room})",
            call.word(),
            named.name
        ));
    }

    /// Hands a text to the thread of a source, once there is room for it.
    fn hand_to(&self, desk: &Desk, handed: Handed) -> Result<(), Refusal> {
        let Site { rt, screen, .. } = self.site;
        let mut left = handed;
        for _ in rt.forever() {
            match desk.texts.try_push(rt, left) {
                Ok(()) => return Ok(()),
                Err(handed) => left = handed,
            }
            if screen.fault().is_some() || self.stands_still(desk)? {
                return Err(Refusal::WouldWait);
            }
            thread::sleep(rt, Duration::from_millis(PAUSE));
        }
        unreachable!()
    }

    /// Gives the desk of a source, which is started if it is new. Refused 4 if there are [`MOST_SOURCES`] others.
    fn desk_of<'s, 'v: 's>(
        &mut self,
        scope: &'s Scope<'s, &'v ()>,
        number: u32,
    ) -> Result<Arc<Desk>, Refusal>
    where
        'e: 's,
    {
        let known = self.sources.iter().find(|source| source.number == number);
        if let Some(source) = known {
            return Ok(Arc::try_clone(&source.desk)?);
        }
        if self.sources.len() >= MOST_SOURCES {
            return Err(Refusal::TooMany);
        }
        let site = self.site;
        let desk = Arc::new(site.alloc, Desk::new(site.alloc)?)?;
        let ours = Arc::try_clone(&desk)?;
        self.sources.push(Source { number, desk: ours })?;
        if start_source(scope, site, number, Arc::try_clone(&desk)?).is_err() {
            self.sources.pop();
            return Err(Refusal::NoMemory);
        }
        Ok(desk)
    }

    /// Closes the publisher in this way, once each source has published what it was handed or stands still. What is left
    /// then is refused.
    pub(super) fn close_after_all(&self, ending: Ending) -> Result<Reply, Refusal> {
        self.settle()?;
        self.close(ending)
    }

    /// Closes the publisher in this way.
    pub(super) fn close(&self, ending: Ending) -> Result<Reply, Refusal> {
        let Site {
            rt,
            alloc,
            publisher,
            ..
        } = self.site;
        let mut note = publisher.note();
        match ending {
            Ending::Normal => publisher.close(rt, *alloc, &mut note)?,
            Ending::Failed(code) => publisher.close_exceptionally(rt, *alloc, &mut note, code)?,
        }
        Ok(Reply::Done)
    }
}

/// Has each item that finds no room offered once more, and counts these offers.
#[derive(Drop)]
struct Retries(u64);

impl DropHandler for Retries {
    fn on_drop(&mut self, _name: Name, _item: &Item) -> bool {
        self.0 = self.0.saturating_add(1);
        true
    }
}

/// Copies a text.
fn copy_of(alloc: Global, text: &[u8]) -> Result<Vec<u8>, NoMemory> {
    let mut copy = Vec::new(alloc);
    copy.extend_from_slice(text)?;
    Ok(copy)
}
