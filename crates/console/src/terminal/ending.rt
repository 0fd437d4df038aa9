//! The end of the terminal.
use super::{PAUSE, Terminal};
use crate::echo::Echoes;
use crate::fault::ConsoleFault;
use crate::site::Site;
use flow_rules::{Ending, NoMemory};
use publisher::{HandedIn, Ledgers};
use std::sync::Wait;
use std::thread;
use std::thread::Threads;
use std::time::{Clock, Duration};

/// How often the terminal tries to close the publisher, with a pause after each time, before it gives up.
const MOST_TRIES: u64 = 1000;

impl<
    'e,
    L: Ledgers + Send + Sync + 'static,
    R: Print + Clock + Threads + Wait + Copy + Send + Sync + 'static,
> Terminal<'e, L, R> {
    /// Has the sources publish what they can, and end. Nobody requests any more, so a source that stands still would wait
    /// for ever: then the publisher is closed, which ends the waiting, and all that is left is refused. If memory for the
    /// close is refused again and again, the program ends without them.
    pub(super) fn end_sources(&self) {
        let site = self.site;
        let mut tries = 0_u64;
        for _ in site.rt.forever() {
            if self.has_ended_waiting() {
                break;
            }
            tries = tries.saturating_add(1);
            if tries >= MOST_TRIES {
                self.give_up();
            }
            thread::sleep(&site.rt, Duration::from_millis(PAUSE));
        }
        for source in &self.sources {
            source.desk.texts.close(&site.rt);
        }
    }

    /// Waits until the sources have published what they can, and closes the publisher if any text is left. Tells whether
    /// that was done, and no memory was refused for it.
    fn has_ended_waiting(&self) -> bool {
        self.settle().is_ok() && (self.are_done() || self.close(Ending::Normal).is_ok())
    }

    /// Has the program end, though the sources can't.
    fn give_up(&self) {
        let Site {
            rt,
            screen,
            verdict,
            ..
        } = self.site;
        let fault = match screen.fault() {
            Some(fault) => fault.into(),
            None => ConsoleFault::Memory,
        };
        verdict.say(rt, Err(fault));
    }

    /// Closes the publisher, if nobody has, and hands in what goes back to it.
    pub fn hand_in(self, handed_in: &mut HandedIn<L, Echoes<R>>) -> Result<(), NoMemory> {
        let closed = self.close(Ending::Normal);
        let Terminal {
            named,
            submitter,
            ..
        } = self;
        handed_in.submitters.push(submitter)?;
        for named in named {
            handed_in.subscriptions.push(named.subscription)?;
        }
        match closed {
            Ok(_) => Ok(()),
            Err(_) => Err(NoMemory),
        }
    }
}
