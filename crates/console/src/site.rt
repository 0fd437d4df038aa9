//! The site: what the terminal and the threads of its sources have in common. What each of them does stands in its own file.
use crate::echo::Echoes;
use crate::fault::ConsoleFault;
use crate::screen::Screen;
use commands::Verdict;
use flow_rules::{NoMemory, Refusal};
use publisher::{Ledgers, Publisher, Submitter};
use std::alloc::Global;
use std::sync::{Arc, Mutex, Wait};
use std::time::Clock;

/// A publisher and a screen, with what comes back from the threads that publish.
#[derive(Drop)]
pub struct Site<L: Ledgers + Send, R: Print + Clock + Wait + Copy + Send + Sync + 'static> {
    /// The runtime.
    pub rt: R,
    /// What gives all memory.
    pub alloc: Global,
    /// The publisher of the session.
    pub publisher: Publisher<L, Echoes<R>>,
    /// Where all lines are written.
    pub screen: Arc<Screen<R>>,
    /// The submitters of the sources that have ended. There is room for those of all sources.
    pub submitters: Mutex<Vec<Submitter<L, Echoes<R>>>>,
    /// Where it is said that the session can't end.
    pub verdict: Arc<Verdict<ConsoleFault>>,
}

impl<L: Ledgers + Send, R: Print + Clock + Wait + Copy + Send + Sync + 'static> Site<L, R> {
    /// Makes a submitter. Refused as [`Publisher::submitter`] is.
    pub fn submitter(&self) -> Result<Submitter<L, Echoes<R>>, Refusal> {
        self.publisher
            .submitter(&self.rt, self.alloc, &mut self.publisher.note())
    }

    /// Takes a submitter back, for the end of the publisher.
    pub fn hand_in(&self, submitter: Submitter<L, Echoes<R>>) -> Result<(), NoMemory> {
        let mut submitters = self.submitters.lock(&self.rt);
        submitters.push(submitter)?;
        Ok(())
    }
}
