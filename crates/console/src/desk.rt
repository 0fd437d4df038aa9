//! A desk: what the terminal and the thread of one source have in common.
use crate::order::Call;
use crate::source::{Handed, MOST_TEXTS};
use flow_rules::NoMemory;
use inbox::Queue;
use std::alloc::Global;
use std::sync::{Mutex, Wait};

/// The texts that the terminal hands to a source, and how far the source is with them.
#[derive(Drop)]
pub struct Desk {
    /// The texts that its thread has not taken yet.
    pub texts: Queue<Handed>,
    progress: Mutex<Progress>,
}

/// How far a source is with the texts that it was handed.
#[derive(Clone, Copy)]
pub struct Progress {
    /// How many are neither published nor refused.
    pub left: u64,
    /// How many were published.
    pub published: u64,
    /// What its thread is doing.
    pub doing: Doing,
}

/// What the thread of a source is doing.
#[derive(Clone, Copy, PartialEq, Eq)]
pub enum Doing {
    /// It takes the next text, or waits for one.
    Taking,
    /// It publishes a text that it has taken, in this way. That may be done already.
    Publishing(Call),
    /// It writes what came of a text.
    Answering,
}

impl Progress {
    /// Tells whether the source has answered all that it was handed.
    pub fn is_done(self) -> bool {
        self.left == 0 && self.doing == Doing::Taking
    }
}

impl Desk {
    /// Makes the desk of a source that was handed nothing. `NoMemory` if the room for its texts is refused.
    pub fn new(alloc: Global) -> Result<Desk, NoMemory> {
        Ok(Desk {
            texts: Queue::new(alloc, MOST_TEXTS)?,
            progress: Mutex::new(Progress {
                left: 0,
                published: 0,
                doing: Doing::Taking,
            }),
        })
    }

    /// Tells how far the source is.
    pub fn progress<R: Wait>(&self, rt: &R) -> Progress {
        *self.progress.lock(rt)
    }

    /// Counts a text that is about to be handed to the source.
    pub fn count<R: Wait>(&self, rt: &R) {
        let mut progress = self.progress.lock(rt);
        progress.left = progress.left.saturating_add(1);
    }

    /// Takes back the count of a text that was not handed to the source.
    pub fn discount<R: Wait>(&self, rt: &R) {
        let mut progress = self.progress.lock(rt);
        progress.left = progress.left.saturating_sub(1);
    }

    /// Notes that the source publishes a text in this way.
    pub fn begin<R: Wait>(&self, rt: &R, call: Call) {
        self.progress.lock(rt).doing = Doing::Publishing(call);
    }

    /// Notes that a text was published, or else refused, and that this is about to be written.
    pub fn end<R: Wait>(&self, rt: &R, is_published: bool) {
        let mut progress = self.progress.lock(rt);
        progress.left = progress.left.saturating_sub(1);
        progress.published = progress.published.saturating_add(u64::from(is_published));
        progress.doing = Doing::Answering;
    }

    /// Notes that the source takes its next text.
    pub fn rest<R: Wait>(&self, rt: &R) {
        self.progress.lock(rt).doing = Doing::Taking;
    }
}
