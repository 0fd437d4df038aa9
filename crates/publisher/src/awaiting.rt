//! Who looks for room before they sleep, so that a turn takes the lock to tell them only if there is anybody.
//!
//! A submitter is counted before it looks, and until it has got up; and a turn sees whether anybody is counted only
//! once it was made. So a turn that makes room after a look sees that the submitter is counted, and takes the lock to
//! tell; and the lock is free only once the submitter sleeps. A look that may sleep asks for a [`Counted`], and
//! whether anybody is counted is told for a [`Done`] alone.
use crate::turned::Done;
use std::sync::atomic::AtomicU64;
use std::sync::atomic::Ordering::SeqCst;

/// How many threads look for room before they sleep, or sleep.
#[derive(Drop)]
pub struct Awaiting(AtomicU64);

/// A thread that is counted. It can't be dropped: it is counted off by [`Counted::get_up`] alone, also if there was
/// room.
#[must_use]
pub struct Counted<'a>(&'a Awaiting);

impl Awaiting {
    /// Makes one in which nobody is counted.
    pub fn nobody() -> Awaiting {
        Awaiting(AtomicU64::new(0))
    }

    /// Counts a thread that is to look for room.
    pub fn count(&self) -> Counted<'_> {
        self.0.fetch_add(1, SeqCst);
        Counted(self)
    }

    /// Tells whether anybody is counted, for a turn that was made.
    pub fn is_anybody(&self, _after: Done) -> bool {
        self.0.load(SeqCst) > 0
    }
}

impl Counted<'_> {
    /// Counts the thread off, which waits no more.
    pub fn get_up(self) {
        let Counted(awaiting) = self;
        awaiting.0.fetch_sub(1, SeqCst);
    }
}
