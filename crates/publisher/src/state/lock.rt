//! The lock of a publisher: how it is taken, how whoever changed something wakes those who wait, and how a thread
//! sleeps.
//!
//! A thread that looked in vain doesn't let go of the lock before it sleeps: a look takes the [`Held`] lock with it,
//! and gives it back, or gives a [`Blocked`], which alone can sleep. So no change comes between a look and the sleep, since each
//! change is made, and told, while the lock is held.
use super::look::{Drained, Ended};
use super::waiters::{LoopsEnded, Reason, Wake};
use super::{NoRoom, State};
use crate::awaiting::Counted;
use crate::ledgers::Ledgers;
use crossbeam_utils::Backoff;
use flow_rules::Listener;
use std::hint::spin_loop;
use std::sync::{Condvar, Mutex, MutexGuard, Wait};

/// How often a thread tries the lock before it sleeps for it. It spins in between, for 191 pauses in all. These take
/// some 0.9 microseconds on a processor whose pause takes 4.5 nanoseconds: all pauses here are counted for one.
const TRIES: u32 = 8;

/// How often a submitter tries it. It spins in between, some 36 microseconds in all.
const PATIENT_TRIES: u32 = 40;

/// The pauses of a submitter between two tries, 0.9 microseconds: who has the lock publishes several texts meanwhile,
/// and what stands behind the lock stays in its processor's cache.
const PATIENT_PAUSES: u32 = 200;

/// What stands behind a publisher's lock, and the lock.
#[derive(Drop)]
pub struct StateLock<L: Ledgers, B: Listener> {
    state: Mutex<State<L, B>>,
    /// A turn was run, the publisher was closed, or the loop of a worker has ended.
    changed: Condvar,
}

/// A hold of the lock, to look for something that is worth waiting for.
#[derive(Drop)]
pub struct Held<'a, L: Ledgers, B: Listener> {
    state: MutexGuard<'a, State<L, B>>,
    changed: &'a Condvar,
}

/// A hold of the lock in which a look was in vain. It can't be dropped: it sleeps.
#[must_use]
pub struct Blocked<'a, L: Ledgers, B: Listener> {
    held: Held<'a, L, B>,
    reason: Reason,
}

impl<L: Ledgers, B: Listener> StateLock<L, B> {
    /// Makes the lock of this state, which is free.
    pub fn new(state: State<L, B>) -> StateLock<L, B> {
        StateLock {
            state: Mutex::new(state),
            changed: Condvar::new(),
        }
    }

    /// Takes the lock. To sleep for it takes far longer than it is held at a time, so it is tried again and again
    /// before.
    pub fn lock<R: Wait>(&self, rt: &R) -> MutexGuard<'_, State<L, B>> {
        let backoff = Backoff::new();
        for _ in 0..TRIES {
            if let Some(state) = self.state.try_lock() {
                return state;
            }
            backoff.spin();
        }
        self.state.lock(rt)
    }

    /// Takes the lock, as [`lock`](StateLock::lock) does, for a submitter that waits for others: it tries less often,
    /// and far longer.
    pub fn lock_patiently<R: Wait>(&self, rt: &R) -> MutexGuard<'_, State<L, B>> {
        for _ in 0..PATIENT_TRIES {
            if let Some(state) = self.state.try_lock() {
                return state;
            }
            pause(PATIENT_PAUSES);
        }
        self.state.lock(rt)
    }

    /// Takes the lock, to look under it.
    pub fn hold<R: Wait>(&self, rt: &R) -> Held<'_, L, B> {
        Held {
            state: self.lock(rt),
            changed: &self.changed,
        }
    }

    /// Lets go of the lock after a change, and wakes those who wait, if anybody does.
    pub fn unlock_and_wake(&self, state: MutexGuard<'_, State<L, B>>) {
        let wake = state.waiters.wake();
        drop(state);
        match wake {
            Wake::Nobody => {}
            Wake::All => self.changed.notify_all(),
        }
    }

    /// Adds the loop of one more worker, which is to run.
    pub fn add_loop<R: Wait>(&self, rt: &R) {
        self.lock(rt).waiters.add_loop();
    }

    /// Removes the loop of a worker, which has ended, and wakes those who wait.
    pub fn remove_loop<R: Wait>(&self, rt: &R) {
        let mut state = self.lock(rt);
        state.waiters.remove_loop();
        self.unlock_and_wake(state);
    }
}

impl<'a, L: Ledgers, B: Listener> Held<'a, L, B> {
    /// Looks whether a text that found no room would find it now, for a thread that is counted.
    pub fn look_for_room(
        mut self,
        _counted: &Counted<'_>,
        no_room: &NoRoom,
    ) -> Result<Held<'a, L, B>, Blocked<'a, L, B>> {
        match self.state.look_for_room(no_room) {
            Ok(()) => Ok(self),
            Err(reason) => Err(Blocked { held: self, reason }),
        }
    }

    /// Looks whether the subscription of this number has ended.
    pub fn look_for_end(mut self, entry: u32) -> Result<Ended, Blocked<'a, L, B>> {
        match self.state.look_for_end(entry) {
            Ok(ended) => Ok(ended),
            Err(reason) => Err(Blocked { held: self, reason }),
        }
    }

    /// Looks whether the last ticket of the count was spent.
    pub fn look_for_drain(self) -> Result<Drained, Blocked<'a, L, B>> {
        match self.state.look_for_drain() {
            Ok(drained) => Ok(drained),
            Err(reason) => Err(Blocked { held: self, reason }),
        }
    }

    /// Looks whether the loops of all workers have ended.
    pub fn look_for_loops(self) -> Result<LoopsEnded, Blocked<'a, L, B>> {
        match self.state.waiters.look_for_loops() {
            Ok(ended) => Ok(ended),
            Err(reason) => Err(Blocked { held: self, reason }),
        }
    }
}

impl<'a, L: Ledgers, B: Listener> Blocked<'a, L, B> {
    /// Sleeps until another thread tells of a change. The lock is held again then.
    pub fn sleep<R: Wait>(self, rt: &R) -> Held<'a, L, B> {
        let Blocked { held, reason } = self;
        let Held { mut state, changed } = held;
        let waiter = state.waiters.add(reason);
        let mut state = changed.wait(rt, state);
        state.waiters.remove(waiter);
        Held { state, changed }
    }
}

/// Spins for this many pauses.
fn pause(pauses: u32) {
    for _ in 0..pauses {
        spin_loop();
    }
}
