//! What a publisher's threads share: the lock, and the waits for what others do behind it.
//!
//! Whatever may be read without the lock stands beside it. How a thread looks and sleeps while holding the lock once
//! stands in `state`.
use crate::awaiting::Awaiting;
use crate::ledgers::Ledgers;
use crate::state::{Drained, Ended, LoopsEnded, NoRoom, State, StateLock};
use flow_rules::{Ending, ErrorOrder, FailHandler, Listener};
use once_cell::race::OnceBox;
use std::sync::{Arc, Mutex, MutexGuard, Wait};

/// From this capacity on a submitter waits for the lock as for the publications of others. Small buffers are full most
/// of the time: then it is a turn that submitters wait for, and they should look for its room often.
const WAITS_LONG_FROM: usize = 8;

/// What a publisher's threads share.
#[derive(Drop)]
pub struct Shared<L: Ledgers, B: Listener, F: FailHandler> {
    /// The capacity of each buffer.
    pub capacity: usize,
    /// In which order a closing error and the items are told.
    pub order: ErrorOrder,
    /// What stands behind the lock.
    pub state: StateLock<L, B>,
    /// Who looks for room before they sleep.
    pub awaiting: Awaiting,
    /// How the publisher is closed, once it is. It is set while the lock is held, and read without it.
    pub closing: Arc<OnceBox<Ending>>,
    /// Who hears of failures, behind a lock of its own, if anybody does.
    pub handler: Mutex<Option<F>>,
}

impl<L: Ledgers, B: Listener, F: FailHandler> Shared<L, B, F> {
    /// Takes the lock.
    pub fn lock<R: Wait>(&self, rt: &R) -> MutexGuard<'_, State<L, B>> {
        self.state.lock(rt)
    }

    /// Takes the lock, to publish.
    pub fn lock_to_publish<R: Wait>(&self, rt: &R) -> MutexGuard<'_, State<L, B>> {
        if self.capacity < WAITS_LONG_FROM {
            self.state.lock(rt)
        } else {
            self.state.lock_patiently(rt)
        }
    }

    /// Sleeps until another thread tells, if a text that found no room would still have to wait.
    pub fn wait_for_room<R: Wait>(&self, rt: &R, no_room: &NoRoom) {
        let counted = self.awaiting.count();
        let held = match self.state.hold(rt).look_for_room(&counted, no_room) {
            Ok(held) => held,
            Err(blocked) => blocked.sleep(rt),
        };
        drop(held);
        counted.get_up();
    }

    /// Sleeps until the subscription of this number has ended.
    pub fn wait_for_end<R: Wait>(&self, rt: &R, entry: u32) -> Ended {
        let mut held = self.state.hold(rt);
        for _ in rt.forever() {
            match held.look_for_end(entry) {
                Ok(ended) => return ended,
                Err(blocked) => held = blocked.sleep(rt),
            }
        }
        unreachable!()
    }

    /// Sleeps until the last ticket of the count is spent.
    pub fn wait_for_drain<R: Wait>(&self, rt: &R) -> Drained {
        let mut held = self.state.hold(rt);
        for _ in rt.forever() {
            match held.look_for_drain() {
                Ok(drained) => return drained,
                Err(blocked) => held = blocked.sleep(rt),
            }
        }
        unreachable!()
    }

    /// Sleeps until the loops of all workers have ended.
    pub fn wait_for_loops<R: Wait>(&self, rt: &R) -> LoopsEnded {
        let mut held = self.state.hold(rt);
        for _ in rt.forever() {
            match held.look_for_loops() {
                Ok(ended) => return ended,
                Err(blocked) => held = blocked.sleep(rt),
            }
        }
        unreachable!()
    }
}
