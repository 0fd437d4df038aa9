//! How a session ended, as the thread of `main` learns it. The session has a thread of its own, so that the program can
//! end while a thread of the session waits for a reader, for input or for ever.
use std::sync::{Condvar, CondvarTimeouts, Mutex, Wait};
use std::time::{Clock, Duration};

/// How the session ended, once that is said.
#[derive(Drop)]
pub struct Verdict<E: Drop> {
    said: Mutex<Option<Result<(), E>>>,
    changed: Condvar,
}

impl<E: Drop> Verdict<E> {
    /// A verdict that is not said yet.
    pub fn new() -> Verdict<E> {
        Verdict {
            said: Mutex::new(None),
            changed: Condvar::new(),
        }
    }

    /// Says how the session ended, if nobody has.
    pub fn say<R: Wait>(&self, rt: &R, ended: Result<(), E>) {
        let mut said = self.said.lock(rt);
        if said.is_none() {
            *said = Some(ended);
        }
        drop(said);
        self.changed.notify_all();
    }

    /// Waits until that is said, and takes it.
    pub fn wait<R: Wait>(&self, rt: &R) -> Result<(), E> {
        let mut said = self.said.lock(rt);
        for _ in rt.forever() {
            if let Some(ended) = said.take() {
                return ended;
            }
            said = self.changed.wait(rt, said);
        }
        unreachable!()
    }

    /// Takes it, and waits a second for it, or less.
    pub fn wait_a_second<R: Wait + Clock>(&self, rt: &R) -> Option<Result<(), E>> {
        let mut said = self.said.lock(rt);
        if said.is_none() {
            said = self
                .changed
                .wait_timeout(rt, said, Duration::from_secs(1))
                .0;
        }
        said.take()
    }
}
