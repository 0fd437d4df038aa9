//! The door by which jobs come into a pool, until it is shut. Whose loop runs, and who sleeps, is the crew's business.
//!
//! A call is counted before it sees whether the door was shut, and until it has put its job in. A loop is told after
//! the door was shut, and sees whether a call is counted before it looks for the last time. So it ends only if no job
//! comes any more: each call that is counted later finds the door shut, and what the others put in is found by that
//! look. Each step gives a value for which the next one asks, so in another order they don't compile.
ghost use Rattle.std.specs.Prelude.{◌≡◌, true};

use crate::rule::Shutdown;
use std::marker::PhantomData;
use std::sync::atomic::AtomicU64;
use std::sync::atomic::Ordering::SeqCst;
use std::sync::{OnceLock, Wait};

/// Whether a pool was shut, and how many calls may put a job in still. No call takes a lock to see it.
#[derive(Drop)]
pub(crate) struct Door<P: Shutdown> {
    shut: OnceLock<Said<P>>,
    entering: AtomicU64,
}

/// What whoever shut the pool said. It has no bytes.
#[derive(Drop)]
struct Said<P: Shutdown> {
    shutdown: PhantomData<P>,
    ghost said: { P.shut ≡ true },
}

/// A call that is counted. It can't be dropped: it is counted off by [`Door::leave`] alone.
#[must_use]
pub(crate) struct Entering(());

/// A call that is counted has found the door open. It puts its job in with this, before it is counted off.
#[derive(Drop)]
pub(crate) struct Open<'a>(&'a Entering);

/// The door was shut. The loops of the workers are told with this, and not before.
#[must_use]
#[derive(Drop)]
pub(crate) struct Shut(());

impl<P: Shutdown> Door<P> {
    ghost use Rattle.std.specs.Prelude.{IfNone};

    /// Makes an open door.
    pub fn new() -> Door<P> {
        Door {
            shut: OnceLock::new(),
            entering: AtomicU64::new(0),
        }
    }

    /// Counts a call that is to put a job in.
    pub fn enter(&self) -> Entering {
        self.entering.fetch_add(1, SeqCst);
        Entering(())
    }

    /// Tells a call that is counted whether the door is open.
    pub fn open_for<'a>(&self, entering: &'a Entering) -> Option<Open<'a>>
        ensures { IfNone result (P.shut ≡ true) }
    {
        match self.shut.get() {
            Some(said) => {
                said.learn();
                None
            }
            None => Some(Open(entering)),
        }
    }

    /// Counts a call off.
    pub fn leave(&self, entering: Entering) {
        let Entering(()) = entering;
        self.entering.fetch_sub(1, SeqCst);
    }

    /// Whether a call that is counted may put a job in still.
    pub fn is_entered(&self) -> bool {
        self.entering.load(SeqCst) > 0
    }

    /// Shuts the door. It stays shut.
    pub fn shut<R: Wait>(&self, rt: &R) -> Shut
        requires { P.shut ≡ true }
    {
        let _was_shut = self.shut.set(rt, Said::new());
        Shut(())
    }
}

impl<P: Shutdown> Said<P> {
    /// Says it.
    fn new() -> Said<P>
        requires { P.shut ≡ true }
    {
        Said {
            shutdown: PhantomData,
        }
    }

    /// Tells it.
    fn learn(&self)
        ensures { P.shut ≡ true }
    {}
}
