//! What came of a turn, and the number of a subscription that has ended in it.
//!
//! A number is given to a later subscription once its own was reclaimed, and that is refused until the thread that has
//! ended it is through with it. Until then that thread has an [`EndedTask`], which alone gives the number after a turn. So
//! what it looks up by that number is never another subscription's.
ghost use Rattle.std.specs.Prelude.{◌≡◌};

use feed_cell::{Task, Turn};
use flow_rules::{How, Listener};

/// A turn was made.
#[derive(Clone, Copy)]
pub struct Done(());

/// A subscription that has ended in a turn, with whose number its thread is not through. It can't be dropped: the
/// publisher's state takes it, and the subscription may be reclaimed from then on.
#[must_use]
pub struct EndedTask {
    entry: u32,
    how: How,
}

impl Done {
    /// Takes a turn of the subscription of this number apart: that it was made, the task that goes on, if one does, and
    /// the subscription if it has ended.
    pub fn of<B: Listener>(
        entry: u32,
        turn: Turn<B>,
    ) -> (Done, Option<Task<B>>, Option<EndedTask>) {
        match turn {
            Turn::Again(task) => (Done(()), Some(task), None),
            Turn::Resting(_) => (Done(()), None, None),
            Turn::Ended(how, _) => (Done(()), None, Some(EndedTask { entry, how })),
        }
    }
}

impl EndedTask {
    /// Tells the number of the subscription.
    pub fn entry(&self) -> u32
        ensures { result ≡ self.now.entry }
    {
        self.entry
    }

    /// Tells how the subscription has ended.
    pub fn how(&self) -> How
        ensures { result ≡ self.now.how }
    {
        self.how
    }

    /// Gives the number up.
    pub fn into_entry(self) -> u32
        ensures { result ≡ self.entry }
    {
        let EndedTask { entry, how: _ } = self;
        entry
    }
}
