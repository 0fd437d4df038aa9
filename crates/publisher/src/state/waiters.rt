//! Who waits at a publisher's lock, and for what.
//!
//! They are only counted here. How a thread sleeps and is woken stands in `lock`.
ghost use Rattle.std.specs.Prelude.{◌≡◌, ◌+◌, ◌-◌, ◌<◌, ◌↔◌, true, min, IsErr};
ghost use Rattle.publisher.specs.Waiters.{Tells};

/// Threads that wait for what others do, and the loops of workers that have not ended.
#[derive(Drop)]
pub struct Waiters {
    /// Neither is ever so large that it saturates.
    waiting: u32,
    loops: u32,
}

/// A reason to wait: a look that found no room, or a loop that has not ended. Only a look in vain gives one.
#[must_use]
pub struct Reason(());

/// A thread that waits. It can't be dropped: it is handed back by [`Waiters::remove`] alone.
#[must_use]
pub struct Waiter(());

/// Whom to wake once the lock was let go. It can't be dropped, so nobody forgets it.
#[must_use]
pub enum Wake {
    Nobody,
    All,
}

/// The loops of all workers have ended: a look showed it.
#[must_use]
#[derive(Drop)]
pub struct LoopsEnded(());

impl Reason {
    /// Gives the reason to wait that a look in vain has found.
    pub(super) fn of_a_look() -> Reason {
        Reason(())
    }
}

impl Waiters {
    /// Makes one in which nobody waits and no loop runs.
    pub fn none() -> Waiters
        ensures { (result.waiting ≡ 0) × (result.loops ≡ 0) }
    {
        Waiters {
            waiting: 0,
            loops: 0,
        }
    }

    /// Adds a thread that waits.
    pub fn add(&mut self, reason: Reason) -> Waiter
        ensures { self.new ≡ record self.old { waiting = min (self.old.waiting + 1) 4294967295 } }
    {
        let Reason(()) = reason;
        self.waiting = self.waiting.saturating_add(1);
        Waiter(())
    }

    /// Removes a thread that waits no more.
    pub fn remove(&mut self, waiter: Waiter)
        ensures { self.new ≡ record self.old { waiting = self.old.waiting - 1 } }
    {
        let Waiter(()) = waiter;
        self.waiting = self.waiting.saturating_sub(1);
    }

    /// Tells whom to wake after a change: all, if anybody waits.
    pub fn wake(&self) -> Wake
        ensures { Tells self.now result }
    {
        if self.waiting > 0 {
            Wake::All
        } else {
            Wake::Nobody
        }
    }

    /// Adds the loop of one more worker, which is to run.
    pub fn add_loop(&mut self)
        ensures { self.new ≡ record self.old { loops = min (self.old.loops + 1) 4294967295 } }
    {
        self.loops = self.loops.saturating_add(1);
    }

    /// Removes the loop of a worker, which has ended.
    pub fn remove_loop(&mut self)
        ensures { self.new ≡ record self.old { loops = self.old.loops - 1 } }
    {
        self.loops = self.loops.saturating_sub(1);
    }

    /// Looks whether a loop has not ended, which is a reason to wait.
    pub(super) fn look_for_loops(&self) -> Result<LoopsEnded, Reason>
        ensures { IsErr result ↔ (0 < self.now.loops) }
    {
        if self.loops > 0 {
            Err(Reason(()))
        } else {
            Ok(LoopsEnded(()))
        }
    }
}
