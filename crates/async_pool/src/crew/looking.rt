//! How a worker looks for a job while it holds the lock, in steps that compile in one order only: it is idle, and sees
//! whether a call may put a job in still; then it takes a job, if there is one; and what it found is judged by the crew
//! as it was all along.
ghost use Rattle.std.specs.Prelude.{◌≡◌};

use super::Crew;
use crate::door::Door;
use crate::jobs::Jobs;
use crate::lookout::Idle;
use crate::rule::{Rule, Shutdown};
use crate::source::Source;
use crate::taker::Taker;
use std::snapshot::Snapshot;
use std::sync::Wait;

/// What a worker finds that looks for a job while it holds the lock.
pub(crate) enum Look<J: Drop, Q: Rule<J>> {
    Found(J),
    /// There was no job to take, and the pool is open.
    Nothing(Searched<J, Q>),
    /// There was no job to take, and the pool was shut, but a call that came before that may put one in still.
    OnItsWay,
    Over(Over),
}

/// A look found no job in an open pool, and what is behind the lock is as it was then.
#[derive(Drop)]
pub(crate) struct Searched<J: Drop, Q: Rule<J>> {
    at: Snapshot<Crew<J, Q>>,
}

/// The pool was shut, and no job was left or on its way in. One look alone gives it, and it can't be dropped: a loop
/// ends with it.
#[must_use]
pub(crate) struct Over(pub(super) ());

/// A worker has seen whether a call may put a job in still, and has not looked for one yet: what is counted no more by
/// then, it finds.
#[derive(Drop)]
pub(crate) struct Seen<J: Drop, Q: Rule<J>> {
    at: Snapshot<Crew<J, Q>>,
    comes: bool,
}

/// What the worker found after that.
#[derive(Drop)]
pub(crate) struct Sought<J: Drop, Q: Rule<J>> {
    at: Snapshot<Crew<J, Q>>,
    comes: bool,
    found: Option<J>,
}

impl<J: Drop, Q: Rule<J>> Crew<J, Q> {
    ghost use Rattle.async_pool.specs.Looks.{LooksFor};

    /// Sees whether a call may put a job in still, for a worker that is idle and holds the lock.
    pub fn see<P: Shutdown>(&self, door: &Door<P>, _idle: &Idle) -> Seen<J, Q>
        ensures { result.at.value ≡ self.now }
    {
        Seen {
            at: Snapshot::of(self),
            comes: door.is_entered(),
        }
    }

    /// Says what a worker found that has held the lock since it began to look. It may lie down only if it found nothing
    /// in an open pool, and its loop may end only if all is over.
    pub fn judge(&self, sought: Sought<J, Q>) -> Look<J, Q>
        requires { sought.at.value ≡ self.now }
        ensures { LooksFor self.now sought.found sought.comes result }
    {
        let Sought {
            at: _,
            comes,
            found,
        } = sought;
        match found {
            Some(job) => Look::Found(job),
            None if !self.shut => Look::Nothing(Searched {
                at: Snapshot::of(self),
            }),
            None if comes => Look::OnItsWay,
            None => Look::Over(Over(())),
        }
    }
}

impl<J: Drop, Q: Rule<J>> Seen<J, Q> {
    ghost use Rattle.std.specs.Prelude.{IfNone, Some};
    ghost use Rattle.async_pool.specs.Jobs.{FindsJob, HadNone, IsTakerOf};
    ghost use Rattle.async_pool.specs.Source.{WereEmpty};

    /// Takes the next job of the worker: the first of its own queue, else of the inbox, else of another worker's queue.
    pub fn seek<R: Wait, P: Rule<J>, T: Source<J> + Drop>(
        self,
        rt: &R,
        jobs: &Jobs<J, P, T>,
        taker: &mut Taker<J, Q>,
    ) -> Sought<J, Q>
        requires { IsTakerOf jobs.now taker.old }
        ensures of { IsTakerOf jobs.now taker.new }
        ensures held { result.at.value ≡ self.at.value }
        ensures finds { FindsJob taker.old result.found taker.new }
        ensures none { IfNone result.found (HadNone Q.fact P.fact taker.old
            × WereEmpty T.was_empty jobs.now.thieves.items (Some taker.old.worker)) }
    {
        let Seen { at, comes } = self;
        Sought {
            at,
            comes,
            found: jobs.next(rt, taker),
        }
    }
}
