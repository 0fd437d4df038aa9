//! What a worker does that finds no job in its own queue: it searches for a while, and then sleeps until it is called.
use super::Pool;
use crate::crew::{Crew, Look, Over};
use crate::job::Job;
use crate::lookout::{Idle, Search};
use crate::rule::{Rule, Shutdown};
use crate::sleepers::Wake;
use crate::taker::Taker;
use crossbeam_utils::Backoff;
use std::sync::{MutexGuard, Wait};
use std::thread;

/// How often a worker looks for a job before it sleeps. It spins in between, for 447 pauses in all: some 2 microseconds
/// on a processor whose pause takes 4.5 nanoseconds. It doesn't yield: on a kernel that takes a time slice from a
/// thread that yields, it would get its processor late once it is called.
const LOOKS: u32 = 12;

/// What became of a worker that was to sleep.
enum Rested<J: Drop> {
    Found(J),
    /// It slept, and was called: it searches from then on.
    Called(Search),
    Over(Over),
}

impl<J: Job, P: Rule<J> + Shutdown, Q: Rule<J>> Pool<J, P, Q> {
    ghost use Rattle.async_pool.specs.Jobs.{IsTakerOf};
    ghost use Rattle.async_pool.specs.Looks.{Looks};

    /// Takes the next job, or says that the pool is over. It takes the lock only after it found no job several times.
    pub(super) fn next_job<R: Wait>(&self, rt: &R, taker: &mut Taker<J, Q>) -> Result<J, Over>
        requires { IsTakerOf self.now.jobs taker.old }
        ensures { IsTakerOf self.now.jobs taker.new }
    {
        if let Some(job) = self.jobs.next(rt, taker) {
            return Ok(job);
        }
        let mut search = self.lookout.begin_search();
        for _ in rt.forever() {
            let idle = match self.search(rt, taker, search) {
                Ok(job) => return Ok(job),
                Err(search) => self.lookout.begin_idle(search),
            };
            let rested = self.rest(rt, taker, &idle);
            self.lookout.end_idle(idle);
            match rested {
                Rested::Found(job) => return Ok(job),
                Rested::Called(again) => search = again,
                Rested::Over(over) => return Err(over),
            }
        }
        unreachable!()
    }

    /// Looks for a job a bounded number of times. A worker that finds none searches still.
    fn search<R: Wait>(&self, rt: &R, taker: &mut Taker<J, Q>, search: Search) -> Result<J, Search>
        requires { IsTakerOf self.now.jobs taker.old }
        ensures { IsTakerOf self.now.jobs taker.new }
    {
        let backoff = Backoff::new();
        for _ in 0..LOOKS {
            if let Some(job) = self.jobs.next(rt, taker) {
                self.end_search(rt, taker, search);
                return Ok(job);
            }
            backoff.spin();
        }
        Err(search)
    }

    /// Counts a worker off that found a job. The last that searched calls the next worker if another job waits in the
    /// inbox: whoever put that in called nobody. A job in the queue of a worker has one that runs it next.
    fn end_search<R: Wait>(&self, rt: &R, taker: &mut Taker<J, Q>, search: Search)
        requires { IsTakerOf self.now.jobs taker.old }
        ensures { IsTakerOf self.now.jobs taker.new }
    {
        let Some(last) = self.lookout.end_search(search) else {
            return;
        };
        if !self.jobs.is_inbox_empty(taker, last) {
            self.call_one(rt);
        }
    }

    /// Sleeps until it is called, unless there is a job, or the pool is over.
    ///
    /// Whoever puts a job somewhere after its look finds it counted as idle, and takes the lock to call it; and the
    /// lock is free only once it sleeps.
    fn rest<R: Wait>(&self, rt: &R, taker: &mut Taker<J, Q>, idle: &Idle) -> Rested<J>
        requires { IsTakerOf self.now.jobs taker.old }
        ensures { IsTakerOf self.now.jobs taker.new }
    {
        let mut crew = self.crew.lock(rt);
        for _ in rt.forever() {
            match self.look(rt, taker, &*crew, idle) {
                Look::Found(job) => {
                    let wake = crew.call_one();
                    self.wake(crew, wake);
                    return Rested::Found(job);
                }
                Look::Over(over) => return Rested::Over(over),
                Look::Nothing(searched) => {
                    let sleeper = crew.lie_down(&searched);
                    crew = self.calls.at(sleeper.place()).wait(rt, crew);
                    crew.get_up(sleeper);
                    return Rested::Called(self.lookout.begin_search());
                }
                Look::OnItsWay => {
                    drop(crew);
                    thread::yield_now();
                    crew = self.crew.lock(rt);
                }
            }
        }
        unreachable!()
    }

    /// Looks once for a job, of a worker that is idle and holds the lock.
    fn look<R: Wait>(
        &self,
        rt: &R,
        taker: &mut Taker<J, Q>,
        crew: &Crew<J, Q>,
        idle: &Idle,
    ) -> Look<J, Q>
        requires { IsTakerOf self.now.jobs taker.old }
        ensures of { IsTakerOf self.now.jobs taker.new }
        ensures looks { Looks crew.now result }
    {
        crew.judge(crew.see(&self.door, idle).seek(rt, &self.jobs, taker))
    }

    /// Wakes a worker that sleeps, if there is one and nobody searches, since a job came.
    pub(super) fn call_one<R: Wait>(&self, rt: &R) {
        if !self.lookout.has_to_call() {
            return;
        }
        let mut crew = self.crew.lock(rt);
        let wake = crew.call_one();
        self.wake(crew, wake);
    }

    /// Lets go of the lock, and wakes whom the lock said.
    pub(super) fn wake(&self, crew: MutexGuard<'_, Crew<J, Q>>, wake: Wake) {
        drop(crew);
        self.calls.make(wake);
    }
}
