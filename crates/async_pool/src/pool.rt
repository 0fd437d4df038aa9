//! The pool: how jobs are handed in, and what the loop of a worker does. It starts no threads, and takes its lock only
//! for workers that have nothing to do.
mod searching;

ghost use Rattle.std.specs.Prelude.{◌≡◌, ◌<◌, ◌↔◌, ◌⊎◌, IfOk, IfErr, Err, vec_len};
ghost use Rattle.flow_rules.specs.declared.refusal.Refusal.TheVariants as Refusal;
ghost use Rattle.async_pool.specs.Crew.{IsWorkerCount};

use crate::calls::Calls;
use crate::crew::{Crew, MOST_WORKERS, Over};
use crate::door::{Door, Entering};
use crate::inbox::Inbox;
use crate::job::{Gate, Job};
use crate::jobs::Jobs;
use crate::left::Left;
use crate::lookout::Lookout;
use crate::queue::Queue;
use crate::rule::{InOrder, Rule, Shutdown};
use crate::source::Source;
use crate::taker::Taker;
use crate::thief::Thief;
use flow_rules::{NoMemory, Refusal};
use std::alloc::Global;
use std::fmt;
use std::sync::{Mutex, Wait};

/// A pool of workers (`ForkJoinPool` in `asyncMode`). Threads share it by reference or in an `Arc`. A caller writes
/// `Pool<J>`: `P` and `Q`, the rules of the inbox and of the workers' queues, are for the proofs.
#[derive(Drop)]
pub struct Pool<J: Job, P: Rule<J> + Shutdown = InOrder, Q: Rule<J> = InOrder> {
    workers: usize,
    jobs: Jobs<J, P, Thief<J, Q>>,
    crew: Mutex<Crew<J, Q>>,
    calls: Calls,
    lookout: Lookout,
    door: Door<P>,
    left: Mutex<Left<J>>,
    ghost allowed: { IsWorkerCount workers },
    ghost stealing: { vec_len jobs.thieves ≡ workers },
}

impl<J: Job, P: Rule<J> + Shutdown, Q: Rule<J>> fmt::Debug for Pool<J, P, Q> {
    fn fmt<W: fmt::Write>(&self, f: &mut fmt::Formatter<W>) -> fmt::Result {
        write!(f, "Pool {{ workers: {} }}", self.workers)
    }
}

impl<J: Job> Pool<J> {
    ghost use Rattle.async_pool.specs.Pool.{pool_workers};

    /// Makes a pool with no job, for 1 to [`MOST_WORKERS`] workers.
    ///
    /// Refused `BadWorkers` for any other number, and `NoMemory` if room for the jobs is refused.
    pub fn new(alloc: Global, workers: usize) -> Result<Pool<J>, Refusal>
        ensures workers { IfOk result (λ pool. pool_workers pool ≡ workers) }
        ensures bad_workers { (result ≡ Err Refusal.BadWorkers) ↔ (¬ IsWorkerCount workers) }
        ensures refusals { IfErr result (λ refusal. (refusal ≡ Refusal.BadWorkers)
            ⊎ (refusal ≡ Refusal.NoMemory)) }
    {
        if workers == 0 || workers > MOST_WORKERS {
            return Err(Refusal::BadWorkers);
        }
        Ok(Pool::with(alloc, workers)?)
    }
}

impl<J: Job, P: Rule<J> + Shutdown, Q: Rule<J>> Pool<J, P, Q> {
    ghost use Rattle.std.specs.Prelude.{[], OnOk, OnErr, IfNone, true};
    ghost use Rattle.async_pool.specs.Rule.{Begins, after_put, log};
    ghost use Rattle.async_pool.specs.Jobs.{IsTakerOf};
    ghost use Rattle.async_pool.specs.Queue.{queue_view};
    ghost use Rattle.async_pool.specs.Pool.{pool_workers, AreLeft, MayComeBack, WereQueuesEmpty};

    /// Makes a pool for this many workers.
    fn with(alloc: Global, workers: usize) -> Result<Pool<J, P, Q>, NoMemory>
        requires count { IsWorkerCount workers }
        requires inbox { Begins P.holds }
        requires queues { Begins Q.holds }
        ensures { IfOk result (λ pool. pool_workers pool ≡ workers) }
    {
        // The room for what is left is the largest, and is not written to: made first, it takes no page that others have used.
        let left = Left::new(alloc)?;
        let inbox = Inbox::new(alloc)?;
        let (crew, thieves) = Crew::new(alloc, workers)?;
        Ok(Pool {
            workers,
            jobs: Jobs::new(inbox, thieves),
            crew: Mutex::new(crew),
            calls: Calls::new(),
            lookout: Lookout::new(),
            door: Door::new(),
            left: Mutex::new(left),
        })
    }

    /// Hands a job in, behind all others of the inbox (`ForkJoinPool.execute`). It comes back, the same, if the inbox
    /// was full at one moment of the call, with [`CAPACITY`](crate::CAPACITY) jobs, or if the pool was shut.
    ///
    /// A job that is handed in while another thread shuts the pool comes back or is run: no loop ends before such a
    /// call has.
    pub fn execute<R: Wait>(&self, rt: &R, job: J) -> Result<(), J>
        ensures same_job { IfErr result (λ back. back ≡ job) }
        ensures full { OnErr result (MayComeBack P.shut P.fact) }
    {
        let entering = self.door.enter();
        let entered = self.enter(rt, &entering, job);
        self.door.leave(entering);
        entered?;
        self.call_one(rt);
        Ok(())
    }

    /// Puts a job into the inbox, if the pool was not shut, for a call that is counted.
    fn enter<R: Wait>(&self, rt: &R, entering: &Entering, job: J) -> Result<(), J>
        ensures same_job { IfErr result (λ back. back ≡ job) }
        ensures full { OnErr result (MayComeBack P.shut P.fact) }
    {
        let Some(open) = self.door.open_for(entering) else {
            return Err(job);
        };
        self.jobs.enqueue(rt, job, &open)?;
        Ok(())
    }

    /// Runs jobs until the pool was shut and none is left. It returns at once if a loop with this number is running.
    ///
    /// The gate is passed once for each job, before the loop looks for it. The loop takes the first job of its own
    /// queue, else of the inbox, else it steals the first job of another worker's queue, in the order of the workers. A
    /// job that is to be run again goes to the back of the loop's own queue, and is run on at once if that has to grow
    /// and memory is refused.
    pub fn worker_loop<R: Wait, G: Gate>(
        &self,
        rt: &R,
        worker: usize,
        gate: &G,
        context: &mut J::Context,
    )
        requires { worker < pool_workers self.now }
    {
        let started = self.crew.lock(rt).start(worker);
        let Some(own) = started else {
            return;
        };
        let mut taker = Taker {
            worker,
            own,
            pass: self.jobs.pass(),
        };
        let over = self.work(rt, &mut taker, gate, context);
        self.crew.lock(rt).end_loop(worker, taker.own, over);
    }

    /// Takes a job out, for the caller to run (`ForkJoinPool.pollSubmission`): the first of the inbox, else of a
    /// worker's queue, in the order of the workers.
    pub fn run_one<R: Wait>(&self, rt: &R) -> Option<J>
        ensures inbox { IfNone result (P.fact (log [] []) []) }
        ensures queues { IfNone result
            (WereQueuesEmpty ⟦<Thief<J, Q> as Source<J>>⟧.was_empty self.now) }
    {
        self.jobs.take(rt)
    }

    /// Shuts the pool: from now on `execute` gives its job back, and each loop ends once no job is left
    /// (`ForkJoinPool.shutdown`). It takes no memory.
    pub fn shut<R: Wait>(&self, rt: &R)
        requires { P.shut ≡ true }
    {
        let shut = self.door.shut(rt);
        let mut crew = self.crew.lock(rt);
        let wake = crew.shut(shut);
        self.wake(crew, wake);
    }

    /// Gives the jobs that are left: those of the inbox, and then those of each worker's queue, each in their order
    /// (`ExecutorService.shutdownNow` gives such a list). It is called once the loops have ended, and takes no memory.
    pub fn stop<R: Wait>(self, rt: &R) -> Vec<J>
        ensures { AreLeft P.fact ⟦<Thief<J, Q> as Source<J>>⟧.was_drained self result }
    {
        let Pool {
            workers: _,
            jobs,
            crew: _,
            calls: _,
            lookout: _,
            door: _,
            left,
        } = self;
        let mut left = left.into_inner().into_room();
        jobs.drain_into(rt, &mut left);
        left
    }

    /// Runs jobs until the pool is over.
    fn work<R: Wait, G: Gate>(
        &self,
        rt: &R,
        taker: &mut Taker<J, Q>,
        gate: &G,
        context: &mut J::Context,
    ) -> Over
        requires { IsTakerOf self.now.jobs taker.old }
    {
        for _ in rt.forever() {
            gate.pass(taker.worker);
            match self.next_job(rt, taker) {
                Ok(job) => self.run(rt, &mut taker.own, job, context),
                Err(over) => return over,
            }
        }
        unreachable!()
    }

    /// Runs a job, and again if it can't go back into its worker's queue.
    fn run<R: Wait>(&self, rt: &R, own: &mut Queue<J, Q>, job: J, context: &mut J::Context) {
        let mut next = job;
        for _ in rt.forever() {
            let Some(again) = next.run(rt, context) else {
                return;
            };
            match self.put_back(rt, own, again) {
                Ok(()) => return,
                Err(again) => next = again,
            }
        }
    }

    /// Puts a job that is to be run again at the back of its worker's own queue, also if the pool was shut.
    fn put_back<R: Wait>(&self, rt: &R, own: &mut Queue<J, Q>, job: J) -> Result<(), J>
        ensures back { OnOk result (queue_view own.new ≡ after_put (queue_view own.old) job) }
        ensures same_job { IfErr result (λ back. back ≡ job) }
        ensures unchanged { OnErr result (queue_view own.new ≡ queue_view own.old) }
    {
        own.push(job)?;
        self.call_one(rt);
        Ok(())
    }
}
