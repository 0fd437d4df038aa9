//! What a pool runs, and what a worker passes before each job.
use std::sync::Wait;

/// A piece of work (`ForkJoinTask` of Java SE 17, without its joins).
pub trait Job: Send + Drop {
    /// What one thread runs its jobs with.
    type Context;

    /// Runs the job. `Some` is the job that is to be run again later.
    fn run<R: Wait>(self, rt: &R, context: &mut Self::Context) -> Option<Self>;
}

/// What a worker passes before each job, so that tests can hold it there.
pub trait Gate: Sync {
    /// Called once for each job, before worker `worker` looks for it.
    fn pass(&self, worker: usize);
}

/// The gate that does nothing.
#[derive(Clone, Copy, Debug)]
pub struct Wide;

impl Gate for Wide {
    fn pass(&self, _worker: usize) {}
}
