//! A pool of workers that run jobs in the order in which they came, as `java.util.concurrent.ForkJoinPool` in
//! `asyncMode` (Java SE 17) does: first in, first out, for jobs that nobody joins.
//!
//! A [`Job`] is run with the context of the thread that runs it, and answers whether it is to be run again. The
//! pool starts no threads: each of its workers is a thread of the caller's that runs [`Pool::worker_loop`] with a
//! number of its own. [`Pool::execute`] hands a job in, from any thread, and gives it back if there is no room.
//! [`Pool::shut`] ends the loops once no job is left, and [`Pool::stop`] gives the jobs that are left then.
//!
//! Jobs that are handed in wait in the inbox, a bounded queue of at most [`CAPACITY`]. Each worker has a queue of its
//! own for jobs that are to be run again. A worker passes its [`Gate`] and takes the first job of its own queue, else
//! of the inbox, else it steals one of another worker's queue. None of this takes a lock. What was put into the inbox,
//! and into each queue, is what was taken from it, followed by what it holds, in the order in which that happened: the
//! rule of both. All is proved for any [`Rule`] that steps keep, so no call can say that a queue was full or empty and
//! not have looked.
//!
//! A worker that found no job a bounded number of times sleeps until one comes or the pool is shut. A job that comes
//! wakes one worker, if nobody searches. It is always the same one while jobs come one at a time, and the workers take
//! turns while they come together. The last that searches wakes the next once it has found a job. So jobs that come
//! together wake no more workers than find work. One lock keeps who sleeps, whose loop runs, and whether the pool was
//! shut. Whom to wake, and that a loop may end, is said by values that can't be dropped, and a worker lies down only
//! after it looked while it held the lock. All room is made by [`Pool::new`]; only a worker's queue may grow later,
//! while a thief is stopped in the middle of a steal.
//!
//! ```
//! let pool = Pool::new(alloc, 1)?;
//! if let Err(job) = pool.execute(&rt, job) {
//!     // It comes back, the same: there is no room, or the pool was shut.
//! }
//! pool.shut(&rt);                                   // from now on each job comes back
//! pool.worker_loop(&rt, 0, &Wide, &mut context);    // runs the jobs that are there, and ends
//! let left = pool.stop(&rt);                        // no job is left
//! ```
#![tactic(auto)]

mod calls;
mod crew;
mod door;
mod inbox;
mod job;
mod jobs;
mod left;
mod lookout;
mod pool;
mod queue;
mod rule;
mod sleepers;
mod source;
mod stolen;
mod taker;
mod thief;
mod under;

pub use crew::MOST_WORKERS;
pub use inbox::CAPACITY;
pub use job::{Gate, Job, Wide};
pub use pool::Pool;
pub use rule::{InOrder, Log, Rule, Shutdown};
