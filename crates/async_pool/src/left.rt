//! The room for the jobs that are left at the end of a pool. It is made with the pool, so that no memory is refused
//! then.
ghost use Rattle.std.specs.Prelude.{◌≡◌, ◌≤◌, ◌+◌, []};
ghost use Rattle.std.specs.Vec.{vec_capacity};
ghost use Rattle.async_pool.specs.declared.inbox.TheConstants.{CAPACITY};
ghost use Rattle.async_pool.specs.declared.crew.TheConstants.{MOST_WORKERS};

use crate::crew::MOST_WORKERS;
use crate::inbox::CAPACITY;
use std::alloc::{AllocError, Global};

/// Room for as many jobs as the inbox holds, and for one more of each worker's queue.
///
/// A queue never holds more: a loop looks there first, and puts back at most the one job that it ran.
#[derive(Drop)]
pub(crate) struct Left<J> {
    jobs: Vec<J>,
    ghost unused: { jobs.items ≡ [] },
    ghost room: { CAPACITY + MOST_WORKERS ≤ vec_capacity jobs },
}

impl<J: Drop> Left<J> {
    /// Makes the room.
    pub fn new(alloc: Global) -> Result<Left<J>, AllocError> {
        Ok(Left {
            jobs: Vec::with_capacity(alloc, CAPACITY + MOST_WORKERS)?,
        })
    }

    /// Gives the room, for the jobs.
    pub fn into_room(self) -> Vec<J>
        ensures unused { result.items ≡ [] }
        ensures room { CAPACITY + MOST_WORKERS ≤ vec_capacity result }
    {
        let Left { jobs } = self;
        jobs
    }
}
