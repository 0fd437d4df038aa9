//! What a pool's workers share behind the lock: whether the pool was shut, which loops run, and who sleeps. The jobs
//! stand elsewhere.
mod looking;

ghost use Rattle.std.specs.Prelude.{◌≡◌, ◌≤◌, ◌-◌, ◌++◌, IfOk, None, replicate, vec_len};
ghost use Rattle.async_pool.specs.Thief.{AreThievesOf};
ghost use Rattle.async_pool.specs.Rule.{Begins};
ghost use Rattle.async_pool.specs.declared.crew.TheConstants.{MOST_WORKERS};

use crate::door::Shut;
use crate::queue::Queue;
use crate::rule::Rule;
use crate::sleepers::{Sleeper, Sleepers, Wake};
use crate::thief::Thief;
pub(crate) use looking::{Look, Over, Searched};
use std::alloc::{AllocError, Global};

/// The most workers of a pool.
pub const MOST_WORKERS: usize = 8;

/// The workers of a pool.
#[derive(Drop)]
pub(crate) struct Crew<J: Drop, Q: Rule<J>> {
    shut: bool,
    /// The queue of each worker. The loop of a worker has it while it runs, so a place without one is the mark of a
    /// running loop.
    queues: Vec<Option<Queue<J, Q>>>,
    sleepers: Sleepers,
    ghost places: { vec_len queues ≡ MOST_WORKERS },
}

impl<J: Drop, Q: Rule<J>> Crew<J, Q> {
    ghost use Rattle.std.specs.Prelude.{◌<◌, ◌+◌, ◌-◌, ◌⊎◌, Some, None, false, true, min, slice_get, slice_set};
    ghost use Rattle.async_pool.specs.Sleepers.{CallsOne, CallsAll};
    ghost use Rattle.async_pool.specs.declared.sleepers.Place.TheVariants as Place;

    /// Makes the crew of an open pool with this many workers, none of whose loops runs and none of whom sleeps, and the
    /// thieves of their queues, in the order of the workers.
    pub fn new(alloc: Global, workers: usize) -> Result<(Crew<J, Q>, Vec<Thief<J, Q>>), AllocError>
        requires few { workers ≤ MOST_WORKERS }
        requires begins { Begins Q.holds }
        ensures open { IfOk result (λ made. made.0.shut ≡ false) }
        ensures placed { IfOk result (λ made. AreThievesOf made.0.queues.items made.1.items) }
        ensures thieves { IfOk result (λ made. vec_len made.1 ≡ workers) }
        ensures nobody { IfOk result (λ made. (made.0.sleepers.asleep ≡ 0)
            × (made.0.sleepers.called ≡ 0) × (made.0.sleepers.has_lead ≡ false)
            × (made.0.sleepers.in_turn ≡ 0)) }
    {
        let (queues, thieves) = new_queues(alloc, workers)?;
        let crew = Crew {
            shut: false,
            queues: with_places(queues)?,
            sleepers: Sleepers::none(),
        };
        Ok((crew, thieves))
    }

    /// Marks the loop of a worker as running, and gives it its queue. None if it runs already.
    pub fn start(&mut self, worker: usize) -> Option<Queue<J, Q>>
        requires { worker < MOST_WORKERS }
        ensures taken { slice_get self.old.queues.items worker ≡ Some result }
        ensures marked { self.new.queues.items ≡ slice_set self.old.queues.items worker None }
        ensures others { (self.new.shut ≡ self.old.shut) × (self.new.sleepers ≡ self.old.sleepers) }
    {
        self.queues[worker].take()
    }

    /// Takes the mark of a worker away, whose loop has ended, and keeps its queue for the next one.
    pub fn end_loop(&mut self, worker: usize, queue: Queue<J, Q>, over: Over)
        requires { worker < MOST_WORKERS }
        ensures kept { self.new.queues.items ≡ slice_set self.old.queues.items worker (Some queue) }
        ensures others { (self.new.shut ≡ self.old.shut) × (self.new.sleepers ≡ self.old.sleepers) }
    {
        let Over(()) = over;
        self.queues[worker] = Some(queue);
    }

    /// Counts one more worker that sleeps. It has looked since it took the lock, and found nothing.
    pub fn lie_down(&mut self, searched: &Searched<J, Q>) -> Sleeper
        requires open { self.old.shut ≡ false }
        requires searched { searched.now.at.value ≡ self.old }
        ensures asleep { self.new.sleepers.asleep
            ≡ min (self.old.sleepers.asleep + 1) 18446744073709551615 }
        ensures called { self.new.sleepers.called ≡ self.old.sleepers.called }
        ensures first { self.old.sleepers.has_lead ≡ false → self.old.sleepers.in_turn ≡ 0
            → (result.0 ≡ Place.Lead) × (self.new.sleepers.has_lead ≡ true) }
        ensures other { (self.old.sleepers.has_lead ≡ true) ⊎ (0 < self.old.sleepers.in_turn)
            → (result.0 ≡ Place.Others) × (self.new.sleepers.has_lead ≡ self.old.sleepers.has_lead) }
        ensures in_turn { self.new.sleepers.in_turn ≡ self.old.sleepers.in_turn }
        ensures others { (self.new.shut ≡ self.old.shut) × (self.new.queues ≡ self.old.queues) }
    {
        self.sleepers.lie_down()
    }

    /// Counts off a worker that slept.
    pub fn get_up(&mut self, sleeper: Sleeper)
        ensures asleep { self.new.sleepers.asleep ≡ self.old.sleepers.asleep - 1 }
        ensures called { self.new.sleepers.called ≡ self.old.sleepers.called - 1 }
        ensures lead { sleeper.0 ≡ Place.Lead → self.new.sleepers.has_lead ≡ false }
        ensures other { sleeper.0 ≡ Place.Others
            → self.new.sleepers.has_lead ≡ self.old.sleepers.has_lead }
        ensures in_turn { self.new.sleepers.in_turn ≡ self.old.sleepers.in_turn }
        ensures others { (self.new.shut ≡ self.old.shut) × (self.new.queues ≡ self.old.queues) }
    {
        self.sleepers.get_up(sleeper);
    }

    /// Calls a worker that sleeps, if there is one and each that was called has got up, since a job came.
    pub fn call_one(&mut self) -> Wake
        ensures called { CallsOne self.old.sleepers result self.new.sleepers }
        ensures others { (self.new.shut ≡ self.old.shut) × (self.new.queues ≡ self.old.queues) }
    {
        self.sleepers.call_one()
    }

    /// Learns that the door was shut: from now on a loop that finds no job ends. Each worker that sleeps is called.
    pub fn shut(&mut self, _shut: Shut) -> Wake
        ensures shut { self.new.shut ≡ true }
        ensures called { CallsAll self.old.sleepers result self.new.sleepers }
        ensures same_queues { self.new.queues ≡ self.old.queues }
    {
        self.shut = true;
        self.sleepers.call_all()
    }
}

/// Makes a queue for each of this many workers, and its thief.
fn new_queues<J: Drop, Q: Rule<J>>(
    alloc: Global,
    workers: usize,
) -> Result<(Vec<Option<Queue<J, Q>>>, Vec<Thief<J, Q>>), AllocError>
    requires { Begins Q.holds }
    ensures placed { IfOk result (λ made. AreThievesOf made.0.items made.1.items) }
    ensures one_each { IfOk result (λ made. (vec_len made.0 ≡ workers)
        × (vec_len made.1 ≡ workers)) }
{
    let mut queues = Vec::with_capacity(alloc, MOST_WORKERS)?;
    let mut thieves = Vec::with_capacity(alloc, workers)?;
    while queues.len() < workers {
        let queue = Queue::new(alloc)?;
        thieves.push(queue.thief()?)?;
        queues.push(Some(queue))?;
    }
    Ok((queues, thieves))
}

/// Adds empty places, until there is one for each worker that a pool may have.
fn with_places<J: Drop, Q: Rule<J>>(
    mut queues: Vec<Option<Queue<J, Q>>>,
) -> Result<Vec<Option<Queue<J, Q>>>, AllocError>
    requires { vec_len queues ≤ MOST_WORKERS }
    ensures all { IfOk result (λ places. vec_len places ≡ MOST_WORKERS) }
    ensures empty { IfOk result (λ places. places.items
        ≡ queues.items ++ replicate (MOST_WORKERS - vec_len queues) None) }
{
    while queues.len() < MOST_WORKERS {
        queues.push(None)?;
    }
    Ok(queues)
}
