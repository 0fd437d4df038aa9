//! How a publisher is made, by its options.
//!
//! How the threads of its workers are started stands in `workers`, and what they do in `job`.
ghost use Rattle.std.specs.Prelude.{◌≡◌, ◌↔◌, ◌⊎◌, ◌<◌, true, Err, IfErr, IfOk};
ghost use Rattle.flow_rules.specs.declared.refusal.Refusal.TheVariants as Refusal;
ghost use Rattle.async_pool.specs.Crew.{IsWorkerCount};
ghost use Rattle.feed_core.specs.Prelude.{Overtake};
ghost use Rattle.flow_rules.specs.Capacity.{capacity_of};
ghost use Rattle.publisher.specs.Blanks.{AreBlanksOf};
ghost use Rattle.publisher.specs.Making.{RefusesCapacity, RefusesMaking, RefusesMakingWith, RefusesMostOf, RefusesWorkers};
ghost use Rattle.publisher_hub.specs.declared.hub.TheConstants.{MOST_LIVE};

use super::Publisher;
use crate::awaiting::Awaiting;
use crate::ledgers::{BlankPair, Ledgers};
use crate::refused::Refused;
use crate::shared::Shared;
use crate::state::{State, StateLock};
use async_pool::{MOST_WORKERS, Pool};
use flow_rules::{ErrorOrder, FailHandler, Listener, NoMemory, Refusal};
use once_cell::race::OnceBox;
use publisher_hub::USUAL_LIVE;
use std::alloc::Global;
use std::sync::{Arc, Mutex, Wait};
use std::thread::Threads;

/// How many workers a publisher has, how many items each of its buffers holds, when its subscribers are told a closing
/// error, and how many of its subscriptions may be live.
#[derive(Clone, Copy, Debug, PartialEq, Eq)]
pub struct PublisherOptions {
    /// The worker threads that run the turns of the subscriptions, from 1 to 8.
    pub workers: usize,
    /// The items for which each buffer is asked to have room, at least 1; enforced is the next power of two, at most
    /// 65,536.
    pub capacity: usize,
    /// Whether a closing error overtakes the items that wait, or waits for them.
    pub order: ErrorOrder,
    /// How many subscriptions may be live at once, at most [`MOST_LIVE`]. Each publication goes through all that are.
    pub most_live: usize,
}

impl PublisherOptions {
    /// The workers of a publisher for which nothing else is asked.
    pub const DEFAULT_WORKERS: usize = 2;

    /// The capacity of a publisher for which nothing else is asked (`Flow.defaultBufferSize`, Java SE 17).
    pub const DEFAULT_CAPACITY: usize = 256;
}

impl Default for PublisherOptions {
    /// Gives two workers, buffers of 256 items, which a closing error overtakes, and 64 live subscriptions.
    fn default() -> PublisherOptions
        ensures { result ≡ record {
          workers = 2;
          capacity = 256;
          order = Overtake;
          most_live = 64;
        } }
    {
        PublisherOptions {
            workers: PublisherOptions::DEFAULT_WORKERS,
            capacity: PublisherOptions::DEFAULT_CAPACITY,
            order: ErrorOrder::Overtake,
            most_live: USUAL_LIVE,
        }
    }
}

impl<L: Ledgers + Send + Sync + 'static, B: Listener + Send + 'static> Publisher<L, B> {
    /// Makes a publisher without subscriptions, whose buffers have the capacity that is enforced if this one is asked
    /// for, and whose turns this many workers run, each a thread of its own. A closing error overtakes the items, and
    /// [`USUAL_LIVE`] subscriptions may be live. The blanks are those of its ledgers.
    ///
    /// Refused 7 for any other number of workers than 1 to [`MOST_WORKERS`], then 1 if the capacity is 0, and then 5
    /// if a growth is refused or a thread can't be started; those that were started have ended then.
    pub fn new<R: Threads + Wait + Copy + Send + 'static>(
        rt: R,
        alloc: Global,
        blanks: BlankPair,
        workers: usize,
        capacity: usize,
    ) -> Result<Publisher<L, B>, Refusal>
        requires blanks { AreBlanksOf blanks L.publications L.drops L.history }
        ensures bad_workers { RefusesWorkers result workers }
        ensures bad_capacity { RefusesCapacity result workers capacity }
        ensures refusals { IfErr result (λ refusal. RefusesMaking refusal) }
        ensures order { IfOk result (λ publisher. publisher.order ≡ Overtake) }
        ensures capacity { IfOk result
            (λ publisher. publisher.capacity ≡ capacity_of capacity) }
    {
        let order = ErrorOrder::Overtake;
        let options = PublisherOptions {
            workers,
            capacity,
            order,
            most_live: USUAL_LIVE,
        };
        Publisher::make(rt, alloc, blanks, options)
    }

    /// Does what [`new`](Publisher::new) does, with both numbers by their names, with the order of a closing error and
    /// the items, and with how many subscriptions may be live. It is refused in the same way, and, after a capacity of
    /// 0, 4 if more than [`MOST_LIVE`] may be live.
    pub fn with_options<R: Threads + Wait + Copy + Send + 'static>(
        rt: R,
        alloc: Global,
        blanks: BlankPair,
        options: PublisherOptions,
    ) -> Result<Publisher<L, B>, Refusal>
        requires blanks { AreBlanksOf blanks L.publications L.drops L.history }
        ensures bad_workers { RefusesWorkers result options.workers }
        ensures bad_capacity { RefusesCapacity result options.workers options.capacity }
        ensures too_many { RefusesMostOf result options.workers options.capacity options.most_live }
        ensures refusals { IfErr result (λ refusal. RefusesMakingWith refusal) }
        ensures order { IfOk result (λ publisher. publisher.order ≡ options.order) }
        ensures capacity { IfOk result
            (λ publisher. publisher.capacity ≡ capacity_of options.capacity) }
    {
        Publisher::make(rt, alloc, blanks, options)
    }
}

impl<
    L: Ledgers + Send + Sync + 'static,
    B: Listener + Send + 'static,
    F: FailHandler + Send + 'static,
> Publisher<L, B, F> {
    /// Does what [`with_options`](Publisher::with_options) does, and has a handler hear of failures (the third
    /// constructor of `SubmissionPublisher`, Java SE 17). If the `onNext` of a subscriber fails, the handler is called
    /// once, with the subscriber's name and the code, after the subscription has ended. No other end calls it. It
    /// comes back in what [`finish`](crate::finish) leaves.
    ///
    /// Whoever ran the turn calls it, while a lock of the handler's own is held and no other. A handler that calls
    /// `submit` may wait for ever.
    ///
    /// Refused as [`with_options`](Publisher::with_options) is, with the handler back.
    pub fn with_handler<R: Threads + Wait + Copy + Send + 'static>(
        rt: R,
        alloc: Global,
        blanks: BlankPair,
        options: PublisherOptions,
        handler: F,
    ) -> Result<Publisher<L, B, F>, Refused<F>>
        requires blanks { AreBlanksOf blanks L.publications L.drops L.history }
        ensures bad_workers { (result ≡ Err (Refusal.BadWorkers, handler)) ↔
            (¬ IsWorkerCount options.workers) }
        ensures bad_capacity { IsWorkerCount options.workers
            → (result ≡ Err (Refusal.BadCapacity, handler)) ↔ (options.capacity ≡ 0) }
        ensures too_many { IsWorkerCount options.workers → 0 < options.capacity
            → (result ≡ Err (Refusal.TooMany, handler)) ↔ (MOST_LIVE < options.most_live) }
        ensures refusals { IfErr result (λ refused. RefusesMakingWith refused.0) }
        ensures order { IfOk result (λ publisher. publisher.order ≡ options.order) }
        ensures capacity { IfOk result
            (λ publisher. publisher.capacity ≡ capacity_of options.capacity) }
        ensures back { IfErr result (λ refused. refused.1 ≡ handler) }
    {
        match Publisher::make(rt, alloc, blanks, options) {
            Ok(publisher) => {
                publisher.shared.set_handler(&rt, handler);
                Ok(publisher)
            }
            Err(refusal) => Err(Refused {
                refusal,
                back: handler,
            }),
        }
    }

    /// Makes a publisher that has no handler yet, with its workers.
    fn make<R: Threads + Wait + Copy + Send + 'static>(
        rt: R,
        alloc: Global,
        blanks: BlankPair,
        options: PublisherOptions,
    ) -> Result<Publisher<L, B, F>, Refusal>
        requires blanks { AreBlanksOf blanks L.publications L.drops L.history }
        ensures bad_workers { RefusesWorkers result options.workers }
        ensures bad_capacity { RefusesCapacity result options.workers options.capacity }
        ensures too_many { RefusesMostOf result options.workers options.capacity options.most_live }
        ensures refusals { IfErr result (λ refusal. RefusesMakingWith refusal) }
        ensures order { IfOk result (λ publisher. publisher.order ≡ options.order) }
        ensures capacity { IfOk result
            (λ publisher. publisher.capacity ≡ capacity_of options.capacity) }
    {
        let PublisherOptions {
            workers,
            capacity,
            order,
            most_live,
        } = options;
        if !is_worker_count(workers) {
            return Err(Refusal::BadWorkers);
        }
        let state = State::new(alloc, capacity, most_live, blanks)?;
        let publisher = Publisher::with(alloc, state, workers, order)?;
        for worker in 0..workers {
            if publisher.start(rt, alloc, worker).is_err() {
                publisher.stop(&rt);
                return Err(Refusal::NoMemory);
            }
        }
        Ok(publisher)
    }

    /// Makes a publisher whose workers were not started.
    fn with(
        alloc: Global,
        state: State<L, B>,
        workers: usize,
        order: ErrorOrder,
    ) -> Result<Publisher<L, B, F>, NoMemory>
        requires { IsWorkerCount workers }
        ensures workers { IfOk result (λ publisher. publisher.workers ≡ workers) }
        ensures order { IfOk result (λ publisher. publisher.order ≡ order) }
        ensures capacity { IfOk result (λ publisher. publisher.capacity ≡ state.hub.capacity) }
    {
        let Ok(pool) = Pool::new(alloc, workers) else {
            return Err(NoMemory);
        };
        Ok(Publisher {
            shared: Arc::new(
                alloc,
                Shared {
                    capacity: state.capacity(),
                    order,
                    state: StateLock::new(state),
                    awaiting: Awaiting::nobody(),
                    closing: Arc::new(alloc, OnceBox::new(alloc))?,
                    handler: Mutex::new(None),
                },
            )?,
            pool: Arc::new(alloc, pool)?,
        })
    }
}

/// Tells whether a publisher may have this many workers.
fn is_worker_count(workers: usize) -> bool
    ensures { (result ≡ true) ↔ IsWorkerCount workers }
{
    workers != 0 && workers <= MOST_WORKERS
}
