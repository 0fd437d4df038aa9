//! Which workers find a job that comes by themselves, and whether one has to be called, as whoever puts a job somewhere
//! sees it without the lock. Who sleeps is told behind the lock, by [`Sleepers`](crate::sleepers::Sleepers).
//!
//! A worker that found no job is counted while it searches. Then it is counted off, and counted as idle until it runs
//! again. Only after that it takes the lock, looks once more, and sleeps if it found nothing. Whoever puts a job
//! somewhere reads the counts afterwards. If the worker looked before the job came, it was counted as idle by then: so
//! the other calls it, or one that is idle too, and takes the lock for that, which is free only once the worker sleeps.
//! While anybody searches nobody is called: that one looks after the job came, or becomes idle and looks then. Each
//! count gives a value for which the next step asks, so in another order the steps don't compile.
use std::sync::atomic::AtomicU64;
use std::sync::atomic::Ordering::SeqCst;

/// How many workers search, and how many are idle.
#[derive(Drop)]
pub(crate) struct Lookout {
    /// How many workers sleep, or are about to. Only if there are any, whoever puts a job somewhere takes the lock.
    idle: AtomicU64,
    /// How many workers look for a job again and again. While there are any nobody is called: they look after a job
    /// came, and the last of them that finds one calls the next worker, if another job waits. So one wake-up serves all
    /// jobs that come together.
    searching: AtomicU64,
}

/// A worker that is counted as one that searches. It can't be dropped: it is counted off.
#[must_use]
pub(crate) struct Search(());

/// A worker that is counted off, and was the last that searched. With this it looks whether another job waits.
#[must_use]
#[derive(Drop)]
pub(crate) struct Last(());

/// A worker that searches no more, and is counted as idle. With this it looks before it sleeps. It can't be dropped: it
/// is counted off.
#[must_use]
pub(crate) struct Idle(());

impl Lookout {
    /// Nobody is counted.
    pub fn new() -> Lookout {
        Lookout {
            idle: AtomicU64::new(0),
            searching: AtomicU64::new(0),
        }
    }

    /// Counts a worker that searches.
    pub fn begin_search(&self) -> Search {
        self.searching.fetch_add(1, SeqCst);
        Search(())
    }

    /// Counts a worker off that searched and found a job, and says whether it was the last.
    pub fn end_search(&self, search: Search) -> Option<Last> {
        let Search(()) = search;
        (self.searching.fetch_sub(1, SeqCst) == 1).then_some(Last(()))
    }

    /// Counts a worker as idle that searched and found no job.
    pub fn begin_idle(&self, search: Search) -> Idle {
        let Search(()) = search;
        self.searching.fetch_sub(1, SeqCst);
        self.idle.fetch_add(1, SeqCst);
        Idle(())
    }

    /// Counts a worker off that was idle.
    pub fn end_idle(&self, idle: Idle) {
        let Idle(()) = idle;
        self.idle.fetch_sub(1, SeqCst);
    }

    /// Whether a worker has to be called for a job that came.
    pub fn has_to_call(&self) -> bool {
        self.idle.load(SeqCst) > 0 && self.searching.load(SeqCst) == 0
    }
}
