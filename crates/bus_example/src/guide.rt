//! Pieces that docs/GUIDE.md shows, and that no program needs.
use flow_rules::{
    Answer, Collector, DropHandler, Fault, Item, Listener, Name, NoMemory, Refusal, Signal, Watch,
};
use publisher::{Outcome, Publisher, Refused, SharedLedgers, Subscription};
use std::alloc::Global;
use std::sync::atomic::AtomicU64;
use std::sync::atomic::Ordering::SeqCst;
use std::sync::{Arc, Wait};
use std::thread;
use std::thread::Threads;

/// Ends one subscription after the close: with all that is left for it, or at once.
pub fn end_one<L: SharedLedgers, B: Listener + Send, R: Wait>(
    rt: &R,
    subscription: &mut Subscription<L, B>,
    is_to_be_told_all: bool,
) -> Result<(), NoMemory> {
    if is_to_be_told_all {
        subscription.request(rt, i64::MAX)?;
    } else {
        subscription.cancel(rt)?;
    }
    subscription.wait_end(rt);
    Ok(())
}

/// Subscribes a subscriber that keeps every signal.
pub fn subscribe_collector<L: SharedLedgers, R: Wait>(
    rt: &R,
    alloc: Global,
    publisher: &Publisher<L, Collector>,
    name: &str,
) -> Result<Subscription<L, Collector>, Refusal> {
    let name = Name::parse(name)?;
    let collector = Collector::asking(alloc, 100);
    Ok(publisher.subscribe(rt, alloc, name, collector)?)
}

/// What a finished publisher leaves, also if some subscription waits for demand that is not to come.
pub fn left_of<B: Drop>(
    finished: Result<Outcome<B>, Refused<Outcome<B>>>,
) -> anyhow::Result<Outcome<B>> {
    let refused = match finished {
        Ok(outcome) => return Ok(outcome),
        Err(refused) => refused,
    };
    if matches!(refused.refusal(), Refusal::Unsettled(_)) {
        // 9: the named subscriptions have not ended, and each lane is there.
        return Ok(refused.into_inner());
    }
    // 5: memory was refused. 8: the named subscription or submitter was not handed in.
    Err(refused.into())
}

/// How many of these signals are items.
pub fn count_items(told: &[Signal]) -> usize {
    told.iter()
        .filter(|signal| matches!(signal, Signal::Next(_)))
        .count()
}

/// Has each item that finds no room offered once more, after other threads had a chance to run.
#[derive(Drop)]
pub struct OnceMore;

impl DropHandler for OnceMore {
    fn on_drop(&mut self, _name: Name, _item: &Item) -> bool {
        thread::yield_now();
        true
    }
}

/// Counts items where another thread can wait for them.
#[derive(Drop)]
pub struct Announces(pub Arc<AtomicU64>);

impl Watch for Announces {
    fn on_start(&mut self) -> Answer {
        Answer::Request(i64::MAX)
    }

    fn on_item(&mut self, _item: &Item) -> Answer {
        self.0.fetch_add(1, SeqCst);
        self.0.wake_all();
        Answer::Go
    }

    fn on_end(&mut self, _fault: Option<Fault>) {}
}

/// Waits in another thread until this many items were told. A sleep may end for no reason, so it looks again.
pub fn wait_for<R: Wait>(rt: &R, told: &AtomicU64, wanted: u64) {
    for _ in rt.forever() {
        let now = told.load(SeqCst);
        if now >= wanted {
            return;
        }
        told.park(rt, (now % (1 << 32)) as u32);
    }
}

/// Asks a publisher from two threads at once: how many subscribe, and the longest backlog.
pub fn ask_from_two_threads<
    L: SharedLedgers,
    B: Listener + Send + 'static,
    R: Threads + Wait + Sync,
>(rt: &R, publisher: &Publisher<L, B>) -> (usize, u64) {
    thread::join(
        rt,
        || publisher.number_of_subscribers(rt),
        || publisher.estimate_maximum_lag(rt),
    )
}
