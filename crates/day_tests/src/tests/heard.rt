//! A subscriber whose signals are counted where others see it.
ghost use Rattle.std.specs.Prelude.{◌≡◌, [], IfOk};

use flow_rules::{Answer, Collector, Fault, Item, Listener, NoMemory, Signal, Subscriber};
use std::alloc::Global;
use std::sync::Arc;
use std::sync::atomic::AtomicU64;
use std::sync::atomic::Ordering::SeqCst;
use test_kit::Refused;

// How many signals all subscribers of a publisher were told.
pub type Count = Arc<AtomicU64, Global>;

// A collector that counts what it is told, once it keeps it, and that is refused memory from some callback on.
#[derive(Drop)]
pub struct Heard {
    subscriber: Refused<Collector>,
    count: Count,
}

impl Heard {
    // One that was told nothing, and is refused memory after this many callbacks.
    pub fn new(alloc: Global, count: &Count, callbacks: u32) -> Result<Heard, NoMemory>
        ensures untold { IfOk result (λ heard. heard.subscriber.told ≡ []) }
        ensures unheard { IfOk result (λ heard. heard.subscriber.replied ≡ []) }
    {
        Ok(Heard {
            subscriber: Refused::after(Collector::new(alloc), callbacks),
            count: Arc::try_clone(count)?,
        })
    }

    // What it was told, in order.
    pub fn told(&self) -> &[Signal] {
        self.subscriber.listener().told()
    }

    // Counts a signal that was kept.
    fn counted(&self, kept: Result<Answer, NoMemory>) -> Result<Answer, NoMemory>
        ensures { result ≡ kept }
    {
        if kept.is_ok() {
            self.count.fetch_add(1, SeqCst);
        }
        kept
    }
}

impl Listener for Heard {
    ghost told = { λ h. h.subscriber.told };

    ghost replied = { λ h. h.subscriber.replied };

    ghost is_steady = { λ h. h.subscriber.is_steady };

    fn on_subscribe(&mut self) -> Result<Answer, NoMemory> {
        let kept = Listener::on_subscribe(&mut self.subscriber);
        self.counted(kept)
    }

    fn on_next(&mut self, item: &Item) -> Result<Answer, NoMemory> {
        let kept = Listener::on_next(&mut self.subscriber, item);
        self.counted(kept)
    }

    fn on_error(&mut self, fault: Fault) -> Result<Answer, NoMemory> {
        let kept = Listener::on_error(&mut self.subscriber, fault);
        self.counted(kept)
    }

    fn on_complete(&mut self) -> Result<Answer, NoMemory> {
        let kept = Listener::on_complete(&mut self.subscriber);
        self.counted(kept)
    }
}
