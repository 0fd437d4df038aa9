//! Waits for what other threads do.
use std::sync::atomic::Ordering::SeqCst;
use std::sync::atomic::{AtomicBool, AtomicU64};
use std::thread;

/// How often a thread looks for what another one does before it gives up.
const MOST_LOOKS: u64 = 10_000_000;

/// Waits until another thread raises a flag, but not for ever. Tells whether it did.
pub fn wait_for(flag: &AtomicBool) -> bool {
    for _ in 0..MOST_LOOKS {
        if flag.load(SeqCst) {
            return true;
        }
        thread::yield_now();
    }
    false
}

/// Waits until a count is this high, but not for ever. Tells whether it is.
pub fn comes_to(count: &AtomicU64, number: u64) -> bool {
    for _ in 0..MOST_LOOKS {
        if count.load(SeqCst) >= number {
            return true;
        }
        thread::yield_now();
    }
    false
}
