//! A handler of drops that notes its calls.
mod noting;

use std::sync::Arc;
use std::sync::atomic::AtomicU64;

/// Letters that those who share them noted, in order: the last nine, as the digits of a number to the base 128.
#[derive(Drop)]
pub struct Notes {
    letters: Arc<AtomicU64>,
}

/// A handler of drops that answers by a list, and false after its end. It notes the letters of the names that it is asked about.
#[derive(Drop)]
pub struct Asking {
    notes: Notes,
    answers: [bool; 3],
    calls: usize,
}
