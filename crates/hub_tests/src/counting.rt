//! A producer's end that notes its puts.
ghost use Rattle.std.specs.Prelude.{◌+◌, ◌≤◌, length};

#[cfg(test)]
mod feed;

use flow_rules::{Amount, Ending, Item};
use test_kit::Notes;

/// A producer's end that notes its letter at each put. All its items are taken at once, just before the put of one number.
#[derive(Drop)]
pub struct Counting {
    notes: Notes,
    letter: u8,
    capacity: usize,
    accepted: Vec<Item>,
    /// How many items were taken.
    taken: usize,
    looks: Amount,
    /// Whether it has ended, since memory was refused.
    over: bool,
    closing: Option<Ending>,
    /// Whether its subscriber subscribed a second time.
    state: bool,
    puts: u64,
    /// The number of the put before which all items are taken, from 1.
    frees_at: u64,
    ghost within: { taken ≤ length accepted.items },
    ghost fits: { length accepted.items ≤ taken + capacity },
}
