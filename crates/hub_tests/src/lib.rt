//! Tests of the public calls of `close_count`, `async_pool` and `publisher_hub`, and what they share: a Hub's calls as rows, and a
//! producer's end that notes its puts.
//!
//! The tests compare with values from outside: they show that calls with ample memory succeed, and what threads do.
#![tactic(auto)]

mod counting;
#[cfg(test)]
mod tests;
#[cfg(test)]
mod trial;

pub use counting::Counting;
#[cfg(test)]
pub use trial::{Ask, Row, Spot, Trial, Why, counting_hub, desks_of};
