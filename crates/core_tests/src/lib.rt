//! Tests of the public calls of `flow_rules`, `feed_core` and `feed_cell`, and what they share: the letters that write signals, and the
//! calls of a subscription as rows.
//!
//! The tests compare with values from outside: they show that calls with ample memory succeed, that the clauses mean
//! what the rules of Flow say, and what is printed.
#![tactic(auto)]

#[cfg(test)]
mod letters;
mod row;
#[cfg(test)]
mod tests;

#[cfg(test)]
pub use letters::{item_with, signals};
pub use row::Row;
#[cfg(test)]
pub use row::{answers, desk_of};
