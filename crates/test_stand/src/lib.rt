//! A publisher with its submitters and subscriptions, as the tests of public calls stand on it. Its methods are calls of `publisher` in a
//! row, and have no clauses beyond what those ask for.
#![tactic(auto)]

mod stand;

pub use stand::{Stand, name_of};
