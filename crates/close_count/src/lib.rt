//! The count that finds the last of several parties, as `tryComplete` of `java.util.concurrent.CountedCompleter`
//! (Java SE 17) does: of all who hold a ticket, the one that spends the last ticket learns it, and nobody else.
//!
//! [`Count::new`] gives the [`Opening`], which is the first ticket and makes all others. A [`Ticket`] is spent by
//! `try_complete`, in any thread, and answers `true` if it was the last one. `CountedCompleter`'s pending count is
//! the number of unspent tickets less one. A ticket that is dropped stays unspent, so nobody is the last one then.
//!
//! The number of unspent tickets is one word, which all tickets of a count share. To add a ticket is one
//! fetch-and-add, and to spend one is one fetch-and-sub, which learns by the number that it found whether it was the
//! last. No call waits, and none but [`Count::new`] and [`Opening::add`] can be refused memory.
//!
//! `spend` spends a ticket as `try_complete` does, and gives a [`Spent`]. The laws hold of these: two of one count were
//! not both the last ([`last_once`]), beside the last there is no ticket ([`none_left`]) and no opening
//! ([`none_open`]), and of an opening and all its tickets one was the last ([`one_of_all_is_last`]).
//!
//! ```
//! let mut opening = Count::new(alloc)?;
//! let one = opening.add()?;
//! let other = opening.add()?;
//! let first = one.try_complete();          // false: two are left
//! let second = opening.try_complete();     // false: one is left
//! let last = other.try_complete();         // true
//! ```
#![tactic(auto)]

mod count;
mod laws;
mod opening;
mod rule;
mod spent;
mod ticket;

pub use count::Count;
pub use laws::{last_once, none_left, none_open, one_of_all_is_last};
pub use opening::Opening;
pub use rule::MOST_TICKETS;
pub use spent::Spent;
pub use ticket::Ticket;
