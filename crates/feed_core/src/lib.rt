//! One subscription as plain state: its lane, what a turn tells of it, and why it ends.
//!
//! ```
//! let mut seen = Seen::new(alloc)?;
//! let mut desk = Desk::new(alloc, 4, Tally::new())?;      // it owes its first turn
//! let put = desk.put(item);                               // Put::Accepted { lag: 1, start: None }
//! let greeted = desk.turn(&mut seen);                     // Outlook::Resting: nothing was requested yet
//! let woken = desk.request(1);                            // Some(()): the caller has to run a turn
//! let served = desk.turn(&mut seen);                      // tells the item, and rests
//! let items = desk.subscriber().items();                  // 1
//! ```
//!
//! [`world`] has the steps of a subscription that threads share, over all their interleavings.
#![tactic(auto)]

mod cause;
mod desk;
mod lane;
mod laws;
mod turn;
pub mod world;

pub use cause::Causes;
pub use desk::Desk;
pub use lane::Lane;
pub use laws::desks_keep_the_flow_rules;
pub use turn::{
    ITEMS_IN_A_TURN, Outlook, SIGNALS_IN_A_TURN, Seen, failed_item, tell_next, tell_subscribed,
    tell_terminal,
};
