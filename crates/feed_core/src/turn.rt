//! What a turn is made of, whoever runs it: what it tells, how it tells it, and what is to be done after it.
mod failing;
mod outlook;
mod seen;
mod telling;

pub use failing::failed_item;
pub use outlook::Outlook;
pub use seen::Seen;
pub use telling::{tell_next, tell_subscribed, tell_terminal};

/// The number of items that one turn gives at most. Whoever runs turns can look to other subscriptions after that.
pub const ITEMS_IN_A_TURN: usize = 64;

/// The number of signals that one turn tells at most: `Subscribed`, the items, and a terminal signal.
pub const SIGNALS_IN_A_TURN: usize = 66;
