//! A subscription whose items a thread takes when it wants them, as from a channel. The subscriber does no more than
//! hand each item over; what comes of it is the thread's affair.
//!
//! [`Inbox::pair`] makes the two ends. The [`Inlet`] subscribes, as a [`Watching`](flow_rules::Watching) or in a box;
//! the thread that owns the [`Subscription`](publisher::Subscription) calls [`Inbox::next`], which requests a batch of
//! items, waits for the next one, and answers `None` once there is no more to come.
//!
//! ```
//! let (inlet, mut inbox) = Inbox::pair(rt, alloc, 64)?;
//! let mut subscription = publisher.subscribe(&rt, alloc, name, Watching::new(inlet))?;
//! while let Some(item) = inbox.next(&rt, &mut subscription)? {
//!     print(item.text.as_bytes())?;
//! }
//! ```
#![tactic(auto)]

mod arrivals;
mod inlet;
mod outlet;
mod queue;

pub use inlet::Inlet;
pub use outlet::Inbox;
pub use queue::Queue;
