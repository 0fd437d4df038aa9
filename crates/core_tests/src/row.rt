//! The calls of a Desk as rows: what is called, and what has to be answered.
#[cfg(test)]
mod calls;

#[cfg(test)]
pub use calls::{answers, desk_of};
use feed_core::Outlook;
use flow_rules::How;

/// A call of a Desk, and what it has to answer.
#[derive(Clone, Copy)]
pub enum Row<'a> {
    /// An item with this letter as its text is accepted, with this lag, and the task is to be started or not.
    Accepted(u8, u64, bool),
    /// An item with this letter as its text comes back from a full buffer.
    Full(u8),
    /// An item with this letter as its text comes back, since the subscription has ended or was closed.
    Gone(u8),
    /// So many items are requested, and the task is to be started or not.
    Request(i64, bool),
    /// The owner cancels, and the task is to be started or not.
    Cancel(bool),
    /// The publisher is closed, and the task is to be started or not.
    Close(bool),
    /// The publisher is closed with an error of this code, and the task is to be started or not.
    Fail(u32, bool),
    /// Its subscriber subscribes a second time, and the task is to be started or not.
    Duplicate(bool),
    /// A look shows whether it has ended, and how many items its buffer holds.
    Standing(bool, u64),
    /// A turn is owed. It tells what these letters write, and has this outlook.
    Turn(&'a [u8], Outlook),
    /// The buffer has this capacity.
    Capacity(usize),
    /// So many items were accepted, given and requested.
    Counts(u64, u64, u64),
    /// So many accepted items were not given.
    Lag(u64),
    /// The subscription has ended in this way, or has not ended.
    Ended(Option<How>),
}
