//! What is left of a subscription.
use flow_rules::{ErrorOrder, How};

/// What is left of a subscription once its publisher is done with it: its subscriber, with what that was told, and the
/// numbers of what was accepted, taken and requested.
#[derive(Debug, Drop)]
pub struct Lane<B> {
    /// Its subscriber; `None` only if a turn is running.
    pub subscriber: Option<B>,
    /// How many items its buffer has accepted.
    pub accepted: u64,
    /// How many items were taken for `onNext`: those that were told, and one more if its callback was refused
    /// memory.
    pub given: u64,
    /// How many items were requested in all, at most [`UNBOUNDED`](flow_rules::UNBOUNDED).
    pub asked: u64,
    /// How many of these the owner of the subscription requested, saturated; the others its subscriber requested by its
    /// answers.
    pub requested: u64,
    /// Whether the owner has cancelled. A subscriber that answered `Cancel` is not meant.
    pub cancelled: bool,
    /// How it ended, if it did.
    pub ending: Option<How>,
    /// In which order it was told a closing error and the items; `None` only if its subscriber isn't there.
    pub order: Option<ErrorOrder>,
    /// Whether a turn is owed. If none is, its subscriber was told all that its demand and its ending allow.
    pub running: bool,
}
