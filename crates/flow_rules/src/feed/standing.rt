//! What a look shows of a subscription.

/// What a look at a subscription shows: whether it has ended, and how many items its buffer holds
/// (`SubmissionPublisher.estimateMaximumLag` and `isSubscribed` of one subscription, Java SE 17).
#[must_use]
#[derive(Clone, Copy, Debug, PartialEq, Eq)]
pub struct Standing {
    /// Whether the subscription has ended.
    pub ended: bool,
    /// How many accepted items were not taken for `onNext` yet.
    pub held: u64,
}
