//! What a callback answers.
/// What a callback asks for by its return; Java's calls its `Subscription` or throws.
#[derive(Clone, Copy, Debug, PartialEq, Eq)]
pub enum Answer {
    /// Nothing is asked for.
    Go,
    /// `Subscription.request` of this number.
    Request(i64),
    /// `Subscription.cancel`.
    Cancel,
    /// The callback failed with this code.
    Fail(u32),
}
