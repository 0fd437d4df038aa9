//! A task that a publisher's call started, with the number of its subscription. It isn't run here: whoever made the
//! call does that.

/// A started task, with the number of its subscription. Whoever gets it has to see that the task is run.
#[must_use]
#[derive(Debug, Drop)]
pub struct Work<T> {
    /// The number of the subscription.
    pub entry: u32,
    /// What is to be run.
    pub task: T,
}
