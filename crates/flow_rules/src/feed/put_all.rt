//! What becomes of several items that are offered at once.
use crate::item::Item;

/// What became of several items that were offered to one subscription at once, after a look that showed room for all.
#[must_use]
#[derive(Debug, Drop)]
pub enum PutAll<T> {
    /// The buffer took all of them.
    Accepted {
        /// How many items the buffer holds now that were not taken for `onNext` yet, all of these among them.
        lag: u64,
        /// The subscription's task, if it was at rest and has to be run now.
        start: Option<T>,
    },
    /// The subscription has ended or was closed. The items come back, and nothing has changed.
    Gone(Vec<Item>),
}
