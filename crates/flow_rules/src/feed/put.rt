//! What becomes of an item that is offered.
use crate::item::Item;

/// What became of an item that was offered to one subscription (`SubmissionPublisher.submit` and `offer`, Java SE 17).
#[must_use]
#[derive(Debug, Drop, PartialEq, Eq)]
pub enum Put<T> {
    /// The buffer took the item.
    Accepted {
        /// How many items the buffer holds now that were not taken for `onNext` yet, this one among them.
        lag: u64,
        /// The subscription's task, if it was at rest and has to be run now.
        start: Option<T>,
    },
    /// The buffer holds as many items as it may. The item comes back, and nothing has changed.
    Full(Item),
    /// The subscription has ended or was closed. The item comes back, and nothing has changed.
    Gone(Item),
}
