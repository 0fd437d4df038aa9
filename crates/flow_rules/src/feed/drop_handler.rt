//! Who is asked about an item that finds no room.
use crate::item::Item;
use crate::name::Name;

/// Who is asked about an item that finds no room (the `onDrop` of `SubmissionPublisher.offer`, Java SE 17).
pub trait DropHandler: Send + Drop {
    /// Called if the buffer of the subscriber of this name had no room for the item. If it answers true, the
    /// offer is tried once more.
    fn on_drop(&mut self, name: Name, item: &Item) -> bool;
}

impl DropHandler for Box<dyn DropHandler> {
    fn on_drop(&mut self, name: Name, item: &Item) -> bool {
        (**self).on_drop(name, item)
    }
}
