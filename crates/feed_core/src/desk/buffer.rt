//! The buffer of a subscription. Its room is made when it is made, and no call changes it.
ghost use Rattle.std.specs.Prelude.{◌≡◌, ◌<◌, ◌≤◌, ◌+◌, ◌∷◌, [], length, IfOk};
ghost use Rattle.feed_core.specs.Buffer.{buffer_with, buffer_with_all};

use flow_rules::{Item, NoMemory};
use std::alloc::Global;
use std::collections::VecDeque;
use std::marker::Model;

/// Items in order, and the room that was made for them.
#[derive(Debug, Drop)]
pub(crate) struct Buffer {
    items: VecDeque<Item>,
}

impl Model for Buffer {
    ghost use Rattle.std.specs.VecDeque.{deque_capacity};
    ghost use Rattle.feed_core.specs.Buffer.{BufferState};

    ghost Value = { BufferState };

    ghost view = { λ b. record { items = b.items.items; room = deque_capacity b.items } };
}

impl Buffer {
    /// An empty one with room for this many items.
    pub fn with_room(alloc: Global, capacity: usize) -> Result<Buffer, NoMemory>
        ensures { IfOk result (λ buffer. (buffer.items ≡ []) × (capacity ≤ buffer.room)) }
    {
        Ok(Buffer {
            items: VecDeque::with_capacity(alloc, capacity)?,
        })
    }

    /// Puts an item at the back.
    pub fn put(&mut self, item: Item)
        requires { length self.old.items < self.old.room }
        ensures { self.new ≡ buffer_with item self.old }
    {
        self.items.push_back_reserved(item);
    }

    /// Puts items at the back, in their order.
    pub fn put_all(&mut self, items: Vec<Item>)
        requires { length self.old.items + length items.items ≤ self.old.room }
        ensures { self.new ≡ buffer_with_all items.items self.old }
    {
        for one in items {
            self.items.push_back_reserved(one);
        }
    }

    /// Takes the first item.
    pub fn take(&mut self) -> Item
        requires { 0 < length self.old.items }
        ensures first { self.old.items ≡ result ∷ self.new.items }
        ensures room { self.new.room ≡ self.old.room }
    {
        self.items.pop_front().unwrap()
    }

    /// Puts an item that was taken back to the front.
    pub fn put_back(&mut self, item: Item)
        requires { length self.old.items < self.old.room }
        ensures { self.new ≡ record self.old { items = item ∷ self.old.items } }
    {
        self.items.push_front_reserved(item);
    }
}
