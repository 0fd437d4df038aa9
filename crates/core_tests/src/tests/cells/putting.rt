//! A producer whose puts are counted, since fewer than 2^62 may be accepted.
ghost use Rattle.std.specs.Prelude.{◌≡◌, ◌≤◌, [], length};

use feed_cell::{Producer, Task};
use flow_rules::{Feed, Item, Listener, MOST_PUBLICATIONS, NoMemory, Put};

// A producer, and how many puts were tried.
#[derive(Drop)]
pub struct Putting<B: Listener> {
    pub producer: Producer<B>,
    puts: u64,
    ghost few: { length producer.end.accepted ≤ puts },
}

impl<B: Listener> Putting<B> {
    // A new subscription's producer.
    pub fn new(producer: Producer<B>) -> Putting<B>
        requires { producer.end.accepted ≡ [] }
    {
        Putting { producer, puts: 0 }
    }

    // A put. One too many gives the item back, as if the subscription were gone.
    pub fn put(&mut self, item: Item) -> Result<Put<Task<B>>, NoMemory> {
        self.producer.ready()?;
        if self.puts >= MOST_PUBLICATIONS {
            return Ok(Put::Gone(item));
        }
        self.puts += 1;
        Ok(self.producer.put(item))
    }
}
