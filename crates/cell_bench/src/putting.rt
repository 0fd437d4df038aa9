//! The thread that puts: it puts all items into a subscription and closes it. The tasks that it starts go to the other thread through a queue
//! of one place.
ghost use Rattle.std.specs.Prelude.{◌≡◌, ◌≤◌, [], length};

use super::in_order::InOrder;
use crossbeam_queue::ArrayQueue;
use feed_cell::{Producer, Task};
use flow_rules::{Ending, Feed, Item, MOST_PUBLICATIONS, Put};
use std::sync::Wait;

/// The queue of tasks that are started.
pub type Tasks = ArrayQueue<Task<InOrder>>;

/// A producer, with how often it tried.
#[derive(Drop)]
pub struct Putting {
    producer: Producer<InOrder>,
    tried: u64,
    ghost few: { length producer.end.accepted ≤ tried },
}

impl Putting {
    /// Takes a producer that has put nothing.
    pub fn new(producer: Producer<InOrder>) -> Putting
        requires { producer.end.accepted ≡ [] }
    {
        Putting { producer, tried: 0 }
    }

    /// Puts an item, or gives it back.
    fn put(&mut self, item: Item) -> Put<Task<InOrder>> {
        if self.producer.ready().is_err() || self.tried >= MOST_PUBLICATIONS {
            return Put::Full(item);
        }
        self.tried += 1;
        self.producer.put(item)
    }
}

/// Puts all items, each again as long as it comes back, and closes.
pub fn put_all<R: Wait>(rt: &R, mut putting: Putting, tasks: &Tasks, items: Vec<Item>) {
    for item in items {
        let mut item = item;
        for _ in rt.forever() {
            match putting.put(item) {
                Put::Accepted {
                    start: Some(task),
                    ..
                } => {
                    post(rt, tasks, task);
                    break;
                }
                Put::Accepted { .. } => break,
                Put::Full(back) | Put::Gone(back) => item = back,
            }
        }
    }
    if putting.producer.ready().is_ok() {
        if let Some(task) = putting.producer.end(Ending::Normal) {
            post(rt, tasks, task);
        }
    }
}

/// Hands a task over to the thread that runs it.
fn post<R: Wait>(rt: &R, tasks: &Tasks, task: Task<InOrder>) {
    let mut task = task;
    for _ in rt.forever() {
        match tasks.push(rt, task) {
            Ok(()) => break,
            Err(back) => task = back,
        }
    }
}
