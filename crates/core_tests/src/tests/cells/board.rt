//! Where tasks wait for the threads that run them.
use super::in_order::InOrder;
use super::items_in;
use feed_cell::{Patience, Task, Turn};
use feed_core::Seen;
use std::sync::atomic::Ordering::SeqCst;
use std::sync::atomic::{AtomicBool, AtomicU64};
use std::sync::{Mutex, Wait};
use std::thread;

// Where a started task waits for whoever runs it, how many items were given, and whether the subscription has ended.
#[derive(Drop)]
pub struct Board {
    task: Mutex<Option<Task<InOrder>>>,
    given: AtomicU64,
    // Whether a second task was there beside one.
    doubled: AtomicBool,
    ended: AtomicBool,
}

impl Board {
    // With this task.
    pub fn of(task: Task<InOrder>) -> Board {
        Board {
            task: Mutex::new(Some(task)),
            given: AtomicU64::new(0),
            doubled: AtomicBool::new(false),
            ended: AtomicBool::new(false),
        }
    }

    // Leaves a task, where one was started, for whoever runs it.
    pub fn post<R: Wait>(&self, rt: &R, start: Option<Task<InOrder>>) {
        let Some(task) = start else {
            return;
        };
        if self.task.lock(rt).replace(task).is_some() {
            self.doubled.store(true, SeqCst);
        }
    }

    // How many items were given.
    pub fn given(&self) -> u64 {
        self.given.load(SeqCst)
    }

    // Whether the subscription has ended.
    pub fn has_ended(&self) -> bool {
        self.ended.load(SeqCst)
    }

    // Whether there never was a second task beside one.
    pub fn had_one_at_most(&self) -> bool {
        !self.doubled.load(SeqCst)
    }

    // Runs a turn of the task, if there is one.
    fn run<R: Wait>(&self, rt: &R, seen: &mut Seen) -> bool {
        let task = self.task.lock(rt).take();
        let Some(task) = task else {
            return false;
        };
        let turn = task.turn(seen, &mut Patience::waits());
        self.given.fetch_add(items_in(seen.as_slice()), SeqCst);
        match turn {
            Turn::Again(task) => self.post(rt, Some(task)),
            Turn::Resting(_) => (),
            Turn::Ended(..) => self.ended.store(true, SeqCst),
        }
        true
    }
}

// Runs whatever task there is until the subscription has ended.
pub fn run_all<R: Wait>(rt: &R, board: &Board, mut seen: Seen) {
    for _ in rt.forever() {
        if !board.run(rt, &mut seen) {
            if board.has_ended() {
                break;
            }
            thread::yield_now();
        }
    }
}
