//! A queue of bounded length that threads fill and other threads empty. All of its room is made with it, also that for
//! the value with which it is closed.
//!
//! Threads that wait for room sleep apart from those that wait for a value. So whoever takes a value wakes threads that
//! can use its room, and it would do to wake one of them; and no thread sleeps on because another one was woken in its
//! place that can do nothing.
ghost use Rattle.std.specs.Prelude.{◌≡◌, ◌≤◌, ◌∷◌, ◌++◌, [], true, false, None, Some, IfErr, OnErr, OnOk};
ghost use Rattle.std.specs.VecDeque.{deque_capacity, deque_len};
ghost use Rattle.inbox.specs.Queue.{takes};

use flow_rules::NoMemory;
use std::alloc::Global;
use std::collections::VecDeque;
use std::sync::{Condvar, Mutex, Wait};

/// Values that wait, the first in first, until the queue is closed.
#[derive(Drop)]
pub struct Queue<T: Drop> {
    state: Mutex<State<T>>,
    /// Where those sleep that wait for room.
    room: Condvar,
    /// Where those sleep that wait for a value.
    more: Condvar,
}

#[derive(Drop)]
struct State<T: Drop> {
    /// No more than it has room for, so that it never grows.
    waiting: VecDeque<T>,
    /// What comes after all that waits.
    last: Option<T>,
    is_closed: bool,
}

impl<T: Drop> State<T> {
    /// Puts a value behind all others if there is room for it, and else gives it back.
    fn put(&mut self, value: T) -> Result<(), T>
        ensures behind { OnOk result (self.new.waiting.items ≡ self.old.waiting.items ++ value ∷ []) }
        ensures back { IfErr result (λ given. given ≡ value) }
        ensures full { OnErr result (deque_capacity self.old.waiting ≤ deque_len self.old.waiting) }
        ensures unchanged { OnErr result (self.new ≡ self.old) }
    {
        if self.waiting.len() >= self.waiting.capacity() {
            return Err(value);
        }
        match self.waiting.push_back(value) {
            Ok(()) => Ok(()),
            Err(_) => unreachable!(),
        }
    }

    /// Takes the first value that waits; the last one if no other does.
    fn take(&mut self) -> Option<T>
        ensures first { takes self.old.waiting.items self.old.last ≡
            (result, (self.new.waiting.items, self.new.last)) }
        ensures same { self.new.is_closed ≡ self.old.is_closed }
    {
        match self.waiting.pop_front() {
            Some(first) => Some(first),
            None => self.last.take(),
        }
    }

    /// Closes with a last value, if it was open.
    fn end(&mut self, last: T)
        ensures closed { self.new.is_closed ≡ true }
        ensures last { self.old.is_closed ≡ false → self.new.last ≡ Some last }
        ensures same { self.old.is_closed ≡ true → self.new.last ≡ self.old.last }
        ensures waiting { self.new.waiting ≡ self.old.waiting }
    {
        if !self.is_closed {
            self.is_closed = true;
            self.last = Some(last);
        }
    }
}

impl<T: Drop> Queue<T> {
    /// An open queue with room for this many values, in which nothing waits. `NoMemory` if that room is refused.
    pub fn new(alloc: Global, most: usize) -> Result<Queue<T>, NoMemory> {
        Ok(Queue {
            state: Mutex::new(State {
                waiting: VecDeque::with_capacity(alloc, most)?,
                last: None,
                is_closed: false,
            }),
            room: Condvar::new(),
            more: Condvar::new(),
        })
    }

    /// Puts a value behind all others, and waits until there is room for it. The answer is whether the queue is open:
    /// after a close the value is dropped.
    pub fn push<R: Wait>(&self, rt: &R, value: T) -> bool {
        let mut state = self.state.lock(rt);
        let mut left = value;
        for _ in rt.forever() {
            if state.is_closed {
                return false;
            }
            match state.put(left) {
                Ok(()) => {
                    drop(state);
                    self.more.notify_all();
                    return true;
                }
                Err(value) => left = value,
            }
            state = self.room.wait(rt, state);
        }
        unreachable!()
    }

    /// Puts a value behind all others if there is room for it, and else gives it back. After a close it is dropped.
    pub fn try_push<R: Wait>(&self, rt: &R, value: T) -> Result<(), T> {
        let mut state = self.state.lock(rt);
        let put = if state.is_closed {
            Ok(())
        } else {
            state.put(value)
        };
        drop(state);
        self.more.notify_all();
        put
    }

    /// Takes the first value, and waits until there is one; `None` once the queue is closed and nothing is left in it.
    pub fn pop<R: Wait>(&self, rt: &R) -> Option<T> {
        let mut state = self.state.lock(rt);
        for _ in rt.forever() {
            let first = state.take();
            if first.is_some() || state.is_closed {
                drop(state);
                self.room.notify_all();
                return first;
            }
            state = self.more.wait(rt, state);
        }
        unreachable!()
    }

    /// Takes the first value if there is one now. `None` doesn't tell whether one will come.
    pub fn try_pop<R: Wait>(&self, rt: &R) -> Option<T> {
        let first = self.state.lock(rt).take();
        if first.is_some() {
            self.room.notify_all();
        }
        first
    }

    /// Closes the queue with a last value, for which there is always room. What waits in it still comes out before.
    /// After a close the value is dropped.
    pub fn close_with<R: Wait>(&self, rt: &R, last: T) {
        self.state.lock(rt).end(last);
        self.wake_all();
    }

    /// Closes the queue. What waits in it still comes out.
    pub fn close<R: Wait>(&self, rt: &R) {
        self.state.lock(rt).is_closed = true;
        self.wake_all();
    }

    /// Closes the queue, and drops what waits in it.
    pub fn cut<R: Wait>(&self, rt: &R) {
        let mut state = self.state.lock(rt);
        state.is_closed = true;
        state.waiting.clear();
        state.last = None;
        drop(state);
        self.wake_all();
    }

    /// Wakes all that wait, once the queue is closed.
    fn wake_all(&self) {
        self.room.notify_all();
        self.more.notify_all();
    }
}
