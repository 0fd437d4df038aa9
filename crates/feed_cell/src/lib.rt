//! A subscription that threads share without a lock: the buffer of its items, its demand, the reasons why it may end,
//! and its subscriber (`SubmissionPublisher` and `Flow.Subscription`, Java SE 17).
//!
//! Three parties share a subscription, each in a thread of its own. The [`Producer`] is its publisher's end: it puts
//! items, closes, and looks how things stand. The [`Handle`] is its owner's end: it requests and cancels. The [`Task`]
//! calls the subscriber; whoever has it runs it. [`Cell::new`] makes the three, as [`Cell::new_with`] does if a
//! closing error may wait for the items, and [`close`] takes the two ends back and tells what is left. No call waits,
//! and none but these two and the calls named `ready` takes memory.
//!
//! # The words
//!
//! | Word | What it is | Who writes it |
//! |---|---|---|
//! | head | how many items were taken; bit 63: the subscription has ended | the task |
//! | tail | how many items were put | the producer |
//! | asked | how many items the handle requested, 2^63-1 at most; bit 63: the handle makes no step any more | the handle |
//! | control | the marks and causes below | all three, one atomic step at a time |
//!
//! | Bit of control | What it says | Who sets it | Who clears it |
//! |---|---|---|---|
//! | 0, the mark of the task | the task was started and is not at rest since | each signal | the rest of the task |
//! | 1, the mark of something new | there was a signal since the task's last look | each signal | each look, but no peek |
//! | 2 | the owner cancelled | the handle | nobody |
//! | 3 | a number was requested that is not positive | the handle | nobody |
//! | 4 | the subscriber subscribed a second time | the producer | nobody |
//! | 5 | it was closed with an error, whose code is in bits 32 to 63 | the producer | nobody |
//! | 6 | it was closed without an error | the producer | nobody |
//!
//! Each of the first three words has one writer, which keeps the number beside its seat. It loads its own word only to
//! take a slot out or to give one back, and never for the number.
//! None of the numbers ever falls, so what a load shows is at most what there is.
//!
//! In a buffer of fewer than 32 places the words lie side by side. In a larger one head, tail and the other two lie in
//! cache lines of their own (`words.rt`).
//!
//! # The slots
//!
//! There is one slot for each place of the buffer, and one for the subscriber, which lies there in a box. Item number
//! k, from 0 on, lies in slot k modulo the capacity. A slot is at home, or out with one party, which alone may read and
//! write it then.
//!
//! - A put loads head. If fewer items than the capacity were put and not taken, slot tail is free, and that load takes
//!   it out. The producer places the item in it, and the store of tail + 1 gives it back, with the item.
//! - A put of several takes the first slot out in the same way. A load of tail gives that slot back, with its item, and
//!   takes the next one out, and so on. The store of tail + m gives the last one back, and only then do others see the
//!   first. Until then the items beyond tail are the producer's alone: no other party reads a slot that is not below
//!   tail.
//! - The task loads tail. If more items were put than taken, slot head has one, and that load takes it out. A load of
//!   asked follows: if no more are requested, it gives the slot back as it was. Otherwise the task moves the item out,
//!   and the store of head + 1 gives the slot back, free. Of an item that it has seen in this turn already, a load of
//!   head, which only the task stores, takes the slot out.
//! - The subscriber's slot is out with the task from its first peek until it rests or ends the subscription. What the
//!   answers of callbacks have requested, the causes that they brought about, and whether a closing error waits for the
//!   items lie beside the subscriber there.
//!
//! # Signals and rest
//!
//! A signal sets the mark of the task, the mark of something new, and its cause, in one step. If it finds the mark of
//! the task clear, it has started the task: the side that made it splits a seat off for the task and hands it over.
//! Therefore at most one task serves a subscription. An item is signalled after its tail is stored, and a request after
//! asked is. These two have no cause, so if both marks are set already the signal is a load that finds them so.
//!
//! A look clears the mark of something new and tells the causes. A peek tells the causes and leaves the mark, so it is
//! a load. The task peeks before each item. It takes an item after that peek if it knows from this turn's last loads of
//! tail and asked that the item was put and requested, and else loads the two again, after the peek and never before.
//! If it finds nothing to do after a peek that found something new, it waits a moment and does the same again, once or
//! a few times, in case more comes. Then it looks, and loads the two once more. If it finds nothing to do
//! then, it rests by one compare-and-exchange: from the word after its look to the same without the mark of the task.
//! That fails exactly if there was a signal since the look, and then the task goes on. Thus nothing is forgotten: a
//! subscription at rest was told all that its demand and its ending allow, or somebody is between a store and its
//! signal, and that signal will start the task.
//!
//! Until the task would rest, the mark stays set: then neither it nor the other two change control.
//!
//! The mark of the task stays set after the end, so nothing starts the task of a subscription that has ended.
//!
//! # What the task is in the middle of
//!
//! A name is a stage of the task (`Runner`, in `feed_core`), and an arrow is one step, with the word that it touches. A
//! task makes no other steps. The hand-over touches no word of the subscription.
//!
//! ```text
//!  Nobody -- signal: control --> Coming -- hand-over --> Ready        Fresh
//!    ^                                                     |            | (onSubscribe)
//!    |                                       look: control |            | look: control
//!    |                                                     v            |
//!    |                                  .--------------> Looked <-------'
//!    |                     (onNext)     |                  |
//!    |                    look: control |        see: tail |
//!    |                                  |                  v
//!    |                                Taken               Saw
//!    |                                  ^                  |
//!    |                                  |   measure: asked |
//!    |                       take: head |                  v
//!    |                                  '-------------- Measured
//!    |                                                     |
//!    '-- rest: control, if nothing is new -----------------+-- rest: control, if something is new --> Ready
//!
//!  Fresh, Taken, Looked, Measured -- end: head, with its mark --> Over
//! ```
//!
//! From `Looked` an item that the task knows of leads to `Taken` at once, by a store of head. For a look a peek may
//! stand, which is a load of control. From `Measured` a peek or a look may lead back to `Looked`, which it does after a
//! peek with nothing to do. An end comes from `Looked` if the look showed a cause that ends the subscription at once,
//! from `Measured` if every item was given and a close waited for that, and from `Fresh` or `Taken` if a callback
//! answered an end or was refused memory. A task that was handed over is `Ready`; the first task of a subscription is
//! `Fresh`.
//!
//! The rule of the table (`cell.rt`) says all of this between any two steps, whatever the parties do at the same time:
//! what the words, the slots and the parties show is a subscription that some list of possible events leads to
//! (`feed_core`, `World`).
//!
//! ```
//! let (mut producer, mut handle, task) = Cell::new(alloc, 4, Collector::asking(alloc, 1))?;
//! let put = producer.put(item);                    // accepted, with lag 1; its first turn is owed already
//! let turn = task.turn(&mut seen, &mut Patience::waits()); // told onSubscribe and the item, and rests
//! handle.ready()?;
//! let woken = handle.request(1);                   // a task, which has to be run: the subscription was at rest
//! producer.ready()?;
//! let closed = producer.end(Ending::Normal);       // none: the task was started already
//! let lag = producer.standing().held;              // 0
//! ```
#![tactic(auto)]

mod cell;

pub use cell::close::again::{close_again, is_shared};
pub use cell::close::close;
pub use cell::handle::Handle;
pub use cell::maker::Cell;
pub use cell::producer::Producer;
pub use cell::task::turns::Turn;
pub use cell::task::waits::Patience;
pub use cell::task::{Spent, Task};
