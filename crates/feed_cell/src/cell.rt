//! The table that the parties of a subscription share: its words and slots, its rule, and what a party knows.
pub mod close;
pub mod handle;
pub mod maker;
pub mod producer;
mod seated;
mod signal;
pub mod task;
pub mod words;

ghost use Rattle.std.specs.Prelude.{◌≡◌};
ghost use Rattle.feed_cell.specs.TaskAnswers.{IsNoted};

use atomic_table::{Seat, Table, TableRule};
use crossbeam_utils::CachePadded;
use feed_core::world::{Producing, Requesting, Runner};
use feed_core::{Causes, Outlook};
use flow_rules::{Answer, Ending, ErrorOrder, How, Item, Listener, NoMemory};
use std::alloc::Global;
use std::collections::LinkedList;
use std::marker::{Model, PhantomData};
use std::sync::Arc;

/// The mark of head and of asked, which is their bit 63.
pub(crate) const MARK: u64 = 1 << 63;

/// The bit of control that says that the task was started, and is not at rest since.
pub(crate) const RUNNING: u32 = 0;

/// The bit of control that says that there was a signal since the task's last look.
pub(crate) const NEW: u32 = 1;

/// The bit of control that says that the owner cancelled.
pub(crate) const CANCELLED: u32 = 2;

/// The bit of control that says that a number was requested that is not positive.
pub(crate) const BAD_REQUEST: u32 = 3;

/// The bit of control that says that the subscriber subscribed a second time.
pub(crate) const DOUBLED: u32 = 4;

/// The bit of control that says that it was closed with an error.
pub(crate) const FAILED: u32 = 5;

/// The bit of control that says that it was closed without one.
pub(crate) const COMPLETED: u32 = 6;

/// The bit of control from which on the code of a closing error stands.
pub(crate) const CODE: u32 = 32;

/// The mark of the task, in control.
pub(crate) const RUN: u64 = 1 << RUNNING;

/// All of control but its mark of something new, which a look clears.
pub(crate) const QUIET: u64 = !(1 << NEW);

/// All of control but the mark of the task, which a rest clears.
pub(crate) const RESTING: u64 = !RUN;

/// What the signal of an item or of a request sets in control: the two marks.
pub(crate) const ITEM: u64 = RUN | 1 << NEW;

/// What the signal of a cancel sets in control.
pub(crate) const CANCEL: u64 = ITEM | 1 << CANCELLED;

/// What the signal of a bad request sets in control.
pub(crate) const ARGUMENT: u64 = ITEM | 1 << BAD_REQUEST;

/// What the signal of a second subscribing sets in control.
pub(crate) const STATE: u64 = ITEM | 1 << DOUBLED;

/// What the signal of a close with an error sets in control, beside the code.
pub(crate) const ERROR: u64 = ITEM | 1 << FAILED;

/// What the signal of a close without an error sets in control.
pub(crate) const COMPLETE: u64 = ITEM | 1 << COMPLETED;

/// Who is told, and what lies beside it while nobody runs the task.
#[derive(Drop)]
pub struct Lodger<B> {
    /// Who is told.
    pub subscriber: B,
    /// How many items were taken.
    pub given: u64,
    /// How many items its answers have requested, at most [`UNBOUNDED`](flow_rules::UNBOUNDED).
    pub own: u64,
    /// The causes that its answers brought about, and the order of errors.
    pub answers: Causes,
    /// How the subscription has ended, if it has.
    pub how: Option<How>,
}

/// A lodger in a box of its own, so that no slot is the larger for a large subscriber.
#[derive(Drop)]
pub struct BoxedLodger<B: Listener> {
    lodger: Box<Lodger<B>, Global>,
}

impl<B: Listener> Model for BoxedLodger<B> {
    ghost use Rattle.feed_cell.specs.TaskAnswers.{IsNoted};
    ghost use Rattle.feed_cell.specs.declared.cell.Lodger.{Lodger};

    ghost Value = { Lodger B };

    ghost view = { λ b. b.lodger.value };

    ghost invariant = { λ b. IsNoted B.replied b.lodger.value };
}

impl<B: Listener> BoxedLodger<B> {
    /// What lies beside the subscriber: how many items were taken, how many its answers requested, and the causes that
    /// they brought about.
    fn notes(&self) -> (u64, u64, Causes)
        ensures notes { result ≡ (self.now.given, self.now.own, self.now.answers) }
        ensures noted { IsNoted B.replied self.now }
    {
        let lodger: &Lodger<B> = &self.lodger;
        (lodger.given, lodger.own, lodger.answers)
    }
}

/// What a slot holds.
#[derive(Drop)]
pub enum Held<B: Listener> {
    /// Nothing.
    Empty,
    /// An item that was put and not taken.
    Item(Item),
    /// The subscriber.
    Guest(BoxedLodger<B>),
}

/// By what the task took an item: its own look or peek before it, and its own last measure. No value of it is made.
pub struct Grant {
    /// The causes that the look or peek showed.
    pub causes: Causes,
    /// How many items were requested in all, by the handle, as the measure showed, and by the answers until then.
    pub asked: u64,
    /// How many of them the handle requested.
    pub requested: u64,
}

/// What one party knows. No value of it is made.
pub struct View {
    /// How many items the buffer has room for.
    pub capacity: u64,
    /// How many tasks its signals have started.
    pub started: u64,
    /// Whether it is the producer.
    pub puts: bool,
    /// All that it put.
    pub put: LinkedList<Item>,
    /// The items that it placed in their slots beyond those, and has not put yet.
    pub placed: LinkedList<Item>,
    /// What it is in the middle of.
    pub producing: Producing,
    /// How many free slots it has out, 0 or 1.
    pub places: u64,
    /// How many were taken, by its last load of head.
    pub seen: u64,
    /// How often it loaded head.
    pub looks: u64,
    /// Whether the subscription had ended, by its last load of head.
    pub over: bool,
    /// How it closed the subscription, if it did.
    pub closing: Option<Ending>,
    /// Whether it told of a second subscribing.
    pub state: bool,
    /// Whether it is the handle.
    pub asks: bool,
    /// In which order a closing error is told.
    pub order: ErrorOrder,
    /// How many items it requested.
    pub asked: u64,
    /// What it is in the middle of.
    pub requesting: Requesting,
    /// Whether it cancelled.
    pub cancel: bool,
    /// Whether it requested a number that is not positive.
    pub argument: bool,
    /// Whether it is the handle that has left, which makes no step any more.
    pub left: bool,
    /// Whether it runs the task.
    pub runs: bool,
    /// Where the task stands.
    pub runner: Runner,
    /// The control word after its last look or peek.
    pub look: u64,
    /// Whether it has the subscriber with it.
    pub away: bool,
    /// All that was taken.
    pub taken: LinkedList<Item>,
    /// The item whose slot it has out, or nothing.
    pub item: LinkedList<Item>,
    /// By what it took each of the items that it took, in order.
    pub grants: LinkedList<Grant>,
    /// How many items were put, by its last load of tail.
    pub known_put: u64,
    /// How many items the handle requested, by its last measure.
    pub requested: u64,
    /// How many items the answers requested, by what it brought to its last look or peek.
    pub own: u64,
    /// The causes that the answers brought about, by what it brought to its last look or peek.
    pub answers: Causes,
    /// How often it could not rest, since something was new.
    pub misses: u64,
    /// What became of the task that it ran: it came to rest, or ended the subscription. Until then it goes on.
    pub outlook: Outlook,
    /// What each callback of its subscriber had come back with by then.
    pub replied: LinkedList<Result<Answer, NoMemory>>,
}

/// What a subscription is made with.
#[derive(Drop)]
pub struct Terms {
    /// How many items the buffer has room for.
    pub capacity: u64,
    /// In which order a closing error is told.
    pub order: ErrorOrder,
}

/// The table of a subscription: its words, a slot for each place, and a slot for the subscriber.
pub type CellTable<B: Listener> = Table<Held<B>, View, Terms, InCell<B>, Global>;

/// The table, as its parties share it. How many share it changes with each task, so that number stands in a cache line
/// of its own.
pub(crate) type SharedTable<B: Listener> = Arc<CachePadded<CellTable<B>>, Global>;

/// A party's seat at that table.
pub type CellSeat<B: Listener> = Seat<Held<B>, View>;

/// The rule: the words, slots and views show a subscription that some list of possible events leads to. The capacity
/// and the order of errors are told when the table is made.
pub struct InCell<B> {
    marker: PhantomData<B>,
}

impl<B: Listener> TableRule<Held<B>, View, Terms> for InCell<B> {
    ghost use Rattle.feed_cell.specs.Cell.{CellRule};
    ghost use Rattle.feed_cell.specs.Views.{first_view};

    ghost holds = { λ terms. CellRule B.told terms.capacity };

    ghost first = { λ terms. first_view terms.capacity terms.order };
}
