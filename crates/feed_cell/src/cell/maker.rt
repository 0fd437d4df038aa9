//! How a subscription is made: the table is laid and shared, and the seat of its maker is split among the three
//! parties.
ghost use Rattle.std.specs.Prelude.{◌≡◌, ◌+◌, [], ◌∷◌, replicate, IfOk, IfErr, None, true};
ghost use Rattle.std.specs.Arc.{arc_value};
ghost use Rattle.crossbeam_utils.specs.Padded.{padded_value};
ghost use Rattle.feed_core.specs.LaneCalls.{IsCapacity};
ghost use Rattle.feed_cell.specs.Parties.{new_producer, new_producer_in, new_handle, new_handle_in, IsNewTask, IsNewTaskIn};
ghost use Rattle.feed_cell.specs.Seats.{StepsTo};
ghost use Rattle.feed_cell.specs.TaskPlays.{IsUnlodged, HasLodged};
ghost use Rattle.feed_cell.specs.TaskAnswers.{new_lodger};
ghost use Rattle.feed_cell.specs.Views.{first_view};
ghost use Rattle.feed_cell.specs.WordPlaces.{HasItsWords};
ghost use Rattle.feed_cell.specs.declared.cell.Held.TheVariants as Held;

use super::handle::Handle;
use super::producer::Producer;
use super::seated::Seated;
use super::task::plays::EnterStep;
use super::task::{Stage, Task};
use super::words::{Word, first_words, place_of};
use super::{BoxedLodger, CellSeat, CellTable, Held, Lodger, SharedTable, Terms, View};
use atomic_table::Split;
use crossbeam_utils::CachePadded;
use feed_core::Causes;
use flow_rules::{ErrorOrder, Listener, NoMemory};
use std::alloc::Global;
use std::sync::Arc;

/// Makes subscriptions.
pub struct Cell;

impl Cell {
    /// Makes a new subscription of this subscriber, with a buffer of this capacity, which is one of `capacity`'s
    /// values: its producer's end, its handle, and its task, which owes the first turn. A closing error overtakes the
    /// items. If memory is refused, the subscriber comes back.
    pub fn new<B: Listener>(
        alloc: Global,
        capacity: usize,
        subscriber: B,
    ) -> Result<(Producer<B>, Handle<B>, Task<B>), (NoMemory, B)>
        requires capacity { IsCapacity capacity }
        requires untold { B.told subscriber ≡ [] }
        requires unheard { B.replied subscriber ≡ [] }
        ensures producer { IfOk result (λ made. made.0 ≡ new_producer capacity made.0.table) }
        ensures handle { IfOk result (λ made. made.1 ≡ new_handle capacity made.0.table) }
        ensures task { IfOk result (λ made. IsNewTask made.0.table capacity made.2) }
        ensures back { IfErr result (λ refused. refused.1 ≡ subscriber) }
    {
        Cell::new_with(alloc, capacity, ErrorOrder::Overtake, subscriber)
    }

    /// Makes a new subscription, as [`Cell::new`] does, in which a closing error is told in this order. If memory is
    /// refused, the subscriber comes back.
    pub fn new_with<B: Listener>(
        alloc: Global,
        capacity: usize,
        order: ErrorOrder,
        subscriber: B,
    ) -> Result<(Producer<B>, Handle<B>, Task<B>), (NoMemory, B)>
        requires capacity { IsCapacity capacity }
        requires untold { B.told subscriber ≡ [] }
        requires unheard { B.replied subscriber ≡ [] }
        ensures producer { IfOk result
            (λ made. made.0 ≡ new_producer_in order capacity made.0.table) }
        ensures handle { IfOk result
            (λ made. made.1 ≡ new_handle_in order capacity made.0.table) }
        ensures task { IfOk result (λ made. IsNewTaskIn order made.0.table capacity made.2) }
        ensures back { IfErr result (λ refused. refused.1 ≡ subscriber) }
    {
        let Ok((table, mut seat)) = lay::<B>(alloc, capacity, order) else {
            return Err((NoMemory, subscriber));
        };
        let Ok(shares) = share(alloc, table) else {
            return Err((NoMemory, subscriber));
        };
        let guest = lodger(alloc, order, subscriber)?;
        let cell: &CellTable<B> = &shares.producer;
        let running = cell.shared.split_seat::<RunnerApart>(&mut seat);
        let asking = cell.shared.split_seat::<HandleApart>(&mut seat);
        let capacity = capacity as u64;
        let mut party = Seated {
            table: shares.task,
            seat: running,
            capacity,
        };
        lodge(&mut party, guest);
        let task = Task {
            party,
            stage: Stage::Fresh,
        };
        let producer = Producer {
            party: Seated {
                table: shares.producer,
                seat,
                capacity,
            },
            spare: Some(shares.producer_spare),
            tail: 0,
            closing: None,
        };
        let handle = Handle {
            party: Seated {
                table: shares.handle,
                seat: asking,
                capacity,
            },
            spare: Some(shares.handle_spare),
            asked: 0,
            cancelled: false,
        };
        Ok((producer, handle, task))
    }
}

/// Lays the table, with all its slots empty, and the seat of its maker.
fn lay<B: Listener>(
    alloc: Global,
    capacity: usize,
    order: ErrorOrder,
) -> Result<(CellTable<B>, CellSeat<B>), NoMemory>
    requires capacity { IsCapacity capacity }
    ensures { IfOk result (λ made.
        (made.1.table_id ≡ made.0.shared.table_id)
        × HasItsWords capacity made.1.table_id
        × (made.1.me ≡ (first_view capacity order, []))) }
{
    let slots = empty_slots::<B>(alloc, capacity + 1)?;
    let terms = Terms {
        capacity: capacity as u64,
        order,
    };
    match CellTable::<B>::new(alloc, first_words(capacity as u64), slots, &terms) {
        Ok(made) => Ok(made),
        Err(_) => Err(NoMemory),
    }
}

/// Makes this many empty slots.
fn empty_slots<B: Listener>(alloc: Global, count: usize) -> Result<Vec<Held<B>>, NoMemory>
    ensures { IfOk result (λ slots. slots.items ≡ replicate count Held.Empty) }
{
    let mut slots = Vec::with_capacity(alloc, count)?;
    let mut i = 0;
    while i < count {
        slots.push_reserved(Held::Empty);
        i += 1;
    }
    Ok(slots)
}

/// The table, once for each party.
#[derive(Drop)]
struct Shares<B: Listener> {
    producer: SharedTable<B>,
    handle: SharedTable<B>,
    task: SharedTable<B>,
    /// Once more for each of the two ends, which may start a task.
    producer_spare: SharedTable<B>,
    handle_spare: SharedTable<B>,
}

/// Shares the table among all who need it.
fn share<B: Listener>(alloc: Global, table: CellTable<B>) -> Result<Shares<B>, NoMemory>
    ensures { IfOk result (λ shares.
        (padded_value (arc_value shares.producer) ≡ table)
        × (padded_value (arc_value shares.handle) ≡ table)
        × (padded_value (arc_value shares.task) ≡ table)
        × (padded_value (arc_value shares.producer_spare) ≡ table)
        × (padded_value (arc_value shares.handle_spare) ≡ table)) }
{
    let Ok(producer) = Arc::new(alloc, CachePadded::new(table)) else {
        return Err(NoMemory);
    };
    Ok(Shares {
        handle: Arc::try_clone(&producer)?,
        task: Arc::try_clone(&producer)?,
        producer_spare: Arc::try_clone(&producer)?,
        handle_spare: Arc::try_clone(&producer)?,
        producer,
    })
}

/// Boxes the subscriber before its first turn. If memory is refused, it comes back.
fn lodger<B: Listener>(
    alloc: Global,
    order: ErrorOrder,
    subscriber: B,
) -> Result<BoxedLodger<B>, (NoMemory, B)>
    requires { B.replied subscriber ≡ [] }
    ensures new { IfOk result (λ guest. guest ≡ new_lodger order subscriber) }
    ensures back { IfErr result (λ refused. refused.1 ≡ subscriber) }
{
    let lodger = Lodger {
        subscriber,
        given: 0,
        own: 0,
        answers: Causes::none_in(order),
        how: None,
    };
    match Box::new(alloc, lodger) {
        Ok(lodger) => Ok(BoxedLodger { lodger }),
        Err(refused) => Err((NoMemory, refused.value.subscriber)),
    }
}

/// Takes the subscriber's slot out with the task, and places the subscriber there.
fn lodge<B: Listener>(party: &mut Seated<B>, guest: BoxedLodger<B>)
    requires fresh { IsUnlodged party.old.seat.me }
    ensures lodged { StepsTo party.old.seat (HasLodged guest party.old.seat.me) party.new.seat }
{
    let table = &party.table.shared;
    let at = place_of(party.capacity, Word::Control);
    let _ = table.load::<EnterStep>(&mut party.seat, at);
    let slot = party.capacity as usize;
    let nothing = table.exchange(&mut party.seat, slot, Held::Guest(guest));
    drop(nothing);
}

/// The handle gets a seat of its own.
pub(crate) struct HandleApart;

impl Split<View> for HandleApart {
    ghost use Rattle.feed_cell.specs.Views.{without_asking, asking_alone};

    ghost left = { without_asking };

    ghost right = { asking_alone };
}

/// The first task gets a seat of its own.
pub(crate) struct RunnerApart;

impl Split<View> for RunnerApart {
    ghost use Rattle.feed_cell.specs.Views.{without_running, running_alone};

    ghost left = { without_running };

    ghost right = { running_alone };
}
