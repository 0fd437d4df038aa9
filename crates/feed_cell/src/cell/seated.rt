//! A party at the table of its subscription.
ghost use Rattle.std.specs.Prelude.{◌≡◌, ◌<◌, ◌-◌, ◌%◌, ℕ, bit_and};
ghost use Rattle.std.specs.Arc.{arc_value};
ghost use Rattle.crossbeam_utils.specs.Padded.{padded_value};
ghost use Rattle.feed_cell.specs.WordPlaces.{HasItsWords};

use super::{CellSeat, SharedTable};
use flow_rules::Listener;

/// A party at the table of its subscription: the table, the party's seat there, and how many items the buffer has room
/// for.
#[derive(Drop)]
pub(crate) struct Seated<B: Listener> {
    pub(crate) table: SharedTable<B>,
    pub(crate) seat: CellSeat<B>,
    pub(crate) capacity: u64,
    ghost its_table: { (padded_value (arc_value table)).shared.table_id ≡ seat.table_id },
    ghost its_words: { HasItsWords capacity seat.table_id },
    ghost sized: { seat.me.0.capacity ≡ capacity },
    ghost some_room: { 0 < capacity },
    // A capacity is a power of two.
    ghost masked: { (number : ℕ) → bit_and number (capacity - 1) ≡ number % capacity },
}

impl<B: Listener> Seated<B> {
    /// Gives the slot of the item of this number, by a mask: a division would add a twentieth to an item's time.
    pub(crate) fn slot_of(&self, number: u64) -> usize
        ensures { result ≡ number % self.now.capacity }
    {
        (number & (self.capacity - 1)) as usize
    }

    /// Leaves the table, with what its seat knows.
    pub(crate) fn into_seat(self) -> CellSeat<B>
        ensures { result ≡ self.seat }
    {
        let Seated {
            table,
            seat,
            capacity: _,
        } = self;
        drop(table);
        seat
    }
}
