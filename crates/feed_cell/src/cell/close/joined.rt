//! How the producer's seat takes in the handle's at a close. The other may be of another table, and then nothing is
//! taken in.
ghost use Rattle.std.specs.Prelude.{◌≡◌, ◌⊎◌};
ghost use Rattle.atomic_table.specs.Table.{Joins};

use crate::cell::View;
use atomic_table::{Join, Seat, Shared, TableRule};
use std::marker::Brand;
use std::sync::atomic::Ordering::SeqCst;
use std::sync::atomic::raw;

/// Takes the other seat in, if that is of this table, too. Otherwise the seat stays as it was.
///
/// No program can tell which of the two it is, and none needs to: a seat has no bytes, and what it knows is for the
/// proof alone. The load, of a word of its own, is for the proof, too: a proof may open the rule of a table only beside
/// a step on some word.
pub(crate) fn join_if_of_one_table<S, V, K, P: TableRule<S, V, K>, M: Join<V>>(
    table: &Shared<S, V, K, P>,
    seat: &mut Seat<S, V>,
    other: &mut Seat<S, V>,
)
    requires { (seat.old.table_id ≡ table.now.table_id)
        × (other.old.table_id ≡ table.now.table_id
        → Joins (P.holds table.now.key) seat.old.id seat.old.me.0 other.old.id other.old.me.0
        (M.both seat.old.me.0 other.old.me.0) M.spent) }
    ensures stays { (seat.new.table_id ≡ seat.old.table_id) × (seat.new.id ≡ seat.old.id) }
    ensures joined { ((other.old.table_id ≡ table.now.table_id)
        × (seat.new.me ≡ (M.both seat.old.me.0 other.old.me.0, seat.old.me.1)))
        ⊎ ((¬ (other.old.table_id ≡ table.now.table_id)) × (seat.new.me ≡ seat.old.me)) }
{
    let word: u64 = 0;
    unsafe { raw::load::<Brand>(&raw const word, SeqCst) };
}

/// The producer's seat takes in that of the handle.
pub(crate) struct Gather;

impl Join<View> for Gather {
    ghost use Rattle.feed_cell.specs.Views.{with_asking, no_part};

    ghost both = { with_asking };

    ghost spent = { no_part };
}
