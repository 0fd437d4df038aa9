//! What is left of a ticket, or of the opening, once it was spent.
ghost use Rattle.std.specs.Prelude.{◌≡◌, ◌+◌, ◌≤◌, []};
ghost use Rattle.std.specs.Arc.{arc_value};
ghost use Rattle.close_count.specs.Tickets.{one_if, HasAllRoom};

use crate::rule::{Complete, Counter, UNSPENT, View};
use atomic_table::Seat;
use std::alloc::Global;
use std::fmt;
use std::sync::Arc;

/// A ticket, or the opening, that was spent.
#[derive(Drop)]
#[must_use]
pub struct Spent {
    pub(crate) counter: Arc<Counter, Global>,
    pub(crate) seat: Seat<(), View>,
    pub(crate) last: bool,
    ghost one_word: { (arc_value counter).shared.table_id.words ≡ 1 },
    ghost seated: { seat.table_id ≡ (arc_value counter).shared.table_id },
    ghost no_slots: { seat.me.1 ≡ [] },
    ghost spent: { seat.me.0.earlier + seat.me.0.last ≡ 1 },
    ghost found: { seat.me.0.last ≡ one_if last },
    // Only the opening makes tickets, and the right to make any was its own.
    ghost maker: { 1 ≤ seat.me.0.made → HasAllRoom seat.me.0 },
}

impl fmt::Debug for Spent {
    fn fmt<W: fmt::Write>(&self, f: &mut fmt::Formatter<W>) -> fmt::Result {
        f.write_str("Spent")
    }
}

impl Spent {
    ghost use Rattle.close_count.specs.Spent.{count_of_spent, total_of_spent, was_last};

    /// Spends the ticket of a seat.
    pub(crate) fn of_seat(counter: Arc<Counter, Global>, mut seat: Seat<(), View>) -> Spent
        requires table { (seat.table_id ≡ (arc_value counter).shared.table_id)
            × ((arc_value counter).shared.table_id.words ≡ 1) }
        requires ticket { (1 ≤ seat.me.0.held) × (seat.me.0.earlier ≡ 0) × (seat.me.0.last ≡ 0)
            × (seat.me.1 ≡ []) }
        requires maker { 1 ≤ seat.me.0.made → HasAllRoom seat.me.0 }
        ensures count { count_of_spent result ≡ seat.table_id }
        ensures total { total_of_spent result ≡ seat.me.0.made }
    {
        let found = counter.shared.fetch_sub::<Complete>(&mut seat, UNSPENT, 1);
        Spent {
            counter,
            seat,
            last: found == 1,
        }
    }

    /// Whether this was the last ticket of its count: its own step took the count from 1 to 0.
    pub fn is_last(&self) -> bool
        ensures { result ≡ was_last self.now }
    {
        self.last
    }
}
