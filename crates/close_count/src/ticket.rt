//! One ticket of a count, which any thread may spend.
ghost use Rattle.std.specs.Prelude.{◌≡◌, []};
ghost use Rattle.std.specs.Arc.{arc_value};
ghost use Rattle.close_count.specs.Tickets.{ticket_view};

use crate::rule::{Counter, View};
use crate::spent::Spent;
use atomic_table::Seat;
use std::alloc::Global;
use std::fmt;
use std::sync::Arc;

/// One ticket of a count. One that is dropped is never spent.
#[derive(Drop)]
#[must_use]
pub struct Ticket {
    pub(crate) counter: Arc<Counter, Global>,
    pub(crate) seat: Seat<(), View>,
    ghost one_word: { (arc_value counter).shared.table_id.words ≡ 1 },
    ghost seated: { seat.table_id ≡ (arc_value counter).shared.table_id },
    ghost knows: { seat.me ≡ (ticket_view, []) },
}

impl fmt::Debug for Ticket {
    fn fmt<W: fmt::Write>(&self, f: &mut fmt::Formatter<W>) -> fmt::Result {
        f.write_str("Ticket")
    }
}

impl Ticket {
    ghost use Rattle.close_count.specs.Ticket.{count_of_ticket};
    ghost use Rattle.close_count.specs.Spent.{count_of_spent};

    /// Spends the ticket. What comes back tells whether it was the last one.
    pub fn spend(self) -> Spent
        ensures count { count_of_spent result ≡ count_of_ticket self }
    {
        Spent::of_seat(self.counter, self.seat)
    }

    /// Spends the ticket, and answers whether it was the last one (`CountedCompleter.tryComplete`).
    ///
    /// A clause of this answer alone would hold of any answer. What is proved is said of the [`Spent`] that
    /// [`spend`](Ticket::spend) gives, by [`one_of_all_is_last`](crate::one_of_all_is_last).
    #[must_use]
    pub fn try_complete(self) -> bool {
        self.spend().is_last()
    }
}
