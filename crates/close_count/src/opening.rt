//! The first ticket of a count, which makes all others.
ghost use Rattle.std.specs.Prelude.{◌≡◌, ◌+◌, ◌≤◌, ◌⊎◌, ◌↔◌, [], IfOk, OnOk, IfErr, OnErr, Err};
ghost use Rattle.std.specs.Arc.{arc_value};
ghost use Rattle.flow_rules.specs.declared.refusal.Refusal.TheVariants as Refusal;
ghost use Rattle.close_count.specs.declared.rule.TheConstants.{MOST_TICKETS};
ghost use Rattle.close_count.specs.Tickets.{opening_view};

use crate::rule::{Add, Counter, HandOut, MOST_TICKETS, UNSPENT, View};
use crate::spent::Spent;
use crate::ticket::Ticket;
use atomic_table::Seat;
use flow_rules::{NoMemory, Refusal};
use std::alloc::Global;
use std::fmt;
use std::sync::Arc;

/// The first ticket of a count, which makes all others. One that is dropped is never spent.
#[derive(Drop)]
#[must_use]
pub struct Opening {
    pub(crate) counter: Arc<Counter, Global>,
    pub(crate) seat: Seat<(), View>,
    /// The tickets that `add` made.
    pub(crate) made: u64,
    ghost one_word: { (arc_value counter).shared.table_id.words ≡ 1 },
    ghost seated: { seat.table_id ≡ (arc_value counter).shared.table_id },
    ghost knows: { seat.me ≡ (opening_view made, []) },
    ghost bounded: { made ≤ MOST_TICKETS },
}

impl fmt::Debug for Opening {
    fn fmt<W: fmt::Write>(&self, f: &mut fmt::Formatter<W>) -> fmt::Result {
        f.write_str("Opening")
    }
}

impl Opening {
    ghost use Rattle.close_count.specs.Opening.{count_of_opening, tickets_made};
    ghost use Rattle.close_count.specs.Ticket.{count_of_ticket};
    ghost use Rattle.close_count.specs.Spent.{count_of_spent, total_of_spent};

    /// One more ticket (`CountedCompleter.addToPendingCount(1)`).
    ///
    /// `Exhausted` once [`MOST_TICKETS`](crate::MOST_TICKETS) were made, and else `NoMemory` if one more owner of
    /// the shared count is refused. After either the opening is as it was.
    pub fn add(&mut self) -> Result<Ticket, Refusal>
        ensures ticket { IfOk result (λ ticket. count_of_ticket ticket
            ≡ count_of_opening self.old) }
        ensures made { OnOk result (tickets_made self.new ≡ tickets_made self.old + 1) }
        ensures same_count { count_of_opening self.new ≡ count_of_opening self.old }
        ensures exhausted { (result ≡ Err Refusal.Exhausted)
            ↔ (tickets_made self.old ≡ MOST_TICKETS) }
        ensures refusals { IfErr result (λ refusal. (refusal ≡ Refusal.Exhausted)
            ⊎ (refusal ≡ Refusal.NoMemory)) }
        ensures unchanged { OnErr result (self.new ≡ self.old) }
    {
        if self.made == MOST_TICKETS {
            return Err(Refusal::Exhausted);
        }
        let counter = share(&self.counter)?;
        let shared = &counter.shared;
        shared.fetch_add::<Add>(&mut self.seat, UNSPENT, 1);
        let seat = shared.split_seat::<HandOut>(&mut self.seat);
        self.made += 1;
        Ok(Ticket { counter, seat })
    }

    /// Spends the opening. What comes back tells whether it was the last ticket, and how many there are in all.
    pub fn spend(self) -> Spent
        ensures count { count_of_spent result ≡ count_of_opening self }
        ensures total { total_of_spent result ≡ tickets_made self + 1 }
    {
        Spent::of_seat(self.counter, self.seat)
    }

    /// Spends the opening, and answers whether it was the last ticket (`CountedCompleter.tryComplete`). What is proved
    /// of the answer is said of what [`spend`](Opening::spend) gives, as of
    /// [`Ticket::try_complete`](crate::Ticket::try_complete).
    #[must_use]
    pub fn try_complete(self) -> bool {
        self.spend().is_last()
    }
}

/// One more owner of the shared count.
fn share(counter: &Arc<Counter, Global>) -> Result<Arc<Counter, Global>, NoMemory>
    ensures { IfOk result (λ owner. arc_value owner ≡ arc_value counter.now) }
{
    Ok(Arc::try_clone(counter)?)
}
