//! What holds of the tickets of one count. Each law is a function, and calling it tells its caller the law.
//! None of them does anything else.
ghost use Rattle.std.specs.Prelude.{◌≡◌, ◌+◌, ◌≤◌, [], ◌∷◌, length, min, count_by, All, true};
ghost use Rattle.std.specs.Arc.{arc_value};
ghost use Rattle.close_count.specs.Opening.{count_of_opening};
ghost use Rattle.close_count.specs.Ticket.{count_of_ticket};
ghost use Rattle.close_count.specs.Spent.{count_of_spent, total_of_spent, was_last, TakesIn};

use crate::opening::Opening;
use crate::rule::{Counter, Gather, Look, Tickets, UNSPENT, View};
use crate::spent::Spent;
use crate::ticket::Ticket;
use atomic_table::{Seat, Shared};
use std::alloc::Global;
use std::sync::Arc;

/// Of two tickets that were spent of one count, not both were the last.
pub fn last_once(one: Spent, other: Spent)
    requires { count_of_spent one ≡ count_of_spent other }
    ensures { was_last one ≡ true → ¬ (was_last other ≡ true) }
{
    compare(one.counter, one.seat, other.seat);
}

/// Once the last ticket was spent, no ticket of the count is left.
pub fn none_left(spent: Spent, ticket: Ticket)
    requires { count_of_spent spent ≡ count_of_ticket ticket }
    ensures { ¬ (was_last spent ≡ true) }
{
    compare(spent.counter, spent.seat, ticket.seat);
}

/// Once the last ticket was spent, the opening of the count is spent, too.
pub fn none_open(spent: Spent, opening: Opening)
    requires { count_of_spent spent ≡ count_of_opening opening }
    ensures { ¬ (was_last spent ≡ true) }
{
    compare(spent.counter, spent.seat, opening.seat);
}

/// Of an opening and all tickets that it made, each of them spent, exactly one was the last.
pub fn one_of_all_is_last(opening: Spent, tickets: Vec<Spent>)
    requires same_count { All (λ ticket. count_of_spent ticket ≡ count_of_spent opening)
        tickets.items }
    requires all { total_of_spent opening ≡ length (opening ∷ tickets.items) }
    ensures { count_by was_last (opening ∷ tickets.items) ≡ 1 }
{
    let Spent {
        counter,
        mut seat,
        last: _,
    } = opening;
    gather(&counter.shared, &mut seat, tickets);
    counter.shared.load::<Look>(&mut seat, UNSPENT);
}

/// What two seats of one table can know together.
fn compare(counter: Arc<Counter, Global>, mut seat: Seat<(), View>, other: Seat<(), View>)
    requires table { (seat.table_id ≡ (arc_value counter).shared.table_id)
        × ((arc_value counter).shared.table_id.words ≡ 1) }
    requires other { (other.table_id ≡ seat.table_id) × (other.me.1 ≡ []) }
    ensures { (seat.me.0.last + other.me.0.last) + min 1 (seat.me.0.held + other.me.0.held) ≤ 1 }
{
    let shared = &counter.shared;
    shared.join_seat::<Gather>(&mut seat, other);
    shared.load::<Look>(&mut seat, UNSPENT);
}

/// What the seats of spent tickets know together with one more seat of their table.
fn gather(
    shared: &Shared<(), View, (), Tickets>,
    seat: &mut Seat<(), View>,
    mut tickets: Vec<Spent>,
)
    requires table { (seat.old.table_id ≡ shared.now.table_id) × (shared.now.table_id.words ≡ 1) }
    requires tickets { All (λ ticket. count_of_spent ticket ≡ seat.old.table_id) tickets.items }
    ensures same_table { seat.new.table_id ≡ seat.old.table_id }
    ensures all { TakesIn seat.old.me.0 tickets.items seat.new.me.0 }
{
    while let Some(ticket) = tickets.pop() {
        shared.join_seat::<Gather>(seat, ticket.seat);
    }
}
