//! The rule of a count's table, and what each step on its one word tells.
use atomic_table::{Join, Play, Split, Table, TableRule};
use std::alloc::Global;

/// What one seat at the table knows. No value of it is made.
pub struct View {
    /// The tickets that it made.
    pub made: u64,
    /// How many more it may make.
    pub room: u64,
    /// The tickets that it holds.
    pub held: u64,
    /// The tickets that it spent while others were left.
    pub earlier: u64,
    /// 1 if its own step spent the last ticket.
    pub last: u64,
}

/// The table of a count: one word, the number of unspent tickets, and no slots.
pub(crate) type Counter = Table<(), View, (), Tickets, Global>;

/// The most tickets that one opening makes beside itself, 2^32 - 1.
pub const MOST_TICKETS: u64 = 4_294_967_295;

/// The index of the one word.
pub(crate) const UNSPENT: usize = 0;

/// The rule: the word is the number of tickets made and not spent, and one step alone finds the last.
pub struct Tickets;

impl TableRule<(), View, ()> for Tickets {
    ghost use Rattle.close_count.specs.Tickets.{KeepsCount, opening_view};

    ghost holds = { λ _. KeepsCount };

    ghost first = { λ _. opening_view 0 };
}

/// One more ticket, with the seat that makes it.
pub(crate) struct Add;

impl Play<(), View> for Add {
    ghost use Rattle.close_count.specs.Tickets.{IsStepOfAdd};

    ghost then = { IsStepOfAdd };
}

/// One ticket of the seat is spent.
pub(crate) struct Complete;

impl Play<(), View> for Complete {
    ghost use Rattle.close_count.specs.Tickets.{IsStepOfComplete};

    ghost then = { IsStepOfComplete };
}

/// The seat compares what it knows with the rule.
pub(crate) struct Look;

impl Play<(), View> for Look {
    ghost use Rattle.close_count.specs.Tickets.{IsStepOfLook};

    ghost then = { IsStepOfLook };
}

/// The ticket that was added gets a seat of its own.
pub(crate) struct HandOut;

impl Split<View> for HandOut {
    ghost use Rattle.close_count.specs.Tickets.{view_after_hand_out, ticket_view};

    ghost left = { view_after_hand_out };

    ghost right = { λ _. ticket_view };
}

/// Two seats put together what they know.
pub(crate) struct Gather;

impl Join<View> for Gather {
    ghost use Rattle.close_count.specs.Tickets.{view_together, empty_view};

    ghost both = { view_together };

    ghost spent = { empty_view };
}
