//! The rule of a history's table, and what each step on its one word tells. The history exists in the proofs alone.
ghost use Rattle.std.specs.Prelude.{ℕ, List};

use atomic_table::{Join, Play, Split, Table, TableRule};
use flow_rules::Text;
use std::alloc::Global;
use std::collections::LinkedList;
use std::marker::{Brand, PhantomData};

/// Which history it is: both a history and its passes say it by their type, so that a pass of another one doesn't fit.
/// The outermost function of a program picks it at [`Brand`].
pub trait HistoryId {
    ghost use Rattle.atomic_table.specs.Seated.{TableId};

    ghost table: { TableId };
}

impl HistoryId for Brand {
    ghost use Rattle.history.specs.History.{no_table};

    ghost table = { no_table };
}

/// Which text a step writes. The call that makes the step picks it.
pub(crate) trait Said {
    ghost text: { List ℕ };
}

impl Said for Brand {
    ghost use Rattle.std.specs.Prelude.{[]};

    ghost text = { [] };
}

/// A text that was published, with the number of its source.
#[derive(Drop)]
pub struct Entry {
    pub source: u64,
    pub text: Text,
}

/// What one seat at the table knows. No value of it is made.
pub struct View {
    /// Whether it keeps the history, which it then knows whole.
    pub keeps: bool,
    pub log: LinkedList<Entry>,
    /// How many sources were made.
    pub made: u64,
    /// Which of them gave their passes back.
    pub back: LinkedList<u64>,
    /// Whether it writes for a source, and what it wrote.
    pub writes: bool,
    pub source: u64,
    pub sent: LinkedList<Text>,
    /// Whether it has a beginning of the history, and which.
    pub claims: bool,
    pub seen: LinkedList<Entry>,
}

/// The table of a history: one word that never changes, and no slots.
pub(crate) type Desk = Table<(), View, (), Interleaved, Global>;

/// The index of the one word.
pub(crate) const WORD: usize = 0;

/// The rule: what each source wrote are its texts in the history.
pub struct Interleaved;

impl TableRule<(), View, ()> for Interleaved {
    ghost use Rattle.std.specs.Prelude.{[]};
    ghost use Rattle.history.specs.History.{IsInterleaved, keeper};

    ghost holds = { λ _ s. IsInterleaved s.views };

    ghost first = { λ _. keeper [] 0 [] };
}

/// The keeper makes the seat of one more source.
pub(crate) struct MakeSource;

impl Split<View> for MakeSource {
    ghost use Rattle.history.specs.History.{after_making, made_source};

    ghost left = { after_making };

    ghost right = { made_source };
}

/// The keeper's part goes to a seat of its own.
pub(crate) struct PartWays;

impl Split<View> for PartWays {
    ghost use Rattle.history.specs.History.{writer_part, keeper_part};

    ghost left = { writer_part };

    ghost right = { keeper_part };
}

/// A writer takes the keeper's part in.
pub(crate) struct Meet;

impl Join<View> for Meet {
    ghost use Rattle.history.specs.History.{together, nobody};

    ghost both = { together };

    ghost spent = { nobody };
}

/// The text is written, by who is writer and keeper at once.
pub(crate) struct Write<T: Said> {
    of: PhantomData<T>,
}

impl<T: Said> Play<(), View> for Write<T> {
    ghost use Rattle.history.specs.History.{Writes};

    ghost then = { Writes T.text };
}

/// Who is writer and keeper at once compares what it wrote with the history, and gives the right to write back.
pub(crate) struct Return;

impl Play<(), View> for Return {
    ghost use Rattle.history.specs.History.{Returns};

    ghost then = { Returns };
}

/// The keeper looks at the whole history.
pub(crate) struct Look;

impl Play<(), View> for Look {
    ghost use Rattle.history.specs.History.{Looks};

    ghost then = { Looks };
}

/// The keeper gives a receipt of the history so far.
pub(crate) struct GiveReceipt;

impl Split<View> for GiveReceipt {
    ghost use Rattle.history.specs.History.{receipt_of};

    ghost left = { λ v. v };

    ghost right = { receipt_of };
}

/// Who is keeper and has a receipt compares the two.
pub(crate) struct Recall;

impl Play<(), View> for Recall {
    ghost use Rattle.history.specs.History.{Recalls};

    ghost then = { Recalls };
}
