//! What names a publisher: its two ledgers and its history, and the blanks that they are opened with.
ghost use Rattle.std.specs.Prelude.{◌≡◌, ℕ, IfOk};
ghost use Rattle.atomic_table.specs.Seated.{TableId};
ghost use Rattle.history.specs.History.{no_table};
ghost use Rattle.publisher.specs.declared.state.TheConstants.{PARTS};

use crate::state::PARTS;
use flow_rules::NoMemory;
use history::{BlankHistory, HistoryId};
use std::alloc::Global;
use std::marker::{Brand, PhantomData};
use std::sync::ledger::{Blank, Ledger};

/// The two ledgers of a publisher and its history, which name it: the ledger of its publications, that of what its buffers
/// dropped, and the history of all texts that were published. A submitter or a subscription of another publisher doesn't
/// fit, since it is of other ledgers.
///
/// A program works in functions over any ledgers, the outermost of which it calls at [`Brand`]: its proof says there
/// that the ledgers are those of the [`BlankPair`] that is handed in.
pub trait Ledgers {
    ghost publications: { ℕ };

    ghost drops: { ℕ };

    ghost history: { TableId };
}

impl Ledgers for Brand {
    ghost publications = { 0 };

    ghost drops = { 0 };

    ghost history = { no_table };
}

/// The ledgers of a publisher that threads share: short for the bounds, which each such [`Ledgers`] meets. A function
/// that is called at [`Brand`] writes them out, since a proof says which the ledgers are only then.
pub trait SharedLedgers: Ledgers + Send + Sync + 'static {}

impl<L: Ledgers + Send + Sync + 'static> SharedLedgers for L {}

/// The ledger of the publications.
pub(crate) struct Publications<L: Ledgers> {
    marker: PhantomData<L>,
}

impl<L: Ledgers> Ledger for Publications<L> {
    ghost name = { L.publications };

    ghost parts = { PARTS };
}

/// The ledger of the drops.
pub(crate) struct Drops<L: Ledgers> {
    marker: PhantomData<L>,
}

impl<L: Ledgers> Ledger for Drops<L> {
    ghost name = { L.drops };

    ghost parts = { PARTS };
}

/// The history of the publications.
pub(crate) struct Pages<L: Ledgers> {
    marker: PhantomData<L>,
}

impl<L: Ledgers> HistoryId for Pages<L> {
    ghost table = { L.history };
}

/// The blanks of a publisher's two ledgers, and of its history.
#[derive(Drop)]
pub struct BlankPair {
    /// That of the publications.
    pub publications: Blank,
    /// That of the drops.
    pub drops: Blank,
    /// That of the history of all texts that are published, which takes no memory for them.
    pub history: BlankHistory,
}

impl BlankPair {
    /// Makes them, each ledger's with as many parts as a publisher's ledger has. `NoMemory` if the few bytes that name
    /// the history are refused.
    pub fn new(alloc: Global) -> Result<BlankPair, NoMemory>
        ensures publications { IfOk result (λ blanks. blanks.publications.parts ≡ PARTS) }
        ensures drops { IfOk result (λ blanks. blanks.drops.parts ≡ PARTS) }
    {
        Ok(BlankPair {
            publications: Blank::new(PARTS),
            drops: Blank::new(PARTS),
            history: BlankHistory::new(alloc)?,
        })
    }
}
