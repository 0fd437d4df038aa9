//! How a count is opened.
ghost use Rattle.std.specs.Prelude.{◌≡◌, IfOk};

use crate::opening::Opening;
use atomic_table::Table;
use flow_rules::NoMemory;
use std::alloc::Global;
use std::sync::Arc;

/// Opens counts (`CountedCompleter`'s constructor with a pending count of 0).
pub struct Count;

impl Count {
    ghost use Rattle.close_count.specs.Opening.{tickets_made};

    /// A new count, with the opening as its one ticket.
    pub fn new(alloc: Global) -> Result<Opening, NoMemory>
        ensures { IfOk result (λ opening. tickets_made opening ≡ 0) }
    {
        let (table, seat) = Table::of_words(alloc, &[1], &())?;
        Ok(Opening {
            counter: Arc::new(alloc, table)?,
            seat,
            made: 0,
        })
    }
}
