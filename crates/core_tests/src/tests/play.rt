//! A subscription that is played twice, row by row: as a Desk, and by its parties over a lock-free table.
ghost use Rattle.std.specs.Prelude.{◌≡◌, []};

use super::cells::{Left, left_of, numbers};
use crate::{Row, answers, desk_of};
use feed_core::{Desk, desks_keep_the_flow_rules};
use flow_rules::{Listener, NoMemory};
use std::alloc::Global;
use std::process::Abort;
use std::test::Fail;

/// The place of the first row that a Desk does not answer as the row says.
pub(super) fn first_wrong<B: Listener>(
    alloc: Global,
    desk: &mut Desk<B>,
    rows: &[Row<'_>],
) -> Result<Option<usize>, NoMemory> {
    for (place, row) in rows.iter().enumerate() {
        if !answers(alloc, desk, *row)? {
            return Ok(Some(place));
        }
    }
    Ok(None)
}

/// Makes the calls on a Desk of this listener, for which this capacity is asked, compares each with its row, and takes the listener
/// out. The same calls of its twin's parties have to be answered alike, and to leave the same numbers.
pub(super) fn play<B: Listener>(
    rt: &impl Abort,
    alloc: Global,
    listener: B,
    twin: B,
    asked: usize,
    rows: &[Row<'_>],
) -> Result<B, Fail>
    requires listener { (B.told listener ≡ []) × (B.replied listener ≡ []) }
    requires twin { (B.told twin ≡ []) × (B.replied twin ≡ []) }
{
    let mut desk = desk_of(alloc, asked, listener)?;
    let wrong = first_wrong(alloc, &mut desk, rows)?;
    assert!(rt; wrong.is_none(), "row {wrong:?}");
    desks_keep_the_flow_rules(&desk);
    let lane = left_of(rt, alloc, twin, asked, rows)?;
    assert!(rt; is_left(&desk, numbers(&lane)));
    Ok(desk.into_subscriber())
}

/// Whether these numbers are a Desk's, where the requests of a subscriber that is not there are left out.
fn is_left<B: Listener>(desk: &Desk<B>, left: Left) -> bool {
    let (accepted, given, asked, ending, running) = left;
    (accepted, given, ending, running) == (desk.accepted(), desk.given(), desk.how(), desk.owes())
        && (running || asked == desk.asked())
}
