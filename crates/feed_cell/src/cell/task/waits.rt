//! How long a task that finds nothing to do waits before it rests, as whoever runs its turns has learned.
ghost use Rattle.std.specs.Prelude.{◌≤◌};
ghost use Rattle.std.specs.Option.{ForSome};
ghost use Rattle.feed_cell.specs.declared.cell.task.waits.TheConstants.{MOST_DOUBLED};

use std::hint::spin_loop;

/// From this capacity on a task waits once, and long: what comes meanwhile is given in a row, and moves fewer cache lines.
/// A smaller buffer fills up meanwhile, so its task looks more and more rarely.
const WAITS_ONCE_FROM: u64 = 32;

/// The pauses of that wait, by how much of it pays. The longest takes 3.6 microseconds where a pause takes 4.5
/// nanoseconds, and 11 where it takes 13.5.
const LONG_WAITS: [u32; 5] = [50, 100, 200, 400, 800];

/// How often the shortest of these is doubled at most.
const MOST_DOUBLED: usize = 4;

/// The pauses of the waits of a task with a small buffer, one after the other: 510 in all. Shorter ones cost it more.
const SHORT_WAITS: [u32; 8] = [2, 4, 8, 16, 32, 64, 128, 256];

/// How long a task that finds nothing to do waits before it rests, in case more comes. From capacity 32 on that is
/// learned, from the waits of all tasks that its thread runs: after one in vain the next takes half as long, after one
/// in which something came twice as long, a few microseconds at most; and once a turn has told several signals in a row
/// it waits the longest. So a task waits only where that pays, however long a pause takes on the machine.
#[derive(Clone, Copy, Debug, PartialEq, Eq)]
pub struct Patience {
    /// How often the shortest wait is doubled. One that hurries has none.
    doubled: Option<usize>,
    ghost bounded: { ForSome doubled (λ times. times ≤ MOST_DOUBLED) },
}

impl Patience {
    /// Gives that of a thread that has nothing else to do than to run turns: its tasks wait.
    pub fn waits() -> Patience {
        Patience {
            doubled: Some(MOST_DOUBLED),
        }
    }

    /// Gives that of a thread that is to come back soon, as a submitter is: its tasks rest at once. It learns nothing.
    pub fn hurries() -> Patience {
        Patience { doubled: None }
    }

    /// Gives the pauses of each wait, one after the other, of a task with a buffer of this capacity.
    pub(super) fn pauses(self, capacity: u64) -> &'static [u32] {
        let Some(doubled) = self.doubled else {
            return &[];
        };
        if capacity < WAITS_ONCE_FROM {
            &SHORT_WAITS
        } else {
            &LONG_WAITS[doubled..doubled + 1]
        }
    }

    /// Learns that something came in a wait.
    pub(super) fn paid(&mut self) {
        if let Some(doubled) = self.doubled {
            self.doubled = Some((doubled + 1).min(MOST_DOUBLED));
        }
    }

    /// Forgets all waits in vain, since signals come close together.
    pub(super) fn restore(&mut self) {
        if self.doubled.is_some() {
            self.doubled = Some(MOST_DOUBLED);
        }
    }

    /// Learns that all waits were in vain.
    pub(super) fn in_vain(&mut self) {
        if let Some(doubled) = self.doubled {
            self.doubled = Some(doubled.saturating_sub(1));
        }
    }
}

/// Spins for this many pauses.
pub(super) fn pause(pauses: u32) {
    for _ in 0..pauses {
        spin_loop();
    }
}
