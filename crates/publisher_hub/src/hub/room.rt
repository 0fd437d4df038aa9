//! What looks at the live subscriptions show of their room: of all, and of those that publications wait for.
ghost use Rattle.std.specs.Prelude.{◌≡◌, true, false, min, fold, [], ◌∷◌, ℕ};
ghost use Rattle.flow_rules.specs.declared.item.TheConstants.{MOST_PUBLICATIONS};
ghost use Rattle.publisher_hub.specs.Looking.{full_by, room_by, room_for};
ghost use Rattle.publisher_hub.specs.Overview.{CountsRoom};

use crate::policy::Need;
use flow_rules::{MOST_PUBLICATIONS, Standing};

/// What looks at the live subscriptions showed of their room.
#[derive(Clone, Copy)]
pub(super) struct Room {
    /// Whether none of them is full.
    pub everywhere: bool,
    /// Whether none is full of those that publications wait for.
    pub for_waiters: bool,
    /// How many more items each of them holds at least: as many as may ever be published, if there is none.
    pub least: u64,
}

impl Room {
    /// Makes one before any look.
    pub fn everywhere() -> Room
        ensures { result ≡ record {
          everywhere = true;
          for_waiters = true;
          least = MOST_PUBLICATIONS;
        } }
    {
        Room {
            everywhere: true,
            for_waiters: true,
            least: MOST_PUBLICATIONS,
        }
    }

    /// Tells whether those have room whose room is needed.
    pub fn has(self, need: Need) -> bool
        ensures { result ≡ room_for need self }
    {
        match need {
            Need::All => self.everywhere,
            Need::Waiters => self.for_waiters,
        }
    }

    /// Adds what another look showed of a subscription, for which publications wait or don't.
    pub fn count(&mut self, glance: &Option<Standing>, waited: bool, capacity: usize)
        ensures { CountsRoom capacity waited glance.now self.old self.new }
    {
        let has = shows_room(glance, capacity);
        self.everywhere &= has;
        self.for_waiters &= has | !waited;
        self.least = least_with(self.least, glance, capacity);
    }
}

/// Gives the lesser of this number and of how many more items a subscription that goes on holds, by a look.
fn least_with(least: u64, glance: &Option<Standing>, capacity: usize) -> u64
    ensures { (number : ℕ) → result ≡ fold min least (room_by capacity number glance.now) }
{
    match glance {
        Some(standing) if !standing.ended => {
            least.min((capacity as u64).saturating_sub(standing.held))
        }
        _ => least,
    }
}

/// Says whether a look showed no full buffer.
fn shows_room(glance: &Option<Standing>, capacity: usize) -> bool
    ensures full { result ≡ false → (number : ℕ)
        → full_by capacity number glance.now ≡ number ∷ [] }
    ensures not_full { result ≡ true → (number : ℕ) → full_by capacity number glance.now ≡ [] }
{
    match glance {
        Some(standing) => standing.ended || standing.held < capacity as u64,
        None => true,
    }
}
