//! Where workers hear that a job came, or that the pool was shut. Who is called is decided behind the lock.
use crate::sleepers::{Place, Wake};
use std::sync::Condvar;

/// What each worker that sleeps listens to.
#[derive(Drop)]
pub(crate) struct Calls {
    lead: Condvar,
    others: Condvar,
}

impl Calls {
    /// Nobody listens.
    pub fn new() -> Calls {
        Calls {
            lead: Condvar::new(),
            others: Condvar::new(),
        }
    }

    /// Gives what a worker listens to that sleeps there.
    pub fn at(&self, place: Place) -> &Condvar {
        match place {
            Place::Lead => &self.lead,
            Place::Others => &self.others,
        }
    }

    /// Wakes those that were called.
    pub fn make(&self, wake: Wake) {
        match wake {
            Wake::Nobody => {}
            Wake::One(place) => self.at(place).notify_one(),
            Wake::All => {
                self.lead.notify_all();
                self.others.notify_all();
            }
        }
    }
}
