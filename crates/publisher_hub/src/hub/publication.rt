//! What publications did, one after the other.
ghost use Rattle.std.specs.Prelude.{◌≡◌, ◌+◌, ◌≤◌};
ghost use Rattle.publisher_hub.specs.Publishing.{both, nothing_published};

use crate::hub::Publication;

impl Publication {
    /// What is done before any text was published.
    pub fn nothing() -> Publication
        ensures { result ≡ nothing_published }
    {
        Publication {
            many: 0,
            lost: 0,
            dropped: 0,
            lag: 0,
        }
    }

    /// Adds what a later publication did.
    pub fn add(&mut self, later: &Publication)
        requires many { self.old.many + later.now.many ≤ 18446744073709551615 }
        requires lost { self.old.lost + later.now.lost ≤ 18446744073709551615 }
        ensures { self.new ≡ both self.old later.now }
    {
        self.many += later.many;
        self.lost += later.lost;
        self.dropped = later.dropped;
        self.lag = later.lag;
    }
}
