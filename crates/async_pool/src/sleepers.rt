//! How many workers sleep, how many of them were called, where each sleeps, and whom to wake then.
//!
//! Jobs that come one at a time are run by one worker, the lead: whoever lies down takes its place if that is free, and
//! it is called first. It has slept least of all, and its processor wakes soonest. While jobs come together it is called
//! last, and the others in turn, those that have slept longest first.
ghost use Rattle.std.specs.Prelude.{◌≡◌, ◌<◌, ◌≤◌, ◌+◌, ◌-◌, ◌⊎◌, min, false, true};
ghost use Rattle.async_pool.specs.declared.sleepers.Place.TheVariants as Place;

/// How many calls go to the others in turn after jobs came together.
const CALLS_IN_TURN: usize = 16;

/// Workers that sleep. Each is called once, and gets up then.
#[derive(Drop)]
pub(crate) struct Sleepers {
    /// A pool has at most [`MOST_WORKERS`](crate::MOST_WORKERS) workers, so it never saturates.
    asleep: usize,
    /// Those that were called and did not get up yet.
    called: usize,
    /// Whether one of them is the lead.
    has_lead: bool,
    /// How many of the next calls go to the others in turn.
    in_turn: usize,
    ghost of_those: { called ≤ asleep },
}

/// Where a worker sleeps.
#[derive(Clone, Copy)]
pub(crate) enum Place {
    /// The place of the lead, of which there is one.
    Lead,
    Others,
}

/// One that lay down. It can't be dropped: it is handed back by [`Sleepers::get_up`] alone.
#[must_use]
pub(crate) struct Sleeper(Place);

/// Whom to wake once the lock was let go. It can't be dropped, so nobody forgets it.
#[must_use]
pub(crate) enum Wake {
    Nobody,
    /// One of those who sleep there.
    One(Place),
    All,
}

impl Sleeper {
    /// Tells where it sleeps.
    pub fn place(&self) -> Place
        ensures { result ≡ self.now.0 }
    {
        let Sleeper(place) = self;
        *place
    }
}

impl Sleepers {
    ghost use Rattle.async_pool.specs.Sleepers.{CallsOne, CallsAll};

    /// Nobody sleeps.
    pub fn none() -> Sleepers
        ensures { (result.asleep ≡ 0) × (result.called ≡ 0) × (result.has_lead ≡ false)
            × (result.in_turn ≡ 0) }
    {
        Sleepers {
            asleep: 0,
            called: 0,
            has_lead: false,
            in_turn: 0,
        }
    }

    /// One more sleeps, as the lead if there is none and jobs come one at a time.
    pub fn lie_down(&mut self) -> Sleeper
        ensures asleep { self.new.asleep ≡ min (self.old.asleep + 1) 18446744073709551615 }
        ensures called { self.new.called ≡ self.old.called }
        ensures first { self.old.has_lead ≡ false → self.old.in_turn ≡ 0
            → (result.0 ≡ Place.Lead) × (self.new.has_lead ≡ true) }
        ensures other { (self.old.has_lead ≡ true) ⊎ (0 < self.old.in_turn)
            → (result.0 ≡ Place.Others) × (self.new.has_lead ≡ self.old.has_lead) }
        ensures in_turn { self.new.in_turn ≡ self.old.in_turn }
    {
        self.asleep = self.asleep.saturating_add(1);
        if self.has_lead || self.in_turn > 0 {
            return Sleeper(Place::Others);
        }
        self.has_lead = true;
        Sleeper(Place::Lead)
    }

    /// One sleeps no more, and answers a call if there is one.
    pub fn get_up(&mut self, sleeper: Sleeper)
        ensures asleep { self.new.asleep ≡ self.old.asleep - 1 }
        ensures called { self.new.called ≡ self.old.called - 1 }
        ensures lead { sleeper.0 ≡ Place.Lead → self.new.has_lead ≡ false }
        ensures other { sleeper.0 ≡ Place.Others → self.new.has_lead ≡ self.old.has_lead }
        ensures in_turn { self.new.in_turn ≡ self.old.in_turn }
    {
        let Sleeper(place) = sleeper;
        self.called = self.called.saturating_sub(1);
        self.asleep = self.asleep.saturating_sub(1);
        if let Place::Lead = place {
            self.has_lead = false;
        }
    }

    /// Calls one that sleeps; or nobody if one that was called did not get up yet: that one looks, and calls the next.
    /// The lead is called first, if there is one. But a job that comes before the one that was called has got up shows
    /// that jobs come together: from then on the lead is called last, for [`CALLS_IN_TURN`] calls.
    pub fn call_one(&mut self) -> Wake
        ensures { CallsOne self.old result self.new }
    {
        if self.called > 0 {
            self.in_turn = CALLS_IN_TURN;
            return Wake::Nobody;
        }
        if self.asleep == 0 {
            return Wake::Nobody;
        }
        self.called = 1;
        if self.has_lead && (self.in_turn == 0 || self.asleep == 1) {
            return Wake::One(Place::Lead);
        }
        self.in_turn = self.in_turn.saturating_sub(1);
        Wake::One(Place::Others)
    }

    /// Calls all.
    pub fn call_all(&mut self) -> Wake
        ensures { CallsAll self.old result self.new }
    {
        self.called = self.asleep;
        if self.asleep > 0 {
            Wake::All
        } else {
            Wake::Nobody
        }
    }
}
