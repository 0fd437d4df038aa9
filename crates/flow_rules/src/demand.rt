//! Demand: how many items were requested, and the error of a bad request.
ghost use Rattle.std.specs.Prelude.{◌≡◌, ◌≤◌, ◌≤ℤ◌, ◌↔◌, min, pos, unsigned_abs, codes, Some, IsErr, OnOk, OnErr};
ghost use Rattle.flow_rules.specs.Demand.{total_after};

use std::error::Error;
use std::fmt;
use std::marker::Model;

/// The largest total, 2^63-1, which counts as unbounded (Reactive Streams 1.0, rule 3.17).
pub const UNBOUNDED: u64 = 9_223_372_036_854_775_807;

/// A bad request as a value of its own: `request(n)` with `n <= 0` (Reactive Streams 1.0, rule 3.9).
#[derive(Clone, Copy, Debug, PartialEq, Eq)]
pub struct IllegalArgument;

impl fmt::Display for IllegalArgument {
    ghost output = { λ _. Some (codes "argument") };

    fn fmt<W: fmt::Write>(&self, f: &mut fmt::Formatter<W>) -> fmt::Result {
        f.write_str("argument")
    }
}

impl Error for IllegalArgument {}

/// All that a subscriber has requested so far (Reactive Streams 1.0, rules 3.8 and 3.17).
#[derive(Clone, Copy, Debug, PartialEq, Eq)]
pub struct Demand {
    total: u64,
}

impl Model for Demand {
    ghost use Rattle.std.specs.Prelude.{ℕ, ◌≤◌};

    ghost Value = { ℕ };

    ghost use Rattle.flow_rules.specs.declared.demand.TheConstants.{UNBOUNDED};

    ghost view = { λ d. d.total };

    ghost invariant = { λ d. d.total ≤ UNBOUNDED };

    ghost inverse = { λ total. record { total = total } };
}

impl Demand {
    /// Nothing was requested yet.
    pub fn none() -> Demand
        ensures { result ≡ 0 }
    {
        Demand { total: 0 }
    }

    /// This total, or the largest one if it is above that.
    pub fn of(total: u64) -> Demand
        ensures { result ≡ min total UNBOUNDED }
    {
        Demand {
            total: total.min(UNBOUNDED),
        }
    }

    /// The total.
    pub fn total(self) -> u64
        ensures value { result ≡ self }
        ensures bounded { self ≤ UNBOUNDED }
    {
        self.total
    }

    /// Adds a request. The total stays at [`UNBOUNDED`] once it is there. A number that is not positive is refused, and
    /// changes nothing (rule 3.9).
    pub fn add(&mut self, n: i64) -> Result<(), IllegalArgument>
        ensures refused { IsErr result ↔ (n ≤ℤ pos 0) }
        ensures added { OnOk result (self.new ≡ total_after self.old (unsigned_abs n)) }
        ensures unchanged { OnErr result (self.new ≡ self.old) }
        ensures grows { self.old ≤ self.new }
    {
        if n <= 0 {
            return Err(IllegalArgument);
        }
        *self = Demand::of(self.total + n.unsigned_abs());
        Ok(())
    }
}

impl Default for Demand {
    ghost is_default = { λ demand. demand ≡ 0 };

    fn default() -> Demand {
        Demand::none()
    }
}
