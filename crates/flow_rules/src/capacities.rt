//! The capacity that is enforced.
ghost use Rattle.std.specs.Prelude.{◌≡◌, ◌↔◌, IfOk, IsErr};
ghost use Rattle.flow_rules.specs.Capacity.{capacity_of, IsCapacityOf};

use crate::refusal::BadCapacity;

/// The largest enforced capacity.
pub const LARGEST_CAPACITY: usize = 65_536;

/// The capacity that is enforced if n is asked for: the least power of two not below n, at most
/// [`LARGEST_CAPACITY`]. A capacity of 0 is refused (the constructor of `SubmissionPublisher`).
pub fn capacity(n: usize) -> Result<usize, BadCapacity>
    ensures refused { IsErr result ↔ (n ≡ 0) }
    ensures least { IfOk result (IsCapacityOf n) }
    ensures value { IfOk result (λ size. size ≡ capacity_of n) }
{
    if n == 0 {
        return Err(BadCapacity);
    }
    Ok(n.min(LARGEST_CAPACITY).next_power_of_two())
}
