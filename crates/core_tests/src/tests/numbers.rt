//! The capacity that is enforced, and demand.
use flow_rules::{BadCapacity, Demand, IllegalArgument, LARGEST_CAPACITY, UNBOUNDED, capacity};

/// What is asked for, and what is enforced.
const CAPACITIES: [(usize, Result<usize, BadCapacity>); 14] = [
    (0, Err(BadCapacity)),
    (1, Ok(1)),
    (2, Ok(2)),
    (3, Ok(4)),
    (4, Ok(4)),
    (5, Ok(8)),
    (255, Ok(256)),
    (256, Ok(256)),
    (257, Ok(512)),
    (32_769, Ok(65_536)),
    (65_536, Ok(65_536)),
    (65_537, Ok(65_536)),
    (1 << 30, Ok(65_536)),
    (usize::MAX, Ok(65_536)),
];

/// What is added in turn, the answer, and the total then.
const REQUESTS: [(i64, Result<(), IllegalArgument>, u64); 10] = [
    (1, Ok(()), 1),
    (41, Ok(()), 42),
    (0, Err(IllegalArgument), 42),
    (-1, Err(IllegalArgument), 42),
    (i64::MIN, Err(IllegalArgument), 42),
    (i64::MAX - 43, Ok(()), UNBOUNDED - 1),
    (2, Ok(()), UNBOUNDED),
    (i64::MAX, Ok(()), UNBOUNDED),
    (1, Ok(()), UNBOUNDED),
    (0, Err(IllegalArgument), UNBOUNDED),
];

#[test]
fn a_capacity_is_rounded_up(rt: HostRuntime) {
    assert!(rt; LARGEST_CAPACITY == 65_536);
    for (n, enforced) in CAPACITIES {
        assert!(rt; capacity(n) == enforced, "of {n}");
    }
}

#[test]
fn demand_adds_up_to_its_bound(rt: HostRuntime) {
    assert!(rt; UNBOUNDED == 9_223_372_036_854_775_807);
    let mut demand = Demand::none();
    for (n, answer, total) in REQUESTS {
        assert!(rt;
            demand.add(n) == answer && demand.total() == total,
            "at {n}"
        );
    }
    assert!(rt; demand == Demand::of(u64::MAX));
}

#[test]
fn demand_starts_at_nothing(rt: HostRuntime) {
    assert!(rt; Demand::none().total() == 0 && Demand::default() == Demand::none());
    assert!(rt; Demand::of(5).total() == 5);
}
