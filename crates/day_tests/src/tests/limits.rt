//! Days with the least and the most that there may be.
use super::day::Day;
use super::step::Step::{Looks, Offer, Source, Submit};

pub const DAYS: [Day; 4] = [
    Day {
        name: "a text is as long as it may be, or too long",
        capacity: 1,
        steps: &[
            (Source, ""),
            (Submit(0, 4096), "lag 0"),
            (Submit(0, 4097), "LineTooLong"),
            (Offer(0, 4097), "LineTooLong"),
        ],
        left: &["done, published 1, open"],
    },
    Day {
        name: "a capacity is the next power of two",
        capacity: 5,
        steps: &[(Looks, "lag 0 of 0, capacity 8, a false, z false")],
        left: &["done, published 0, open"],
    },
    Day {
        name: "a power of two is a capacity",
        capacity: 8,
        steps: &[(Looks, "lag 0 of 0, capacity 8, a false, z false")],
        left: &["done, published 0, open"],
    },
    Day {
        name: "the largest capacity is 65,536",
        capacity: 100_000,
        steps: &[(Looks, "lag 0 of 0, capacity 65536, a false, z false")],
        left: &["done, published 0, open"],
    },
];
