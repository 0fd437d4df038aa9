//! Days on which one subscription ends, and no other.
use super::day::Day;
use super::step::Step::{Cancel, Close, Refuse, Request, Rest, Source, Submit, Subscribe};

pub const DAYS: [Day; 5] = [
    Day {
        name: "one that is refused memory at its third item is told no more, and the other is told all five",
        capacity: 1,
        steps: &[
            (Refuse(3), ""),
            (Subscribe("a", 5), "sub a"),
            (Subscribe("b", 5), "sub b"),
            (Source, ""),
            (Submit(0, 1), "lag 1"),
            (Submit(0, 2), "lag 1"),
            (Submit(0, 3), "lag 1"),
            (Rest(7, 1), ""),
            (Submit(0, 4), "lag 1"),
            (Submit(0, 5), "lag 1"),
            (Rest(9, 1), ""),
            (Close, "ok"),
            (Rest(10, 0), ""),
        ],
        left: &[
            "done, published 5, drained",
            "a Some(OutOfMemory) 3 + 0 of 5: s 0.0.1 0.1.2 of 3 given",
            "b Some(Completed) 5 + 0 of 5: s 0.0.1 0.1.2 0.2.3 0.3.4 0.4.5 c",
        ],
    },
    Day {
        name: "a name that is taken ends its subscription",
        capacity: 1,
        steps: &[
            (Subscribe("a", 0), "sub a"),
            (Subscribe("a", 0), "Duplicate"),
        ],
        left: &[
            "done, published 0, open",
            "a Some(Errored(IllegalState)) 0 + 0 of 0: s e",
        ],
    },
    Day {
        name: "who cancels is told nothing more",
        capacity: 1,
        steps: &[
            (Subscribe("a", 0), "sub a"),
            (Source, ""),
            (Submit(0, 1), "lag 1"),
            (Cancel(0), ""),
            (Close, "ok"),
        ],
        left: &[
            "done, published 1, drained",
            "a Some(Cancelled) 1 + 0 of 0: s",
        ],
    },
    Day {
        name: "at rest, a request that is not positive is an error, and overtakes an item; after the end it does nothing",
        capacity: 1,
        steps: &[
            (Subscribe("a", 0), "sub a"),
            (Subscribe("b", 0), "sub b"),
            (Subscribe("c", 2), "sub c"),
            (Source, ""),
            (Rest(3, 3), ""),
            (Submit(0, 1), "lag 1"),
            (Rest(4, 3), ""),
            (Request(0, 0), ""),
            (Rest(5, 2), ""),
            (Request(1, -1), ""),
            (Rest(6, 1), ""),
            (Request(2, i64::MIN), ""),
            (Rest(7, 0), ""),
            (Request(0, -1), ""),
            (Request(2, 0), ""),
            (Rest(7, 0), ""),
        ],
        left: &[
            "done, published 1, open",
            "a Some(Errored(IllegalArgument)) 1 + 0 of 0: s e",
            "b Some(Errored(IllegalArgument)) 1 + 0 of 0: s e",
            "c Some(Errored(IllegalArgument)) 1 + 0 of 2: s 0.0.1 e",
        ],
    },
    Day {
        name: "a bad request after a cancel is none",
        capacity: 1,
        steps: &[
            (Subscribe("a", 3), "sub a"),
            (Rest(1, 1), ""),
            (Cancel(0), ""),
            (Request(0, 0), ""),
            (Rest(1, 0), ""),
        ],
        left: &["done, published 0, open", "a Some(Cancelled) 0 + 0 of 3: s"],
    },
];
