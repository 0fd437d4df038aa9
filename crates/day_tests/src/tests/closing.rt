//! Days on which the publisher is closed, or is not.
use super::day::Day;
use super::step::Step::{Close, Closing, Fail, Offer, Source, Submit, Subscribe};

pub const DAYS: [Day; 7] = [
    Day {
        name: "all that was accepted is told, also if a submitter had to wait, and the last ticket is spent",
        capacity: 1,
        steps: &[
            (Subscribe("a", 9), "sub a"),
            (Source, ""),
            (Submit(0, 1), "lag 1"),
            (Submit(0, 2), "lag 1"),
            (Submit(0, 3), "lag 1"),
            (Closing, "closed false None"),
            (Close, "ok"),
            (Closing, "closed true Some(Normal)"),
        ],
        left: &[
            "done, published 3, drained",
            "a Some(Completed) 3 + 0 of 9: s 0.0.1 0.1.2 0.2.3 c",
        ],
    },
    Day {
        name: "a submitter from a note that knows nothing learns of the close, and takes no text from then on, however long it is",
        capacity: 1,
        steps: &[
            (Source, ""),
            (Close, "ok"),
            (Submit(0, 1), "Closed(Normal)"),
            (Offer(0, 1), "Closed(Normal)"),
            (Offer(0, 4097), "Closed(Normal)"),
        ],
        left: &["done, published 0, drained"],
    },
    Day {
        name: "so does one from a note that knows, and who subscribes now completes at once",
        capacity: 1,
        steps: &[
            (Close, "ok"),
            (Source, ""),
            (Submit(0, 4097), "Closed(Normal)"),
            (Subscribe("a", 0), "sub a"),
            (Offer(0, 1), "Closed(Normal)"),
        ],
        left: &[
            "done, published 0, drained",
            "a Some(Completed) 0 + 0 of 0: s c",
        ],
    },
    Day {
        name: "one that was not told all is named",
        capacity: 1,
        steps: &[
            (Subscribe("a", 0), "sub a"),
            (Source, ""),
            (Submit(0, 1), "lag 1"),
            (Close, "ok"),
        ],
        left: &["Unsettled([a]), published 1, open", "a None 1 + 0 of 0: s"],
    },
    Day {
        name: "all that were not told all are named, and no other",
        capacity: 1,
        steps: &[
            (Subscribe("a", 0), "sub a"),
            (Subscribe("b", 9), "sub b"),
            (Subscribe("c", 0), "sub c"),
            (Source, ""),
            (Submit(0, 1), "lag 1"),
            (Close, "ok"),
        ],
        left: &[
            "Unsettled([a, c]), published 1, open",
            "a None 1 + 0 of 0: s",
            "b Some(Completed) 1 + 0 of 9: s 0.0.1 c",
            "c None 1 + 0 of 0: s",
        ],
    },
    Day {
        name: "without a close nothing ends",
        capacity: 1,
        steps: &[
            (Subscribe("a", 1), "sub a"),
            (Source, ""),
            (Submit(0, 1), "lag 1"),
        ],
        left: &["done, published 1, open", "a None 1 + 0 of 1: s 0.0.1"],
    },
    Day {
        name: "the first close counts",
        capacity: 1,
        steps: &[
            (Fail(3), "ok"),
            (Close, "ok"),
            (Closing, "closed true Some(Failed(3))"),
            (Subscribe("a", 0), "sub a"),
        ],
        left: &[
            "done, published 0, drained",
            "a Some(Errored(Published(3))) 0 + 0 of 0: s e",
        ],
    },
];
