//! Days at a publisher whose closing error waits for the items.
use super::day::Day;
use super::step::Step::{Cancel, Close, Fail, Offer, Request, Rest, Source, Submit, Subscribe};

pub const DAYS: [Day; 8] = [
    Day {
        name: "it waits as long as an item was not requested, and the end names who waits",
        capacity: 1,
        steps: &[
            (Subscribe("a", 0), "sub a"),
            (Source, ""),
            (Submit(0, 1), "lag 1"),
            (Fail(7), "ok"),
        ],
        left: &[
            "Unsettled([a]), published 1, open",
            "a None 1 + 0 of 0 late: s",
        ],
    },
    Day {
        name: "it is told after the item that was requested",
        capacity: 1,
        steps: &[
            (Subscribe("a", 1), "sub a"),
            (Source, ""),
            (Submit(0, 1), "lag 1"),
            (Fail(7), "ok"),
        ],
        left: &[
            "done, published 1, drained",
            "a Some(Errored(Published(7))) 1 + 0 of 1 late: s 0.0.1 e",
        ],
    },
    Day {
        name: "at rest, the request of the last item brings both",
        capacity: 4,
        steps: &[
            (Subscribe("a", 1), "sub a"),
            (Source, ""),
            (Submit(0, 1), "lag 1"),
            (Rest(2, 1), ""),
            (Submit(0, 2), "lag 1"),
            (Submit(0, 3), "lag 2"),
            (Fail(7), "ok"),
            (Rest(2, 1), ""),
            (Request(0, 1), ""),
            (Rest(3, 1), ""),
            (Request(0, 1), ""),
            (Rest(5, 0), ""),
        ],
        left: &[
            "done, published 3, drained",
            "a Some(Errored(Published(7))) 3 + 0 of 3 late: s 0.0.1 0.1.2 0.2.3 e",
        ],
    },
    Day {
        name: "a drop is counted, and the error waits for what was accepted",
        capacity: 1,
        steps: &[
            (Subscribe("a", 0), "sub a"),
            (Source, ""),
            (Offer(0, 1), "answer 1"),
            (Offer(0, 1), "answer -1"),
            (Fail(7), "ok"),
            (Request(0, 5), ""),
        ],
        left: &[
            "done, published 2, drained",
            "a Some(Errored(Published(7))) 1 + 1 of 5 late: s 0.0.1 e",
        ],
    },
    Day {
        name: "a cancel, a bad request and a second subscribing overtake it",
        capacity: 1,
        steps: &[
            (Subscribe("a", 0), "sub a"),
            (Subscribe("b", 0), "sub b"),
            (Subscribe("c", 0), "sub c"),
            (Source, ""),
            (Submit(0, 1), "lag 1"),
            (Fail(7), "ok"),
            (Cancel(0), ""),
            (Request(1, 0), ""),
            (Subscribe("c", 0), "Duplicate"),
        ],
        left: &[
            "done, published 1, drained",
            "a Some(Cancelled) 1 + 0 of 0 late: s",
            "b Some(Errored(IllegalArgument)) 1 + 0 of 0 late: s e",
            "c Some(Errored(IllegalState)) 1 + 0 of 0 late: s e",
        ],
    },
    Day {
        name: "if no item waits it is told at once, to all, and to who subscribes later",
        capacity: 1,
        steps: &[
            (Subscribe("a", 0), "sub a"),
            (Subscribe("b", 5), "sub b"),
            (Rest(2, 2), ""),
            (Fail(7), "ok"),
            (Rest(4, 0), ""),
            (Subscribe("c", 1), "sub c"),
        ],
        left: &[
            "done, published 0, drained",
            "a Some(Errored(Published(7))) 0 + 0 of 0 late: s e",
            "b Some(Errored(Published(7))) 0 + 0 of 5 late: s e",
            "c Some(Errored(Published(7))) 0 + 0 of 1 late: s e",
        ],
    },
    Day {
        name: "one waits, and another doesn't",
        capacity: 1,
        steps: &[
            (Subscribe("a", 0), "sub a"),
            (Subscribe("b", 1), "sub b"),
            (Source, ""),
            (Submit(0, 1), "lag 1"),
            (Fail(7), "ok"),
        ],
        left: &[
            "Unsettled([a]), published 1, open",
            "a None 1 + 0 of 0 late: s",
            "b Some(Errored(Published(7))) 1 + 0 of 1 late: s 0.0.1 e",
        ],
    },
    Day {
        name: "a close completes as ever",
        capacity: 1,
        steps: &[
            (Subscribe("a", 1), "sub a"),
            (Source, ""),
            (Submit(0, 1), "lag 1"),
            (Close, "ok"),
            (Fail(7), "ok"),
        ],
        left: &[
            "done, published 1, drained",
            "a Some(Completed) 1 + 0 of 1 late: s 0.0.1 c",
        ],
    },
];
