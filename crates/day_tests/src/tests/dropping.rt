//! Days on which offers find full buffers.
use super::day::Day;
use super::step::Step::{Ask, Fail, Looks, Offer, Request, Rest, Source, Subscribe};

pub const DAYS: [Day; 2] = [
    Day {
        name: "a drop is counted, and an error overtakes what was accepted",
        capacity: 1,
        steps: &[
            (Subscribe("a", 0), "sub a"),
            (Source, ""),
            (Offer(0, 1), "answer 1"),
            (Offer(0, 1), "answer -1"),
            (Looks, "lag 1 of 1, capacity 1, a true, z false"),
            (Fail(7), "ok"),
        ],
        left: &[
            "done, published 2, drained",
            "a Some(Errored(Published(7))) 1 + 1 of 0: s e",
        ],
    },
    Day {
        name: "a handler is asked once for each full buffer, in order of subscription, also if its answer has the offer tried once more",
        capacity: 1,
        steps: &[
            (Subscribe("a", 0), "sub a"),
            (Subscribe("b", 9), "sub b"),
            (Subscribe("c", 0), "sub c"),
            (Source, ""),
            (Rest(3, 3), ""),
            (Ask(0, true, ""), "answer 1 asked "),
            (Rest(4, 3), ""),
            (Ask(0, false, "ac"), "answer -2 asked ac"),
            (Rest(5, 3), ""),
            (Ask(0, true, "ac"), "answer -2 asked ac"),
            (Rest(6, 3), ""),
            (Request(0, 1), ""),
            (Rest(7, 3), ""),
            (Ask(0, true, "c"), "answer -1 asked c"),
            (Rest(8, 3), ""),
            (Offer(0, 1), "answer -2"),
            (Rest(9, 3), ""),
        ],
        left: &[
            "done, published 5, open",
            "a None 2 + 3 of 1: s 0.0.1",
            "b None 5 + 0 of 9: s 0.0.1 0.1.1 0.2.1 0.3.1 0.4.1",
            "c None 1 + 4 of 0: s",
        ],
    },
];
