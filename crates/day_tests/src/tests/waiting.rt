//! Days on which submitters wait for room.
use super::day::Day;
use super::step::Step::{
    Cancel, Close, Join, Nap, Offer, Request, Rest, Send, Source, Submit, Subscribe,
};

pub const DAYS: [Day; 3] = [
    Day {
        name: "five submitters that wait are refused by a close, and know of it then",
        capacity: 1,
        steps: &[
            (Subscribe("a", 0), "sub a"),
            (Source, ""),
            (Source, ""),
            (Source, ""),
            (Source, ""),
            (Source, ""),
            (Source, ""),
            (Submit(0, 1), "lag 1"),
            (Send(1), ""),
            (Send(1), ""),
            (Send(1), ""),
            (Send(1), ""),
            (Send(1), ""),
            (Nap, ""),
            (Close, "ok"),
            (
                Join,
                "sent 0; Closed(Normal); sent 0; Closed(Normal); sent 0; Closed(Normal); sent 0; Closed(Normal); sent 0; Closed(Normal)",
            ),
            (Offer(3, 4097), "Closed(Normal)"),
            (Request(0, 1), ""),
            (Rest(3, 0), ""),
        ],
        left: &[
            "done, published 1, drained",
            "a Some(Completed) 1 + 0 of 1: s 0.0.1 c",
        ],
    },
    Day {
        name: "submitters that wait go on once there is room",
        capacity: 1,
        steps: &[
            (Subscribe("a", 0), "sub a"),
            (Source, ""),
            (Source, ""),
            (Source, ""),
            (Source, ""),
            (Source, ""),
            (Send(5), ""),
            (Send(5), ""),
            (Send(5), ""),
            (Send(5), ""),
            (Send(5), ""),
            (Nap, ""),
            (Request(0, 25), ""),
            (Rest(26, 1), ""),
            (Join, "sent 5; sent 5; sent 5; sent 5; sent 5"),
        ],
        left: &[
            "done, published 25, open",
            "a None 25 + 0 of 25: 26 signals",
        ],
    },
    Day {
        name: "a cancel makes room, too",
        capacity: 1,
        steps: &[
            (Subscribe("a", 0), "sub a"),
            (Subscribe("b", 9), "sub b"),
            (Source, ""),
            (Source, ""),
            (Submit(0, 1), "lag 1"),
            (Send(3), ""),
            (Nap, ""),
            (Cancel(0), ""),
            (Join, "sent 3"),
            (Rest(6, 1), ""),
        ],
        left: &[
            "done, published 4, open",
            "a Some(Cancelled) 1 + 0 of 0: s",
            "b None 4 + 0 of 9: s 0.0.1 1.0.1 1.1.1 1.2.1",
        ],
    },
];
