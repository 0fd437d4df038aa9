//! Days on which subscriptions are reclaimed.
use super::day::Day;
use super::step::Step::{Cancel, Close, Offer, Reclaim, Request, Rest, Source, Submit, Subscribe};

pub const DAYS: [Day; 3] = [
    Day {
        name: "one that lives is not reclaimed; once it was cancelled it is, its name and its number are free, nothing asks for it at the end, and who comes later is left later",
        capacity: 1,
        steps: &[
            (Subscribe("a", 1), "sub a"),
            (Subscribe("b", 9), "sub b"),
            (Source, ""),
            (Submit(0, 1), "lag 1"),
            (Rest(4, 2), ""),
            (Reclaim(0), "Unsettled([a])"),
            (Cancel(0), ""),
            (Rest(4, 1), ""),
            (
                Reclaim(0),
                "reclaimed 0; a Some(Cancelled) 1 + 0 of 1: s 0.0.1",
            ),
            (Subscribe("a", 9), "sub a"),
            (Submit(0, 2), "lag 1"),
            (Close, "ok"),
        ],
        left: &[
            "done, published 2, drained",
            "b Some(Completed) 2 + 0 of 9: s 0.0.1 0.1.2 c",
            "a Some(Completed) 1 + 0 of 9: s 0.1.2 c",
            "1 reclaimed",
        ],
    },
    Day {
        name: "after the close those that completed are reclaimed, and so is one that subscribed too late",
        capacity: 1,
        steps: &[
            (Subscribe("a", 9), "sub a"),
            (Subscribe("b", 0), "sub b"),
            (Source, ""),
            (Submit(0, 1), "lag 1"),
            (Close, "ok"),
            (Rest(4, 1), ""),
            (
                Reclaim(0),
                "reclaimed 0; a Some(Completed) 1 + 0 of 9: s 0.0.1 c",
            ),
            (Reclaim(0), "Unsettled([b])"),
            (Subscribe("c", 0), "sub c"),
            (Rest(6, 1), ""),
            (Reclaim(1), "reclaimed 2; c Some(Completed) 0 + 0 of 0: s c"),
            (Request(0, 1), ""),
            (Rest(8, 0), ""),
            (
                Reclaim(0),
                "reclaimed 1; b Some(Completed) 1 + 0 of 1: s 0.0.1 c",
            ),
        ],
        left: &["done, published 1, drained", "3 reclaimed"],
    },
    Day {
        name: "a full buffer goes with the one that is reclaimed, and no submitter waits for it any more",
        capacity: 1,
        steps: &[
            (Subscribe("a", 0), "sub a"),
            (Source, ""),
            (Offer(0, 1), "answer 1"),
            (Offer(0, 2), "answer -1"),
            (Cancel(0), ""),
            (Rest(1, 0), ""),
            (Reclaim(0), "reclaimed 0; a Some(Cancelled) 1 + 1 of 0: s"),
            (Submit(0, 3), "lag 0"),
        ],
        left: &["done, published 3, open", "1 reclaimed"],
    },
];
