//! Days at whose end something is not handed in.
use super::day::Day;
use super::step::Step::{
    Cancel, Close, Join, KeepSubmitter, KeepSubscription, Reclaim, Rest, Send, Source, Submit,
    Subscribe,
};

pub const DAYS: [Day; 7] = [
    Day {
        name: "one that is not handed in is missing by its own name, whichever were reclaimed before it",
        capacity: 1,
        steps: &[
            (Subscribe("a", 0), "sub a"),
            (Subscribe("b", 0), "sub b"),
            (Subscribe("c", 0), "sub c"),
            (Rest(3, 3), ""),
            (Cancel(0), ""),
            (Cancel(1), ""),
            (Rest(3, 1), ""),
            (Reclaim(1), "reclaimed 1; b Some(Cancelled) 0 + 0 of 0: s"),
            (Reclaim(0), "reclaimed 0; a Some(Cancelled) 0 + 0 of 0: s"),
            (KeepSubscription(0), ""),
        ],
        left: &["StillHeld(c), published 0, open", "2 reclaimed", "later 0"],
    },
    Day {
        name: "one of two subscriptions is not handed in",
        capacity: 1,
        steps: &[
            (Subscribe("a", 9), "sub a"),
            (Subscribe("b", 9), "sub b"),
            (Source, ""),
            (Submit(0, 1), "lag 1"),
            (Close, "ok"),
            (KeepSubscription(1), ""),
        ],
        left: &[
            "StillHeld(b), published 1, drained",
            "a Some(Completed) 1 + 0 of 9: s 0.0.1 c",
            "later 0",
        ],
    },
    Day {
        name: "what a subscription requests that was not handed in is told in the thread that requests it",
        capacity: 1,
        steps: &[
            (Subscribe("a", 9), "sub a"),
            (Subscribe("b", 0), "sub b"),
            (Source, ""),
            (Submit(0, 1), "lag 1"),
            (KeepSubscription(1), ""),
        ],
        left: &[
            "StillHeld(b), published 1, open",
            "a None 1 + 0 of 9: s 0.0.1",
            "later 1",
        ],
    },
    Day {
        name: "the first of two submitters is not handed in, and all else is given",
        capacity: 1,
        steps: &[
            (Subscribe("a", 9), "sub a"),
            (Subscribe("b", 0), "sub b"),
            (Source, ""),
            (Source, ""),
            (Submit(1, 1), "lag 1"),
            (Cancel(1), ""),
            (Submit(0, 2), "lag 1"),
            (Close, "ok"),
            (KeepSubmitter(0), ""),
        ],
        left: &[
            "StillHeld(source-0), published 2, drained",
            "a Some(Completed) 2 + 0 of 9: s 1.0.1 0.0.2 c",
            "b Some(Cancelled) 1 + 0 of 0: s",
        ],
    },
    Day {
        name: "all that waits for a subscription that was not handed in is told in turns of the thread that requests it",
        capacity: 256,
        steps: &[
            (Subscribe("a", 0), "sub a"),
            (Source, ""),
            (Send(200), ""),
            (Join, "sent 200"),
            (KeepSubscription(0), ""),
        ],
        left: &["StillHeld(a), published 200, open", "later 200"],
    },
    Day {
        name: "of two submitters that are not handed in the first is named",
        capacity: 1,
        steps: &[
            (Source, ""),
            (Source, ""),
            (Source, ""),
            (Source, ""),
            (KeepSubmitter(3), ""),
            (KeepSubmitter(1), ""),
        ],
        left: &["StillHeld(source-1), published 0, open"],
    },
    Day {
        name: "one of four submitters is not handed in",
        capacity: 1,
        steps: &[
            (Source, ""),
            (Source, ""),
            (Source, ""),
            (Source, ""),
            (Submit(3, 1), "lag 0"),
            (KeepSubmitter(3), ""),
        ],
        left: &["StillHeld(source-3), published 1, open"],
    },
];
