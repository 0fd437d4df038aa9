//! Days on which one request for memory may be refused while a subscription is shared. If it is that of a share, the
//! subscription comes back, and is told what it requests; if it is that of one more controller, the first one goes on.
use crate::tests::act::Act;
use crate::tests::day::{Day, Other, RefusedDay};
use crate::tests::step::Step::{Control, MayRefuse, Nap, Offer, Source, Subscribe};

pub const DAYS: [RefusedDay; 1] = [RefusedDay {
    day: Day {
        name: "a subscription is shared, three controllers request, and one of them cancels",
        capacity: 8,
        steps: &[
            (MayRefuse, ""),
            (Subscribe("a", 0), "sub a"),
            (Nap, ""),
            (Source, ""),
            (Offer(0, 1), "answer 1"),
            (Offer(0, 1), "answer 2"),
            (Offer(0, 1), "answer 3"),
            (Offer(0, 1), "answer 4"),
            (Offer(0, 1), "answer 5"),
            (Control(Act::Share(0, 1)), ""),
            (Control(Act::Another(1)), ""),
            (Control(Act::Another(1)), ""),
            (Nap, ""),
            (Control(Act::Request(2, 1)), "requested 4"),
            (Nap, ""),
            (Control(Act::Cancel(1)), ""),
            (Control(Act::End(0)), "ended true"),
            (Control(Act::Unite), "held, held, back"),
        ],
        left: &[
            "done, published 5, open",
            "a Some(Cancelled) 5 + 0 of 4: s 0.0.1 0.1.1 0.2.1 0.3.1",
        ],
    },
    others: &[
        Other {
            answers: &[],
            left: &["done, published 5, open", "a refused"],
        },
        Other {
            answers: &[
                (5, "answer 0"),
                (6, "answer 0"),
                (7, "answer 0"),
                (8, "answer 0"),
                (9, "answer 0"),
            ],
            left: &["done, published 5, open", "a refused"],
        },
    ],
}];
