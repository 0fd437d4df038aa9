//! Days on which one request for memory may be refused. A call that is refused is made once more, and is answered then
//! as if it had not been refused before.
pub mod sharing;

use super::day::{Day, Other, RefusedDay};
use super::step::Step::{
    Cancel, Close, End, Fail, KeepSubscription, Lossy, MayRefuse, Nap, Offer, Publish, PublishAll,
    Reclaim, Request, Source, Submit, SubmitAll, Subscribe,
};

pub const DAYS: [RefusedDay; 9] = [
    RefusedDay {
        day: Day {
            name: "it ends in completions, and its text takes memory of its own",
            capacity: 1,
            steps: &[
                (MayRefuse, ""),
                (Subscribe("a", 9), "sub a"),
                (Subscribe("b", 0), "sub b"),
                (Source, ""),
                (Submit(0, 40), "lag 1"),
                (Close, "ok"),
                (Request(1, 1), ""),
            ],
            left: &[
                "done, published 1, drained",
                "a Some(Completed) 1 + 0 of 9: s 0.0.40 c",
                "b Some(Completed) 1 + 0 of 1: s 0.0.40 c",
            ],
        },
        others: &[
            Other {
                answers: &[],
                left: &[
                    "done, published 1, drained",
                    "a refused",
                    "b Some(Completed) 1 + 0 of 1: s 0.0.40 c",
                ],
            },
            Other {
                answers: &[],
                left: &[
                    "done, published 1, drained",
                    "a Some(Completed) 1 + 0 of 9: s 0.0.40 c",
                    "b refused",
                ],
            },
        ],
    },
    RefusedDay {
        day: Day {
            name: "it ends in a cancel and an error, and the first of its texts takes memory of its own",
            capacity: 4,
            steps: &[
                (MayRefuse, ""),
                (Subscribe("a", 0), "sub a"),
                (Subscribe("b", 0), "sub b"),
                (Source, ""),
                (Offer(0, 40), "answer 1"),
                (Offer(0, 1), "answer 2"),
                (Cancel(0), ""),
                (Fail(7), "ok"),
            ],
            left: &[
                "done, published 2, drained",
                "a Some(Cancelled) 2 + 0 of 0: s",
                "b Some(Errored(Published(7))) 2 + 0 of 0: s e",
            ],
        },
        others: &[
            Other {
                answers: &[],
                left: &[
                    "done, published 2, drained",
                    "a refused",
                    "b Some(Errored(Published(7))) 2 + 0 of 0: s e",
                ],
            },
            Other {
                answers: &[],
                left: &[
                    "done, published 2, drained",
                    "a Some(Cancelled) 2 + 0 of 0: s",
                    "b refused",
                ],
            },
        ],
    },
    RefusedDay {
        day: Day {
            name: "one is waited for and the other loses, and two texts take memory of their own",
            capacity: 1,
            steps: &[
                (MayRefuse, ""),
                (Subscribe("a", 9), "sub a"),
                (Lossy("b", 0), "sub b"),
                (Source, ""),
                (Nap, ""),
                (Publish(0, 40), "lag 1 dropped 0"),
                (Nap, ""),
                (PublishAll(0, &[1, 40]), "lag 1 lost 2"),
                (Close, "ok"),
                (Request(1, 1), ""),
            ],
            left: &[
                "done, published 3, drained",
                "a Some(Completed) 3 + 0 of 9: s 0.0.40 0.1.1 0.2.40 c",
                "b Some(Completed) 1 + 2 of 1: s 0.0.40 c",
            ],
        },
        others: &[
            Other {
                answers: &[],
                left: &[
                    "done, published 3, drained",
                    "a refused",
                    "b Some(Completed) 1 + 2 of 1: s 0.0.40 c",
                ],
            },
            Other {
                answers: &[(8, "lag 0 lost 2")],
                left: &[
                    "done, published 3, drained",
                    "a refused",
                    "b Some(Completed) 1 + 2 of 1: s 0.0.40 c",
                ],
            },
            Other {
                answers: &[],
                left: &[
                    "done, published 3, drained",
                    "a Some(Completed) 3 + 0 of 9: s 0.0.40 0.1.1 0.2.40 c",
                    "b refused",
                ],
            },
            Other {
                answers: &[(8, "lag 1 lost 0")],
                left: &[
                    "done, published 3, drained",
                    "a Some(Completed) 3 + 0 of 9: s 0.0.40 0.1.1 0.2.40 c",
                    "b refused",
                ],
            },
        ],
    },
    RefusedDay {
        day: Day {
            name: "one at rest completes by a close that is made again",
            capacity: 1,
            steps: &[
                (MayRefuse, ""),
                (Subscribe("a", 9), "sub a"),
                (Nap, ""),
                (Close, "ok"),
            ],
            left: &[
                "done, published 0, drained",
                "a Some(Completed) 0 + 0 of 9: s c",
            ],
        },
        others: &[Other {
            answers: &[],
            left: &["done, published 0, drained", "a refused"],
        }],
    },
    RefusedDay {
        day: Day {
            name: "one at rest ends by a cancel that is made again",
            capacity: 1,
            steps: &[
                (MayRefuse, ""),
                (Subscribe("a", 9), "sub a"),
                (Nap, ""),
                (Cancel(0), ""),
                (End(0), ""),
            ],
            left: &["done, published 0, open", "a Some(Cancelled) 0 + 0 of 9: s"],
        },
        others: &[Other {
            answers: &[],
            left: &["done, published 0, open", "a refused"],
        }],
    },
    RefusedDay {
        day: Day {
            name: "a subscription is not handed in",
            capacity: 1,
            steps: &[
                (MayRefuse, ""),
                (Subscribe("a", 9), "sub a"),
                (Subscribe("b", 9), "sub b"),
                (Source, ""),
                (Submit(0, 1), "lag 1"),
                (Close, "ok"),
                (KeepSubscription(1), ""),
            ],
            left: &[
                "StillHeld(b), published 1, drained",
                "a Some(Completed) 1 + 0 of 9: s 0.0.1 c",
                "later 0",
            ],
        },
        others: &[Other {
            answers: &[],
            left: &["StillHeld(b), published 1, drained", "a refused", "later 0"],
        }],
    },
    RefusedDay {
        day: Day {
            name: "a subscription that is not handed in has an item to come",
            capacity: 1,
            steps: &[
                (MayRefuse, ""),
                (Subscribe("a", 9), "sub a"),
                (Subscribe("b", 0), "sub b"),
                (Source, ""),
                (Submit(0, 1), "lag 1"),
                (KeepSubscription(1), ""),
            ],
            left: &[
                "StillHeld(b), published 1, open",
                "a None 1 + 0 of 9: s 0.0.1",
                "later 1",
            ],
        },
        others: &[
            Other {
                answers: &[],
                left: &["StillHeld(b), published 1, open", "a refused", "later 1"],
            },
            Other {
                answers: &[],
                left: &[
                    "StillHeld(b), published 1, open",
                    "a None 1 + 0 of 9: s 0.0.1",
                    "later 0",
                ],
            },
        ],
    },
    RefusedDay {
        day: Day {
            name: "a subscription that lives is not reclaimed, and one that has ended is",
            capacity: 1,
            steps: &[
                (MayRefuse, ""),
                (Subscribe("a", 0), "sub a"),
                (Reclaim(0), "Unsettled([a])"),
                (Cancel(0), ""),
                (End(0), ""),
                (Reclaim(0), "reclaimed 0"),
            ],
            left: &["done, published 0, open", "1 reclaimed"],
        },
        others: &[Other {
            answers: &[(3, "reclaimed 0"), (6, "")],
            left: &["done, published 0, open", "1 reclaimed"],
        }],
    },
    RefusedDay {
        day: Day {
            name: "several texts are submitted by one call, and two of them take memory of their own",
            capacity: 4,
            steps: &[
                (MayRefuse, ""),
                (Subscribe("a", 9), "sub a"),
                (Subscribe("b", 0), "sub b"),
                (Source, ""),
                (Nap, ""),
                (SubmitAll(0, &[40, 1, 40]), "sent 3"),
                (Close, "ok"),
                (Request(1, 3), ""),
            ],
            left: &[
                "done, published 3, drained",
                "a Some(Completed) 3 + 0 of 9: s 0.0.40 0.1.1 0.2.40 c",
                "b Some(Completed) 3 + 0 of 3: s 0.0.40 0.1.1 0.2.40 c",
            ],
        },
        others: &[
            Other {
                answers: &[],
                left: &[
                    "done, published 3, drained",
                    "a refused",
                    "b Some(Completed) 3 + 0 of 3: s 0.0.40 0.1.1 0.2.40 c",
                ],
            },
            Other {
                answers: &[],
                left: &[
                    "done, published 3, drained",
                    "a Some(Completed) 3 + 0 of 9: s 0.0.40 0.1.1 0.2.40 c",
                    "b refused",
                ],
            },
        ],
    },
];
