//! A day: what is done to a publisher step by step, and what has to come of it.
use super::step::Step;

// The capacity that is asked for; the steps in order, each with what it answers; and what is left at the end, line by
// line.
#[derive(Drop)]
pub struct Day {
    pub name: &'static str,
    pub capacity: usize,
    pub steps: &'static [(Step, &'static str)],
    pub left: &'static [&'static str],
}

// A day on which one request for memory may be refused, and how it may go if it was refused to a callback of one
// subscriber.
#[derive(Drop)]
pub struct RefusedDay {
    pub day: Day,
    pub others: &'static [Other],
}

// What other steps of a day answer than it says, by their numbers from 1, and what is left then.
#[derive(Drop)]
pub struct Other {
    pub answers: &'static [(usize, &'static str)],
    pub left: &'static [&'static str],
}
