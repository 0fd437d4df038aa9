//! Tests of the public calls, one subject a file: what no clause can say.
mod cells;
mod desks;
mod endings;
mod examples;
mod listeners;
mod names;
mod numbers;
mod play;
mod refusals;
mod subscribers;
mod texts;
mod watching;
mod worlds;
