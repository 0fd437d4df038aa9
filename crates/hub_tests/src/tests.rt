//! Tests of the public calls, one subject a file: what no clause can say.
mod batch;
mod count;
mod hub;
mod places;
mod policy;
mod pool;
