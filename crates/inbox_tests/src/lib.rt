//! Tests of the public calls of `inbox`: what happens behind its queue's lock, between threads, and in callbacks that
//! promise nothing.
#![tactic(auto)]

#[cfg(test)]
mod tests;
