//! Tests of the public calls of `publisher`: what happens behind the lock and between threads, what is left at the end,
//! and that calls with ample memory succeed.
#![tactic(auto)]

#[cfg(test)]
mod tests;
