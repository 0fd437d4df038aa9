//! Tests of the public calls of controllers, by which several threads have one subscription: what happens between these
//! threads. What one thread sees of them stands in `day_tests`.
#![tactic(auto)]

#[cfg(test)]
mod tests;
