//! Days at a publisher: what a sequence of public calls, some of them in threads, leaves behind the lock and at the
//! end. It is no test of what a clause says already.
#![tactic(auto)]

#[cfg(test)]
mod tests;
