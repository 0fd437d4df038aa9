//! Threads: each source of lines publishes them from a thread of its own, and the subscribers are told by worker
//! threads.
mod explaining;
mod fault;
mod input;
mod plan;
mod report;
mod reporter;
mod run;
mod sending;
mod standard_input;

pub use fault::LinesFault;
pub use plan::{CAPACITY, FAIL, SUBSCRIBERS, WORKERS};
pub use run::run_lines;
pub use standard_input::run_standard_input;
