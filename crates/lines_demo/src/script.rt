//! A script: commands, one a line, that are played on a publisher and its subscriptions, and what they are answered.
mod explainer;
mod explaining;
mod fault;
mod laws;
mod player;
mod run;
mod session;
mod standard_input;
mod stock;
mod turn_lines;
mod woken;

pub use fault::ScriptFault;
pub use run::run_script;
pub use standard_input::{Keeping, explain_standard_input, play_standard_input, steady_and_untold};
