//! What is said of what is left: how each subscription stands, and at the end whether all have ended.
use crate::screen::Screen;
use commands::OutputFault;
use flow_rules::How;
use publisher::{NamedLane, Outcome};
use std::sync::Wait;
use std::time::Clock;

/// Says of each subscription, in order, how it ended, how many items it was told and how many it lost, and then whether
/// all have ended.
pub fn report<B, R: Print + Clock + Wait>(
    screen: &Screen<R>,
    outcome: &Outcome<B>,
) -> Result<(), OutputFault> {
    for left in outcome.lanes.as_slice() {
        say_left(screen, left)?;
    }
    let drained = u8::from(outcome.drained);
    screen.say(format_args!("= drained {drained}"))
}

/// Says how a subscription ended, how many items it was told, and how many it lost, if any.
pub fn say_left<B, R: Print + Clock + Wait>(
    screen: &Screen<R>,
    left: &NamedLane<B>,
) -> Result<(), OutputFault> {
    let (name, word, told) = (left.name, word_of(left.lane.ending), left.lane.given);
    match left.dropped {
        0 => screen.say(format_args!("= {name} {word} {told}")),
        dropped => screen.say(format_args!("= {name} {word} {told}, {dropped} dropped")),
    }
}

/// How a subscription ended, in a word.
fn word_of(ending: Option<How>) -> &'static str {
    match ending {
        None => "open",
        Some(How::Completed) => "complete",
        Some(How::Errored(_)) => "error",
        Some(How::Cancelled) => "cancelled",
        Some(How::Failed(_)) => "failed",
        Some(How::OutOfMemory) => "memory",
    }
}
