//! Which lists of signals the Flow rules allow.
ghost use Rattle.std.specs.Prelude.{◌≡◌, ◌↔◌, true};
ghost use Rattle.flow_rules.specs.Signals.{IsFlowText};

use crate::signal::Signal;

/// How far a list of signals has come.
#[derive(Clone, Copy)]
enum Stage {
    Fresh,
    Opened,
    Ended,
}

/// Whether the signals are a list that the Flow rules allow: nothing, or `Subscribed`, then any number of `Next`, then
/// nothing, one `Complete` or one `Error` (Reactive Streams 1.0, rules 1.3, 1.7 and 1.9).
pub fn audit(signals: &[Signal]) -> bool
    ensures { (result ≡ true) ↔ IsFlowText signals.now }
{
    let mut stage = Stage::Fresh;
    for signal in signals {
        stage = match (stage, signal) {
            (Stage::Fresh, Signal::Subscribed) | (Stage::Opened, Signal::Next(_)) => Stage::Opened,
            (Stage::Opened, Signal::Complete | Signal::Error(_)) => Stage::Ended,
            _ => return false,
        };
    }
    true
}
