//! Which ends come of an item's callback that failed.
ghost use Rattle.std.specs.Prelude.{◌≡◌, ◌↔◌, Some};
ghost use Rattle.feed_core.specs.Prelude.{How, Item, Next};
ghost use Rattle.feed_core.specs.Turn.{EndsIn};

use flow_rules::{How, Signal};

/// Tells the code of an `onNext` that failed, by what a turn told and how it ended the subscription: `Some` exactly if
/// the end is `Failed` and the last signal is an item. If `onSubscribe` failed, the last signal is `Subscribed`, and
/// the answer is `None`.
pub fn failed_item(signals: &[Signal], how: How) -> Option<u32>
    ensures { (code : _) → (result ≡ Some code)
        ↔ ((how ≡ How.Failed code) × ((item : Item) × EndsIn signals.now (Next item))) }
{
    match (signals.last(), how) {
        (Some(Signal::Next(_)), How::Failed(code)) => Some(code),
        _ => None,
    }
}
