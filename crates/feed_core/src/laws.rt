//! What holds of any subscription at any time. The law is a function, and to call it is to learn it.
ghost use Rattle.feed_core.specs.Desk.{Owes};
ghost use Rattle.feed_core.specs.Lane.{IsFlow, IsSettled};

use crate::desk::Desk;
use flow_rules::Listener;

/// A subscription keeps the Flow rules: what its subscriber was told is a list that they allow; its items are a prefix
/// of what the buffer accepted, in that order, no more than were requested; and `onComplete` comes only after all of
/// them (Reactive Streams 1.0, rules 1.1, 1.3, 1.5, 1.7 and 1.9). If no turn is owed, nothing is forgotten.
pub fn desks_keep_the_flow_rules<B: Listener>(desk: &Desk<B>)
    ensures flow { IsFlow desk.now.lane }
    ensures settled { ¬ Owes desk.now → IsSettled desk.now.lane }
{
    let _ = desk.owes();
}
