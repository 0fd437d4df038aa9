//! The close of a subscription whose task was still alive at the first one, and the look that tells beforehand whether
//! it is.
ghost use Rattle.std.specs.Prelude.{◌≡◌, None, IfOk, IfErr};
ghost use Rattle.feed_cell.specs.Left.{IsLeftOf};
ghost use Rattle.feed_cell.specs.Parties.{not_ready};

use super::{take_apart, unshared};
use crate::cell::handle::Handle;
use crate::cell::producer::Producer;
use feed_core::Lane;
use flow_rules::Listener;
use std::sync::Arc;

/// Takes a subscription apart whose producer's end [`close`](super::close) gave back, once its task is gone. Until then
/// the producer's end comes back, not ready.
///
/// The lane counts what the handle requested before that close. What is said of it is what `close` says of a handle of
/// another subscription.
pub fn close_again<B: Listener>(producer: Producer<B>) -> Result<Lane<B>, Producer<B>>
    ensures left { IfOk result (IsLeftOf B.told B.replied producer.end None) }
    ensures back { IfErr result (λ back. back ≡ not_ready producer) }
{
    let (table, seat, capacity) = unshared(producer)?;
    Ok(take_apart(table, seat, capacity))
}

/// Tells whether anybody shares a subscription but its own two ends, which these are: its task does while it is alive.
/// If nobody does, and neither end starts a task, [`close`](super::close) of the two gives the lane.
pub fn is_shared<B: Listener>(producer: &Producer<B>, handle: &Handle<B>) -> bool {
    let own = 2 + producer.spare.is_some() as usize + handle.spare.is_some() as usize;
    Arc::strong_count(&producer.party.table) != own
}
