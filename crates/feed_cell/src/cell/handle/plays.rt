//! What each step of the handle tells it. These types have no value and no code; the steps are in `steps.rt`.
use crate::cell::{Held, View};
use atomic_table::Play;
use flow_rules::Listener;

/// More is requested: a store of asked.
pub(crate) struct AskStep;

impl<B: Listener> Play<Held<B>, View> for AskStep {
    ghost use Rattle.feed_cell.specs.HandleSteps.{IsAsk};

    ghost then = { λ _. IsAsk };
}

/// The handle makes no step any more: a store of asked.
pub(crate) struct LeaveStep;

impl<B: Listener> Play<Held<B>, View> for LeaveStep {
    ghost use Rattle.feed_cell.specs.HandleSteps.{Leaves};

    ghost then = { λ _ before _. Leaves before };
}
