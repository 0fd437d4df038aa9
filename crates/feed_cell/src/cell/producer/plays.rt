//! What each step of the producer tells it. These types have no value and no code; the steps are in `steps.rt`.
use crate::cell::{Held, View};
use atomic_table::Play;
use flow_rules::Listener;

/// A put looks for room: a load of head, which takes the next slot out if it is free.
pub(crate) struct RoomStep;

impl<B: Listener> Play<Held<B>, View> for RoomStep {
    ghost use Rattle.feed_cell.specs.ProducerSteps.{FindsRoom};

    ghost then = { λ _. FindsRoom };
}

/// The producer looks how things stand: a load of head.
pub(crate) struct StandStep;

impl<B: Listener> Play<Held<B>, View> for StandStep {
    ghost use Rattle.feed_cell.specs.ProducerSteps.{FindsHead};

    ghost then = { λ _. FindsHead };
}

/// An item is placed in its slot, ahead of its put: a load of tail, which gives its slot back and takes the next one out.
pub(crate) struct PlaceStep;

impl<B: Listener> Play<Held<B>, View> for PlaceStep {
    ghost use Rattle.feed_cell.specs.ProducerSteps.{IsPlaced};

    ghost then = { λ _ before _. IsPlaced before };
}

/// All items that are placed are put: a store of tail, which gives its slot back.
pub(crate) struct PutStep;

impl<B: Listener> Play<Held<B>, View> for PutStep {
    ghost use Rattle.feed_cell.specs.ProducerSteps.{IsPut};

    ghost then = { λ _ before _. IsPut before };
}
