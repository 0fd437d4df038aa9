//! What each step of the task tells it. These types have no value and no code; the steps are in `steps.rt`.
use crate::cell::{Held, View};
use atomic_table::Play;
use flow_rules::Listener;

/// The first task takes its subscriber's slot out, for the subscriber to be placed there: a load.
pub(crate) struct EnterStep;

impl<B: Listener> Play<Held<B>, View> for EnterStep {
    ghost use Rattle.feed_cell.specs.TaskPlays.{Enters};

    ghost then = { λ _ before _. Enters before };
}

/// The task looks, with its subscriber: a fetch-and of control.
pub(crate) struct LookStep;

impl<B: Listener> Play<Held<B>, View> for LookStep {
    ghost use Rattle.feed_cell.specs.TaskPlays.{LooksOut, cleared};

    ghost then = { λ _. LooksOut cleared };
}

/// The task peeks, with its subscriber: a load of control.
pub(crate) struct PeekStep;

impl<B: Listener> Play<Held<B>, View> for PeekStep {
    ghost use Rattle.feed_cell.specs.TaskPlays.{LooksOut, untouched};

    ghost then = { λ _. LooksOut untouched };
}

/// A task that was handed over peeks for the first time, and takes its subscriber with it.
pub(crate) struct PeekFirstStep;

impl<B: Listener> Play<Held<B>, View> for PeekFirstStep {
    ghost use Rattle.feed_cell.specs.TaskPlays.{PeeksFirst};

    ghost then = { λ _. PeeksFirst B.told };
}

/// The task looks for an item: a load of tail, which takes its slot out if there is one.
pub(crate) struct SeeStep;

impl<B: Listener> Play<Held<B>, View> for SeeStep {
    ghost use Rattle.feed_cell.specs.TaskPlays.{SeesPut};

    ghost then = { λ _. SeesPut };
}

/// The task takes the slot of an item out that it knows of: a load of head, which only the task stores.
pub(crate) struct GrabStep;

impl<B: Listener> Play<Held<B>, View> for GrabStep {
    ghost use Rattle.feed_cell.specs.TaskPlays.{Grabs};

    ghost then = { λ _. Grabs };
}

/// The task looks for demand, with an item out: a load of asked, which gives the slot back if there is none.
pub(crate) struct MeasureStep;

impl<B: Listener> Play<Held<B>, View> for MeasureStep {
    ghost use Rattle.feed_cell.specs.TaskPlays.{Measures};

    ghost then = { λ _. Measures };
}

/// The task looks for demand with no item out: a load of asked, without which it may not rest.
pub(crate) struct MeasureNoneStep;

impl<B: Listener> Play<Held<B>, View> for MeasureNoneStep {
    ghost use Rattle.feed_cell.specs.TaskPlays.{MeasuresNone};

    ghost then = { λ _. MeasuresNone };
}

/// An item is taken: a store of head, which gives its slot back.
pub(crate) struct TakeStep;

impl<B: Listener> Play<Held<B>, View> for TakeStep {
    ghost use Rattle.feed_cell.specs.TaskPlays.{IsTake};

    ghost then = { λ _ before _. IsTake before };
}

/// The task rests, unless something is new: a compare-and-exchange of control, from the word after its look.
pub(crate) struct RestStep;

impl<B: Listener> Play<Held<B>, View> for RestStep {
    ghost use Rattle.feed_cell.specs.TaskPlays.{IsRest};

    ghost then = { λ step. IsRest B.replied step.first };
}

/// The subscription ends: a store of head, with its mark.
pub(crate) struct EndStep;

impl<B: Listener> Play<Held<B>, View> for EndStep {
    ghost use Rattle.feed_cell.specs.TaskPlays.{IsEnd};

    ghost then = { λ _ before _. IsEnd B.replied before };
}
