//! What comes of a publication in vain: a refusal of the Hub, or a buffer without room.
//!
//! Each comes as a value that only such a publication gives. So whoever learns from a refusal how the publisher is closed
//! can't have made that up, and a submitter can't wait for other room than that which it tried.
ghost use Rattle.std.specs.Prelude.{◌≡◌, IfErr, IfOk, OnOk};
ghost use Rattle.publisher_hub.specs.declared.hub.publish.Unpublished.TheVariants as Unpublished;
ghost use Rattle.publisher.specs.Handles.{IsHubRefusal};

use flow_rules::Refusal;
use publisher_hub::{Need, Unpublished};
use std::marker::Model;

/// A refusal of the Hub. Only a publication that the Hub refused gives one.
#[must_use]
#[derive(Drop)]
pub struct Refused(pub(super) Refusal);

impl Model for Refused {
    ghost use Rattle.flow_rules.specs.declared.refusal.Refusal.{Refusal};
    ghost use Rattle.publisher.specs.Handles.{IsHubRefusal};

    ghost Value = { Refusal };

    ghost view = { λ refused. refused.0 };

    ghost invariant = { λ refused. IsHubRefusal refused.0 };
}

impl Refused {
    /// Tells which refusal it is.
    pub fn refusal(self) -> Refusal
        ensures is { result ≡ self }
        ensures reason { IsHubRefusal result }
    {
        let Refused(refusal) = self;
        refusal
    }
}

/// Why a text was not published, and whose room it needs. Only a publication in vain gives one.
#[must_use]
#[derive(Drop)]
pub struct NotPublished {
    pub(super) reason: Unpublished,
    pub(super) need: Need,
}

impl Model for NotPublished {
    ghost use Rattle.publisher.specs.Handles.{IsHubReason, NotPublishedState};

    ghost Value = { NotPublishedState };

    ghost view = { λ it. record { reason = it.reason; need = it.need } };

    ghost invariant = { λ it. IsHubReason it.reason };
}

/// A publication found no room, and needs this room. Only a publication in vain gives one, and only with one a submitter
/// waits for room: so it waits for that of whom it tried.
#[must_use]
#[derive(Drop)]
pub struct NoRoom {
    need: Need,
}

impl NotPublished {
    /// Says whose room was missing, if a live subscription whose room is needed had none, and else the refusal.
    pub fn no_room(self) -> Result<NoRoom, Refused>
        ensures full { OnOk result (self.reason ≡ Unpublished.NoRoom) }
        ensures need { IfOk result (λ no_room. no_room.need ≡ self.need) }
        ensures refused { IfErr result (λ refusal. self.reason ≡ Unpublished.Refused refusal) }
    {
        let NotPublished { reason, need } = self;
        match reason {
            Unpublished::NoRoom => Ok(NoRoom { need }),
            Unpublished::Refused(refusal) => Err(Refused(refusal)),
        }
    }
}

impl NoRoom {
    /// Tells whose room is needed.
    pub fn need(&self) -> Need
        ensures { result ≡ self.now.need }
    {
        self.need
    }
}
