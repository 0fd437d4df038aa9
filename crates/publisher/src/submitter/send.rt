//! How a submitter publishes: as far as there is room, behind the lock; and outside it, it waits for more.
//!
//! All calls of a submitter that wait go through this one. What is published behind the lock stands in `state`. From here
//! on all is inlined down to the round over the subscriptions: where a text alone is sent, the loops and the parts of
//! answers that only a batch needs fall away then. With one subscriber that is a sixth of a publication's instructions.
ghost use Rattle.std.specs.Prelude.{◌≡◌, ◌<◌, ◌≤◌, IfErr, IfOk, length};
ghost use Rattle.publisher.specs.Submitting.{CountsAll, CountsFirst};
ghost use Rattle.publisher_hub.specs.Publishing.{loss_of};
ghost use Rattle.publisher_hub.specs.declared.policy.Need.TheVariants as Need;

use super::Submitter;
use crate::ledgers::Ledgers;
use crate::state::Refused;
use crossbeam_utils::Backoff;
use flow_rules::{FailHandler, Listener, Text};
use publisher_hub::{Need, Publication};
use std::sync::Wait;

/// Says how far texts were published, in order, before one was refused.
#[derive(Drop)]
pub(super) struct Stopped {
    /// What was published before.
    pub before: Publication,
    /// Why that one was refused.
    pub why: Refused,
}

impl<L: Ledgers + Send, B: Listener + Send, F: FailHandler + Send> Submitter<L, B, F> {
    /// Publishes texts in order, and waits as long as a subscription whose room is needed has none. A refusal comes with
    /// what was published before.
    #[inline(always)]
    pub(super) fn send<R: Wait>(
        &mut self,
        rt: &R,
        texts: &[Text],
        need: Need,
    ) -> Result<Publication, Stopped>
        ensures ok { IfOk result (λ all. CountsAll texts.now all.lost self.old self.new) }
        ensures few { IfOk result (λ all. all.lost ≤ length texts.now) }
        ensures one { length texts.now ≡ 1 → IfOk result (λ all. all.lost ≡ loss_of all.dropped) }
        ensures partly { IfErr result (λ stopped.
            CountsFirst texts.now stopped.before.many stopped.before.lost self.old self.new) }
        ensures less { IfErr result (λ stopped. stopped.before.many < length texts.now) }
        ensures few_before { IfErr result (λ stopped. stopped.before.lost ≤ stopped.before.many) }
        ensures none_lost { need ≡ Need.All → IfOk result (λ all. all.lost ≡ 0) }
        ensures none_lost_before { need ≡ Need.All
            → IfErr result (λ stopped. stopped.before.lost ≡ 0) }
    {
        let Submitter {
            dispatcher,
            own,
            due,
            ..
        } = self;
        let mut done = Publication::nothing();
        let mut looks = 0;
        let backoff = Backoff::new();
        for _ in rt.forever() {
            let tried = dispatcher
                .shared
                .lock_to_publish(rt)
                .publish(own, texts, need, due, &mut done);
            dispatcher.start_all(rt, due);
            let why = match tried {
                Ok(()) => return Ok(done),
                Err(why) => why,
            };
            let no_room = match why.no_room() {
                Ok(no_room) => no_room,
                Err(why) => return Err(Stopped { before: done, why }),
            };
            looks = dispatcher.pause(rt, looks, &backoff, &no_room);
            drop(no_room);
        }
        unreachable!()
    }
}
