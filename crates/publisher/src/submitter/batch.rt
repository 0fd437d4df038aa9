//! The publication of a batch of texts by one call.
//!
//! It is `submit`, or `publish`, in all but how often it takes the lock.
ghost use Rattle.std.specs.Prelude.{◌≡◌, ◌+◌, ◌<◌, ◌≤◌, ◌++◌, None, Err, IfErr, IfOk, IfSome, OnOk, length, take};
ghost use Rattle.flow_rules.specs.declared.refusal.Refusal.TheVariants as Refusal;
ghost use Rattle.publisher.specs.Handles.{IsHubRefusal, RefusesPublication, after_refusal};
ghost use Rattle.publisher.specs.Submitting.{CountsAll, CountsPart};
ghost use Rattle.publisher_hub.specs.declared.policy.Need.TheVariants as Need;

use super::Submitter;
use crate::ledgers::Ledgers;
use crate::submitter::send::Stopped;
use flow_rules::{FailHandler, Listener, Refusal, Text};
use publisher_hub::{Need, Publication};
use std::alloc::Global;
use std::sync::Wait;

/// What a publication of a batch of texts that heeds each subscription's [`OnFull`](crate::OnFull) did.
#[derive(Clone, Copy, Debug, PartialEq, Eq)]
pub struct PublishedAll {
    /// The greatest lag of a subscription that accepted the last text, in items; 0 if none did, or if there is no text.
    pub lag: u64,
    /// How many of the texts at least one subscription lost.
    pub lost: usize,
}

/// Says how far a list of texts was published, in order, before one was refused. Neither that text nor those after it
/// were published.
#[derive(Debug, Drop)]
pub struct Unsent {
    /// How many texts were published before the one that was refused.
    pub published: usize,
    /// Why that one was refused.
    pub refusal: Refusal,
}

/// Says how far a list of texts was published by policy, in order, before one was refused. Neither that text nor those
/// after it were published.
#[derive(Debug, Drop)]
pub struct PublishedPart {
    /// How many texts were published before the one that was refused.
    pub published: usize,
    /// How many of these at least one subscription lost.
    pub lost: usize,
    /// Why that one was refused.
    pub refusal: Refusal,
}

impl<L: Ledgers + Send, B: Listener + Send, F: FailHandler + Send> Submitter<L, B, F> {
    /// Publishes texts in order, each as [`submit`](Submitter::submit) publishes one, and waits as long as a
    /// subscription has no room. The answer is the longest backlog of any live subscription after the last text, in
    /// items, or 0 if there is no text.
    ///
    /// As many texts as there is room for are published while the publisher's lock is held once. Thus many submitters
    /// with many texts take it far less often; but other calls wait longer for it, by some hundred nanoseconds for
    /// each text and subscription. No publication of another submitter comes between these texts, and the tasks that
    /// they start are handed to the pool after the last of them.
    ///
    /// It is refused as `submit` is, but never 6, since no [`Text`] is too long. What was published before a refusal
    /// stays published, and the answer says how many texts these are.
    pub fn submit_all<R: Wait>(
        &mut self,
        rt: &R,
        alloc: Global,
        texts: &[Text],
    ) -> Result<u64, Unsent>
        ensures known { IfSome self.old.known (λ ending. (result ≡ Err (record {
          published = 0;
          refusal = Refusal.Closed ending;
        })) × (self.new ≡ self.old)) }
        ensures ok { OnOk result (self.new ≡ record self.old {
          published = self.old.published + length texts.now;
          sent = self.old.sent ++ texts.now;
        }) }
        ensures partly { IfErr result (λ unsent. self.new ≡ after_refusal unsent.refusal
            (record self.old {
              published = self.old.published + unsent.published;
              sent = self.old.sent ++ take unsent.published texts.now;
            })) }
        ensures less { self.old.known ≡ None
            → IfErr result (λ unsent. unsent.published < length texts.now) }
        ensures reasons { IfErr result (λ unsent. IsHubRefusal unsent.refusal) }
        ensures refusals { IfErr result (λ unsent.
            RefusesPublication unsent.refusal self.new.known) }
    {
        match self.send_all(rt, alloc, texts, Need::All) {
            Ok(all) => Ok(all.lag),
            Err(
                PublishedPart {
                    published,
                    refusal,
                    ..
                },
            ) => Err(Unsent { published, refusal }),
        }
    }

    /// Publishes texts in order, each as [`publish`](Submitter::publish) publishes one: it waits as long as one that
    /// says [`OnFull::Wait`](crate::OnFull::Wait) has no room, and those that say [`OnFull::Drop`](crate::OnFull::Drop)
    /// lose each text that finds their buffers full. A text counts as one drop, however many subscriptions lost it.
    /// (`SubmissionPublisher` has no such method.) The answer is the longest backlog of any subscription that got the
    /// last text, in items, or 0 if there is no text; and how many of the texts at least one subscription lost.
    ///
    /// It takes the lock as [`submit_all`](Submitter::submit_all) does: once for as many texts as there is room for at
    /// those that it waits for. It is refused as `submit_all` is. What was published before a refusal stays published,
    /// and the answer says how many texts these are, and how many of them at least one subscription lost.
    pub fn publish_all<R: Wait>(
        &mut self,
        rt: &R,
        alloc: Global,
        texts: &[Text],
    ) -> Result<PublishedAll, PublishedPart>
        ensures known { IfSome self.old.known (λ ending. (result ≡ Err (record {
          published = 0;
          lost = 0;
          refusal = Refusal.Closed ending;
        })) × (self.new ≡ self.old)) }
        ensures ok { IfOk result
            (λ all. CountsAll texts.now all.lost self.old self.new) }
        ensures few { IfOk result (λ all. all.lost ≤ length texts.now) }
        ensures partly { IfErr result (λ part. CountsPart texts.now part self.old self.new) }
        ensures less { self.old.known ≡ None
            → IfErr result (λ part. part.published < length texts.now) }
        ensures few_before { IfErr result (λ part. part.lost ≤ part.published) }
        ensures reasons { IfErr result (λ part. IsHubRefusal part.refusal) }
        ensures refusals { IfErr result (λ part. RefusesPublication part.refusal self.new.known) }
    {
        self.send_all(rt, alloc, texts, Need::Waiters)
    }

    /// Publishes texts in order, unless it knows of the close, and waits as long as a subscription whose room is needed
    /// has none. It learns what a refusal tells of the close.
    fn send_all<R: Wait>(
        &mut self,
        rt: &R,
        alloc: Global,
        texts: &[Text],
        need: Need,
    ) -> Result<PublishedAll, PublishedPart>
        ensures known { IfSome self.old.known (λ ending. (result ≡ Err (record {
          published = 0;
          lost = 0;
          refusal = Refusal.Closed ending;
        })) × (self.new ≡ self.old)) }
        ensures ok { IfOk result
            (λ all. CountsAll texts.now all.lost self.old self.new) }
        ensures few { IfOk result (λ all. all.lost ≤ length texts.now) }
        ensures partly { IfErr result (λ part. CountsPart texts.now part self.old self.new) }
        ensures less { self.old.known ≡ None
            → IfErr result (λ part. part.published < length texts.now) }
        ensures few_before { IfErr result (λ part. part.lost ≤ part.published) }
        ensures none_lost { need ≡ Need.All → IfOk result (λ all. all.lost ≡ 0) }
        ensures none_lost_before { need ≡ Need.All → IfErr result (λ part. part.lost ≡ 0) }
        ensures reasons { IfErr result (λ part. IsHubRefusal part.refusal) }
        ensures refusals { IfErr result (λ part. RefusesPublication part.refusal self.new.known) }
    {
        if let Some(ending) = self.note.known(&self.closing) {
            return Err(PublishedPart {
                published: 0,
                lost: 0,
                refusal: Refusal::Closed(ending),
            });
        }
        match self.send(rt, texts, need) {
            Ok(Publication { lag, lost, .. }) => Ok(PublishedAll { lag, lost }),
            Err(Stopped { before, why }) => Err(PublishedPart {
                published: before.many,
                lost: before.lost,
                refusal: self.hear(alloc, why),
            }),
        }
    }
}
