//! Publications: of texts in order, and the offer of one.
//!
//! What a submitter owns of them stands in `sources`, whether there is room in `look`, and what comes of a publication in
//! vain in `unpublished`. Nothing here waits.
mod unpublished;

ghost use Rattle.std.specs.Prelude.{◌≡◌, ◌+◌, ◌-◌, ◌<◌, ◌≤◌, [], ◌∷◌, ◌++◌, IfErr, IfOk, OnErr, OnOk, drop, is_none, length, take};
ghost use Rattle.feed_cell.specs.Offering.{DoesCall};
ghost use Rattle.publisher_hub.specs.Publishing.{OffersItem, PublishesTexts, RefusesOffer, RefusesTexts, loss_of};
ghost use Rattle.publisher_hub.specs.declared.policy.Need.TheVariants as Need;
ghost use Rattle.publisher.specs.Content.{pages_of};
ghost use Rattle.publisher.specs.Publishing.{PublishesNext, StopsAt, drop_of};
ghost use Rattle.publisher.specs.State.{producer_end};

use super::{Own, State};
use crate::ledgers::Ledgers;
use feed_cell::Task;
use flow_rules::{DropHandler, Listener, Text};
use history::{History, HistoryId, Pass};
use publisher_hub::{Need, Publication, Work};
use std::snapshot::Snapshot;
use std::sync::ledger::{Book, Ledger, Share};
pub use unpublished::{NoRoom, NotPublished, Refused};

impl<L: Ledgers, B: Listener> State<L, B> {
    /// Publishes those of the texts that are not published yet, in order, up to one that is not published, each time as
    /// many at once as the Hub does. What that did is added to what was done before: that says how many are published.
    #[inline(always)]
    pub fn publish(
        &mut self,
        own: &mut Own<L>,
        texts: &[Text],
        need: Need,
        due: &mut Vec<Work<Task<B>>>,
        done: &mut Publication,
    ) -> Result<(), NotPublished>
        requires within { done.old.many ≤ length texts.now }
        requires few { done.old.lost ≤ done.old.many }
        ensures ok { OnOk result (PublishesNext need own.old.source texts.now done.old done.new
            self.old.hub self.new.hub due.old.items due.new.items) }
        ensures whole { OnOk result (done.new.many ≡ length texts.now) }
        ensures stopped { IfErr result (λ why. StopsAt need own.old.source texts.now
            done.old done.new why self.old self.new due.old.items due.new.items) }
        ensures more { own.new.publications.amount + done.old.many
            ≡ own.old.publications.amount + done.new.many }
        ensures lost { own.new.drops.amount + done.old.lost
            ≡ own.old.drops.amount + done.new.lost }
        ensures goes_on { done.old.many ≤ done.new.many }
        ensures few { done.new.lost ≤ done.new.many }
        ensures none_lost { need ≡ Need.All → done.new.lost ≡ done.old.lost }
        ensures one { length texts.now ≡ 1 → done.old.many ≡ 0
            → OnOk result (done.new.lost ≡ loss_of done.new.dropped) }
        ensures sent { own.new.pass.sent ≡ own.old.pass.sent
            ++ take (done.new.many - done.old.many) (drop done.old.many texts.now) }
        ensures source { own.new.source ≡ own.old.source }
    {
        while done.many < texts.len() {
            match self.publish_first(own, &texts[done.many..], need, due) {
                Ok(first) => done.add(&first),
                Err(why) => return Err(why),
            }
        }
        Ok(())
    }

    /// Publishes the first of some texts: as many as the Hub does at once. Only then the submitter's share rises, by
    /// their number, that of the drops by how many of them any subscription lost, and they are the last that it sent.
    #[inline(always)]
    fn publish_first(
        &mut self,
        own: &mut Own<L>,
        texts: &[Text],
        need: Need,
        due: &mut Vec<Work<Task<B>>>,
    ) -> Result<Publication, NotPublished>
        requires some { 0 < length texts.now }
        ensures ok { IfOk result (λ first. PublishesTexts producer_end DoesCall need
            own.old.source texts.now self.old.hub self.new.hub due.old.items due.new.items first) }
        ensures within { IfOk result (λ first. first.many ≤ length texts.now) }
        ensures any { IfOk result (λ first. 0 < first.many) }
        ensures loss { IfOk result (λ first. first.lost ≡ loss_of first.dropped) }
        ensures none_lost { need ≡ Need.All → IfOk result (λ first. first.lost ≡ 0) }
        ensures refusals { IfErr result (λ why. RefusesTexts producer_end DoesCall need
            self.old.hub self.new.hub why.reason) }
        ensures need { IfErr result (λ why. why.need ≡ need) }
        ensures nothing_due { OnErr result (due.new.items ≡ due.old.items) }
        ensures more { IfOk result (λ first.
            own.new.publications.amount ≡ own.old.publications.amount + first.many) }
        ensures none { OnErr result (own.new.publications.amount ≡ own.old.publications.amount) }
        ensures lost { IfOk result
            (λ first. own.new.drops.amount ≡ own.old.drops.amount + first.lost) }
        ensures none_dropped { OnErr result (own.new.drops.amount ≡ own.old.drops.amount) }
        ensures sent { IfOk result (λ first.
            own.new.pass.sent ≡ own.old.pass.sent ++ take first.many texts.now) }
        ensures none_sent { OnErr result (own.new.pass.sent ≡ own.old.pass.sent) }
        ensures source { own.new.source ≡ own.old.source }
    {
        let State {
            hub,
            published,
            dropping,
            history,
            ..
        } = self;
        let first = match hub.publish(own.source, texts, need, due) {
            Ok(first) => first,
            Err(reason) => return Err(NotPublished { reason, need }),
        };
        published.add(&mut own.publications, first.many as u64);
        write_all(history, &mut own.pass, &texts[..first.many]);
        dropping.add(&mut own.drops, first.lost as u64);
        Ok(first)
    }

    /// Gives a text to all live subscriptions that have room, and drops it at the others. Only then the submitter's
    /// share rises, by one, and that of the drops if any dropped it.
    pub fn offer<H: DropHandler>(
        &mut self,
        own: &mut Own<L>,
        text: Text,
        handler: Option<&mut H>,
        due: &mut Vec<Work<Task<B>>>,
    ) -> Result<i64, Refused>
        ensures ok { IfOk result (λ answer. OffersItem producer_end DoesCall own.old.source text
            (is_none handler.entry) self.old.hub self.new.hub due.old.items due.new.items answer) }
        ensures refusals { IfErr result
            (λ refusal. RefusesOffer producer_end DoesCall self.old.hub self.new.hub refusal) }
        ensures one_more { OnOk result
            (own.new.publications.amount ≡ own.old.publications.amount + 1) }
        ensures none { OnErr result (own.new.publications.amount ≡ own.old.publications.amount) }
        ensures dropped { IfOk result
            (λ answer. own.new.drops.amount ≡ own.old.drops.amount + drop_of answer) }
        ensures none_dropped { OnErr result (own.new.drops.amount ≡ own.old.drops.amount) }
        ensures sent { OnOk result (own.new.pass.sent ≡ own.old.pass.sent ++ text ∷ []) }
        ensures none_sent { OnErr result (own.new.pass.sent ≡ own.old.pass.sent) }
        ensures source { own.new.source ≡ own.old.source }
    {
        let State {
            hub,
            published,
            dropping,
            history,
            ..
        } = self;
        let said = Snapshot::of(&text);
        let answer = match hub.offer_with(own.source, text, handler, due) {
            Ok(answer) => answer,
            Err(refusal) => return Err(Refused(refusal)),
        };
        published.add(&mut own.publications, 1);
        history.write(&mut own.pass, said);
        count_drop(dropping, &mut own.drops, answer);
        Ok(answer)
    }
}

/// Counts an offer that found a buffer full.
fn count_drop<D: Ledger>(dropping: &mut Book<D>, drops: &mut Share<D>, answer: i64)
    requires { drops.old.parts ≡ 1 }
    ensures amount { drops.new.amount ≡ drops.old.amount + drop_of answer }
    ensures total { dropping.new.total ≡ dropping.old.total + drop_of answer }
    ensures parts { drops.new.parts ≡ 1 }
{
    if answer < 0 {
        dropping.add(drops, 1);
    }
}

/// Writes texts of one source into the history, in order.
fn write_all<P: HistoryId>(history: &mut History<P>, pass: &mut Pass<P>, texts: &[Text])
    ensures pass { pass.new ≡ record pass.old { sent = pass.old.sent ++ texts.now } }
    ensures history { history.new ≡ record history.old {
      log = history.old.log ++ pages_of pass.old.source texts.now;
    } }
{
    for text in texts {
        history.write(pass, Snapshot::of(text));
    }
}
