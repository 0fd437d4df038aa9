//! The turn of a subscription, and its steps in the order in which they are made.
ghost use Rattle.std.specs.Prelude.{◌≡◌, List, ◌<◌, ◌≤◌, ◌+◌, ◌↔◌, true, None, Some, IsSome, min, length, drop};
ghost use mathlib.Core.List.{IsPrefix};
ghost use Rattle.feed_core.specs.Prelude.{Signal, Complete, Error, Fault, How, Again, Ended, ITEMS_IN_A_TURN, SIGNALS_IN_A_TURN, items_of};
ghost use Rattle.feed_core.specs.Accounts.{IsAccounted, GivesBelow};
ghost use Rattle.feed_core.specs.AnsweredTurn.{Reply, refused};
ghost use Rattle.feed_core.specs.Cause.{stops, closes, with_cause_of};
ghost use Rattle.feed_core.specs.Desk.{Owes, desk_after_turn};
ghost use Rattle.feed_core.specs.EndedBy.{EndsWith, IsEndedBy};
ghost use Rattle.feed_core.specs.Lane.{IsFlow};
ghost use Rattle.feed_core.specs.PlainTurn.{plain_turn_of};
ghost use Rattle.feed_core.specs.Steps.{Looks, Greets, Obeys, OwesEnd, IsMidTurn, TurnsAs};
ghost use Rattle.feed_core.specs.Turn.{EndsIn, EndsInObeyed, MeetsPlainTurn};

use super::Desk;
use super::call::ask;
use crate::cause::Causes;
use crate::turn::{ITEMS_IN_A_TURN, Outlook, Seen, tell_next, tell_subscribed, tell_terminal};
use flow_rules::{Answer, Demand, How, Listener, NoMemory};

impl<B: Listener> Desk<B> {
    /// Tells the subscriber what is owed: `onSubscribe` first of all, then items below the demand, 64 at most, then the
    /// terminal signal. What it was told is what `seen` then holds (`Flow.Subscriber`; Reactive Streams 1.0, rules 1.1,
    /// 1.3, 1.5, 1.7 and 1.9). What a callback answers is done at once; one that is refused memory ends the
    /// subscription.
    pub fn turn(&mut self, seen: &mut Seen) -> Outlook
        requires owed { Owes self.old }

        // What it tells, and what it changes: the lane as its callbacks came back, the mark of the task, and nothing
        // else.
        ensures turned { (replies : List Reply)
            × TurnsAs self.old self.new seen.new.signals result replies }

        // On a subscriber that only goes on: the plain turn, and the lane by what was told of that.
        ensures plain { self.old.is_steady ≡ true
            → MeetsPlainTurn (plain_turn_of self.old.lane) seen.new.signals result }
        ensures after { self.old.is_steady ≡ true
            → self.new ≡ desk_after_turn self.old seen.new.signals result }

        // The Flow rules: the next items that were accepted, in order, none if something ends the subscription at
        // once; a demand that only grows; and the lane as a whole.
        ensures in_order { IsPrefix (items_of seen.new.signals)
            (drop self.old.lane.given self.old.lane.accepted) }
        ensures stopped { IsSome (stops self.old.lane.causes)
            → self.new.lane.given ≡ self.old.lane.given }
        ensures demand { self.old.lane.asked ≤ self.new.lane.asked }
        ensures flow { IsFlow self.new.lane }

        // Its demand: each item that it gave was below what the owner requested and the replies before it did. What was
        // requested in all, the causes of the end, and the end are the owner's and those of the replies, which only the
        // last one may have brought about.
        ensures requested { GivesBelow self.old self.new }
        ensures accounted { IsAccounted self.new }
        ensures by { IsEndedBy self.old.is_cancelled self.new.lane.how self.new.replied }
        ensures refused { (result ≡ Ended How.OutOfMemory) ↔ EndsWith refused self.new.replied }

        // Its bounds.
        ensures at_most { self.new.lane.given ≤ self.old.lane.given + ITEMS_IN_A_TURN }
        ensures few { length seen.new.signals ≤ SIGNALS_IN_A_TURN }
        ensures room { seen.new.room ≡ seen.old.room }

        // What it answers.
        ensures again { result ≡ Again → length (items_of seen.new.signals) ≡ ITEMS_IN_A_TURN }
        ensures completed { EndsIn seen.new.signals Complete ↔ (result ≡ Ended How.Completed) }
        ensures errored { (fault : Fault) → EndsIn seen.new.signals (Error fault)
            ↔ (result ≡ Ended (How.Errored fault)) }

        // Whose failure ended it: that of the callback whose signal it told last.
        ensures failed { (code : _) → result ≡ Ended (How.Failed code)
            → EndsInObeyed seen.new.signals }
    {
        seen.clear();
        match self.greet(seen) {
            Outlook::Again => {}
            outlook => return outlook,
        }
        for _ in 0..ITEMS_IN_A_TURN {
            match self.look(seen) {
                Outlook::Again => {}
                outlook => return outlook,
            }
        }
        Outlook::Again
    }

    /// Tells `onSubscribe`, if nothing was told yet, and does what its answer asks for.
    fn greet(&mut self, seen: &mut Seen) -> Outlook
        requires owed { Owes self.old }
        requires room { length seen.old.signals < SIGNALS_IN_A_TURN }
        ensures greets { Greets self.old self.new seen.old.signals seen.new.signals result }
        ensures room { seen.new.room ≡ seen.old.room }
    {
        if self.begun {
            return Outlook::Again;
        }
        match tell_subscribed(&mut self.subscriber, seen) {
            Ok(answer) => {
                self.begun = true;
                obey(answer, &mut self.asked, &mut self.causes, &mut self.how)
            }
            Err(NoMemory) => end_as(How::OutOfMemory, &mut self.causes, &mut self.how),
        }
    }

    /// Looks at the causes, and does what they allow: the end, one item, or rest.
    fn look(&mut self, seen: &mut Seen) -> Outlook
        requires mid_turn { IsMidTurn self.old }
        requires room { length seen.old.signals < SIGNALS_IN_A_TURN }
        ensures looks { Looks self.old self.new seen.old.signals seen.new.signals result }
        ensures room { seen.new.room ≡ seen.old.room }
    {
        if let Some(how) = self.causes.stops() {
            return self.finish(how, seen);
        }
        if self.given < self.accepted.min(self.asked.total()) {
            return self.take(seen);
        }
        match self.causes.closes() {
            Some(how) if self.given == self.accepted => self.finish(how, seen),
            _ => self.rest(),
        }
    }

    /// Takes the next item, tells it, and does what the answer asks for. If the callback is refused memory, the item
    /// goes back to the held ones.
    fn take(&mut self, seen: &mut Seen) -> Outlook
        requires mid_turn { IsMidTurn self.old }
        requires unstopped { stops self.old.lane.causes ≡ None }
        requires waits { self.old.lane.given < length self.old.lane.accepted }
        requires requested { self.old.lane.given < self.old.lane.asked }
        requires room { length seen.old.signals < SIGNALS_IN_A_TURN }
        ensures looks { Looks self.old self.new seen.old.signals seen.new.signals result }
        ensures room { seen.new.room ≡ seen.old.room }
    {
        let item = self.held.take();
        self.given += 1;
        match tell_next(&mut self.subscriber, item, seen) {
            Ok(answer) => obey(answer, &mut self.asked, &mut self.causes, &mut self.how),
            Err(item) => {
                self.held.put_back(item);
                end_as(How::OutOfMemory, &mut self.causes, &mut self.how)
            }
        }
    }

    /// Tells the terminal signal of the end that is owed, and ends.
    fn finish(&mut self, how: How, seen: &mut Seen) -> Outlook
        requires mid_turn { IsMidTurn self.old }
        requires owed { OwesEnd self.old.lane how }
        requires room { length seen.old.signals < SIGNALS_IN_A_TURN }
        ensures looks { Looks self.old self.new seen.old.signals seen.new.signals result }
        ensures room { seen.new.room ≡ seen.old.room }
    {
        let how = match tell_terminal(&mut self.subscriber, how, seen) {
            Ok(()) => how,
            Err(NoMemory) => How::OutOfMemory,
        };
        end_as(how, &mut self.causes, &mut self.how)
    }

    /// Waits for the next signal.
    fn rest(&mut self) -> Outlook
        requires mid_turn { IsMidTurn self.old }
        requires unstopped { stops self.old.lane.causes ≡ None }
        requires all_given { self.old.lane.given
            ≡ min (length self.old.lane.accepted) self.old.lane.asked }
        requires waits { IsSome (closes self.old.lane.causes)
            → self.old.lane.given < length self.old.lane.accepted }
        ensures { (seen : List Signal) → Looks self.old self.new seen seen result }
    {
        self.started = false;
        Outlook::Resting
    }
}

/// Does what an answer asks for: it adds to the demand, or ends the subscription.
fn obey(answer: Answer, asked: &mut Demand, causes: &mut Causes, ended: &mut Option<How>) -> Outlook
    ensures grows { asked.old ≤ asked.new }
    ensures obeys { Obeys answer asked.old asked.new causes.old causes.new ended.old ended.new
        result }
{
    match answer {
        Answer::Go => Outlook::Again,
        Answer::Request(n) => {
            ask(n, asked, causes);
            Outlook::Again
        }
        Answer::Cancel => end_as(How::Cancelled, causes, ended),
        Answer::Fail(code) => end_as(How::Failed(code), causes, ended),
    }
}

/// Ends a subscription in this way, with its cause.
fn end_as(how: How, causes: &mut Causes, ended: &mut Option<How>) -> Outlook
    ensures value { result ≡ Ended how }
    ensures causes { causes.new ≡ with_cause_of how causes.old }
    ensures ended { ended.new ≡ Some how }
{
    causes.join(how);
    *ended = Some(how);
    Outlook::Ended(how)
}
