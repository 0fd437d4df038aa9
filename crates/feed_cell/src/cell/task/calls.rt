//! The calls of the subscriber, and what its answers change beside it. Nothing here touches a word of the subscription.
ghost use Rattle.std.specs.Prelude.{◌≡◌, ◌<◌, length, None, IfSome, IfNone};
ghost use Rattle.feed_core.specs.Prelude.{Subscribed, Next, UNBOUNDED};
ghost use Rattle.feed_core.specs.declared.turn.TheConstants.{SIGNALS_IN_A_TURN};
ghost use Rattle.feed_cell.specs.TaskSteps.{IsGoOn, IsQuietEnd, GoesOnWith, EndsWith, FinishesWith};
ghost use Rattle.feed_cell.specs.TaskAnswers.{after_answer, after_end, IsObeyed, RepliesLast, RepliesOnce};

use crate::cell::{BoxedLodger, Lodger};
use feed_core::{Seen, tell_next, tell_subscribed, tell_terminal};
use flow_rules::{Answer, How, Item, Listener, NoMemory, UNBOUNDED};

impl<B: Listener> BoxedLodger<B> {
    /// Tells `onSubscribe`, and does what its answer asks for: the end, if it does.
    pub(crate) fn greet(&mut self, seen: &mut Seen) -> Option<How>
        requires room { length seen.old.signals < SIGNALS_IN_A_TURN }
        requires going { self.old.how ≡ None }
        ensures goes { IfNone result
            (GoesOnWith B.told Subscribed 0 self.old self.new seen.old seen.new) }
        ensures ends { IfSome result
            (λ how. EndsWith B.told Subscribed 0 how self.old self.new seen.old seen.new) }
        ensures replies { RepliesOnce B.replied result self.old self.new }
    {
        let guest: &mut Lodger<B> = &mut self.lodger;
        match tell_subscribed(&mut guest.subscriber, seen) {
            Ok(answer) => obey(guest, answer),
            Err(NoMemory) => Some(end_as(guest, How::OutOfMemory)),
        }
    }

    /// Tells an item that was taken, and does what the answer asks for: the end, if it does.
    pub(crate) fn give(&mut self, item: Item, seen: &mut Seen) -> Option<How>
        requires room { length seen.old.signals < SIGNALS_IN_A_TURN }
        requires going { self.old.how ≡ None }
        requires few { self.old.given < UNBOUNDED }
        ensures goes { IfNone result
            (GoesOnWith B.told (Next item) 1 self.old self.new seen.old seen.new) }
        ensures ends { IfSome result
            (λ how. EndsWith B.told (Next item) 1 how self.old self.new seen.old seen.new) }
        ensures replies { RepliesOnce B.replied result self.old self.new }
    {
        let guest: &mut Lodger<B> = &mut self.lodger;
        guest.given += 1;
        match tell_next(&mut guest.subscriber, item, seen) {
            Ok(answer) => obey(guest, answer),
            Err(_) => Some(end_as(guest, How::OutOfMemory)),
        }
    }

    /// Tells the end that is due, if it has a signal. Answers the end that it is.
    pub(crate) fn finish(&mut self, due: How, seen: &mut Seen) -> How
        requires room { length seen.old.signals < SIGNALS_IN_A_TURN }
        requires going { self.old.how ≡ None }
        ensures finishes { FinishesWith B.told due result self.old self.new seen.old seen.new }
        ensures replies { RepliesLast B.replied due result self.old self.new }
    {
        let guest: &mut Lodger<B> = &mut self.lodger;
        match tell_terminal(&mut guest.subscriber, due, seen) {
            Ok(()) => {
                guest.how = Some(due);
                due
            }
            Err(NoMemory) => end_as(guest, How::OutOfMemory),
        }
    }
}

/// Does what an answer asks for: it adds to the demand, or ends the subscription.
fn obey<B: Listener>(guest: &mut Lodger<B>, answer: Answer) -> Option<How>
    ensures goes { IfNone result (IsGoOn answer × (guest.new ≡ after_answer answer guest.old)) }
    ensures ends { IfSome result (λ how. IsQuietEnd how × (guest.new ≡ after_end how guest.old)) }
    ensures obeys { IsObeyed answer result guest.old guest.new }
{
    match answer {
        Answer::Go => None,
        Answer::Request(n) => {
            if n > 0 {
                guest.own = guest.own.saturating_add(n.unsigned_abs()).min(UNBOUNDED);
            } else {
                guest.answers.argument = true;
            }
            None
        }
        Answer::Cancel => Some(end_as(guest, How::Cancelled)),
        Answer::Fail(code) => Some(end_as(guest, How::Failed(code))),
    }
}

/// Notes that the subscription ends so, with the cause of that.
fn end_as<B: Listener>(guest: &mut Lodger<B>, how: How) -> How
    ensures value { result ≡ how }
    ensures ended { guest.new ≡ after_end how guest.old }
{
    guest.answers.join(how);
    guest.how = Some(how);
    how
}
