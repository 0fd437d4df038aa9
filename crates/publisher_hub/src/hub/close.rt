//! How a Hub ends: each live subscription is ended once, and the opening ticket comes out. No subscriber is waited for.
ghost use Rattle.std.specs.Prelude.{◌≡◌, ◌+◌, ◌≤◌, None, Some, Ok, Err, IsSome, List, OnErr, OnOk, IfOk, length, vec_len, ◌++◌, ◌<◌, map};
ghost use Rattle.std.specs.Vec.{vec_capacity};
ghost use Rattle.flow_rules.specs.declared.refusal.Refusal.TheVariants as Refusal;
ghost use Rattle.publisher_hub.specs.Closing.{ClosesAll, ClosesLive, IsClosedLooking, Closes, started_by_end, started_by_ends};
ghost use Rattle.publisher_hub.specs.Entry.{entry_of};
ghost use Rattle.publisher_hub.specs.Hub.{hub_of};
ghost use Rattle.publisher_hub.specs.Lists.{EachBy};
ghost use Rattle.publisher_hub.specs.Looking.{IsLookedAt, PreparesInPart};
ghost use Rattle.publisher_hub.specs.Readiness.{AreReady, CanAllTake};
ghost use Rattle.publisher_hub.specs.Sound.{IsSound, AreLive};
ghost use Rattle.publisher_hub.specs.declared.entry.AtClose.{AtClose};

use crate::entry::{AtClose, Entry};
use crate::hub::Hub;
use crate::hub::gathering::push_started;
use crate::hub::prepare::reserve_due;
use crate::work::Work;
use close_count::Opening;
use flow_rules::{Ending, Feed, NoMemory, Refusal};

impl<F: Feed> Hub<F> {
    /// Ends the publisher (`SubmissionPublisher.close` and `closeExceptionally`, Java SE 17): each live subscription is
    /// closed, and the opening ticket comes out, if there is one. What was accepted is told before the ending; an
    /// error overtakes it if the Feeds were made with [`ErrorOrder::Overtake`](flow_rules::ErrorOrder::Overtake).
    ///
    /// Only the first call does anything: a later call answers `None` and changes nothing.
    ///
    /// `NoMemory` if a place of `due` or what a started task needs is refused. Then nothing has changed but by looks.
    pub fn end(
        &mut self,
        ending: Ending,
        due: &mut Vec<Work<F::Task>>,
    ) -> Result<Option<Opening>, Refusal>
        requires sound { IsSound (hub_of F.meaning self.old) }
        ensures first { self.old.ending ≡ None → IfOk result (λ opening.
            (opening ≡ self.old.opening)
            × ClosesAll F.meaning F.does ending due.old.items due.new.items self.old self.new) }
        ensures means { self.old.ending ≡ None → OnOk result
            (IsClosedLooking ending (hub_of F.meaning self.old) (hub_of F.meaning self.new)) }
        ensures later { IsSome self.old.ending
            → (result ≡ Ok None) × ((self.new ≡ self.old) × (due.new ≡ due.old)) }
        ensures refusals { OnErr result (result ≡ Err Refusal.NoMemory) }
        ensures looked { OnErr result
            (IsLookedAt (hub_of F.meaning self.old) (hub_of F.meaning self.new)) }
        ensures exact { OnErr result (PreparesInPart F.meaning F.does self.old self.new) }
        ensures due { OnErr result (due.new.items ≡ due.old.items) }
        ensures sound { IsSound (hub_of F.meaning self.new) }
    {
        if self.ending.is_some() {
            return Ok(None);
        }
        self.end_open(ending, due)
    }

    /// Ends an open Hub: each of its live subscriptions, and then itself. The answer is the opening ticket, if there is
    /// one.
    fn end_open(
        &mut self,
        ending: Ending,
        due: &mut Vec<Work<F::Task>>,
    ) -> Result<Option<Opening>, Refusal>
        requires sound { IsSound (hub_of F.meaning self.old) }
        requires unclosed { self.old.ending ≡ None }
        ensures closes { IfOk result (λ opening.
            (opening ≡ self.old.opening)
            × ClosesAll F.meaning F.does ending due.old.items due.new.items self.old self.new) }
        ensures means { OnOk result
            (IsClosedLooking ending (hub_of F.meaning self.old) (hub_of F.meaning self.new)) }
        ensures refusals { OnErr result (result ≡ Err Refusal.NoMemory) }
        ensures looked { OnErr result
            (IsLookedAt (hub_of F.meaning self.old) (hub_of F.meaning self.new)) }
        ensures exact { OnErr result (PreparesInPart F.meaning F.does self.old self.new) }
        ensures due { OnErr result (due.new.items ≡ due.old.items) }
        ensures sound { IsSound (hub_of F.meaning self.new) }
    {
        reserve_due(due, self.live.len())?;
        self.prepare_live()?;
        self.end_live(ending, due);
        Ok(self.set_ending(ending))
    }

    /// Sets the ending. The answer is the opening ticket, if there is one, and the Hub holds none then.
    fn set_ending(&mut self, ending: Ending) -> Option<Opening>
        ensures opening { result ≡ self.old.opening }
        ensures rest { self.new ≡ record self.old { ending = Some ending; opening = None } }
    {
        self.ending = Some(ending);
        self.opening.take()
    }

    /// Ends the live subscriptions, which are ready. The tasks that this starts are due.
    fn end_live(&mut self, ending: Ending, due: &mut Vec<Work<F::Task>>)
        requires sound { IsSound (hub_of F.meaning self.old) }
        requires ready { AreReady (hub_of F.meaning self.old).entries }
        requires room { vec_len due.old + vec_len self.old.live ≤ vec_capacity due.old }
        ensures closes { ClosesLive F.meaning F.does ending self.old.entries.items
            self.new.entries.items due.old.items due.new.items }
        ensures rest { self.new ≡ record self.old { entries = self.new.entries } }
    {
        let Hub { entries, live, .. } = self;
        end_all(entries, live, ending, due)
    }
}

/// Ends all live subscriptions. The tasks that this starts are due.
fn end_all<F: Feed>(
    entries: &mut [Entry<F>],
    live: &[u32],
    ending: Ending,
    due: &mut Vec<Work<F::Task>>,
)
    requires live { AreLive live.now (map (entry_of F.meaning) entries.old) }
    requires take { CanAllTake (map (entry_of F.meaning) entries.old) }
    requires room { vec_len due.old + length live.now ≤ vec_capacity due.old }
    ensures { (answers : List (AtClose F.Task))
        × (EachBy (Closes F.meaning F.does ending) answers entries.old entries.new
        × (due.new.items ≡ due.old.items ++ started_by_ends answers)) }
{
    for number in live {
        let answer = entries[*number as usize].end(ending);
        push_answered(due, *number, answer);
    }
}

/// Puts the task that the end of a subscription started into `due`.
fn push_answered<T: Drop>(due: &mut Vec<Work<T>>, number: u32, answer: AtClose<T>)
    requires { vec_len due.old < vec_capacity due.old }
    ensures due { due.new.items ≡ due.old.items ++ started_by_end number answer }
    ensures len { vec_len due.new ≤ vec_len due.old + 1 }
    ensures capacity { vec_capacity due.new ≡ vec_capacity due.old }
{
    if let AtClose::Ended(start) = answer {
        push_started(due, number, start);
    }
}
