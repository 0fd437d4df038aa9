//! A turn of a task: a greeting, if one is owed, and looks until it gave 64 items, rested or ended. Its words are the
//! same as those of `Desk::turn`, which is a turn of one thread.
ghost use Rattle.std.specs.Prelude.{◌≡◌, ◌≤◌, ◌↔◌, [], length, Err, Some, IfOk, IfErr, OnOk};
ghost use Rattle.feed_core.specs.EndedBy.{IsEndedBy};
ghost use Rattle.feed_core.specs.Prelude.{Complete, Error, Fault, How, items_of};
ghost use Rattle.feed_core.specs.Turn.{EndsIn, EndsInObeyed};
ghost use Rattle.feed_core.specs.declared.turn.TheConstants.{ITEMS_IN_A_TURN, SIGNALS_IN_A_TURN};
ghost use Rattle.feed_core.specs.declared.turn.outlook.Outlook.TheVariants.{Again, Ended};
ghost use Rattle.feed_cell.specs.TaskPauses.{IsPaused};
ghost use Rattle.feed_cell.specs.TaskSteps.{HasLookedAt, KeepsCounts};
ghost use Rattle.feed_cell.specs.Seats.{IsSameSeat};
ghost use Rattle.feed_cell.specs.TaskTurns.{MayGoOn, OnAgain, OnEnded, has_cancel, outlook_of, IsBeforeLook, RunsAs, TurnsInto, MayLookNext, KeepsGoing};
ghost use Rattle.feed_cell.specs.Views.{RunsFree};

use super::known::Known;
use super::looks::{Served, serve};
use super::steps::{end, peek, peek_first};
use super::waits::Patience;
use super::{Spent, Stage, Task};
use crate::cell::Held;
use crate::cell::seated::Seated;
use feed_core::{ITEMS_IN_A_TURN, Outlook, Seen};
use flow_rules::{How, Listener};

/// What came of a turn.
#[must_use]
#[derive(Debug, Drop)]
pub enum Turn<B: Listener> {
    /// Another turn is owed, of this task.
    Again(Task<B>),
    /// No turn is owed until something is signalled.
    Resting(Spent<B>),
    /// The subscription has ended, and no turn is ever owed again.
    Ended(How, Spent<B>),
}

impl<B: Listener> Task<B> {
    /// Tells the subscriber what is owed: `onSubscribe` first of all, then items below the demand, 64 at most, then the
    /// terminal signal. What it was told is what `seen` then holds (`Flow.Subscriber`; Reactive Streams 1.0, rules 1.1,
    /// 1.3, 1.5, 1.7 and 1.9). Before each item it looks or peeks: that showed no cancel, bad request, second
    /// subscribing or error that overtakes the items, and a measure showed that the item was requested. What a callback
    /// answers is done at once; one that is refused memory ends the subscription. If nothing is left to tell,
    /// it spins for a few microseconds at most, in case more comes, if it has the patience. It goes on only after 64 items, or if something was
    /// new when it would have rested.
    pub fn turn(self, seen: &mut Seen, patience: &mut Patience) -> Turn<B>

        // What it tells, by what it takes each item, and what became of the task.
        ensures turned { TurnsInto self seen.new.signals result }

        // Its bounds.
        ensures at_most { length (items_of seen.new.signals) ≤ ITEMS_IN_A_TURN }
        ensures few { length seen.new.signals ≤ SIGNALS_IN_A_TURN }
        ensures room { seen.new.room ≡ seen.old.room }

        // What it answers.
        ensures again { OnAgain result (λ next. MayGoOn self.knows next.knows seen.new.signals) }
        ensures completed { EndsIn seen.new.signals Complete
            ↔ (outlook_of result ≡ Ended How.Completed) }
        ensures errored { (fault : Fault)
            → EndsIn seen.new.signals (Error fault) ↔ (outlook_of result ≡ Ended (How.Errored fault)) }

        // Who asked for the end: its last reply, or the handle, by the word that its last look left.
        ensures asked_for { OnEnded result (λ how spent.
            IsEndedBy (has_cancel spent.knows.look) (Some how) spent.replied) }

        // Whose failure ended it: that of the callback whose signal it told last.
        ensures failed { (code : _) → outlook_of result ≡ Ended (How.Failed code)
            → EndsInObeyed seen.new.signals }
    {
        let Task { mut party, stage } = self;
        seen.clear();
        match run(&mut party, stage, seen, patience) {
            Outlook::Again => {
                let stage = Stage::Going;
                Turn::Again(Task { party, stage })
            }
            Outlook::Resting => {
                let seat = party.into_seat();
                Turn::Resting(Spent { seat })
            }
            Outlook::Ended(how) => {
                let seat = party.into_seat();
                Turn::Ended(how, Spent { seat })
            }
        }
    }
}

/// Greets the subscriber, if it was told nothing yet, and looks until the turn is over.
fn run<B: Listener>(
    party: &mut Seated<B>,
    stage: Stage,
    seen: &mut Seen,
    patience: &mut Patience,
) -> Outlook
    requires runner { RunsFree party.old.seat.me.0 }
    requires paused { IsPaused B.told stage party.old.seat.me }
    requires nothing { seen.old.signals ≡ [] }
    ensures seat { IsSameSeat party.old.seat party.new.seat }
    ensures runner { result ≡ Again → RunsFree party.new.seat.me.0 }
    ensures runs { RunsAs B.told B.replied result
        party.old.seat.me party.new.seat.me seen.new.signals }
    ensures failed { (code : _) → result ≡ Ended (How.Failed code)
        → EndsInObeyed seen.new.signals }
    ensures room { seen.new.room ≡ seen.old.room }
{
    let mut stage = match greet(party, stage, seen) {
        Ok(stage) => stage,
        Err(how) => return Outlook::Ended(how),
    };
    let mut known = Known::nothing();
    for _ in 0..ITEMS_IN_A_TURN {
        let word = peek_next(party, stage);
        match serve(party, word, seen, &mut known, patience) {
            Served::Gave => stage = Stage::Going,
            Served::Rested => return Outlook::Resting,
            Served::Missed => return Outlook::Again,
            Served::Ended(how) => return Outlook::Ended(how),
        }
    }
    Outlook::Again
}

/// Tells `onSubscribe`, if nothing was told yet. Answers where the task stands then, or the end, if what the callback
/// answers is one.
fn greet<B: Listener>(party: &mut Seated<B>, stage: Stage, seen: &mut Seen) -> Result<Stage, How>
    requires runner { RunsFree party.old.seat.me.0 }
    requires paused { IsPaused B.told stage party.old.seat.me }
    requires nothing { seen.old.signals ≡ [] }
    ensures seat { IsSameSeat party.old.seat party.new.seat }
    ensures runner { OnOk result (RunsFree party.new.seat.me.0) }
    ensures goes { IfOk result (λ stage.
        IsBeforeLook B.told B.replied stage 0 party.old.seat.me party.new.seat.me seen.new.signals) }
    ensures ends { IfErr result (λ how.
        RunsAs B.told B.replied (Ended how) party.old.seat.me party.new.seat.me seen.new.signals) }
    ensures failed { (code : _) → result ≡ Err (How.Failed code)
        → EndsInObeyed seen.new.signals }
    ensures room { seen.new.room ≡ seen.old.room }
{
    match stage {
        Stage::Fresh => match party
            .seat
            .slot_mut(&party.table.shared, party.capacity as usize)
        {
            Held::Guest(guest) => match guest.greet(seen) {
                None => Ok(Stage::Going),
                Some(how) => {
                    end(party, 0);
                    Err(how)
                }
            },
            _ => unreachable!(),
        },
        _ => Ok(stage),
    }
}

/// Peeks at the marks and causes: a look, which is dearer, is needed only before rest. The first peek of a task that a
/// signal started takes its subscriber with it.
fn peek_next<B: Listener>(party: &mut Seated<B>, stage: Stage) -> u64
    requires runner { RunsFree party.old.seat.me.0 }
    requires may { MayLookNext B.told stage party.old.seat.me }
    ensures seat { IsSameSeat party.old.seat party.new.seat }
    ensures looked { HasLookedAt B.told result party.new.seat.me }
    ensures counts { KeepsCounts party.old.seat.me.0 party.new.seat.me.0 }
    ensures keeps { KeepsGoing stage party.old.seat.me party.new.seat.me }
{
    match stage {
        Stage::Going => peek(party),
        _ => peek_first(party),
    }
}
