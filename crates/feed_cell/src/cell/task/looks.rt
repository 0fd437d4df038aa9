//! What the task does after a look or a peek: it gives one item, or ends the subscription, or rests. If it finds
//! nothing to do after a peek, it waits a moment and peeks again, once or a few times, and then it looks, for it rests
//! only after a look.
//!
//! The steps that each item goes through are inlined, as those of a publication are.
ghost use Rattle.std.specs.Prelude.{◌≡◌, ◌+◌, ◌≤◌, ◌<◌, length, ◌==◌, Some};
ghost use Rattle.std.specs.Int.{bit_at};
ghost use Rattle.feed_core.specs.Prelude.{UNBOUNDED};
ghost use Rattle.feed_core.specs.World.Table.{MayRest};
ghost use Rattle.feed_core.specs.declared.turn.TheConstants.{SIGNALS_IN_A_TURN};
ghost use Rattle.feed_cell.specs.Control.{NEW};
ghost use Rattle.feed_cell.specs.TaskSteps.{notes_of, MayFinish, Carries, HasLookedAt, HasTaken, HasNoneToGive, IsKnown};
ghost use Rattle.feed_cell.specs.TaskLooks.{IsNotedOut, OnGoing, Serves, ServesOnce, ServesSoon, GivesAs, FinishesAs, RestsIfQuiet, EndsOrRests};
ghost use Rattle.feed_cell.specs.Seats.{IsSameSeat};

use super::causes::causes_in;
use super::known::{Known, next_item};
use super::steps::{end, look, peek, try_rest};
use super::waits::{Patience, pause};
use crate::cell::seated::Seated;
use crate::cell::{Held, NEW};
use feed_core::{Causes, Seen};
use flow_rules::{How, Item, Listener, UNBOUNDED};

/// What the task did after a look, or after some peeks and a look.
#[derive(Clone, Copy, Debug, PartialEq, Eq)]
pub(crate) enum Served {
    /// It gave an item.
    Gave,
    /// It rests.
    Rested,
    /// It could not rest, since something was new.
    Missed,
    /// It ended the subscription.
    Ended(How),
}

/// Does what a peek that left this word allows: the end at once, or the next item, or the end that waits for the items,
/// or rest. To rest it waits a moment and looks first, which may show something else to do.
pub(crate) fn serve<B: Listener>(
    party: &mut Seated<B>,
    word: u64,
    seen: &mut Seen,
    known: &mut Known,
    patience: &mut Patience,
) -> Served
    requires looked { HasLookedAt B.told word party.old.seat.me }
    requires room { length seen.old.signals < SIGNALS_IN_A_TURN }
    requires known { IsKnown known.old party.old.seat.me.0 }
    ensures seat { IsSameSeat party.old.seat party.new.seat }
    ensures serves { Serves B.told B.replied result
        party.old.seat.me party.new.seat.me seen.old seen.new }
    ensures known { OnGoing (Some result) (IsKnown known.new party.new.seat.me.0) }
{
    if let Some(served) = serve_soon(party, word, seen, known, patience) {
        return served;
    }
    let word = look(party);
    match serve_once(party, word, seen, known) {
        Some(served) => served,
        None => unreachable!(),
    }
}

/// Does what a peek that left this word allows, or one of the peeks that it makes in the moment after that. Answers
/// nothing if there was nothing to do until then, and something was new at each peek.
#[inline(always)]
fn serve_soon<B: Listener>(
    party: &mut Seated<B>,
    word: u64,
    seen: &mut Seen,
    known: &mut Known,
    patience: &mut Patience,
) -> Option<Served>
    requires looked { HasLookedAt B.told word party.old.seat.me }
    requires room { length seen.old.signals < SIGNALS_IN_A_TURN }
    requires known { IsKnown known.old party.old.seat.me.0 }
    ensures seat { IsSameSeat party.old.seat party.new.seat }
    ensures serves { ServesSoon B.told B.replied result
        party.old.seat.me party.new.seat.me seen.old seen.new }
    ensures known { OnGoing result (IsKnown known.new party.new.seat.me.0) }
{
    if let Some(served) = serve_once(party, word, seen, known) {
        return Some(served);
    }
    if seen.as_slice().len() > 1 {
        patience.restore();
    }
    for pauses in patience.pauses(party.capacity) {
        pause(*pauses);
        let word = peek(party);
        if let Some(served) = serve_once(party, word, seen, known) {
            patience.paid();
            return Some(served);
        }
    }
    patience.in_vain();
    None
}

/// Does what a look or a peek that left this word allows. Answers nothing if that is to rest, and something was new at
/// the peek.
#[inline(always)]
fn serve_once<B: Listener>(
    party: &mut Seated<B>,
    word: u64,
    seen: &mut Seen,
    known: &mut Known,
) -> Option<Served>
    requires looked { HasLookedAt B.told word party.old.seat.me }
    requires room { length seen.old.signals < SIGNALS_IN_A_TURN }
    requires known { IsKnown known.old party.old.seat.me.0 }
    ensures seat { IsSameSeat party.old.seat party.new.seat }
    ensures serves { ServesOnce B.told B.replied word result
        party.old.seat.me party.new.seat.me seen.old seen.new }
    ensures known { OnGoing result (IsKnown known.new party.new.seat.me.0) }
{
    let (given, own, answers) = notes(party);
    let causes = causes_in(word, answers);
    if let Some(due) = causes.stops() {
        return Some(finish(party, given, due, seen));
    }
    let (tail, next) = next_item(party, given, own, known);
    match next {
        Some(item) => Some(give(party, given, item, seen)),
        None => close_or_rest(party, given, tail, causes.closes(), word, seen),
    }
}

/// What lies beside the subscriber: how many items were taken, how many its answers requested, and the causes that they
/// brought about.
fn notes<B: Listener>(party: &mut Seated<B>) -> (u64, u64, Causes)
    requires carries { Carries B.told party.old.seat.me }
    ensures seat { IsSameSeat party.old.seat party.new.seat }
    ensures same { party.new.seat.me ≡ party.old.seat.me }
    ensures notes { result ≡ notes_of party.old.seat.me.0 }
    ensures noted { IsNotedOut B.replied party.old.seat.me }
{
    match party
        .seat
        .slot_mut(&party.table.shared, party.capacity as usize)
    {
        Held::Guest(guest) => guest.notes(),
        _ => unreachable!(),
    }
}

/// Gives the item that was taken. Ends the subscription, if what its callback answers is an end.
fn give<B: Listener>(party: &mut Seated<B>, given: u64, item: Item, seen: &mut Seen) -> Served
    requires taken { HasTaken B.told item party.old.seat.me }
    requires counted { (length party.old.seat.me.0.taken ≡ given + 1) × (given < UNBOUNDED) }
    requires room { length seen.old.signals < SIGNALS_IN_A_TURN }
    ensures seat { IsSameSeat party.old.seat party.new.seat }
    ensures gives { GivesAs B.told B.replied item result
        party.old.seat.me party.new.seat.me seen.old seen.new }
{
    match party
        .seat
        .slot_mut(&party.table.shared, party.capacity as usize)
    {
        Held::Guest(guest) => match guest.give(item, seen) {
            None => Served::Gave,
            Some(how) => {
                end(party, given + 1);
                Served::Ended(how)
            }
        },
        _ => unreachable!(),
    }
}

/// Does what is left to do if no item is to be given: the end that waits for the items, if all of them were given, or
/// rest. Answers nothing if that is to rest, and something was new at the peek.
fn close_or_rest<B: Listener>(
    party: &mut Seated<B>,
    given: u64,
    tail: u64,
    due: Option<How>,
    word: u64,
    seen: &mut Seen,
) -> Option<Served>
    requires carries { Carries B.told party.old.seat.me }
    requires measured { HasNoneToGive tail due party.old.seat.me }
    requires counted { (length party.old.seat.me.0.taken ≡ given) × (given ≤ UNBOUNDED) }
    requires look { party.old.seat.me.0.look ≡ word }
    requires room { length seen.old.signals < SIGNALS_IN_A_TURN }
    ensures seat { IsSameSeat party.old.seat party.new.seat }
    ensures concludes { EndsOrRests B.told B.replied word result
        party.old.seat.me party.new.seat.me seen.old seen.new }
{
    match due {
        Some(due) if given == tail => Some(finish(party, given, due, seen)),
        _ => rest(party, word),
    }
}

/// Rests, unless something is new since the look that left this word. After a peek that found something new it answers
/// nothing.
fn rest<B: Listener>(party: &mut Seated<B>, word: u64) -> Option<Served>
    requires carries { Carries B.told party.old.seat.me }
    requires may { MayRest (length party.old.seat.me.0.taken) party.old.seat.me.0.runner }
    requires look { party.old.seat.me.0.look ≡ word }
    ensures seat { IsSameSeat party.old.seat party.new.seat }
    ensures rests { RestsIfQuiet B.told B.replied word result
        party.old.seat.me party.new.seat.me }
{
    if has_news(word) {
        None
    } else if try_rest(party, word) {
        Some(Served::Rested)
    } else {
        Some(Served::Missed)
    }
}

/// Whether this word has the mark of something new.
fn has_news(word: u64) -> bool
    ensures { result ≡ (bit_at word NEW == 1) }
{
    (word >> NEW) & 1 == 1
}

/// Tells the end that is due, and ends the subscription.
fn finish<B: Listener>(party: &mut Seated<B>, given: u64, due: How, seen: &mut Seen) -> Served
    requires carries { Carries B.told party.old.seat.me }
    requires due { MayFinish due party.old.seat.me.0 }
    requires counted { (length party.old.seat.me.0.taken ≡ given) × (given ≤ UNBOUNDED) }
    requires room { length seen.old.signals < SIGNALS_IN_A_TURN }
    ensures seat { IsSameSeat party.old.seat party.new.seat }
    ensures finishes { FinishesAs B.told B.replied due result
        party.old.seat.me party.new.seat.me seen.old seen.new }
{
    match party
        .seat
        .slot_mut(&party.table.shared, party.capacity as usize)
    {
        Held::Guest(guest) => {
            let how = guest.finish(due, seen);
            end(party, given);
            Served::Ended(how)
        }
        _ => unreachable!(),
    }
}
