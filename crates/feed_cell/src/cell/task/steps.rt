//! The steps of the task, each on one word. They are put together in `looks.rt` and `turns.rt`.
ghost use Rattle.std.specs.Prelude.{◌≡◌, ◌+◌, ◌%◌, ◌<◌, ◌⊎◌, ℕ, [], ◌∷◌, ◌++◌, length, true, false, None, IfSome, IfNone};
ghost use Rattle.std.specs.Int.{bit_at};
ghost use Rattle.atomic_table.specs.Table.{rest};
ghost use Rattle.feed_core.specs.Cause.{stops};
ghost use Rattle.feed_core.specs.Prelude.{Item, How, UNBOUNDED};
ghost use Rattle.feed_core.specs.World.Table.{MaySee, MayMeasure, MayRest};
ghost use Rattle.feed_core.specs.declared.turn.outlook.Outlook.TheVariants.{Resting};
ghost use Rattle.feed_cell.specs.Types.{Nobody, Ready, Taken};
ghost use Rattle.feed_cell.specs.Control.{MARK, NEW};
ghost use Rattle.feed_cell.specs.Parties.{CanLook, IsHome};
ghost use Rattle.feed_cell.specs.Seats.{how_out};
ghost use Rattle.feed_cell.specs.TaskPlays.{SeesPut, Grabs, MayTakeNow, MayTakeSoon, Measures, MeasuresNone, grants_by, outlook_by};
ghost use Rattle.feed_cell.specs.TaskSteps.{HasItem, KeepsCounts, KeepsSubscriber, Carries, HasLookedAt, IsEnding, MovesOut, ComesToRest, HasMissed, HasLeft};
ghost use Rattle.feed_cell.specs.Seats.{IsSameSeat, StepsTo};
ghost use Rattle.feed_cell.specs.Views.{RunsFree, RunsAway};
ghost use Rattle.feed_cell.specs.declared.cell.Held.TheVariants as Held;

use super::plays::{
    EndStep, GrabStep, LookStep, MeasureNoneStep, MeasureStep, PeekFirstStep, PeekStep, RestStep,
    SeeStep, TakeStep,
};
use crate::cell::seated::Seated;
use crate::cell::words::{Word, place_of};
use crate::cell::{CellSeat, Held, MARK, QUIET, RESTING};
use flow_rules::{Item, Listener};

/// Looks at the marks and causes, and clears the mark of something new. Answers the word that this leaves.
pub(crate) fn look<B: Listener>(party: &mut Seated<B>) -> u64
    requires runner { RunsFree party.old.seat.me.0 }
    requires can { CanLook B.told party.old.seat.me }
    ensures seat { IsSameSeat party.old.seat party.new.seat }
    ensures looked { HasLookedAt B.told result party.new.seat.me }
    ensures counts { KeepsCounts party.old.seat.me.0 party.new.seat.me.0 }
    ensures keeps { KeepsSubscriber party.old.seat.me party.new.seat.me }
    ensures quiet { bit_at result NEW ≡ 0 }
{
    let table = &party.table.shared;
    let at = place_of(party.capacity, Word::Control);
    table.fetch_and::<LookStep>(&mut party.seat, at, QUIET) & QUIET
}

/// Peeks at the marks and causes: a look that leaves the mark of something new, and is a load. Answers the word that it
/// found.
pub(crate) fn peek<B: Listener>(party: &mut Seated<B>) -> u64
    requires runner { RunsFree party.old.seat.me.0 }
    requires can { CanLook B.told party.old.seat.me }
    ensures seat { IsSameSeat party.old.seat party.new.seat }
    ensures looked { HasLookedAt B.told result party.new.seat.me }
    ensures counts { KeepsCounts party.old.seat.me.0 party.new.seat.me.0 }
    ensures keeps { KeepsSubscriber party.old.seat.me party.new.seat.me }
{
    let table = &party.table.shared;
    let at = place_of(party.capacity, Word::Control);
    table.load::<PeekStep>(&mut party.seat, at)
}

/// The first peek of a task that was handed over. It takes the subscriber out of its slot. Answers the word that it
/// found.
pub(crate) fn peek_first<B: Listener>(party: &mut Seated<B>) -> u64
    requires runner { RunsFree party.old.seat.me.0 }
    requires home { IsHome party.old.seat.me }
    ensures seat { IsSameSeat party.old.seat party.new.seat }
    ensures looked { HasLookedAt B.told result party.new.seat.me }
    ensures counts { KeepsCounts party.old.seat.me.0 party.new.seat.me.0 }
{
    let table = &party.table.shared;
    let at = place_of(party.capacity, Word::Control);
    table.load::<PeekFirstStep>(&mut party.seat, at)
}

/// Sees how many items were put, and takes the slot of the next one out if there is one.
pub(crate) fn see<B: Listener>(party: &mut Seated<B>) -> u64
    requires away { RunsAway party.old.seat.me.0 }
    requires none { party.old.seat.me.0.item ≡ [] }
    requires may { MaySee party.old.seat.me.0.runner }
    ensures sees { StepsTo party.old.seat (SeesPut party.old.seat.me result) party.new.seat }
{
    let table = &party.table.shared;
    let at = place_of(party.capacity, Word::Tail);
    table.load::<SeeStep>(&mut party.seat, at)
}

/// Takes the slot of the next item out, which the task knows to be there. What it finds in head, it knows, too.
pub(crate) fn grab<B: Listener>(party: &mut Seated<B>)
    requires away { RunsAway party.old.seat.me.0 }
    requires none { party.old.seat.me.0.item ≡ [] }
    requires may { MayTakeSoon party.old.seat.me.0 }
    ensures grabs { StepsTo party.old.seat
        (λ me. (found : ℕ) × Grabs party.old.seat.me found me) party.new.seat }
{
    let table = &party.table.shared;
    let at = place_of(party.capacity, Word::Head);
    let _ = table.load::<GrabStep>(&mut party.seat, at);
}

/// Measures how many items the handle requested, with an item out, whose slot it gives back if no more were requested.
pub(crate) fn measure<B: Listener>(party: &mut Seated<B>) -> u64
    requires away { RunsAway party.old.seat.me.0 }
    requires may { MayMeasure party.old.seat.me.0.runner }
    requires item { HasItem party.old.seat.me }
    ensures measures { StepsTo party.old.seat (Measures party.old.seat.me result) party.new.seat }
{
    let table = &party.table.shared;
    let at = place_of(party.capacity, Word::Asked);
    table.load::<MeasureStep>(&mut party.seat, at)
}

/// Measures how many items the handle requested, with no item out.
pub(crate) fn measure_none<B: Listener>(party: &mut Seated<B>)
    requires away { RunsAway party.old.seat.me.0 }
    requires may { MayMeasure party.old.seat.me.0.runner }
    requires none { party.old.seat.me.0.item ≡ [] }
    ensures measures { StepsTo party.old.seat
        (λ me. (found : ℕ) × MeasuresNone party.old.seat.me found me) party.new.seat }
{
    let table = &party.table.shared;
    let at = place_of(party.capacity, Word::Asked);
    let _ = table.load::<MeasureNoneStep>(&mut party.seat, at);
}

/// Takes the item that is out, and stores the new head.
pub(crate) fn take<B: Listener>(party: &mut Seated<B>, given: u64) -> Item
    requires away { RunsAway party.old.seat.me.0 }
    requires may { MayTakeNow party.old.seat.me.0 }
    requires item { HasItem party.old.seat.me }
    requires counted { (length party.old.seat.me.0.taken ≡ given) × (given < UNBOUNDED) }
    ensures item { party.old.seat.me.0.item ≡ result ∷ [] }
    ensures taken { StepsTo party.old.seat (MovesOut result party.old.seat.me) party.new.seat }
{
    let slot = party.slot_of(given);
    let table = &party.table.shared;
    let held = table.exchange(&mut party.seat, slot, Held::Empty);
    let at = place_of(party.capacity, Word::Head);
    table.store::<TakeStep>(&mut party.seat, at, given + 1);
    match held {
        Held::Item(item) => item,
        _ => unreachable!(),
    }
}

/// Rests, unless something is new since the look that left this word. Answers whether it rests.
pub(crate) fn try_rest<B: Listener>(party: &mut Seated<B>, word: u64) -> bool
    requires carries { Carries B.told party.old.seat.me }
    requires may { MayRest (length party.old.seat.me.0.taken) party.old.seat.me.0.runner }
    requires look { party.old.seat.me.0.look ≡ word }
    requires quiet { bit_at word NEW ≡ 0 }
    ensures seat { IsSameSeat party.old.seat party.new.seat }
    ensures rests { result ≡ true → ComesToRest B.replied party.old.seat.me party.new.seat.me }
    ensures missed { result ≡ false → HasMissed party.old.seat.me party.new.seat.me }
{
    let table = &party.table.shared;
    let at = place_of(party.capacity, Word::Control);
    table.compare_exchange::<RestStep>(&mut party.seat, at, word, word & RESTING) == word
}

/// Ends the subscription: stores head with its mark, and gives the subscriber back.
pub(crate) fn end<B: Listener>(party: &mut Seated<B>, given: u64)
    requires ending { (how : How) × IsEnding B.told how party.old.seat.me }
    requires counted { (length party.old.seat.me.0.taken ≡ given) × (given < MARK) }
    ensures ended { StepsTo party.old.seat (HasLeft B.replied party.old.seat.me) party.new.seat }
{
    let table = &party.table.shared;
    let at = place_of(party.capacity, Word::Head);
    table.store::<EndStep>(&mut party.seat, at, given + MARK);
}
