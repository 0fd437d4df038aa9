//! Makes the call of a row, and compares the answer.
ghost use Rattle.std.specs.Prelude.{◌≡◌, [], true, IfOk, OnErr, false};
ghost use Rattle.flow_rules.specs.Capacity.{capacity_of};
ghost use Rattle.feed_core.specs.Desk.{IsNew, desk_after_end};
ghost use Rattle.feed_core.specs.Lane.{IsFlow};
ghost use Rattle.core_tests.specs.declared.row.Row.TheVariants as Row;
ghost use Rattle.core_tests.specs.Row.{Fits, MakesTurn};

use super::Row;
use crate::letters::{item_with, signals};
use feed_core::{Desk, Outlook, Seen, desks_keep_the_flow_rules};
use flow_rules::{Ending, Feed, Listener, MOST_PUBLICATIONS, NoMemory, Put, Refusal, capacity};
use std::alloc::Global;

/// A Desk whose buffer has the capacity that is enforced where this one is asked for.
pub fn desk_of<B: Listener>(alloc: Global, asked: usize, subscriber: B) -> Result<Desk<B>, Refusal>
    requires untold { B.told subscriber ≡ [] }
    requires unheard { B.replied subscriber ≡ [] }
    ensures { IfOk result (IsNew (capacity_of asked) (B.is_steady subscriber)) }
{
    let enforced = capacity(asked)?;
    match Desk::new(alloc, enforced, subscriber) {
        Ok(desk) => Ok(desk),
        Err((refused, _)) => Err(refused.into()),
    }
}

/// Whether a Desk answers a row's call as the row says. A turn that is not owed is not made, and not answered so.
pub fn answers<B: Listener>(
    alloc: Global,
    desk: &mut Desk<B>,
    row: Row<'_>,
) -> Result<bool, NoMemory>
    ensures fits { IfOk result (λ is_answered. is_answered ≡ true
        → Fits row.entry desk.old desk.new) }
    ensures flow { IsFlow desk.new.lane }
    ensures unchanged { OnErr result (desk.new ≡ desk.old) }
{
    desks_keep_the_flow_rules(desk);
    Ok(match row {
        Row::Accepted(letter, lag, starts) => is_accepted(alloc, desk, letter, (lag, starts))?,
        Row::Full(letter) => comes_back(alloc, desk, letter, false)?,
        Row::Gone(letter) => comes_back(alloc, desk, letter, true)?,
        Row::Request(n, starts) => requests(desk, n, starts),
        Row::Cancel(starts) => cancels(desk, starts),
        Row::Close(starts) => closes(desk, Ending::Normal, starts),
        Row::Fail(code, starts) => closes(desk, Ending::Failed(code), starts),
        Row::Duplicate(starts) => duplicates(desk, starts),
        Row::Standing(ended, held) => stands(desk, ended, held),
        Row::Turn(letters, outlook) => turns(alloc, desk, letters, outlook)?,
        shown => shows(desk, shown),
    })
}

/// Whether a Desk shows what a row says that it shows.
fn shows<B: Listener>(desk: &Desk<B>, row: Row<'_>) -> bool
    ensures { result ≡ true → Fits row.entry desk.now desk.now }
{
    match row {
        Row::Capacity(enforced) => desk.capacity() == enforced,
        Row::Counts(accepted, given, asked) => {
            (desk.accepted(), desk.given(), desk.asked()) == (accepted, given, asked)
        }
        Row::Lag(lag) => desk.lag() == lag,
        Row::Ended(how) => desk.how() == how,
        _ => false,
    }
}

/// Whether an item with this letter is accepted so: with this lag, and the task is to be started or not.
fn is_accepted<B: Listener>(
    alloc: Global,
    desk: &mut Desk<B>,
    letter: u8,
    want: (u64, bool),
) -> Result<bool, NoMemory>
    ensures fits { IfOk result (λ is_answered. is_answered ≡ true
        → Fits (Row.Accepted letter want.0 want.1) desk.old desk.new) }
    ensures flow { IsFlow desk.old.lane → IsFlow desk.new.lane }
    ensures unchanged { OnErr result (desk.new ≡ desk.old) }
{
    let item = item_with(alloc, &[letter])?;
    if desk.accepted() >= MOST_PUBLICATIONS {
        return Ok(false);
    }
    let answer = desk.put(item);
    desks_keep_the_flow_rules(desk);
    Ok(match answer {
        Put::Accepted { lag, start } => (lag, start.is_some()) == want,
        Put::Full(_) | Put::Gone(_) => false,
    })
}

/// Whether an item with this letter comes back: from a full buffer, or since the subscription is gone.
fn comes_back<B: Listener>(
    alloc: Global,
    desk: &mut Desk<B>,
    letter: u8,
    from_gone: bool,
) -> Result<bool, NoMemory>
    ensures full { IfOk result (λ is_answered. is_answered ≡ true → from_gone ≡ false
        → Fits (Row.Full letter) desk.old desk.new) }
    ensures gone { IfOk result (λ is_answered. is_answered ≡ true → from_gone ≡ true
        → Fits (Row.Gone letter) desk.old desk.new) }
    ensures flow { IsFlow desk.old.lane → IsFlow desk.new.lane }
    ensures unchanged { OnErr result (desk.new ≡ desk.old) }
{
    let item = item_with(alloc, &[letter])?;
    let twin = item.share()?;
    if desk.accepted() >= MOST_PUBLICATIONS {
        return Ok(false);
    }
    let answer = desk.put(item);
    desks_keep_the_flow_rules(desk);
    Ok(match answer {
        Put::Accepted { .. } => false,
        Put::Full(back) => !from_gone && back == twin,
        Put::Gone(back) => from_gone && back == twin,
    })
}

/// Whether a request of this number starts the task, or does not.
fn requests<B: Listener>(desk: &mut Desk<B>, n: i64, starts: bool) -> bool
    ensures fits { result ≡ true → Fits (Row.Request n starts) desk.old desk.new }
    ensures flow { IsFlow desk.new.lane }
{
    desk.request(n).is_some() == starts
}

/// Whether a cancel starts the task, or does not.
fn cancels<B: Listener>(desk: &mut Desk<B>, starts: bool) -> bool
    ensures fits { result ≡ true → Fits (Row.Cancel starts) desk.old desk.new }
    ensures flow { IsFlow desk.new.lane }
{
    desk.cancel().is_some() == starts
}

/// Whether a close with this ending starts the task, or does not.
fn closes<B: Listener>(desk: &mut Desk<B>, ending: Ending, starts: bool) -> bool
    ensures fits { result ≡ true → desk.new ≡ desk_after_end ending desk.old }
    ensures flow { IsFlow desk.new.lane }
{
    let start = desk.end(ending);
    desks_keep_the_flow_rules(desk);
    start.is_some() == starts
}

/// Whether a second subscribing starts the task, or does not.
fn duplicates<B: Listener>(desk: &mut Desk<B>, starts: bool) -> bool
    ensures fits { result ≡ true → Fits (Row.Duplicate starts) desk.old desk.new }
    ensures flow { IsFlow desk.new.lane }
{
    let start = desk.duplicate();
    desks_keep_the_flow_rules(desk);
    start.is_some() == starts
}

/// Whether a look shows this.
fn stands<B: Listener>(desk: &mut Desk<B>, ended: bool, held: u64) -> bool
    ensures fits { result ≡ true → Fits (Row.Standing ended held) desk.old desk.new }
    ensures flow { IsFlow desk.new.lane }
{
    let standing = desk.standing();
    desks_keep_the_flow_rules(desk);
    (standing.ended, standing.held) == (ended, held)
}

/// Whether a turn is owed, tells what these letters write, and has this outlook.
fn turns<B: Listener>(
    alloc: Global,
    desk: &mut Desk<B>,
    letters: &[u8],
    outlook: Outlook,
) -> Result<bool, NoMemory>
    ensures fits { IfOk result (λ is_answered. is_answered ≡ true → MakesTurn desk.old desk.new) }
    ensures flow { IsFlow desk.old.lane → IsFlow desk.new.lane }
    ensures unchanged { OnErr result (desk.new ≡ desk.old) }
{
    let wanted = signals(alloc, letters)?;
    let mut seen = Seen::new(alloc)?;
    if !desk.owes() {
        return Ok(false);
    }
    let found = desk.turn(&mut seen);
    let is_owed = outlook == Outlook::Again;
    if seen.len() != letters.len() {
        return Ok(false);
    }
    Ok(found == outlook && desk.owes() == is_owed && seen.as_slice() == wanted.as_slice())
}
