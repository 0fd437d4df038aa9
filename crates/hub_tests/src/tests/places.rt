//! Places that are given to later subscriptions, and how many may be live, as rows.
ghost use Rattle.std.specs.Prelude.{◌<◌, ◌≤◌, IfOk};
ghost use Rattle.feed_core.specs.Feed.{end_of};
ghost use Rattle.publisher_hub.specs.Hub.{hub_of};
ghost use Rattle.publisher_hub.specs.Sound.{IsSound};

use crate::{Ask, Row, Spot, Trial, Why, counting_hub};
use feed_core::Desk;
use flow_rules::{Collector, Ending, Name, Refusal};
use publisher_hub::OnFull::{Drop, Wait};
use publisher_hub::{MOST_LIVE, USUAL_LIVE};
use std::alloc::Global;
use std::test::Fail;
use test_kit::Notes;

// A place is given only after the end of its subscription was taken out, and only once. Then it has the new one's name, what it dropped
// and since when it takes part, and stands among the others in the order of the numbers.
const TAKEN_AGAIN: [Spot<'static>; 26] = [
    Spot::Goes(Row::Adds(b'a', Wait)),
    Spot::Goes(Row::Adds(b'b', Drop)),
    Spot::Goes(Row::Adds(b'c', Wait)),
    Spot::AddsAt(1, b'd', USUAL_LIVE, Ok(3)),
    Spot::Goes(Row::Asks(Ask::Names(b"abcd"))),
    Spot::Goes(Row::Publishes(Ok((1, 0)))),
    Spot::Goes(Row::Asks(Ask::Offers(Ok(2)))),
    Spot::Goes(Row::Asks(Ask::Offers(Ok(-4)))),
    Spot::Goes(Row::Asks(Ask::Dropped(1, Some(1)))),
    Spot::Since(1, Some(0)),
    Spot::Goes(Row::Asks(Ask::TakesFeed(1, true))),
    Spot::Goes(Row::Asks(Ask::Names(b"acd"))),
    Spot::AddsAt(1, b'a', USUAL_LIVE, Err(3)),
    Spot::AddsAt(1, b'b', USUAL_LIVE, Ok(1)),
    Spot::Goes(Row::Asks(Ask::Names(b"abcd"))),
    Spot::Since(1, Some(3)),
    Spot::Goes(Row::Asks(Ask::Dropped(1, Some(0)))),
    Spot::AddsAt(1, b'e', USUAL_LIVE, Ok(4)),
    Spot::AddsAt(9, b'f', USUAL_LIVE, Ok(5)),
    Spot::Goes(Row::Asks(Ask::Names(b"abcdef"))),
    Spot::Goes(Row::Asks(Ask::Offers(Ok(-3)))),
    Spot::Goes(Row::Asks(Ask::Figures(&[
        (b'a', Wait, [2, 2, 2]),
        (b'b', Wait, [1, 1, 0]),
        (b'c', Wait, [2, 2, 2]),
        (b'd', Wait, [2, 2, 2]),
        (b'e', Wait, [1, 1, 0]),
        (b'f', Wait, [1, 1, 0]),
    ]))),
    Spot::Goes(Row::Asks(Ask::TakesFeed(5, true))),
    Spot::Goes(Row::Asks(Ask::TakesFeed(0, true))),
    Spot::AddsAt(5, b'g', USUAL_LIVE, Ok(5)),
    Spot::Goes(Row::Asks(Ask::Names(b"bcdeg"))),
];

// One that is added after the close is closed at once, in its place, too.
const AFTER_THE_CLOSE: [Spot<'static>; 7] = [
    Spot::Goes(Row::Adds(b'a', Wait)),
    Spot::Goes(Row::Adds(b'b', Wait)),
    Spot::Goes(Row::Asks(Ask::TakesFeed(0, true))),
    Spot::Goes(Row::Asks(Ask::Ends(false))),
    Spot::AddsAt(0, b'c', USUAL_LIVE, Ok(0)),
    Spot::Since(0, Some(0)),
    Spot::Goes(Row::Publishes(Err(Why::Closed(Ending::Normal)))),
];

// With a bound of 1 a second one is refused until the first is gone, wherever it is to stand; with a bound of 0 each is.
const ONE_AT_A_TIME: [Spot<'static>; 8] = [
    Spot::AddsAt(0, b'a', 0, Err(4)),
    Spot::AddsAt(0, b'a', 1, Ok(0)),
    Spot::AddsAt(0, b'b', 1, Err(4)),
    Spot::AddsAt(1, b'b', 1, Err(4)),
    Spot::Goes(Row::Asks(Ask::TakesFeed(0, true))),
    Spot::AddsAt(0, b'b', 1, Ok(0)),
    Spot::AddsAt(0, b'c', 1, Err(4)),
    Spot::AddsAt(0, b'c', 2, Ok(1)),
];

// A Hub with buffers of this capacity.
fn hub_of_capacity(alloc: Global, asked: usize) -> Result<Trial<Desk<Collector>>, Refusal>
    ensures { IfOk result (λ trial. IsSound (hub_of end_of trial.hub)) }
{
    Trial::starting_at(alloc, asked, 0)
}

// The place of the first row that a Hub does not answer as the row says.
fn first_wrong(
    trial: &mut Trial<Desk<Collector>>,
    spots: &[Spot<'_>],
) -> Result<Option<usize>, Refusal>
    requires { IsSound (hub_of end_of trial.old.hub) }
{
    for (place, spot) in spots.iter().enumerate() {
        if !trial.lands(*spot)? {
            return Ok(Some(place));
        }
    }
    Ok(None)
}

// The name of two letters that has this number, of 4,096.
fn name_at(number: u32) -> Result<Name, Refusal>
    requires { number < 4096 }
{
    let letters = b"0123456789ABCDEFGHIJKLMNOPQRSTUVWXYZ-abcdefghijklmnopqrstuvwxyz_";
    let name = [letters[number as usize / 64], letters[number as usize % 64]];
    Name::new(&name).ok_or(Refusal::Unknown)
}

// Adds this many, at most 4,096, after all others, under a bound. The first one that is refused, or gets another number.
fn first_refused(
    trial: &mut Trial<Desk<Collector>>,
    many: u32,
    most: usize,
) -> Result<Option<u32>, Refusal>
    requires sound { IsSound (hub_of end_of trial.old.hub) }
    requires few { many ≤ 4096 }
    ensures sound { IsSound (hub_of end_of trial.new.hub) }
{
    for number in 0..many {
        if trial.add_at(MOST_LIVE as u32, name_at(number)?, most)? != Ok(number) {
            return Ok(Some(number));
        }
    }
    Ok(None)
}

#[test]
fn a_place_is_given_again_once_its_end_was_taken_out(rt: HostRuntime) -> Result<(), Fail> {
    let days: [&[Spot<'static>]; 3] = [&TAKEN_AGAIN, &AFTER_THE_CLOSE, &ONE_AT_A_TIME];
    for (number, spots) in days.into_iter().enumerate() {
        let wrong = first_wrong(&mut hub_of_capacity(rt.alloc(), 2)?, spots)?;
        assert!(rt; wrong.is_none(), "hub {number}, row {wrong:?}");
    }
    Ok(())
}

#[test]
fn a_publication_comes_to_a_place_in_its_turn(rt: HostRuntime) -> Result<(), Fail> {
    let alloc = rt.alloc();
    let notes = Notes::new(alloc)?;
    let mut trial = counting_hub(alloc, &notes, 0)?;
    assert!(rt; trial.answers(Ask::TakesFeed(1, true))?);
    assert!(rt; trial.answers(Ask::TakesFeed(0, true))?);
    assert!(rt; trial.count_at(1, &notes, (b'd', b'D'))? == 1);
    assert!(rt; trial.count_at(0, &notes, (b'e', b'E'))? == 0);
    assert!(rt; trial.count_at(0, &notes, (b'f', b'F'))? == 3);
    assert!(rt; trial.answers(Ask::Publishes(Ok(1)))? && notes.take(b"EDCF"));
    Ok(())
}

#[test]
fn as_many_are_live_as_the_bound_says(rt: HostRuntime) -> Result<(), Fail> {
    for most in [USUAL_LIVE, USUAL_LIVE + 1, MOST_LIVE] {
        let mut trial = hub_of_capacity(rt.alloc(), 1)?;
        let refused = first_refused(&mut trial, most as u32, most)?;
        assert!(rt; refused.is_none(), "{most}: {refused:?}");
        let last = Name::new(b"the-last").ok_or(Refusal::Unknown)?;
        assert!(rt; trial.add_at(0, last, most)? == Err(4), "{most}");
        assert!(rt; trial.answers(Ask::TakesFeed(17, true))?, "{most}");
        assert!(rt; trial.add_at(17, last, most)? == Ok(17), "{most}");
        assert!(rt; trial.answers(Ask::Shows(most, 0, true))?, "{most}");
    }
    Ok(())
}
