//! The calls of a Hub, as rows.
ghost use Rattle.publisher_hub.specs.Hub.{hub_of};
ghost use Rattle.publisher_hub.specs.Sound.{IsSound};

use crate::{Ask, Trial, Why, counting_hub, desks_of};
use feed_core::Desk;
use flow_rules::{Collector, DropHandler, Ending, Feed, MOST_PUBLICATIONS, NoMemory, Refusal};
use std::alloc::Global;
use std::process::Abort;
use std::test::Fail;
use test_kit::Notes;

const LAST_ITEM: [Ask<'static>; 3] = [
    Ask::Publishes(Ok(0)),
    Ask::Publishes(Err(Why::Number(13))),
    Ask::Offers(Err(Why::Number(13))),
];

const WHOLE_LIFE: [Ask<'static>; 32] = [
    Ask::Names(b"abc"),
    Ask::Subscribed(b'b', true),
    Ask::Subscribed(b'd', false),
    Ask::MaySubscribe(b'b', Some(3)),
    Ask::MaySubscribe(b'd', None),
    Ask::Shows(3, 0, true),
    Ask::Publishes(Ok(1)),
    Ask::Shows(3, 1, true),
    Ask::Offers(Ok(2)),
    Ask::Shows(3, 2, false),
    Ask::Publishes(Err(Why::Full)),
    Ask::Dropped(0, Some(0)),
    Ask::Offers(Ok(-3)),
    Ask::Offers(Ok(-3)),
    Ask::Dropped(0, Some(2)),
    Ask::Dropped(2, Some(2)),
    Ask::Dropped(3, None),
    Ask::TakesTicket(0, Some(false)),
    Ask::TakesTicket(0, None),
    Ask::TakesTicket(3, None),
    Ask::TakesFeed(0, true),
    Ask::TakesFeed(0, false),
    Ask::TakesFeed(3, false),
    Ask::TakesTicket(1, Some(false)),
    Ask::TakesTicket(2, Some(false)),
    Ask::Names(b"bc"),
    Ask::Offers(Ok(-2)),
    Ask::Dropped(0, Some(2)),
    Ask::Ends(true),
    Ask::Ends(false),
    Ask::Publishes(Err(Why::Closed(Ending::Normal))),
    Ask::Offers(Err(Why::Closed(Ending::Normal))),
];

const DROPPED_TWICE: [Ask<'static>; 4] = [
    Ask::Offers(Ok(-3)),
    Ask::Dropped(0, Some(2)),
    Ask::Dropped(1, Some(2)),
    Ask::Dropped(2, Some(2)),
];

/// The place of the first row that a Hub does not answer as the row says.
fn first_wrong<F: Feed>(trial: &mut Trial<F>, asks: &[Ask<'_>]) -> Result<Option<usize>, Refusal>
    requires { IsSound (hub_of F.meaning trial.old.hub) }
{
    for (place, ask) in asks.iter().enumerate() {
        if !trial.answers(*ask)? {
            return Ok(Some(place));
        }
    }
    Ok(None)
}

/// Makes the calls on a Hub, and compares each with its row.
fn play<F: Feed>(rt: &impl Abort, mut trial: Trial<F>, asks: &[Ask<'_>]) -> Result<(), Fail>
    requires { IsSound (hub_of F.meaning trial.hub) }
{
    let wrong = first_wrong(&mut trial, asks)?;
    assert!(rt; wrong.is_none(), "row {wrong:?}");
    Ok(())
}

#[test]
fn the_last_serial_number_is_given_once(rt: HostRuntime) -> Result<(), Fail> {
    let trial: Trial<Desk<Collector>> = Trial::starting_at(rt.alloc(), 4, MOST_PUBLICATIONS - 1)?;
    play(&rt, trial, &LAST_ITEM)
}

#[test]
fn a_hub_serves_three_subscriptions_until_it_is_closed(rt: HostRuntime) -> Result<(), Fail> {
    play(&rt, desks_of(rt.alloc(), 2)?, &WHOLE_LIFE)
}

/// Whether an offer with a handler of these answers is answered so, and notes these letters.
fn is_offered<F: Feed>(
    alloc: Global,
    trial: &mut Trial<F>,
    notes: &Notes,
    answers: [bool; 3],
    want: (i64, &[u8]),
) -> Result<bool, NoMemory>
    requires sound { IsSound (hub_of F.meaning trial.old.hub) }
    ensures sound { IsSound (hub_of F.meaning trial.new.hub) }
{
    let mut handler: Box<dyn DropHandler> = Box::new(alloc, notes.handler(answers)?)?;
    Ok(trial.offer(Some(&mut handler)) == Ok(want.0) && notes.take(want.1))
}

#[test]
fn a_handler_is_asked_once_for_each_full_buffer(rt: HostRuntime) -> Result<(), Fail> {
    let alloc = rt.alloc();
    for answers in [[false; 3], [true; 3], [true, false, true]] {
        let notes = Notes::new(alloc)?;
        let mut trial = desks_of(alloc, 1)?;
        assert!(rt; trial.answers(Ask::Publishes(Ok(1)))?);
        let is_right = is_offered(alloc, &mut trial, &notes, answers, (-3, b"abc"))?;
        assert!(rt; is_right, "at {answers:?}");
        play(&rt, trial, &DROPPED_TWICE)?;
    }
    Ok(())
}

#[test]
fn one_retry_follows_each_true(rt: HostRuntime) -> Result<(), Fail> {
    let alloc = rt.alloc();
    // The put that finds a place, if one does, what the handler answers, what the offer answers, and the calls in order: a put is a
    // large letter, and a call of the handler a small one.
    let rows: [(u64, [bool; 3], i64, &[u8]); 6] = [
        (0, [false; 3], -3, b"ABCabc"),
        (0, [true; 3], -3, b"ABCaAbBcC"),
        (0, [true, false, true], -3, b"ABCaAbcC"),
        (3, [true; 3], 1, b"ABCaAbBcC"),
        (3, [true, false, true], -1, b"ABCaAbcC"),
        (2, [true; 3], 1, b"ABC"),
    ];
    for (frees_at, answers, answer, calls) in rows {
        let notes = Notes::new(alloc)?;
        let mut trial = counting_hub(alloc, &notes, frees_at)?;
        assert!(rt; trial.answers(Ask::Publishes(Ok(1)))? && notes.take(b"ABC"));
        let is_right = is_offered(alloc, &mut trial, &notes, answers, (answer, calls))?;
        assert!(rt; is_right, "at {answers:?} {frees_at}");
    }
    Ok(())
}
