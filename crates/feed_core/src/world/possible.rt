//! When an event is possible: the first half of the table, in code.
ghost use Rattle.std.specs.Prelude.{◌≡◌, ◌↔◌, true};
ghost use Rattle.feed_core.specs.LaneCalls.{IsCapacity};
ghost use Rattle.feed_core.specs.World.Table.{IsPossible, MayBegin, MayPutMore, ProducerMay, HandleMay, MayLook, MaySee, MayMeasure, MayTake, MayTakeKnown, MayRest, MayEnd, IsAnswered, IsStop};

use super::events::{Cause, Event, Side};
use super::parts::{Parts, Producing, Requesting, Runner};
use flow_rules::{Answer, Ending, How, UNBOUNDED, capacity};

/// Whether a buffer may have this capacity.
pub(crate) fn is_capacity(n: usize) -> bool
    ensures { (result ≡ true) ↔ IsCapacity n }
{
    match capacity(n) {
        Ok(size) => size == n,
        Err(_) => false,
    }
}

impl Parts {
    /// Whether this event is possible now.
    pub(crate) fn can(&self, event: Event) -> bool
        ensures { (result ≡ true) ↔ IsPossible event self.now }
    {
        match event {
            Event::Make(_, _) => false,
            Event::Room => may_begin(self.producer),
            Event::Put => self.producer == Producing::HasRoom && self.causes.closing.is_none(),
            Event::PutMore => may_put_more(self),
            Event::Ask(n) => self.handle == Requesting::Idle && n >= 1,
            Event::Signal(Side::Producer, cause) => {
                producer_may(cause, self.producer, self.causes.closing)
            }
            Event::Signal(Side::Handle, cause) => handle_may(cause, self.handle),
            Event::Hand(Side::Producer) => self.producer == Producing::Hands,
            Event::Hand(Side::Handle) => self.handle == Requesting::HandsOver,
            Event::Look(answer) | Event::Peek(answer) => may_look(answer, self.runner),
            Event::See => may_see(self.runner),
            Event::Measure => may_measure(self.runner),
            Event::Take => may_take(self.given, self.runner),
            Event::TakeKnown => may_take_known(self),
            Event::Rest => may_rest(self.given, self.runner),
            Event::End(how) => may_end(how, self.given, self.runner),
        }
    }
}

/// Whether the producer may look, or signal something else than an item.
fn may_begin(producer: Producing) -> bool
    ensures { (result ≡ true) ↔ MayBegin producer }
{
    matches!(producer, Producing::Free | Producing::HasRoom)
}

/// Whether the producer may put one item more before it signals.
fn may_put_more(parts: &Parts) -> bool
    ensures { (result ≡ true) ↔ MayPutMore parts.now }
{
    parts.producer == Producing::HasPut
        && parts.causes.closing.is_none()
        && parts.accepted.saturating_sub(parts.given) < parts.capacity as u64
}

/// Whether the producer may signal this.
fn producer_may(cause: Option<Cause>, producer: Producing, closing: Option<Ending>) -> bool
    ensures { (result ≡ true) ↔ ProducerMay cause producer closing }
{
    match cause {
        None => producer == Producing::HasPut,
        Some(Cause::State) => may_begin(producer),
        Some(Cause::Closing(_)) => may_begin(producer) && closing.is_none(),
        Some(Cause::Cancel | Cause::Argument) => false,
    }
}

/// Whether the handle may signal this.
fn handle_may(cause: Option<Cause>, handle: Requesting) -> bool
    ensures { (result ≡ true) ↔ HandleMay cause handle }
{
    match cause {
        None => handle == Requesting::HasAsked,
        Some(Cause::Cancel | Cause::Argument) => handle == Requesting::Idle,
        Some(Cause::State | Cause::Closing(_)) => false,
    }
}

/// Whether the runner may look or peek, after a callback with this answer, or after none.
fn may_look(answer: Answer, runner: Runner) -> bool
    ensures { (result ≡ true) ↔ MayLook answer runner }
{
    match answer {
        Answer::Go => matches!(
            runner,
            Runner::Fresh | Runner::Ready | Runner::Taken | Runner::Measured(_, _, _)
        ),
        Answer::Request(_) => matches!(runner, Runner::Fresh | Runner::Taken),
        Answer::Cancel | Answer::Fail(_) => false,
    }
}

/// Whether the runner may see how many items were put.
fn may_see(runner: Runner) -> bool
    ensures { (result ≡ true) ↔ MaySee runner }
{
    match runner {
        Runner::Looked(causes) => causes.stops().is_none(),
        _ => false,
    }
}

/// Whether the runner may see how many items were requested.
fn may_measure(runner: Runner) -> bool
    ensures { (result ≡ true) ↔ MayMeasure runner }
{
    matches!(runner, Runner::Saw(_, _))
}

/// Whether the runner may take an item, of which this many were given.
fn may_take(given: u64, runner: Runner) -> bool
    ensures { (result ≡ true) ↔ MayTake given runner }
{
    match runner {
        Runner::Measured(_, put, asked) => given < put && given < asked,
        _ => false,
    }
}

/// Whether the runner may take an item by what it knows.
fn may_take_known(parts: &Parts) -> bool
    ensures { (result ≡ true) ↔ MayTakeKnown parts.now }
{
    let requested = parts.known_asked.saturating_add(parts.own).min(UNBOUNDED);
    may_see(parts.runner) && parts.given < parts.known_put && parts.given < requested
}

/// Whether the runner may rest.
fn may_rest(given: u64, runner: Runner) -> bool
    ensures { (result ≡ true) ↔ MayRest given runner }
{
    match runner {
        Runner::Measured(causes, put, asked) => {
            (put <= given || asked <= given) && (causes.closes().is_none() || given != put)
        }
        _ => false,
    }
}

/// Whether the runner may end the subscription in this way.
fn may_end(how: How, given: u64, runner: Runner) -> bool
    ensures { (result ≡ true) ↔ MayEnd how given runner }
{
    match runner {
        Runner::Fresh | Runner::Taken => is_answered(how),
        Runner::Looked(causes) => is_stop(causes.stops(), how),
        Runner::Measured(causes, put, _) => is_stop(causes.closes(), how) && given == put,
        _ => false,
    }
}

/// Whether a callback's answer, or its refusal of memory, is this end.
fn is_answered(how: How) -> bool
    ensures { (result ≡ true) ↔ IsAnswered how }
{
    matches!(how, How::Cancelled | How::Failed(_) | How::OutOfMemory)
}

/// Whether this end is the one that is due, or a refusal of memory at telling it.
fn is_stop(due: Option<How>, how: How) -> bool
    ensures { (result ≡ true) ↔ IsStop due how }
{
    match due {
        Some(due) => how == due || how == How::OutOfMemory && due != How::Cancelled,
        None => false,
    }
}
