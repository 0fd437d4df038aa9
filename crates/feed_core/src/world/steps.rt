//! What there is after an event: the second half of the table, in code.
ghost use Rattle.std.specs.Prelude.{◌≡◌, ◌≤◌};
ghost use Rattle.feed_core.specs.Prelude.{UNBOUNDED};
ghost use Rattle.feed_core.specs.World.Kept.{IsKeptParts};
ghost use Rattle.feed_core.specs.World.Runs.{given_before};
ghost use Rattle.feed_core.specs.World.Table.{IsPossible, total_of, is_started, is_over, has_room, shown_room, joined, producing_after, requesting_after, started, answered, seeing, measuring, resting_after, after};
ghost use Rattle.feed_core.specs.World.Types.{Signal, Look, Peek};

use super::events::{Cause, Event, Side};
use super::parts::{Parts, Producing, Requesting, Runner};
use crate::cause::Causes;
use flow_rules::{Answer, UNBOUNDED};

impl Parts {
    /// All that was requested, by the handle and by the answers of callbacks.
    fn total(&self) -> u64
        requires asked { self.now.asked ≤ UNBOUNDED }
        requires own { self.now.own ≤ UNBOUNDED }
        ensures { result ≡ total_of self.now }
    {
        (self.asked + self.own).min(UNBOUNDED)
    }

    /// Does what the event does, if it is possible.
    pub(crate) fn advance(&mut self, event: Event)
        requires kept { IsKeptParts self.old }
        requires possible { IsPossible event self.old }
        ensures { self.new ≡ after event self.old }
    {
        match event {
            Event::Make(_, _) => {}
            Event::Room => self.producer = self.look_for_room(),
            Event::Put | Event::PutMore => {
                self.accepted += 1;
                self.producer = Producing::HasPut;
            }
            Event::Ask(n) => {
                self.asked = self.asked.saturating_add(n).min(UNBOUNDED);
                self.handle = Requesting::HasAsked;
            }
            Event::Signal(side, cause) => self.signal(side, cause),
            Event::Hand(Side::Producer) => {
                self.producer = Producing::Free;
                self.runner = Runner::Ready;
            }
            Event::Hand(Side::Handle) => {
                self.handle = Requesting::Idle;
                self.runner = Runner::Ready;
            }
            Event::Look(answer) => self.look(answer),
            Event::Peek(answer) => self.peek(answer),
            Event::See => {
                self.runner = self.runner.seeing(self.accepted);
                self.known_put = self.accepted;
            }
            Event::Measure => {
                self.runner = self.runner.measuring(self.total());
                self.known_asked = self.asked;
            }
            Event::Take | Event::TakeKnown => {
                self.given += 1;
                self.runner = Runner::Taken;
            }
            Event::Rest => self.runner = resting_after(self.active),
            Event::End(how) => {
                self.causes.join(how);
                self.runner = Runner::Over(how);
            }
        }
    }

    /// What the producer's look shows.
    fn look_for_room(&self) -> Producing
        requires kept { IsKeptParts self.now }
        ensures { result ≡ shown_room (has_room self.now) }
    {
        let has_room = self.accepted - self.given < self.capacity as u64;
        if !self.runner.is_over() && has_room {
            Producing::HasRoom
        } else {
            Producing::Free
        }
    }

    /// A signal: it marks that something is new, and starts the task if nobody has it.
    fn signal(&mut self, side: Side, cause: Option<Cause>)
        ensures { self.new ≡ after (Signal side cause) self.old }
    {
        let was_started = self.runner.is_started();
        join(cause, &mut self.causes);
        self.active = true;
        self.runner = self.runner.started();
        match side {
            Side::Producer => self.producer = producing_after(was_started),
            Side::Handle => self.handle = requesting_after(was_started),
        }
    }

    /// A look: nothing is new any more, and the runner knows the causes.
    fn look(&mut self, answer: Answer)
        requires own { self.old.own ≤ UNBOUNDED }
        ensures { self.new ≡ after (Look answer) self.old }
    {
        self.obey(answer);
        self.active = false;
        self.runner = Runner::Looked(self.causes);
    }

    /// A peek: the runner knows the causes, and what is new stays new.
    fn peek(&mut self, answer: Answer)
        requires own { self.old.own ≤ UNBOUNDED }
        ensures { self.new ≡ after (Peek answer) self.old }
    {
        self.obey(answer);
        self.runner = Runner::Looked(self.causes);
    }

    /// Does what a callback's answer asks for, if that is a request.
    fn obey(&mut self, answer: Answer)
        requires own { self.old.own ≤ UNBOUNDED }
        ensures { self.new ≡ answered answer self.old }
    {
        match answer {
            Answer::Request(n) if n > 0 => self.own = (self.own + n.unsigned_abs()).min(UNBOUNDED),
            Answer::Request(_) => self.causes.argument = true,
            Answer::Go | Answer::Cancel | Answer::Fail(_) => {}
        }
    }
}

impl Runner {
    /// Whether the task was started and is not at rest since. It stays so once the subscription has ended.
    pub fn is_started(self) -> bool
        ensures { result ≡ is_started self }
    {
        self != Runner::Nobody
    }

    /// Whether the subscription has ended.
    pub fn is_over(self) -> bool
        ensures { result ≡ is_over self }
    {
        matches!(self, Runner::Over(_))
    }

    /// Of the items given, all but one that was just taken.
    pub(crate) fn given_before(self, given: u64) -> u64
        ensures { result ≡ given_before given self }
    {
        match self {
            Runner::Taken => given.saturating_sub(1),
            _ => given,
        }
    }

    /// Where the task stands after a signal.
    fn started(self) -> Runner
        ensures { result ≡ started self }
    {
        match self {
            Runner::Nobody => Runner::Coming,
            runner => runner,
        }
    }

    /// Where it stands after it has seen how many items were put.
    fn seeing(self, put: u64) -> Runner
        ensures { result ≡ seeing put self }
    {
        match self {
            Runner::Looked(causes) => Runner::Saw(causes, put),
            runner => runner,
        }
    }

    /// Where it stands after it has seen how many were requested.
    fn measuring(self, asked: u64) -> Runner
        ensures { result ≡ measuring asked self }
    {
        match self {
            Runner::Saw(causes, put) => Runner::Measured(causes, put, asked),
            runner => runner,
        }
    }
}

/// Adds the cause of a signal.
pub(crate) fn join(cause: Option<Cause>, causes: &mut Causes)
    ensures { causes.new ≡ joined cause causes.old }
{
    match cause {
        None => {}
        Some(Cause::Cancel) => causes.cancel = true,
        Some(Cause::Argument) => causes.argument = true,
        Some(Cause::State) => causes.state = true,
        Some(Cause::Closing(ending)) => causes.closing = Some(ending),
    }
}

/// What the producer has to do after its signal found the task started, or not.
fn producing_after(was_started: bool) -> Producing
    ensures { result ≡ producing_after was_started }
{
    if was_started {
        Producing::Free
    } else {
        Producing::Hands
    }
}

/// What the handle has to do after its signal found the task started, or not.
fn requesting_after(was_started: bool) -> Requesting
    ensures { result ≡ requesting_after was_started }
{
    if was_started {
        Requesting::Idle
    } else {
        Requesting::HandsOver
    }
}

/// Where the task stands after it tried to rest: something may be new since its look.
fn resting_after(is_active: bool) -> Runner
    ensures { result ≡ resting_after is_active }
{
    if is_active {
        Runner::Ready
    } else {
        Runner::Nobody
    }
}
