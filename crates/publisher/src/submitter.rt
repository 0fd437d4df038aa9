//! A submitter: a source of publications, and what it learns of the close.
//!
//! It waits here, outside the lock, as long as there is no room. What is published behind the lock stands in `state`.
mod batch;
mod send;

ghost use Rattle.std.specs.Arc.{arc_value};
ghost use Rattle.once_cell.specs.Once.{cell_name};
ghost use Rattle.std.specs.Prelude.{◌≡◌, ◌+◌, ◌<◌, ◌≤◌, ◌↔◌, [], ◌∷◌, ◌++◌, is_some, None, Err, IfErr, IfOk, IfSome, OnErr, OnOk, length};
ghost use Rattle.flow_rules.specs.declared.refusal.Refusal.TheVariants as Refusal;
ghost use Rattle.flow_rules.specs.declared.text.TheConstants.Text.{LONGEST};
ghost use Rattle.publisher.specs.Handles.{IsHubRefusal, RefusesPublication, after_refusal};
ghost use Rattle.publisher.specs.Submitting.{CountsOffer, CountsPublished, RefusesKnown, RefusesLong};

use crate::dispatcher::Dispatcher;
use crate::ledgers::Ledgers;
use crate::note::Note;
use crate::state::{Own, Refused};
pub use batch::{PublishedAll, PublishedPart, Unsent};
use feed_cell::Task;
use flow_rules::{
    DropHandler, Ending, FailHandler, LastFailure, Listener, NoMemory, Refusal, Text,
};
use once_cell::race::OnceBox;
use publisher_hub::{Need, Publication, Published, Work};
use std::alloc::Global;
use std::fmt;
use std::marker::Model;
use std::sync::{Arc, Wait};

/// A source of a publisher's items, with what it was told of the close. [`finish`](crate::finish) takes it back.
#[derive(Drop)]
pub struct Submitter<L: Ledgers + Send, B: Listener + Send, F: FailHandler + Send = LastFailure> {
    dispatcher: Dispatcher<L, B, F>,
    /// Where its note looks.
    closing: Arc<OnceBox<Ending>>,
    /// Its number, and its shares of the ledgers.
    own: Own<L>,
    note: Note,
    /// The tasks that a publication has started. Between two calls there are none.
    due: Vec<Work<Task<B>>>,
}

impl<L: Ledgers + Send, B: Listener + Send, F: FailHandler + Send> fmt::Debug
    for Submitter<L, B, F> {
    fn fmt<W: fmt::Write>(&self, f: &mut fmt::Formatter<W>) -> fmt::Result {
        write!(f, "Submitter {{ source: {} }}", self.own.source)
    }
}

impl<L: Ledgers + Send, B: Listener + Send, F: FailHandler + Send> Model for Submitter<L, B, F> {
    ghost use Rattle.std.specs.Prelude.{◌≡◌};
    ghost use Rattle.std.specs.Arc.{arc_value};
    ghost use Rattle.once_cell.specs.Once.{cell_name};
    ghost use Rattle.publisher.specs.Handles.{SubmitterState};

    ghost Value = { SubmitterState };

    ghost invariant = { λ s. s.note.cell ≡ cell_name (arc_value s.closing) };

    ghost view = { λ s. record {
      source = s.own.source;
      closing = s.note.cell;
      known = s.note.known;
      published = s.own.publications.amount;
      sent = s.own.pass.sent;
      dropping = s.own.drops.amount;
    } };
}

impl<L: Ledgers + Send, B: Listener + Send, F: FailHandler + Send> Submitter<L, B, F> {
    /// Makes that of a source, with this note.
    pub(crate) fn new(
        alloc: Global,
        dispatcher: Dispatcher<L, B, F>,
        closing: Arc<OnceBox<Ending>>,
        own: Own<L>,
        note: Note,
    ) -> Submitter<L, B, F>
        requires { note.cell ≡ cell_name (arc_value closing) }
        ensures { result ≡ record {
          source = own.source;
          closing = note.cell;
          known = note.known;
          published = own.publications.amount;
          sent = own.pass.sent;
          dropping = own.drops.amount;
        } }
    {
        Submitter {
            dispatcher,
            closing,
            own,
            note,
            due: Vec::new(alloc),
        }
    }

    /// Publishes a text to all live subscriptions at once, and waits as long as one of them has no room
    /// (`SubmissionPublisher.submit`). The answer is the longest backlog of any live subscription, in items.
    ///
    /// Refused 2 if it knows of the close; 6 if the text has more than [`Text::LONGEST`] bytes; 5 if a growth is
    /// refused; 2 if the publisher is closed, and from then on it knows; and 13 after the last possible publication.
    pub fn submit<R: Wait>(&mut self, rt: &R, alloc: Global, text: &[u8]) -> Result<u64, Refusal>
        ensures known { RefusesKnown result self.old self.new }
        ensures long { RefusesLong result self.old text.now }
        ensures ok { OnOk result (self.new ≡ record self.old {
          published = self.old.published + 1;
          sent = self.old.sent ++ text.now ∷ [];
        }) }
        ensures unchanged { IfErr result (λ refusal. self.new ≡ after_refusal refusal self.old) }
        ensures refusals { IfErr result (λ refusal. RefusesPublication refusal self.new.known) }
    {
        let texts = [self.admit(alloc, text)?];
        match self.send(rt, &texts, Need::All) {
            Ok(done) => Ok(done.lag),
            Err(stopped) => Err(self.hear(alloc, stopped.why)),
        }
    }

    /// Publishes a text to all live subscriptions, as each of them said when it was subscribed. It waits, as
    /// [`submit`](Submitter::submit) does, as long as one that says [`OnFull::Wait`](crate::OnFull::Wait) has no room,
    /// and never for one that says [`OnFull::Drop`](crate::OnFull::Drop): if the buffer of such a subscription is full,
    /// it loses the text, and that is counted as a drop. (`SubmissionPublisher` has no such method.) The answer is the
    /// longest backlog of any subscription that got the text, in items, and how many lost it.
    ///
    /// It is refused as [`submit`](Submitter::submit) is.
    pub fn publish<R: Wait>(
        &mut self,
        rt: &R,
        alloc: Global,
        text: &[u8],
    ) -> Result<Published, Refusal>
        ensures known { RefusesKnown result self.old self.new }
        ensures long { RefusesLong result self.old text.now }
        ensures ok { IfOk result
            (λ published. CountsPublished text.now published.dropped self.old self.new) }
        ensures unchanged { IfErr result (λ refusal. self.new ≡ after_refusal refusal self.old) }
        ensures refusals { IfErr result (λ refusal. RefusesPublication refusal self.new.known) }
    {
        let texts = [self.admit(alloc, text)?];
        match self.send(rt, &texts, Need::Waiters) {
            Ok(Publication { lag, dropped, .. }) => Ok(Published { lag, dropped }),
            Err(stopped) => Err(self.hear(alloc, stopped.why)),
        }
    }

    /// Gives a text to all live subscriptions that have room, and drops it at the others
    /// (`SubmissionPublisher.offer`). If a buffer is full the handler is asked, and if that answers true the text is
    /// offered once more. The answer is the longest backlog of any live subscription, in items, or minus the number of
    /// drops.
    ///
    /// The handler runs while the publisher's lock is held, which turns, requests and cancels of other threads don't
    /// need. So it may wait until another thread has made room, and the second try succeeds then. It may not call the
    /// publisher; and a request or a cancel of its own waits for ever if the pool takes no task: once
    /// [`finish`](crate::finish) was called, or while 1,024 tasks wait.
    ///
    /// It is refused as [`submit`](Submitter::submit) is.
    pub fn offer<R: Wait>(
        &mut self,
        rt: &R,
        alloc: Global,
        text: &[u8],
        handler: Option<&mut Box<dyn DropHandler>>,
    ) -> Result<i64, Refusal>
        ensures known { RefusesKnown result self.old self.new }
        ensures long { RefusesLong result self.old text.now }
        ensures ok { IfOk result (λ answer. CountsOffer text.now answer self.old self.new) }
        ensures unchanged { IfErr result (λ refusal. self.new ≡ after_refusal refusal self.old) }
        ensures refusals { IfErr result (λ refusal. RefusesPublication refusal self.new.known) }
    {
        self.offer_to(rt, alloc, text, handler)
    }

    /// Does what [`offer`](Submitter::offer) does with a drop handler of any type, which the caller can look at
    /// afterwards.
    ///
    /// It is refused as [`submit`](Submitter::submit) is.
    pub fn offer_with<R: Wait, H: DropHandler>(
        &mut self,
        rt: &R,
        alloc: Global,
        text: &[u8],
        handler: &mut H,
    ) -> Result<i64, Refusal>
        ensures known { RefusesKnown result self.old self.new }
        ensures long { RefusesLong result self.old text.now }
        ensures ok { IfOk result (λ answer. CountsOffer text.now answer self.old self.new) }
        ensures unchanged { IfErr result (λ refusal. self.new ≡ after_refusal refusal self.old) }
        ensures refusals { IfErr result (λ refusal. RefusesPublication refusal self.new.known) }
    {
        self.offer_to(rt, alloc, text, Some(handler))
    }

    /// Gives a text to all live subscriptions that have room, and asks the handler about the others.
    fn offer_to<R: Wait, H: DropHandler>(
        &mut self,
        rt: &R,
        alloc: Global,
        text: &[u8],
        handler: Option<&mut H>,
    ) -> Result<i64, Refusal>
        ensures known { RefusesKnown result self.old self.new }
        ensures long { RefusesLong result self.old text.now }
        ensures ok { IfOk result (λ answer. CountsOffer text.now answer self.old self.new) }
        ensures unchanged { IfErr result (λ refusal. self.new ≡ after_refusal refusal self.old) }
        ensures refusals { IfErr result (λ refusal. RefusesPublication refusal self.new.known) }
    {
        let text = self.admit(alloc, text)?;
        let Submitter {
            dispatcher,
            own,
            due,
            ..
        } = self;
        let answer = dispatcher.shared.lock(rt).offer(own, text, handler, due);
        dispatcher.start_all(rt, due);
        match answer {
            Ok(answer) => Ok(answer),
            Err(refused) => Err(self.hear(alloc, refused)),
        }
    }

    /// Gives the text of a publication, unless that is refused before the lock is taken.
    fn admit(&mut self, alloc: Global, text: &[u8]) -> Result<Text, Refusal>
        ensures same { self.new ≡ self.old }
        ensures unknown { OnOk result (self.old.known ≡ None) }
        ensures fits { OnOk result (length text.now ≤ LONGEST) }
        ensures text { IfOk result (λ it. it ≡ text.now) }
        ensures known { IfSome self.old.known (λ ending. result ≡ Err (Refusal.Closed ending)) }
        ensures long { RefusesLong result self.old text.now }
        ensures unchanged { IfErr result (λ refusal. self.new ≡ after_refusal refusal self.old) }
        ensures refusals { IfErr result (λ refusal. RefusesPublication refusal self.new.known) }
    {
        if let Some(ending) = self.note.known(&self.closing) {
            return Err(Refusal::Closed(ending));
        }
        if text.len() > Text::LONGEST {
            return Err(Refusal::LineTooLong);
        }
        Ok(Text::new(alloc, text)?)
    }

    /// Learns what a refusal of the Hub tells of the close. The answer is the refusal, with the ending that all learn;
    /// or 5, if memory was refused for keeping that.
    fn hear(&mut self, alloc: Global, refused: Refused) -> Refusal
        ensures reason { IsHubRefusal result }
        ensures told { self.new ≡ after_refusal result self.old }
        ensures refusals { RefusesPublication result self.new.known }
    {
        match refused.refusal() {
            Refusal::Closed(ending) => match self.note.hear(alloc, &self.closing, ending) {
                Ok(ending) => Refusal::Closed(ending),
                Err(NoMemory) => Refusal::NoMemory,
            },
            other => other,
        }
    }

    /// Gives a note of the publisher that knows of its close if this submitter does, as one to compare with
    /// ([`Note::compare`]).
    pub fn note(&mut self) -> Note
        ensures note { result ≡ record { cell = self.old.closing; known = self.old.known } }
        ensures same { self.new ≡ self.old }
    {
        self.note.again()
    }

    /// Gives up what it owns, with whether it knows that the publisher is closed.
    pub(crate) fn give_up(self) -> (Own<L>, bool)
        ensures source { result.0.source ≡ self.source }
        ensures published { result.0.publications.amount ≡ self.published }
        ensures sent { result.0.pass.sent ≡ self.sent }
        ensures dropping { result.0.drops.amount ≡ self.dropping }
        ensures knows { result.1 ≡ is_some self.known }
    {
        let Submitter {
            own,
            note,
            dispatcher: _,
            closing: _,
            due: _,
        } = self;
        (own, note.knows())
    }
}
