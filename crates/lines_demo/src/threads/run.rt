//! A run: a publisher, its subscribers, and the sources of its lines.
ghost use Rattle.std.specs.Prelude.{◌≡◌, ◌+◌, IfOk, IfErr, IfSome, OnOk, length};
ghost use Rattle.std.specs.List.{AllZip};
ghost use Rattle.lines_demo.specs.Threads.Input.{input_of};
ghost use Rattle.lines_demo.specs.Threads.Run.{AreUntold, IsLeftOf, Leaves, Reports, ReportsRead, StopsFor};
ghost use Rattle.lines_demo.specs.Threads.Sending.{HasPublished};
ghost use Rattle.publisher.specs.Blanks.{AreBlanksOf};

use super::fault::LinesFault;
use super::input::Input;
use super::plan::Plan;
use super::report::write_report;
use super::reporter::{NamedSubscriber, Reporter, reporters_of};
use super::sending::{Sender, send_lines};
use crate::reader::read_whole;
use flow_rules::{FailHandler, Listener, NoMemory, Refusal};
use publisher::{
    BlankPair, Ledgers, Outcome, Publisher, PublisherOptions, Refused, Submitter, Subscription,
    finish,
};
use std::alloc::Global;
use std::io::{Read, Write};
use std::marker::Brand;
use std::sync::Wait;
use std::thread::Threads;

/// The status if every subscriber completed.
const COMPLETE: u8 = 0;

/// The status if some subscriber did not.
const INCOMPLETE: u8 = 3;

/// Publishes the lines that the reader gives by a plan, and writes the report of what the subscribers were told. There
/// is one subscriber for each name of the plan, in its order. The handler hears of failures, and the report says of which
/// it heard last. The answer is the exit status: 0 if every subscriber completed, and else 3. If the input is refused,
/// nothing is written.
pub fn run_lines<
    F: FailHandler + Send + 'static,
    R: Threads + Wait + Copy + Send + Sync + 'static,
    I: Read,
    W: Write,
>(
    rt: R,
    alloc: Global,
    plan: &Plan,
    reader: &mut I,
    writer: &mut W,
    handler: F,
) -> Result<u8, LinesFault>
    ensures report { IfOk result (λ status. ReportsRead F.last plan.now (I.remaining reader.old) status
        (W.contents writer.old) (W.contents writer.new)) }
    ensures input { IfSome (I.remaining reader.old) (λ known. IfErr (input_of plan.now known)
        (λ refusal. StopsFor refusal result (W.contents writer.old) (W.contents writer.new))) }
{
    let bytes = read_whole(alloc, reader)?;
    let input = Input::read(alloc, plan, bytes.as_slice())?;
    let blanks = match BlankPair::new(alloc) {
        Ok(blanks) => blanks,
        Err(NoMemory) => return Err(Refusal::NoMemory.into()),
    };
    report_lines::<Brand, F, R, W>(rt, alloc, plan, &input, writer, handler, blanks)
}

/// Publishes an input by a plan, and writes the report.
fn report_lines<
    L: Ledgers + Send + Sync + 'static,
    F: FailHandler + Send + 'static,
    R: Threads + Wait + Copy + Send + Sync + 'static,
    W: Write,
>(
    rt: R,
    alloc: Global,
    plan: &Plan,
    input: &Input<'_>,
    writer: &mut W,
    handler: F,
    blanks: BlankPair,
) -> Result<u8, LinesFault>
    requires blanks { AreBlanksOf blanks L.publications L.drops L.history }
    ensures { IfOk result (λ status. Reports F.last input.now (length plan.now.subscribers) status
        (W.contents writer.old) (W.contents writer.new)) }
{
    let Ok(reporters) = reporters_of(alloc, plan, input.sources()) else {
        return Err(Refusal::NoMemory.into());
    };
    let outcome = publish_lines::<L, Reporter, F, R>(
        rt, alloc, plan, input, reporters, handler, blanks,
    )?;
    if write_report(alloc, writer, &outcome)? {
        Ok(COMPLETE)
    } else {
        Ok(INCOMPLETE)
    }
}

/// Publishes an input by a plan to these subscribers, and gives what the publisher leaves.
fn publish_lines<
    L: Ledgers + Send + Sync + 'static,
    B: Listener + Send + 'static,
    F: FailHandler + Send + 'static,
    R: Threads + Wait + Copy + Send + Sync + 'static,
>(
    rt: R,
    alloc: Global,
    plan: &Plan,
    input: &Input<'_>,
    subscribers: Vec<NamedSubscriber<B>>,
    handler: F,
    blanks: BlankPair,
) -> Result<Outcome<B, F>, Refusal>
    requires blanks { AreBlanksOf blanks L.publications L.drops L.history }
    requires untold { AreUntold B.told B.replied subscribers.items }
    ensures { IfOk result (Leaves B.told B.replied input.now (length subscribers.items)) }
{
    let options = PublisherOptions {
        workers: plan.workers(),
        capacity: plan.capacity(),
        ..PublisherOptions::default()
    };
    let publisher: Publisher<L, B, F> = match Publisher::with_handler(
        rt, alloc, blanks, options, handler,
    ) {
        Ok(publisher) => publisher,
        Err(refused) => return Err(refused.into()),
    };
    let mut subscriptions = Vec::new(alloc);
    let published = publish_to(
        &rt,
        alloc,
        &publisher,
        input,
        subscribers,
        &mut subscriptions,
    );
    // The workers end in any case.
    match published {
        Ok(submitters) => outcome_of(finish(&rt, alloc, publisher, submitters, subscriptions)),
        Err(refusal) => {
            drop(finish(&rt, alloc, publisher, Vec::new(alloc), subscriptions));
            Err(refusal)
        }
    }
}

/// What a publisher leaves, also if some subscription has not ended.
fn outcome_of<B: Drop, F: FailHandler>(
    finished: Result<Outcome<B, F>, Refused<Outcome<B, F>>>,
) -> Result<Outcome<B, F>, Refusal>
    ensures { IfOk result (IsLeftOf finished) }
{
    match finished {
        Ok(outcome) => Ok(outcome),
        Err(refused) => {
            let (refusal, outcome) = refused.into_parts();
            if matches!(refusal, Refusal::Unsettled(_)) {
                Ok(outcome)
            } else {
                Err(refusal)
            }
        }
    }
}

/// Subscribes these subscribers, publishes all lines and closes the publisher. The submitters come back; the
/// subscriptions are in the list, also if a later step is refused.
fn publish_to<
    L: Ledgers + Send + Sync + 'static,
    B: Listener + Send + 'static,
    F: FailHandler + Send + 'static,
    R: Threads + Wait + Sync,
>(
    rt: &R,
    alloc: Global,
    publisher: &Publisher<L, B, F>,
    input: &Input<'_>,
    subscribers: Vec<NamedSubscriber<B>>,
    subscriptions: &mut Vec<Subscription<L, B, F>>,
) -> Result<Vec<Submitter<L, B, F>>, Refusal>
    requires { AreUntold B.told B.replied subscribers.items }
    ensures published { IfOk result (λ submitters.
        AllZip (HasPublished input.now.publications) input.now.sources submitters.items) }
    ensures subscribed { OnOk result (length subscriptions.new.items
        ≡ length subscriptions.old.items + length subscribers.items) }
{
    subscribe_all(rt, alloc, publisher, subscribers, subscriptions)?;
    publish_and_close(rt, alloc, publisher, input)
}

/// Subscribes these subscribers, in order.
fn subscribe_all<
    L: Ledgers + Send + Sync + 'static,
    B: Listener + Send + 'static,
    F: FailHandler + Send + 'static,
    R: Wait,
>(
    rt: &R,
    alloc: Global,
    publisher: &Publisher<L, B, F>,
    subscribers: Vec<NamedSubscriber<B>>,
    subscriptions: &mut Vec<Subscription<L, B, F>>,
) -> Result<(), Refusal>
    requires { AreUntold B.told B.replied subscribers.items }
    ensures { OnOk result (length subscriptions.new.items
        ≡ length subscriptions.old.items + length subscribers.items) }
{
    for NamedSubscriber { name, subscriber } in subscribers {
        subscriptions.push(publisher.subscribe(rt, alloc, name, subscriber)?)?;
    }
    Ok(())
}

/// Publishes all lines, those of each source by a submitter of its own, and closes the publisher. The submitters come
/// back, in the order of the sources.
fn publish_and_close<
    L: Ledgers + Send + Sync + 'static,
    B: Listener + Send + 'static,
    F: FailHandler + Send + 'static,
    R: Threads + Wait + Sync,
>(
    rt: &R,
    alloc: Global,
    publisher: &Publisher<L, B, F>,
    input: &Input<'_>,
) -> Result<Vec<Submitter<L, B, F>>, Refusal>
    ensures { IfOk result (λ submitters.
        AllZip (HasPublished input.now.publications) input.now.sources submitters.items) }
{
    let mut senders = Vec::new(alloc);
    for source in input.sources() {
        let submitter = publisher.submitter(rt, alloc, &mut publisher.note())?;
        senders.push(Sender::new(*source, submitter))?;
    }
    let submitters = send_lines(rt, alloc, input.publications(), senders)?;
    publisher.close(rt, alloc, &mut publisher.note())?;
    Ok(submitters)
}
