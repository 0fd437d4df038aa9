//! Plays the steps of a day on a stand.
ghost use Rattle.std.specs.Prelude.{◌≡◌};
ghost use Rattle.publisher.specs.Blanks.{AreBlanksOf};

mod controlling;
mod ending;
mod publishing;
mod reclaiming;
mod senders;
mod waiting;

use super::day::Day;
use super::heard::{Count, Heard};
use super::step::Step;
use super::told::Told;
use ending::request_of;
use flow_rules::Refusal;
use publisher::{
    BlankPair, Controller, Ledgers, Note, OnFull, Publisher, PublisherOptions, Submitter,
    Subscription,
};
use senders::{Call, Senders, Sent};
use std::alloc::Global;
use std::fmt::Debug;
use std::sync::atomic::AtomicU64;
use std::sync::{Arc, Wait};
use std::test::Fail;
use std::thread::Threads;
use std::time::Clock;
use test_stand::{Stand, name_of};

// A stand, and what the steps of a day have done to it.
#[derive(Drop)]
struct Player<L: Ledgers + Send + Sync + 'static> {
    stand: Stand<L, Heard>,
    // Those that are not handed in.
    kept_submitters: Vec<Submitter<L, Heard>>,
    kept_subscriptions: Vec<Subscription<L, Heard>>,
    // Those of one subscription.
    controllers: Vec<Controller<L, Heard>>,
    // How many signals were told.
    told: Count,
    senders: Senders<L>,
    round: u64,
    // Whether a wait did not end.
    is_stuck: bool,
    // How many signals were told when a subscription was cancelled amid these.
    amid: Option<u64>,
    // How many callbacks the next subscriber answers, and whether any callback may be refused memory.
    callbacks: u32,
    may_be_refused: bool,
}

// Plays a round of a day at a publisher with these options.
pub fn play<L: Ledgers + Send + Sync + 'static, R: Clock + Threads + Wait + Copy + Send + 'static>(
    rt: R,
    alloc: Global,
    blanks: BlankPair,
    options: PublisherOptions,
    round: u64,
    day: &Day,
) -> Result<Told, Fail>
    requires blanks { AreBlanksOf blanks L.publications L.drops L.history }
{
    let publisher: Publisher<L, Heard> = Publisher::with_options(rt, alloc, blanks, options)?;
    let mut player = new_player(alloc, publisher, round)?;
    let mut answers = Vec::new(alloc);
    for (step, _) in day.steps {
        answers.push(player.play(rt, *step)?)?;
        if player.is_stuck {
            let left = Vec::new(alloc);
            return Ok(Told { answers, left });
        }
    }
    let left = player.end(&rt)?;
    Ok(Told { answers, left })
}

fn new_player<L: Ledgers + Send + Sync + 'static>(
    alloc: Global,
    publisher: Publisher<L, Heard>,
    round: u64,
) -> Result<Player<L>, Fail> {
    Ok(Player {
        stand: Stand::of(alloc, publisher),
        kept_submitters: Vec::new(alloc),
        kept_subscriptions: Vec::new(alloc),
        controllers: Vec::new(alloc),
        told: Arc::new(alloc, AtomicU64::new(0))?,
        senders: Senders::new(alloc)?,
        round,
        is_stuck: false,
        amid: None,
        callbacks: u32::MAX,
        may_be_refused: false,
    })
}

impl<L: Ledgers + Send + Sync + 'static> Player<L> {
    // What a step answers.
    fn play<R: Clock + Threads + Wait + Copy + Send + 'static>(
        &mut self,
        rt: R,
        step: Step,
    ) -> Result<String, Fail> {
        match step {
            Step::Subscribe(name, demand) => self.subscribe(&rt, name, OnFull::Wait, demand),
            Step::Lossy(name, demand) => self.subscribe(&rt, name, OnFull::Drop, demand),
            Step::Refuse(_) | Step::MayRefuse => Ok(self.refuse(step)),
            Step::Request(place, n) => self.request(&rt, place, n),
            Step::Cancel(place) => self.cancel(&rt, place),
            Step::Source => self.add_source(&rt),
            Step::Submit(place, bytes) => self.submit(&rt, place, bytes),
            Step::Offer(place, bytes) => self.offer(&rt, place, bytes),
            Step::Ask(place, answer, names) => self.ask(&rt, place, answer, names),
            Step::Publish(place, bytes) => self.publish(&rt, place, bytes),
            Step::PublishAll(place, lengths) => self.publish_all(&rt, place, lengths),
            Step::SubmitAll(place, lengths) => self.submit_all(&rt, place, lengths),
            Step::Send(texts) => self.send(rt, texts, Call::Submit),
            Step::Spread(texts) => self.send(rt, texts, Call::Publish),
            Step::SpreadAll(texts) => self.send(rt, texts, Call::PublishAll),
            Step::Close | Step::Fail(_) => self.close(&rt, step),
            Step::Closing => self.closing(),
            Step::Looks => self.looks(&rt),
            Step::End(place) => self.wait_end(&rt, place),
            Step::Reclaim(place) => self.reclaim(&rt, place),
            Step::Control(act) => self.control(&rt, act),
            Step::KeepSubscription(_) | Step::KeepSubmitter(_) => self.keep(step),
            wait => self.wait(&rt, wait),
        }
    }

    // Subscribes, a second time if memory was refused.
    fn subscribe<R: Wait>(
        &mut self,
        rt: &R,
        name: &str,
        on_full: OnFull,
        demand: i64,
    ) -> Result<String, Fail> {
        let alloc = self.stand.alloc;
        let named = name_of(name)?;
        let subscriber = Heard::new(alloc, &self.told, self.callbacks)?;
        self.callbacks = u32::MAX;
        let publisher = &self.stand.publisher;
        let subscribed = match publisher.subscribe_with(rt, alloc, named, subscriber, on_full) {
            Err(refused) => match refused.into_parts() {
                (Refusal::NoMemory, back) => {
                    publisher.subscribe_with(rt, alloc, named, back, on_full)
                }
                parts => Err(parts.into()),
            },
            other => other,
        };
        match subscribed {
            Ok(mut subscription) => {
                if demand != 0 {
                    request_of(rt, &mut subscription, demand)?;
                }
                self.stand.subscriptions.push(subscription)?;
                Ok(format!(in alloc; "sub {name}")?)
            }
            Err(refused) => refused_line(alloc, refused.refusal()),
        }
    }

    fn refuse(&mut self, step: Step) -> String {
        match step {
            Step::Refuse(callbacks) => self.callbacks = callbacks,
            _ => self.may_be_refused = true,
        }
        String::new(self.stand.alloc)
    }

    fn request<R: Wait>(&mut self, rt: &R, place: usize, n: i64) -> Result<String, Fail> {
        if let Some(subscription) = self.stand.subscriptions.get_mut(place) {
            request_of(rt, subscription, n)?;
        }
        Ok(String::new(self.stand.alloc))
    }

    // Cancels, a second time if memory was refused.
    fn cancel<R: Wait>(&mut self, rt: &R, place: usize) -> Result<String, Fail> {
        if let Some(subscription) = self.stand.subscriptions.get_mut(place) {
            if subscription.cancel(rt).is_err() {
                subscription.cancel(rt)?;
            }
        }
        Ok(String::new(self.stand.alloc))
    }

    // Adds a submitter, at the second call if memory was refused.
    fn add_source<R: Wait>(&mut self, rt: &R) -> Result<String, Fail> {
        let mut note = self.note();
        let submitter = match self
            .stand
            .publisher
            .submitter(rt, self.stand.alloc, &mut note)
        {
            Err(Refusal::NoMemory) => self
                .stand
                .publisher
                .submitter(rt, self.stand.alloc, &mut note)?,
            other => other?,
        };
        self.stand.submitters.push(submitter)?;
        Ok(String::new(self.stand.alloc))
    }

    // Closes the publisher, with a code if the step has one, a second time if memory was refused.
    fn close<R: Wait>(&mut self, rt: &R, step: Step) -> Result<String, Fail> {
        if self.close_once(rt, step).is_err() {
            self.close_once(rt, step)?;
        }
        Ok(format!(in self.stand.alloc; "ok")?)
    }

    fn close_once<R: Wait>(&mut self, rt: &R, step: Step) -> Result<(), Refusal> {
        let mut note = self.stand.publisher.note();
        match step {
            Step::Fail(code) => self
                .stand
                .publisher
                .close_exceptionally(rt, self.stand.alloc, &mut note, code),
            _ => self.stand.publisher.close(rt, self.stand.alloc, &mut note),
        }
    }

    // A note that knows of the close, if there was one.
    fn note(&self) -> Note
        ensures { result.cell ≡ self.now.stand.publisher.closing }
    {
        let mut note = self.stand.publisher.note();
        let _ = self.stand.publisher.is_closed(&mut note);
        note
    }

    // What a note that knew nothing is told, and whether that says that the publisher is closed.
    fn closing(&self) -> Result<String, Fail> {
        let mut note = self.stand.publisher.note();
        let is_closed = self.stand.publisher.is_closed(&mut note);
        let ending = self.stand.publisher.closed_with(&mut note);
        Ok(format!(in self.stand.alloc; "closed {is_closed} {ending:?}")?)
    }

    fn looks<R: Wait>(&self, rt: &R) -> Result<String, Fail> {
        let lag = self.stand.publisher.estimate_maximum_lag(rt);
        let many = self.stand.publisher.number_of_subscribers(rt);
        let capacity = self.stand.publisher.max_buffer_capacity();
        let (one, other) = (name_of("a")?, name_of("z")?);
        let is_one = self.stand.publisher.is_subscribed(rt, one);
        let is_other = self.stand.publisher.is_subscribed(rt, other);
        Ok(format!(in self.stand.alloc;
            "lag {lag} of {many}, capacity {capacity}, a {is_one}, z {is_other}"
        )?)
    }

    // Keeps a subscription, or a submitter, so that it is not handed in.
    fn keep(&mut self, step: Step) -> Result<String, Fail> {
        match step {
            Step::KeepSubscription(place) if place < self.stand.subscriptions.len() => {
                let kept = self.stand.subscriptions.remove(place);
                self.kept_subscriptions.push(kept)?;
            }
            Step::KeepSubmitter(place) if place < self.stand.submitters.len() => {
                let kept = self.stand.submitters.remove(place);
                self.kept_submitters.push(kept)?;
            }
            _ => (),
        }
        Ok(String::new(self.stand.alloc))
    }
}

fn refused_line<T: Debug>(alloc: Global, refusal: &T) -> Result<String, Fail> {
    Ok(format!(in alloc; "{refusal:?}")?)
}
