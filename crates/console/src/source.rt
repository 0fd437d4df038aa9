//! A source: a thread of its own, which publishes what the terminal hands to it.
use crate::desk::Desk;
use crate::echo::Echoes;
use crate::order::Call;
use crate::site::Site;
use flow_rules::{NoMemory, Refusal};
use publisher::{Ledgers, Published, Submitter};
use std::sync::{Arc, Wait};
use std::thread::{Scope, Threads};
use std::time::Clock;

/// The most sources of a terminal. Each is a thread.
pub const MOST_SOURCES: usize = 16;

/// How many texts may wait for the thread of a source.
pub const MOST_TEXTS: usize = 64;

/// A text that a source publishes, and how.
#[derive(Drop)]
pub struct Handed {
    /// How it is published.
    pub call: Call,
    /// Its bytes.
    pub text: Vec<u8>,
}

/// Starts the thread of a source, which publishes what its desk gives it, and ends once that is closed and empty.
/// `NoMemory` if the thread can't be started.
pub fn start_source<
    's,
    'v: 's,
    'e: 's,
    L: Ledgers + Send + Sync + 'static,
    R: Print + Clock + Threads + Wait + Copy + Send + Sync + 'static,
>(
    scope: &'s Scope<'s, &'v ()>,
    site: &'e Site<L, R>,
    number: u32,
    desk: Arc<Desk>,
) -> Result<(), NoMemory> {
    match scope.spawn(move || publish_all(site, number, &desk)) {
        Ok(_) => Ok(()),
        Err(_) => Err(NoMemory),
    }
}

/// Publishes the texts of a source, in order.
fn publish_all<
    L: Ledgers + Send + Sync + 'static,
    R: Print + Clock + Threads + Wait + Copy + Send + Sync + 'static,
>(site: &Site<L, R>, number: u32, desk: &Desk) {
    match site.submitter() {
        Ok(mut submitter) => {
            publish_each(site, number, desk, &mut submitter);
            // There is room for each source's. Were it refused, the end of the publisher would say that the submitter
            // is missing.
            let _ = site.hand_in(submitter);
        }
        Err(refusal) => refuse_each(site, number, desk, &Err(refusal)),
    }
}

/// Publishes each text, and says what came of it. Whoever reads the answer finds the text counted.
fn publish_each<L: Ledgers + Send, R: Print + Clock + Wait + Copy + Send + Sync + 'static>(
    site: &Site<L, R>,
    number: u32,
    desk: &Desk,
    submitter: &mut Submitter<L, Echoes<R>>,
) {
    for _ in site.rt.forever() {
        let Some(handed) = desk.texts.pop(&site.rt) else {
            return;
        };
        desk.begin(&site.rt, handed.call);
        let published = publish(site, &handed, submitter);
        desk.end(&site.rt, published.is_ok());
        answer(site, number, handed.call, &published);
        desk.rest(&site.rt);
    }
}

/// Publishes a text.
fn publish<L: Ledgers + Send, R: Print + Clock + Wait + Copy + Send + Sync + 'static>(
    site: &Site<L, R>,
    handed: &Handed,
    submitter: &mut Submitter<L, Echoes<R>>,
) -> Result<Published, Refusal> {
    let Handed { call, text } = handed;
    match call {
        Call::Submit => submitter
            .submit(&site.rt, site.alloc, text.as_slice())
            .map(|lag| Published { lag, dropped: 0 }),
        Call::Publish => submitter.publish(&site.rt, site.alloc, text.as_slice()),
    }
}

/// Says what came of a text. If a subscription lost it, the longest backlog is that of its full buffer. The screen keeps
/// what has failed, and the terminal looks there.
fn answer<L: Ledgers + Send, R: Print + Clock + Wait + Copy + Send + Sync + 'static>(
    site: &Site<L, R>,
    number: u32,
    call: Call,
    published: &Result<Published, Refusal>,
) {
    let Site {
        publisher,
        screen,
        ..
    } = site;
    let word = call.word();
    let _ = match published {
        Ok(Published { lag, dropped: 0 }) => screen.say(format_args!("= {word} {number} {lag}")),
        Ok(Published { dropped, .. }) => {
            let lag = publisher.max_buffer_capacity();
            screen.say(format_args!("= {word} {number} {lag}, {dropped} dropped"))
        }
        Err(refusal) => screen.say(format_args!("= {word} {number} {refusal}")),
    };
}

/// Answers each text with why the source can't publish.
fn refuse_each<L: Ledgers + Send, R: Print + Clock + Wait + Copy + Send + Sync + 'static>(
    site: &Site<L, R>,
    number: u32,
    desk: &Desk,
    refused: &Result<Published, Refusal>,
) {
    for _ in site.rt.forever() {
        let Some(handed) = desk.texts.pop(&site.rt) else {
            return;
        };
        desk.end(&site.rt, false);
        answer(site, number, handed.call, refused);
        desk.rest(&site.rt);
    }
}
