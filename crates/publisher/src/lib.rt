//! A publisher that threads share (`java.util.concurrent.SubmissionPublisher`, Java SE 17): it takes texts from any
//! number of threads, and gives each to every current subscriber.
//!
//! # Who does what
//!
//! A [`Publisher`] has a pool of worker threads. A [`Submitter`] publishes from the thread that has it, in that
//! thread's order, and a [`Subscription`] requests and cancels from the one that has it. A worker tells subscribers
//! what is owed, one turn of one subscription at a time. [`finish`] ends the workers and gives what is left of each
//! subscription; its contract says what every subscriber was told, whatever the threads did.
//!
//! | What | Who | Waits |
//! |---|---|---|
//! | a publication, a subscribing, a close | whoever calls it | for the publisher's lock, behind which stand the list of subscriptions and the numbers of the publications; `submit` and `submit_all`, as long as a buffer is full; and `publish` and `publish_all`, as long as one is full whose subscription says [`OnFull::Wait`] |
//! | a request, a cancel | whoever has the subscription | only if that starts a task, which is handed to the pool |
//! | a look: [`is_closed`](Publisher::is_closed), [`closed_with`](Publisher::closed_with), [`requested`](Subscription::requested) | whoever has it | never |
//! | a look: [`lag`](Subscription::lag), [`has_ended`](Subscription::has_ended), [`stats`](Publisher::stats), the numbers of subscribers | whoever has it | for the publisher's lock |
//! | [`wait_end`](Subscription::wait_end), [`wait_drained`](Publisher::wait_drained), [`finish`] | whoever has it | until the subscription has ended; until all have that were there at the close; until each worker has ended |
//! | a turn, with its callbacks | a worker; a blocked submitter; or whoever started the task, if the pool takes none | for no lock. After it, if an item's callback failed, for the lock of the handler that hears of it; and if the subscription has ended or somebody waits for room, for the publisher's lock |
//!
//! Each subscription has a buffer that its publisher and its task share without a lock (`feed_cell`). So callbacks run
//! outside every lock: one may wait for what another subscriber's callback does, and each call of the publisher
//! returns meanwhile. It may publish, request, subscribe or close itself; a listener that does runs, but the toolchain
//! proves none yet: it states no type that holds its own [`Subscription`], and checks no borrows in a callback that
//! calls a [`Submitter`]. A callback may not wait for what its own subscription is to be told, nor `submit` to its own
//! publisher unless others make room; and a drop handler runs while the lock is held, so it may not call its
//! publisher.
//!
//! A caller works in a function over any [`Ledgers`], which name the publisher: a submitter or a subscription of another
//! one does not fit.
//!
//! ```
//! let mut counter = publisher.subscribe(rt, alloc, name, Tally::new())?;
//! counter.request(rt, 9)?;
//! let mut note = publisher.note();
//! let mut submitter = publisher.submitter(rt, alloc, &mut note)?;
//! submitter.submit(rt, alloc, b"hello")?;
//! publisher.close(rt, alloc, &mut note)?;
//! counter.wait_end(rt);                            // the counter was told the item, and onComplete
//! ```
#![tactic(auto)]

mod awaiting;
mod consumer_task;
mod controller;
mod dispatcher;
mod failures;
mod finishing;
mod job;
mod ledgers;
mod note;
mod outcome;
mod owner;
mod publisher;
mod refused;
mod shared;
mod shared_handle;
mod state;
mod submitter;
mod subscription;
mod turned;
mod watch_each;

pub use async_pool::MOST_WORKERS;
pub use controller::Controller;
pub use feed_core::Lane;
pub use finishing::{HandedIn, finish};
pub use flow_rules::{
    DropHandler, Ending, ErrorOrder, FailHandler, Fault, How, LARGEST_CAPACITY, LastFailure,
    Listener, MOST_PUBLICATIONS, Name, NoMemory, Refusal, Text,
};
pub use ledgers::{BlankPair, Ledgers, SharedLedgers};
pub use note::Note;
pub use outcome::{NamedLane, Outcome};
pub use publisher::{Publisher, PublisherOptions};
pub use publisher_hub::{
    Figures, MOST_ENTRIES, MOST_LIVE, MOST_SOURCES, OnFull, Published, USUAL_LIVE,
};
pub use refused::Refused;
pub use state::Stats;
pub use submitter::{PublishedAll, PublishedPart, Submitter, Unsent};
pub use subscription::Subscription;
pub use watch_each::{Look, WatchEach};
