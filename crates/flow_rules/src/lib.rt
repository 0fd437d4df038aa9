//! The rules of `java.util.concurrent.Flow` as plain values: items and signals, what a subscriber promises,
//! capacity, demand, and the check that a list of signals is one that the rules allow.
//!
//! ```
//! let text = Text::new(alloc, b"x")?;
//! let item = Item { source: 0, seq: 0, serial: 0, text };
//! let mut collector = Collector::asking(alloc, 1);
//! let first = Subscriber::on_subscribe(&mut collector)?;      // Answer::Request(1)
//! let next = Subscriber::on_next(&mut collector, &item)?;     // Answer::Go
//! let _ = Subscriber::on_complete(&mut collector)?;
//! let is_allowed = audit(collector.told());                   // true
//! ```
//!
//! A type of one's own that is told is a [`Watch`], which promises nothing and needs no proof; or a [`Listener`], whose
//! promise is proved. A [`Subscriber`] also keeps the list of its signals and shows it, as [`Collector`] does. A
//! `Box<dyn Listener + Send>` is a listener too, so that one publisher can have listeners of different types.
#![tactic(auto)]

mod amount;
mod answer;
mod audits;
mod capacities;
mod collector;
mod demand;
mod ending;
mod error_order;
mod fail_handler;
mod feed;
mod how;
mod item;
mod listener;
mod name;
mod printer;
mod refusal;
mod shown;
mod signal;
mod subscriber;
mod tally;
mod text;
mod told;
mod watching;

pub use amount::Amount;
pub use answer::Answer;
pub use audits::audit;
pub use capacities::{LARGEST_CAPACITY, capacity};
pub use collector::Collector;
pub use demand::{Demand, IllegalArgument, UNBOUNDED};
pub use ending::Ending;
pub use error_order::ErrorOrder;
pub use fail_handler::{FailHandler, LastFailure};
pub use feed::{DropHandler, Feed, Put, PutAll, Standing};
pub use how::How;
pub use item::{Item, MOST_PUBLICATIONS};
pub use listener::{GoesOn, Listener};
pub use name::{Name, NotAName};
pub use printer::Printer;
pub use refusal::{BadCapacity, Explained, NoMemory, Refusal};
pub use shown::Shown;
pub use signal::{Fault, Signal};
pub use subscriber::Subscriber;
pub use tally::Tally;
pub use text::Text;
pub use told::Told;
pub use watching::{Watch, Watching};
