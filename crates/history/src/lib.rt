//! A history of all that was published, which takes no memory: what each source wrote are its texts in it.
//!
//! The state behind a lock has the [`History`], and each source a [`Pass`] of no bytes that knows what it wrote. Both
//! are of one table of `atomic_table` with a word that never changes, whose rule says that the texts of a source in the
//! history are those of its pass. So a clause outside of the lock can say which text was published: the pass has one
//! more. At the end [`take_back`](History::take_back) compares each pass with the whole history. A [`Receipt`] is a
//! beginning of the history that was seen.
//!
//! ```
//! let mut history = BlankHistory::new(alloc)?.named();
//! let mut pass = history.make_source();
//! history.write(&mut pass, Snapshot::of(&text));   // the text is the last of both
//! history.take_back(pass);                         // what it wrote are the texts of its source
//! ```
#![tactic(auto)]

mod history;
mod rule;

pub use history::{BlankHistory, History, Pass, Receipt};
pub use rule::{Entry, HistoryId};
