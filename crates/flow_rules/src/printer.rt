//! A listener that writes.
ghost use Rattle.std.specs.Prelude.{◌≡◌, ◌∷◌, ◌++◌, [], true, false};
ghost use Rattle.std.specs.Io.KnownBytes.{Appends};
ghost use Rattle.flow_rules.specs.Printed.{IsPrinted};

use crate::answer::Answer;
use crate::item::Item;
use crate::listener::Listener;
use crate::refusal::NoMemory;
use crate::signal::{Fault, Signal};
use crate::text::Text;
use crate::told::Told;
use boxcar::tag::{Names, Tag};
use std::fmt;
use std::io::Write;
use std::marker::Model;

/// A listener that hands each text that it is told to a writer, on a line of its own, and keeps none. After a write
/// that failed it writes nothing more, and cancels its subscription. A terminal signal flushes the writer.
#[derive(Drop)]
pub struct Printer<W: Write> {
    told: Told,
    writer: W,
    /// What the writer held at first. It has no bytes, and is there for the proof.
    before: Tag,
    /// Whether a write or a flush failed.
    has_failed: bool,
}

impl<W: Write> Model for Printer<W> {
    ghost use Rattle.flow_rules.specs.Printed.{Printed, IsPrinted, contents_of};

    ghost Value = { Printed };

    ghost view = { λ p. record {
      told = p.told.signals;
      replied = p.told.replies;
      before = contents_of p.before.numbers;
      contents = W.contents p.writer;
      has_failed = p.has_failed;
    } };

    ghost invariant = { λ p. IsPrinted p.told.signals (contents_of p.before.numbers) (W.contents p.writer)
        p.has_failed };
}

/// Reads off a writer what it holds.
struct Contents;

impl<W: Write> Names<W> for Contents {
    ghost use Rattle.flow_rules.specs.Printed.{numbers_of};

    ghost numbers = { λ writer. numbers_of (W.contents writer) };
}

impl<W: Write> Printer<W> {
    /// One that was told nothing.
    #[tactic(auto, using(crate::proofs::Items::contents_kept))]
    pub fn new(writer: W) -> Printer<W>
        ensures untold { (result.told ≡ []) × (result.replied ≡ []) }
        ensures before { result.before ≡ W.contents writer }
        ensures unfailed { result.has_failed ≡ false }
    {
        Printer {
            told: Told::new(),
            before: Tag::of::<W, Contents>(&writer),
            writer,
            has_failed: false,
        }
    }

    /// Whether a write or a flush failed. If none did, the writer got the texts of all items that it was told, in
    /// order, each on a line of its own.
    pub fn has_failed(&self) -> bool
        ensures value { result ≡ self.now.has_failed }
        ensures written { IsPrinted self.now.told self.now.before self.now.contents result }
    {
        self.has_failed
    }

    /// The writer, taken out.
    pub fn into_writer(self) -> W
        ensures { W.contents result ≡ self.contents }
    {
        self.writer
    }

    /// Has the writer hand on what it holds back, unless a write failed before.
    fn flush(&mut self)
        ensures told { (self.new.told ≡ self.old.told) × (self.new.replied ≡ self.old.replied) }
    {
        if !self.has_failed {
            self.has_failed = self.writer.flush().is_err();
        }
    }
}

/// What it answers to a callback, by whether a write failed.
fn answer_after(has_failed: bool) -> Answer {
    if has_failed {
        Answer::Cancel
    } else {
        Answer::Go
    }
}

impl<W: Write> fmt::Debug for Printer<W> {
    fn fmt<F: fmt::Write>(&self, f: &mut fmt::Formatter<F>) -> fmt::Result {
        f.debug_struct("Printer")
            .field("has_failed", &self.has_failed)
            .finish_non_exhaustive()
    }
}

impl<W: Write + Send + Drop> Listener for Printer<W> {
    ghost use Rattle.std.specs.Prelude.{false};

    ghost told = { λ p. p.told };

    ghost replied = { λ p. p.replied };

    ghost is_steady = { λ _. false };

    #[tactic(auto, using(crate::proofs::Items::subscribed_no_item))]
    fn on_subscribe(&mut self) -> Result<Answer, NoMemory> {
        let answer = answer_after(self.has_failed);
        Ok(self.told.tell(&Signal::Subscribed, answer))
    }

    fn on_next(&mut self, item: &Item) -> Result<Answer, NoMemory> {
        if !self.has_failed {
            self.has_failed = fails_to_print(&mut self.writer, &item.text);
        }
        let answer = answer_after(self.has_failed);
        Ok(self.told.tell_next(item, answer))
    }

    #[tactic(auto, using(crate::proofs::Items::error_no_item))]
    fn on_error(&mut self, fault: Fault) -> Result<Answer, NoMemory> {
        self.flush();
        Ok(self.told.tell_last(&Signal::Error(fault)))
    }

    #[tactic(auto, using(crate::proofs::Items::complete_no_item))]
    fn on_complete(&mut self) -> Result<Answer, NoMemory> {
        self.flush();
        Ok(self.told.tell_last(&Signal::Complete))
    }
}

/// Writes a text on a line of its own, and answers whether that failed.
fn fails_to_print<W: Write>(writer: &mut W, text: &Text) -> bool
    ensures { result ≡ false → Appends (W.contents writer.old) (W.contents writer.new)
        (text.now ++ 10 ∷ []) }
{
    writer.write_all(text.as_bytes()).is_err() || writer.write_all(b"\n").is_err()
}
