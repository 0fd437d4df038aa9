//! A listener of one's own, which stands on another.
ghost use Rattle.std.specs.Prelude.{◌≡◌, []};
ghost use Rattle.flow_rules.specs.Signals.{items_of};
ghost use Rattle.ship_example.specs.Texts.{longest_of};

use flow_rules::{Answer, Fault, Item, Listener, NoMemory, Printer};
use std::io::Write;
use std::marker::Model;

/// Writes each text that it is told, and knows the length of the longest.
#[derive(Drop)]
pub struct Shipper<W: Write> {
    printer: Printer<W>,
    longest: usize,
}

impl<W: Write> Model for Shipper<W> {
    ghost use Rattle.std.specs.Prelude.{◌≡◌};
    ghost use Rattle.flow_rules.specs.Printed.{Printed};
    ghost use Rattle.flow_rules.specs.Signals.{items_of};
    ghost use Rattle.ship_example.specs.Texts.{longest_of};

    ghost Value = { Printed };

    ghost view = { λ s. s.printer };

    ghost invariant = { λ s. s.longest ≡ longest_of (items_of s.printer.told) };
}

impl<W: Write> Shipper<W> {
    /// One that was told nothing.
    pub fn new(writer: W) -> Shipper<W>
        ensures untold { (result.told ≡ []) × (result.replied ≡ []) }
    {
        Shipper {
            printer: Printer::new(writer),
            longest: 0,
        }
    }

    /// Tells whether a write or the flush at the end failed, which no answer can say any more. If not, each text was written, in order, on a
    /// line of its own.
    pub fn has_failed(&self) -> bool
        ensures { result ≡ self.now.has_failed }
    {
        self.printer.has_failed()
    }

    /// Gives the length of the longest text that it was told, in bytes; 0 if it was told none.
    pub fn longest(&self) -> usize
        ensures { result ≡ longest_of (items_of self.now.told) }
    {
        self.longest
    }
}

impl<W: Write + Send + Drop> Listener for Shipper<W> {
    ghost use Rattle.std.specs.Prelude.{false};

    ghost told = { λ s. s.told };

    ghost replied = { λ s. s.replied };

    ghost is_steady = { λ _. false };

    #[tactic(auto, using(flow_rules::proofs::Items::subscribed_no_item))]
    fn on_subscribe(&mut self) -> Result<Answer, NoMemory> {
        self.printer.on_subscribe()
    }

    #[tactic(auto, using(crate::proofs::Texts::one_item_more))]
    fn on_next(&mut self, item: &Item) -> Result<Answer, NoMemory> {
        let answer = self.printer.on_next(item)?;
        self.longest = self.longest.max(item.text.as_bytes().len());
        Ok(answer)
    }

    #[tactic(auto, using(flow_rules::proofs::Items::error_no_item))]
    fn on_error(&mut self, fault: Fault) -> Result<Answer, NoMemory> {
        self.printer.on_error(fault)
    }

    #[tactic(auto, using(flow_rules::proofs::Items::complete_no_item))]
    fn on_complete(&mut self) -> Result<Answer, NoMemory> {
        self.printer.on_complete()
    }
}
