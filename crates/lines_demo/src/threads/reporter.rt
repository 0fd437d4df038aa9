//! A subscriber that makes up its part of the report while it is told.
ghost use Rattle.std.specs.Prelude.{◌≡◌, ◌++◌, [], IfOk, OnOk, OnErr, is_ok, length, map, min, ◌-◌, ◌^◌};
ghost use Rattle.flow_rules.specs.Signals.{items_of};
ghost use Rattle.commands.specs.Writing.{Writes, line_of};
ghost use Rattle.lines_demo.specs.Threads.Report.{beginning_of, lines_by_source};
ghost use Rattle.lines_demo.specs.Threads.Run.{AreUntold};

use super::plan::{NamedDemand, NamedFailure, Plan};
use commands::{OutputFault, write_whole};
use flow_rules::{Answer, Fault, Item, Listener, Name, NoMemory, Signal, Told};
use std::alloc::Global;
use std::io::Write;
use std::marker::Model;

/// The lines of a source that a subscriber was told, as the report has them.
#[derive(Drop)]
struct SourceLines {
    /// How each begins: the name of the subscriber, and the source.
    beginning: Vec<u8>,
    lines: Vec<u8>,
}

impl SourceLines {
    /// No lines yet.
    fn new(alloc: Global, name: Name, source: u32) -> Result<SourceLines, NoMemory>
        ensures beginning { IfOk result (λ made. made.beginning.items ≡ beginning_of name source) }
        ensures empty { IfOk result (λ made. made.lines.items ≡ []) }
    {
        let mut beginning = Vec::new(alloc);
        match write!(beginning, "{name} {source} ") {
            Ok(()) => Ok(SourceLines {
                beginning,
                lines: Vec::new(alloc),
            }),
            Err(_) => Err(NoMemory),
        }
    }

    /// Adds the line of a text. If the growth is refused, it adds nothing.
    fn add(&mut self, text: &[u8]) -> Result<(), NoMemory>
        ensures beginning { self.new.beginning.items ≡ self.old.beginning.items }
        ensures added { OnOk result (self.new.lines.items
            ≡ self.old.lines.items ++ line_of (self.old.beginning.items ++ text.now)) }
        ensures unchanged { OnErr result (self.new.lines.items ≡ self.old.lines.items) }
    {
        let length = self.beginning.len().saturating_add(text.len());
        self.lines.reserve(length.saturating_add(1))?;
        self.lines.extend_from_slice(self.beginning.as_slice())?;
        self.lines.extend_from_slice(text)?;
        self.lines.push(b'\n')?;
        Ok(())
    }
}

/// A subscriber that requests items once, and makes up the lines of the report for each that it is told. It grows with
/// each item, and a growth may be refused.
#[derive(Drop)]
pub struct Reporter {
    told: Told,
    /// How many items it requests.
    demand: i64,
    /// At which of its items it fails, if it does.
    fails: Option<NamedFailure>,
    /// How many items it was told.
    items: u64,
    /// The lines of each source, in the order of the report.
    sources: Vec<SourceLines>,
}

impl Model for Reporter {
    ghost use Rattle.std.specs.Prelude.{◌≡◌, ◌-◌, ◌^◌, length, min, map};
    ghost use Rattle.flow_rules.specs.Signals.{items_of};
    ghost use Rattle.lines_demo.specs.Threads.Report.{AreLines, ReporterState};

    ghost Value = { ReporterState };

    ghost view = { λ r. record {
      signals = r.told.signals;
      replies = r.told.replies;
      beginnings = map (λ kept. kept.beginning.items) r.sources.items;
    } };

    ghost invariant = { λ r. AreLines 0 r.sources.items (items_of r.told.signals)
        × (r.items ≡ min (length (items_of r.told.signals)) (2 ^ 64 - 1)) };
}

impl Reporter {
    /// Makes one that was told nothing: the submitters that it hears of are those of these sources, in order.
    fn new(
        alloc: Global,
        subscriber: &NamedDemand,
        fails: Option<NamedFailure>,
        sources: &[u32],
    ) -> Result<Reporter, NoMemory>
        ensures untold { IfOk result (λ reporter. (reporter.signals ≡ []) × (reporter.replies ≡ [])) }
        ensures beginnings { IfOk result (λ reporter.
            reporter.beginnings ≡ map (beginning_of subscriber.now.name) sources.now) }
    {
        let mut lines = Vec::with_capacity(alloc, sources.len())?;
        for source in sources {
            lines.push(SourceLines::new(alloc, subscriber.name, *source)?)?;
        }
        Ok(Reporter {
            told: Told::new(),
            demand: i64::try_from(subscriber.demand).unwrap_or(i64::MAX),
            fails: fails.filter(|failure| failure.name == subscriber.name),
            items: 0,
            sources: lines,
        })
    }

    /// How many items it was told.
    pub fn items(&self) -> u64
        ensures { result ≡ min (length (items_of self.now.signals)) (2 ^ 64 - 1) }
    {
        self.items
    }

    /// Writes the lines of the items that it was told, source by source.
    pub fn write_lines<W: Write>(&self, writer: &mut W) -> Result<(), OutputFault>
        ensures { Writes (is_ok result) (W.contents writer.old) (W.contents writer.new)
            (lines_by_source 0 self.now.beginnings (items_of self.now.signals)) }
    {
        for source in self.sources.iter() {
            write_whole(writer, source.lines.as_slice())?;
        }
        Ok(())
    }
}

impl Listener for Reporter {
    ghost use Rattle.std.specs.Prelude.{false};

    ghost told = { λ r. r.signals };

    ghost replied = { λ r. r.replies };

    ghost is_steady = { λ _. false };

    #[tactic(auto, using(flow_rules::proofs::Items::subscribed_no_item))]
    fn on_subscribe(&mut self) -> Result<Answer, NoMemory> {
        let answer = if self.demand > 0 {
            Answer::Request(self.demand)
        } else {
            Answer::Go
        };
        Ok(self.told.tell(&Signal::Subscribed, answer))
    }

    fn on_next(&mut self, item: &Item) -> Result<Answer, NoMemory> {
        if let Some(source) = self.sources.get_mut(item.source as usize) {
            if source.add(item.text.as_bytes()).is_err() {
                return Err(self.told.refuse());
            }
        }
        self.items = self.items.saturating_add(1);
        let answer = answer_to(self.items, self.fails);
        Ok(self.told.tell_next(item, answer))
    }

    #[tactic(auto, using(flow_rules::proofs::Items::error_no_item))]
    fn on_error(&mut self, fault: Fault) -> Result<Answer, NoMemory> {
        Ok(self.told.tell_last(&Signal::Error(fault)))
    }

    #[tactic(auto, using(flow_rules::proofs::Items::complete_no_item))]
    fn on_complete(&mut self) -> Result<Answer, NoMemory> {
        Ok(self.told.tell_last(&Signal::Complete))
    }
}

/// What a subscriber that fails there, or never, answers to the item of this number.
fn answer_to(item: u64, fails: Option<NamedFailure>) -> Answer {
    match fails {
        Some(failure) if failure.item == item => Answer::Fail(failure.code),
        _ => Answer::Go,
    }
}

/// A subscriber, and the name that it subscribes with.
#[derive(Drop)]
pub struct NamedSubscriber<B: Drop> {
    pub name: Name,
    pub subscriber: B,
}

/// The subscribers of a plan, in its order, for lines of these sources. Each was told nothing.
pub fn reporters_of(
    alloc: Global,
    plan: &Plan,
    sources: &[u32],
) -> Result<Vec<NamedSubscriber<Reporter>>, NoMemory>
    ensures untold { IfOk result (λ reporters. AreUntold (λ reporter. reporter.signals)
        (λ reporter. reporter.replies) reporters.items) }
    ensures as_many { IfOk result (λ reporters. length reporters.items ≡ length plan.now.subscribers) }
{
    let mut reporters = Vec::new(alloc);
    for subscriber in plan.subscribers() {
        reporters.push(NamedSubscriber {
            name: subscriber.name,
            subscriber: Reporter::new(alloc, subscriber, plan.fail(), sources)?,
        })?;
    }
    Ok(reporters)
}
