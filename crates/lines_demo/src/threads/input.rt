//! The input of a run: what its lines have published, and by whom.
ghost use Rattle.std.specs.Prelude.{◌≡◌, ◌⊎◌, ◌==◌, ◌<◌, ◌≤◌, Err, IfErr, IfOk, Ok, OnOk, length, nat_le, position};
ghost use Rattle.std.specs.List.{list_any};
ghost use Rattle.flow_rules.specs.declared.refusal.Refusal.TheVariants as Refusal;
ghost use Rattle.commands.specs.Line.{lines_of};
ghost use Rattle.lines_demo.specs.Threads.Input.{AddsLine, line_publications, place_of, sources_of, spelled_publication, spelled_publications, with_source};

use super::plan::Plan;
use commands::{TextBytes, parse_code, parse_text, split_line, split_word, strip_return};
use flow_rules::{NoMemory, Refusal, Text};
use std::alloc::Global;
use std::marker::Model;

/// The most sources of a run.
pub const MOST_SOURCES: usize = 16;

/// One text, and the source that publishes it.
#[derive(Drop)]
pub struct Publication<'a> {
    /// The number of the source.
    pub source: u32,
    /// The text, of 1 to 4,096 bytes if it was read.
    pub text: TextBytes<'a>,
}

/// What is published, in the order of its lines, and the sources in ascending order.
#[derive(Drop)]
pub struct Input<'a> {
    publications: Vec<Publication<'a>>,
    sources: Vec<u32>,
}

impl<'a> Model for Input<'a> {
    ghost use Rattle.lines_demo.specs.Threads.Input.{InputState};

    ghost Value = { InputState };

    ghost view = { λ i. record { publications = i.publications.items; sources = i.sources.items } };
}

impl<'a> Input<'a> {
    ghost use Rattle.std.specs.Prelude.{◌≡◌};
    ghost use Rattle.lines_demo.specs.Threads.Plan.{IsOrLacksMemory};
    ghost use Rattle.lines_demo.specs.Threads.Input.{input_of};

    /// What the lines of these bytes have published by a plan.
    ///
    /// Refused by the first line that is refused: 12 if its form is not `SOURCE TEXT`, and 6 if its text is too long.
    /// Then refused 12 if there are more than [`MOST_SOURCES`]; and 11 if a publication might wait for ever, since a
    /// subscriber requests fewer items than there are, and its buffer does not hold the others. 5 if a growth is
    /// refused.
    pub fn read(alloc: Global, plan: &Plan, bytes: &'a [u8]) -> Result<Input<'a>, Refusal>
        ensures { IsOrLacksMemory result (input_of plan.now bytes.entry.now) }
    {
        let publications = parse_publications(alloc, bytes)?;
        let sources = collect_sources(alloc, publications.as_slice())?;
        if plan.would_block(publications.len()) {
            return Err(Refusal::WouldWait);
        }
        Ok(Input {
            publications,
            sources,
        })
    }

    /// What is published, in the order of the lines.
    pub fn publications(&self) -> &[Publication<'a>]
        ensures { result.now ≡ self.now.publications }
    {
        self.publications.as_slice()
    }

    /// The sources, in ascending order.
    pub fn sources(&self) -> &[u32]
        ensures { result.now ≡ self.now.sources }
    {
        self.sources.as_slice()
    }
}

/// The publications that the lines of these bytes spell.
fn parse_publications(alloc: Global, bytes: &[u8]) -> Result<Vec<Publication<'_>>, Refusal>
    ensures ok { IfOk result (λ publications.
        spelled_publications (lines_of bytes.entry.now) ≡ Ok publications.items) }
    ensures refusals { IfErr result (λ refusal. (refusal ≡ Refusal.NoMemory)
        ⊎ (spelled_publications (lines_of bytes.entry.now) ≡ Err refusal)) }
{
    let mut publications = Vec::new(alloc);
    let mut rest = bytes;
    while !rest.is_empty() {
        let (line, after) = split_line(rest);
        if let Err(refusal) = push_line(&mut publications, strip_return(line)) {
            return Err(refusal);
        }
        rest = after;
    }
    Ok(publications)
}

/// Adds the publication that a line spells, unless the line is empty.
fn push_line<'a>(publications: &mut Vec<Publication<'a>>, line: &'a [u8]) -> Result<(), Refusal>
    ensures ok { OnOk result
        (AddsLine line.entry.now publications.old.items publications.new.items) }
    ensures refusals { IfErr result (λ refusal. (refusal ≡ Refusal.NoMemory)
        ⊎ (line_publications line.entry.now ≡ Err refusal)) }
{
    if line.is_empty() {
        return Ok(());
    }
    let publication = parse_publication(line)?;
    if publications.push(publication).is_err() {
        return Err(Refusal::NoMemory);
    }
    Ok(())
}

/// The publication that a line spells. Refused 12 if its form is wrong, and 6 if its text is too long.
#[tactic(auto, unfolding(crate::specs::Threads::Input::spelled_publication))]
pub(super) fn parse_publication(line: &[u8]) -> Result<Publication<'_>, Refusal>
    ensures { result ≡ spelled_publication line.entry.now }
{
    let (word, rest) = split_word(line);
    let Some(source) = parse_code(word) else {
        return Err(Refusal::BadCommand);
    };
    let Some(text) = parse_text(rest) else {
        return Err(Refusal::BadCommand);
    };
    if text.as_bytes().len() > Text::LONGEST {
        return Err(Refusal::LineTooLong);
    }
    Ok(Publication { source, text })
}

/// The sources of these publications. Refused 12 if there are too many.
fn collect_sources(alloc: Global, publications: &[Publication<'_>]) -> Result<Vec<u32>, Refusal>
    ensures ok { IfOk result (λ sources. (sources.items ≡ sources_of publications.now)
        × (length sources.items ≤ MOST_SOURCES)) }
    ensures refusals { IfErr result (λ refusal. (refusal ≡ Refusal.NoMemory)
        ⊎ ((refusal ≡ Refusal.BadCommand)
        × (MOST_SOURCES < length (sources_of publications.now)))) }
{
    let mut sources = Vec::new(alloc);
    for publication in publications {
        if add_source(&mut sources, publication.source).is_err() {
            return Err(Refusal::NoMemory);
        }
        if sources.len() > MOST_SOURCES {
            return Err(Refusal::BadCommand);
        }
    }
    Ok(sources)
}

/// Puts a source at its place among those in ascending order, if it isn't among them.
pub(super) fn add_source(sources: &mut Vec<u32>, source: u32) -> Result<(), NoMemory>
    ensures { OnOk result (sources.new.items ≡ with_source source sources.old.items) }
{
    if has_source(sources, source) {
        return Ok(());
    }
    let place = place_of(sources, source);
    sources.insert(place, source)?;
    Ok(())
}

/// Whether a source is among these.
fn has_source(sources: &[u32], source: u32) -> bool
    ensures { result ≡ list_any (λ other. other == source) sources.now }
{
    sources.iter().any(|other| *other == source)
}

/// The place of a source among those in ascending order.
fn place_of(sources: &[u32], source: u32) -> usize
    ensures place { result ≡ place_of source sources.now }
    ensures within { result ≤ length sources.now }
{
    first_not_below(sources, source).unwrap_or(sources.len())
}

/// The place of the first source that isn't below this one.
fn first_not_below(sources: &[u32], source: u32) -> Option<usize>
    ensures { result ≡ position (λ other. nat_le source other) sources.now }
{
    sources.iter().position(|other| source <= *other)
}
