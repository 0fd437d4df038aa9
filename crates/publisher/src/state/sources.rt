//! The submitters of a publisher: their numbers and names, and their shares of what was published.
//!
//! Each has one part of two ledgers, which sum up publications and drops, and a pass of the history, which knows what it
//! sent. Whether all are there, and what they have together, is found at the end of the publisher alone; what one of them
//! publishes stands in `publish`.
ghost use Rattle.std.specs.Prelude.{◌≡◌, ◌+◌, ◌<◌, ◌≤◌, ◌↔◌, ◌∷◌, ◌++◌, ◌||◌, [], false, is_some, IfErr, IfOk, IsErr, OnErr, None, Some, codes, decimal, length, slice_set, true};
ghost use Rattle.flow_rules.specs.Name.{is_name, is_name_byte};
ghost use Rattle.flow_rules.specs.declared.refusal.Refusal.TheVariants as Refusal;
ghost use Rattle.history.specs.History.{is_in, texts_of};
ghost use Rattle.publisher.specs.Content.{AreSentIn};
ghost use Rattle.publisher.specs.declared.state.TheConstants.{PARTS};
ghost use Rattle.publisher_hub.specs.declared.hub.TheConstants.{MOST_SOURCES};
ghost use Rattle.publisher.specs.Together.{AreTogether, Audits, FindsMissing, marks};

use super::{PARTS, State};
use crate::ledgers::{Drops, Ledgers, Pages, Publications};
use crate::submitter::Submitter;
use flow_rules::{FailHandler, Listener, Name, Refusal};
use history::{History, Pass};
use publisher_hub::MOST_SOURCES;
use std::sync::ledger::{Book, Ledger, Share};

/// What a submitter owns: its number; one part of each ledger, which sum up how many items it published and how many of
/// its offers found a buffer full; and its pass, which knows what it published.
#[derive(Drop)]
pub struct Own<L: Ledgers> {
    pub source: u32,
    pub publications: Share<Publications<L>>,
    pub drops: Share<Drops<L>>,
    pub pass: Pass<Pages<L>>,
    ghost few: { source < MOST_SOURCES },
    ghost one: { publications.parts ≡ 1 },
    ghost one_of_drops: { drops.parts ≡ 1 },
    ghost numbered: { pass.source ≡ source },
    ghost many: { length pass.sent ≡ publications.amount },
}

impl<L: Ledgers, B: Listener> State<L, B> {
    /// Gives the number of one more submitter, with its parts of the ledgers. Refused 4 after the last possible one.
    pub fn next_source(&mut self) -> Result<Own<L>, Refusal>
        ensures next { IfOk result (λ own. own.source ≡ self.old.hub.sources) }
        ensures new { IfOk result (λ own. (own.publications.amount ≡ 0) × (own.drops.amount ≡ 0)) }
        ensures unsent { IfOk result (λ own. own.pass.sent ≡ []) }
        ensures counted { IfOk result (λ own. self.new ≡ record self.old {
          hub = record self.old.hub { sources = own.source + 1 };
        }) }
        ensures refusals { IfErr result (λ refusal. refusal ≡ Refusal.TooMany) }
        ensures refused { IsErr result ↔ (self.old.hub.sources ≡ MOST_SOURCES) }
        ensures unchanged { OnErr result (self.new ≡ self.old) }
    {
        let source = self.hub.next_source()?;
        self.sources = source + 1;
        Ok(Own {
            source,
            publications: self.rest.split_off(1, 0),
            drops: self.rest_of_drops.split_off(1, 0),
            pass: self.history.make_source(),
        })
    }
}

/// What submitters have together.
#[derive(Drop)]
pub(super) struct Together<L: Ledgers> {
    publications: Share<Publications<L>>,
    drops: Share<Drops<L>>,
    /// Of each number, whether it is that of one of them.
    sources: [bool; MOST_SOURCES],
    /// Whether one of them knows that the publisher is closed.
    pub knows: bool,
}

impl<L: Ledgers> Together<L> {
    /// Takes in what one more of them owns, whose pass the history takes back.
    fn take_in(&mut self, own: Own<L>, knows: bool, history: &mut History<Pages<L>>)
        ensures publications { self.new.publications.amount
            ≡ self.old.publications.amount + own.publications.amount }
        ensures drops { self.new.drops.amount ≡ self.old.drops.amount + own.drops.amount }
        ensures parts { self.new.publications.parts ≡ self.old.publications.parts + 1 }
        ensures drop_parts { self.new.drops.parts ≡ self.old.drops.parts + 1 }
        ensures sources { self.new.sources ≡ slice_set self.old.sources own.source true }
        ensures knows { self.new.knows ≡ (self.old.knows || knows) }
        ensures texts { own.pass.sent ≡ texts_of own.source history.old.log }
        ensures many { length own.pass.sent ≡ own.publications.amount }
        ensures first { is_in own.source history.old.back ≡ false }
        ensures back { history.new
            ≡ record history.old { back = own.source ∷ history.old.back } }
    {
        let Own {
            source,
            publications,
            drops,
            pass,
        } = own;
        history.take_back(pass);
        self.publications.merge(publications);
        self.drops.merge(drops);
        self.sources[source as usize] = true;
        self.knows |= knows;
    }
}

/// Puts together what these submitters have, whose passes the history takes back.
pub(super) fn put_together<L: Ledgers + Send, B: Listener + Send, F: FailHandler + Send>(
    rest: &mut Share<Publications<L>>,
    rest_of_drops: &mut Share<Drops<L>>,
    history: &mut History<Pages<L>>,
    mut submitters: Vec<Submitter<L, B, F>>,
) -> Together<L>
    ensures together { AreTogether submitters.items [] result.publications.amount
        result.drops.amount result.publications.parts result.drops.parts result.sources
        result.knows }
    ensures sent { AreSentIn history.old.log submitters.items }
    ensures log { history.new.log ≡ history.old.log }
    ensures made { history.new.made ≡ history.old.made }
    ensures same { (rest.new ≡ rest.old) × (rest_of_drops.new ≡ rest_of_drops.old) }
{
    let mut together = Together {
        publications: rest.empty(),
        drops: rest_of_drops.empty(),
        sources: [false; MOST_SOURCES],
        knows: false,
    };
    while let Some(submitter) = submitters.pop() {
        let (own, knows) = submitter.give_up();
        together.take_in(own, knows, history);
    }
    together
}

impl<L: Ledgers + Send, B: Listener + Send> State<L, B> {
    /// Compares what submitters have together with the totals. The answer is the name of the first one that is
    /// missing, as `source-3`.
    pub(super) fn audit(&mut self, together: Together<L>) -> Option<Name>
        requires parts { marks together.sources ≤ together.publications.parts }
        requires drop_parts { marks together.sources ≤ together.drops.parts }
        ensures audits { Audits together.sources together.publications.amount
            together.drops.amount self.old.hub.next self.old.hub.dropping result }
        ensures same { self.new ≡ self.old }
    {
        let Together {
            publications,
            drops,
            sources,
            knows: _,
        } = together;
        if let Some(source) = first_missing(&sources, self.sources) {
            return Some(source_name(source));
        }
        let parts = PARTS - self.sources as u64;
        compare(&mut self.published, &mut self.rest, publications, parts);
        compare(&mut self.dropping, &mut self.rest_of_drops, drops, parts);
        None
    }
}

/// Compares the sum of all shares but the rest with the total of their book. All parts are there.
fn compare<L: Ledger>(book: &mut Book<L>, rest: &mut Share<L>, mut all: Share<L>, parts: u64)
    requires ledger { L.parts ≡ PARTS }
    requires rest { rest.old.parts ≡ parts }
    requires none { rest.old.amount ≡ 0 }
    requires whole { PARTS ≤ all.parts + parts }
    ensures sum { all.amount ≡ book.old.total }
    ensures total { book.new.total ≡ book.old.total }
    ensures parts { rest.new.parts ≡ rest.old.parts }
    ensures amount { rest.new.amount ≡ rest.old.amount }
{
    book.audit(&mut all);
    rest.give(&mut all, parts, 0);
    book.audit(&mut all);
    all.give(rest, parts, 0);
}

/// Finds the first of this many sources that is missing.
fn first_missing(sources: &[bool; MOST_SOURCES], many: u32) -> Option<u32>
    requires { many ≤ MOST_SOURCES }
    ensures { FindsMissing sources.now many result }
{
    for source in 0..many {
        if !sources[source as usize] {
            return Some(source);
        }
    }
    None
}

/// Gives the name of the submitter of this number, as `source-3`.
pub(super) fn source_name(source: u32) -> Name
    requires { source < MOST_SOURCES }
    ensures { result ≡ codes "source-" ++ decimal source }
{
    let ones = digit(source % 10);
    if source < 10 {
        return name_of(&[b's', b'o', b'u', b'r', b'c', b'e', b'-', ones]);
    }
    let tens = digit(source / 10 % 10);
    if source < 100 {
        return name_of(&[b's', b'o', b'u', b'r', b'c', b'e', b'-', tens, ones]);
    }
    let hundreds = digit(source / 100);
    name_of(&[
        b's', b'o', b'u', b'r', b'c', b'e', b'-', hundreds, tens, ones,
    ])
}

/// Gives the name of these bytes, which may stand in a name.
fn name_of(bytes: &[u8]) -> Name
    requires { is_name bytes.now ≡ true }
    ensures { result ≡ bytes.now }
{
    Name::new(bytes).unwrap()
}

/// Gives the digit of a number below 10.
fn digit(number: u32) -> u8
    requires { number < 10 }
    ensures value { result ≡ 48 + number }
    ensures may_stand { is_name_byte result ≡ true }
{
    b'0' + number as u8
}
