//! Filters: which lines a sink writes. Whether it writes a line is a function of the line's first piece.
ghost use Rattle.std.specs.Prelude.{◌≡◌, ◌↔◌, ◌+◌, ◌++◌, All, IfOk, IsTrue, OnOk, count_by, length};
ghost use Rattle.fanout.specs.Filter.{Admits, Has, admits, has_word, kept, passes};
ghost use Rattle.fanout.specs.Piece.{lines_of};

use crate::lines::{count_lines, line_length};
use memchr::memmem;
use std::alloc::AllocError;

/// A word that a line's first piece has, or hasn't.
#[derive(Drop)]
pub struct Rule {
    /// The bytes that are searched for.
    pub word: Vec<u8>,
    /// Whether a line that is written has them.
    pub is_wanted: bool,
}

impl Rule {
    /// Whether the rule lets a line through whose first piece is this.
    pub fn admits(&self, first: &[u8]) -> bool
        ensures means { IsTrue result ↔ Admits first.now self.now }
        ensures value { result ≡ admits first.now self.now }
    {
        if self.is_wanted {
            has(first, self.word.as_slice())
        } else {
            !has(first, self.word.as_slice())
        }
    }
}

/// Whether a word stands in these bytes.
fn has(bytes: &[u8], word: &[u8]) -> bool
    ensures means { IsTrue result ↔ Has bytes.now word.now }
    ensures value { result ≡ has_word bytes.now word.now }
{
    memmem::find(bytes, word).is_some()
}

/// Whether a line passes whose first piece is this: if each rule lets it through.
pub fn passes(rules: &[Rule], first: &[u8]) -> bool
    ensures means { IsTrue result ↔ All (Admits first.now) rules.now }
    ensures value { result ≡ passes rules.now first.now }
{
    for rule in rules {
        if !rule.admits(first) {
            return false;
        }
    }
    true
}

/// How many lines passed, and how many didn't.
#[derive(Clone, Copy)]
pub struct Kept {
    pub lines: usize,
    pub left_out: usize,
}

/// Adds those of some lines that pass behind what a page has. Lines that stand together are added by one copy.
pub fn keep(rules: &[Rule], lines: &[u8], page: &mut Vec<u8>) -> Result<Kept, AllocError>
    ensures kept { OnOk result
        (page.new.items ≡ page.old.items ++ kept rules.now (lines_of lines.now)) }
    ensures lines { IfOk result
        (λ n. n.lines ≡ count_by (passes rules.now) (lines_of lines.now)) }
    ensures all { IfOk result (λ n. n.lines + n.left_out ≡ length (lines_of lines.now)) }
{
    if rules.is_empty() {
        page.extend_from_slice(lines)?;
        return Ok(Kept {
            lines: count_lines(lines),
            left_out: 0,
        });
    }
    choose(rules, lines, page)
}

/// The same, by looking at each line.
fn choose(rules: &[Rule], lines: &[u8], page: &mut Vec<u8>) -> Result<Kept, AllocError>
    ensures kept { OnOk result
        (page.new.items ≡ page.old.items ++ kept rules.now (lines_of lines.now)) }
    ensures lines { IfOk result
        (λ n. n.lines ≡ count_by (passes rules.now) (lines_of lines.now)) }
    ensures all { IfOk result (λ n. n.lines + n.left_out ≡ length (lines_of lines.now)) }
{
    let mut n = Kept {
        lines: 0,
        left_out: 0,
    };
    // The lines from `run` to `at` pass, and are not added yet.
    let mut run = 0;
    let mut at = 0;
    while at < lines.len() {
        let end = at + line_length(&lines[at..]);
        if passes(rules, &lines[at..end]) {
            n.lines += 1;
        } else {
            n.left_out += 1;
            page.extend_from_slice(&lines[run..at])?;
            run = end;
        }
        at = end;
    }
    page.extend_from_slice(&lines[run..])?;
    Ok(n)
}
