//! Mistakes: what is wrong with a line that spells no command, in words for whoever typed it. They stand beside the
//! refusal, and no answer of a script depends on them. Each is true of its line; which of several true ones is said,
//! the tests of the programs see.
ghost use Rattle.std.specs.Prelude.{◌≡◌, ◌≢◌, IfSome, Some, None, is_some, not};
ghost use Rattle.commands.specs.Command.{command_of};
ghost use Rattle.commands.specs.Word.{first_word};
ghost use Rattle.commands.specs.Mistake.{IsTrueOf, IsTrueOfLine, IsTrueOfNone, IsTrueOfOne, IsTrueOfStart, IsTrueOfTwo, NamesForm, parts_of};

use crate::command::Command;
use crate::excerpt::Excerpt;
use crate::form::{Form, Part};
use crate::number::{MOST_DIGITS, parse_digits};
use crate::word::split_word;
use flow_rules::UNBOUNDED;
use std::fmt;

/// The commands of scripts, as they are listed.
const COMMANDS: &str = "sub, request, cancel, offer, retry, submit, close, fail, run, cap, late";

/// What is wrong with a line. It prints as a sentence without its point.
#[derive(Clone, Copy, Debug, PartialEq, Eq)]
pub enum Mistake<'a> {
    /// The line is empty.
    Empty,
    /// The line begins with this word, which is none of these commands.
    NoCommand(&'a [u8], &'static str),
    /// The line ends before this part of this form.
    Missing(&'static str, Part),
    /// This word stands for a part that it can't be.
    Wrong(&'a [u8], Part),
    /// A space separates no two words.
    Space,
    /// This follows, and nothing of this form.
    Surplus(&'static str, &'a [u8]),
    /// The line has this form, and is refused for another reason.
    Form(&'static str),
}

impl<'a> Mistake<'a> {
    /// Finds what is wrong with a line of a script; `None` if it spells a command.
    pub fn find(line: &'a [u8]) -> Option<Mistake<'a>>
        ensures exact { is_some result ≡ not (is_some (command_of line.entry.now)) }
        ensures holds { IfSome result
            (IsTrueOfLine (parts_of (first_word line.entry.now)) line.entry.now) }
    {
        if Command::parse(line).is_some() {
            return None;
        }
        let (word, rest) = split_word(line);
        Some(match Form::of_script(word) {
            Some(form) => Mistake::of(form, rest),
            None => Mistake::of_start(line, COMMANDS),
        })
    }

    /// Says what is wrong with what follows the first word of a line and the space after it, which is to have this
    /// form.
    pub fn of(form: Form, words: &'a [u8]) -> Mistake<'a>
        ensures holds { IsTrueOf form.first form.last words.entry.now result }
        ensures form { NamesForm form.text.now result }
    {
        match (form.first, form.last) {
            (Some(first), Some(last)) => in_two(form.text, first, last, words),
            (None, Some(part)) | (Some(part), None) => in_one(form.text, part, words),
            (None, None) => in_none(form.text, words),
        }
    }

    /// Says what is wrong with a line whose first word is none of these commands.
    pub fn of_start(line: &'a [u8], commands: &'static str) -> Mistake<'a>
        ensures { IsTrueOfStart line.entry.now result }
    {
        let (word, _) = split_word(line);
        if line.is_empty() {
            Mistake::Empty
        } else if word.is_empty() {
            Mistake::Space
        } else {
            Mistake::NoCommand(word, commands)
        }
    }
}

/// What is wrong with words that are to be two parts.
fn in_two<'a>(text: &'static str, first: Part, last: Part, words: &'a [u8]) -> Mistake<'a>
    ensures holds { IsTrueOfTwo first last words.entry.now result }
    ensures form { NamesForm text.now result }
{
    if words.is_empty() {
        return Mistake::Missing(text, first);
    }
    let (word, others) = split_word(words);
    if word.is_empty() {
        return Mistake::Space;
    }
    if !first.fits(word) {
        return Mistake::Wrong(word, first);
    }
    in_one(text, last, others)
}

/// What is wrong with words that are to be this part.
fn in_one<'a>(text: &'static str, part: Part, words: &'a [u8]) -> Mistake<'a>
    ensures holds { IsTrueOfOne part words.entry.now result }
    ensures form { NamesForm text.now result }
{
    if words.is_empty() {
        return Mistake::Missing(text, part);
    }
    if part.fits(words) {
        return Mistake::Form(text);
    }
    let (word, others) = split_word(words);
    if word.len() == words.len() {
        return Mistake::Wrong(words, part);
    }
    if word.is_empty() {
        return Mistake::Space;
    }
    in_none(text, others)
}

/// What is wrong with words after a space, if there are to be none.
fn in_none<'a>(text: &'static str, words: &'a [u8]) -> Mistake<'a>
    ensures holds { IsTrueOfNone words.entry.now result }
    ensures form { NamesForm text.now result }
{
    let (word, _) = split_word(words);
    if word.is_empty() {
        Mistake::Space
    } else {
        Mistake::Surplus(text, words)
    }
}

impl fmt::Display for Mistake<'_> {
    fn fmt<W: fmt::Write>(&self, f: &mut fmt::Formatter<W>) -> fmt::Result {
        match self {
            Mistake::Empty => f.write_str("the line is empty"),
            Mistake::NoCommand(word, commands) => {
                write!(f, "{}: no such command ({commands})", Excerpt::new(word))
            }
            Mistake::Missing(form, part) => write!(f, "{form}: the {} is missing", part.word()),
            Mistake::Wrong(word, part) => write_wrong(f, word, *part),
            Mistake::Space => f.write_str("a space too many"),
            Mistake::Surplus(form, rest) => {
                write!(f, "{form}: too many words, {}", Excerpt::new(rest))
            }
            Mistake::Form(form) => write!(f, "the form is {form}"),
        }
    }
}

/// Writes why these bytes can't stand for a part.
fn write_wrong<W: fmt::Write>(f: &mut fmt::Formatter<W>, bytes: &[u8], part: Part) -> fmt::Result {
    write!(f, "{}: ", Excerpt::new(bytes))?;
    match part {
        Part::Name => f.write_str("a name has 1 to 32 letters, digits, - and _"),
        Part::Text => f.write_str("no text"),
        Part::Number => write_number(f, bytes, UNBOUNDED),
        Part::Code | Part::Source => write_number(f, bytes, u32::MAX as u64),
        Part::Signed => match bytes.split_first() {
            Some((first, digits)) if *first == b'-' => write_signed(f, digits),
            _ => write_number(f, bytes, UNBOUNDED),
        },
    }
}

/// Writes why these bytes are no number up to the largest.
fn write_number<W: fmt::Write>(
    f: &mut fmt::Formatter<W>,
    bytes: &[u8],
    largest: u64,
) -> fmt::Result {
    if bytes.is_empty() || !bytes.iter().all(|byte| byte.is_ascii_digit()) {
        f.write_str("a number has digits alone")
    } else if bytes.len() > MOST_DIGITS {
        write!(f, "more than {MOST_DIGITS} digits")
    } else {
        write!(f, "more than {largest}")
    }
}

/// Writes why these bytes after a `-` are no number.
fn write_signed<W: fmt::Write>(f: &mut fmt::Formatter<W>, digits: &[u8]) -> fmt::Result {
    if parse_digits(digits).is_some() {
        write!(f, "less than -{}", UNBOUNDED + 1)
    } else {
        write_number(f, digits, UNBOUNDED)
    }
}
