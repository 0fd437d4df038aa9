//! The forms of commands: which words follow the first word of a line. They say what is missing or wrong in a line that
//! was refused, and decide nothing: what a line spells, [`Command::parse`](crate::Command::parse) says.
ghost use Rattle.std.specs.Prelude.{◌≡◌, Some, None, option_map};
ghost use Rattle.commands.specs.Mistake.{fits, named_parts_of, parts_of};

use crate::number::{parse_code, parse_number, parse_signed};
use flow_rules::Name;

/// What follows the first word of a line, or a part of it.
#[derive(Clone, Copy, Debug, PartialEq, Eq)]
pub enum Part {
    /// A name.
    Name,
    /// A number up to 2^63-1.
    Number,
    /// A number from -2^63 to 2^63-1.
    Signed,
    /// The code of an error, a number up to 2^32-1.
    Code,
    /// The number of a source, up to 2^32-1.
    Source,
    /// A text, which is all that is left of the line.
    Text,
}

impl Part {
    /// Whether these bytes may stand for it.
    pub fn fits(self, bytes: &[u8]) -> bool
        ensures { result ≡ fits self bytes.now }
    {
        match self {
            Part::Name => Name::new(bytes).is_some(),
            Part::Number => parse_number(bytes).is_some(),
            Part::Signed => parse_signed(bytes).is_some(),
            Part::Code | Part::Source => parse_code(bytes).is_some(),
            Part::Text => !bytes.is_empty(),
        }
    }

    /// What it is called.
    pub fn word(self) -> &'static str {
        match self {
            Part::Name => "name",
            Part::Number | Part::Signed => "number",
            Part::Code => "code",
            Part::Source => "source",
            Part::Text => "text",
        }
    }
}

/// The form of a command: how it is written, and the parts that follow its first word.
#[derive(Clone, Copy, Debug, PartialEq, Eq)]
pub struct Form {
    /// How it is written, as `sub NAME N`.
    pub text: &'static str,
    /// The part that another one follows.
    pub first: Option<Part>,
    /// The last part.
    pub last: Option<Part>,
}

impl Form {
    /// A command of one word.
    pub fn word(text: &'static str) -> Form
        ensures parts { (result.first ≡ None) × (result.last ≡ None) }
        ensures text { result.text.now ≡ text.now }
    {
        Form {
            text,
            first: None,
            last: None,
        }
    }

    /// A command of a word and one part.
    pub fn with(text: &'static str, last: Part) -> Form
        ensures parts { (result.first ≡ None) × (result.last ≡ Some last) }
        ensures text { result.text.now ≡ text.now }
    {
        Form {
            text,
            first: None,
            last: Some(last),
        }
    }

    /// A command of a word and two parts.
    pub fn with_two(text: &'static str, first: Part, last: Part) -> Form
        ensures parts { (result.first ≡ Some first) × (result.last ≡ Some last) }
        ensures text { result.text.now ≡ text.now }
    {
        Form {
            text,
            first: Some(first),
            last: Some(last),
        }
    }

    /// The form of the command of scripts that begins with this word.
    #[tactic(auto, unfolding(crate::specs::Mistake::parts_of))]
    pub fn of_script(word: &[u8]) -> Option<Form>
        ensures parts { option_map (λ form. (form.first, form.last)) result ≡ parts_of word.now }
    {
        if word == b"cap".as_slice() {
            Some(Form::with("cap N", Part::Number))
        } else if word == b"late".as_slice() {
            Some(Form::word("late"))
        } else if word == b"offer".as_slice() {
            Some(Form::with("offer TEXT", Part::Text))
        } else if word == b"retry".as_slice() {
            Some(Form::with("retry TEXT", Part::Text))
        } else if word == b"submit".as_slice() {
            Some(Form::with("submit TEXT", Part::Text))
        } else if word == b"fail".as_slice() {
            Some(Form::with("fail C", Part::Code))
        } else if word == b"close".as_slice() {
            Some(Form::word("close"))
        } else if word == b"run".as_slice() {
            Some(Form::word("run"))
        } else {
            Form::of_named(word)
        }
    }

    /// The form of the command of scripts that begins with this word, if a name follows.
    #[tactic(auto, unfolding(crate::specs::Mistake::named_parts_of))]
    fn of_named(word: &[u8]) -> Option<Form>
        ensures parts { option_map (λ form. (form.first, form.last)) result ≡ named_parts_of word.now }
    {
        if word == b"sub".as_slice() {
            Some(Form::with_two("sub NAME N", Part::Name, Part::Number))
        } else if word == b"request".as_slice() {
            Some(Form::with_two("request NAME N", Part::Name, Part::Signed))
        } else if word == b"cancel".as_slice() {
            Some(Form::with("cancel NAME", Part::Name))
        } else {
            None
        }
    }
}
