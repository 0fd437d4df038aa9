//! The commands of a script, and how a line spells one.
use crate::number::{parse_code, parse_number, parse_signed};
use crate::text_bytes::TextBytes;
use crate::word::{parse_text, split_word};
use flow_rules::Name;

/// A command of a script.
#[derive(Debug, Drop)]
pub enum Command<'a> {
    /// `cap N`: the capacity of the buffers, before any other command but `late`.
    Cap(u64),
    /// `late`: a closing error waits for the items, before any other command but `cap`.
    Late,
    /// `sub NAME N`: the next subscriber of the stock subscribes with this name and requests N items.
    Sub(Name, u64),
    /// `offer TEXT`: drops the text where there is no room.
    Offer(TextBytes<'a>),
    /// `retry TEXT`: offers once more where there is no room, and then drops the text there.
    Retry(TextBytes<'a>),
    /// `submit TEXT`: is refused where there is no room.
    Submit(TextBytes<'a>),
    /// `request NAME N`: the owner of the latest subscription of this name requests N items more; an N that is not
    /// positive is a bad request.
    Request(Name, i64),
    /// `cancel NAME`: the owner of the latest subscription of this name cancels it.
    Cancel(Name),
    /// `close`: each subscriber completes after its items.
    Close,
    /// `fail C`: each subscriber gets the error C, before the items that wait, or after them where `late` was read.
    Fail(u32),
    /// `run`: turns until none is owed.
    Run,
}

impl<'a> Command<'a> {
    ghost use Rattle.std.specs.Prelude.{◌≡◌, IfSome};
    ghost use Rattle.commands.specs.Command.{command_of, named_command_of, IsInRange};

    /// The command that a line spells, or `None` where its form is wrong.
    #[tactic(auto, unfolding(crate::specs::Command::command_of))]
    pub fn parse(line: &'a [u8]) -> Option<Command<'a>>
        ensures value { result ≡ command_of line.entry.now }
        ensures in_range { IfSome result IsInRange }
    {
        if line == b"run".as_slice() {
            return Some(Command::Run);
        }
        if line == b"close".as_slice() {
            return Some(Command::Close);
        }
        if line == b"late".as_slice() {
            return Some(Command::Late);
        }
        let (word, rest) = split_word(line);
        if word == b"fail".as_slice() {
            return Some(Command::Fail(parse_code(rest)?));
        }
        if word == b"offer".as_slice() {
            return Some(Command::Offer(parse_text(rest)?));
        }
        if word == b"retry".as_slice() {
            return Some(Command::Retry(parse_text(rest)?));
        }
        if word == b"submit".as_slice() {
            return Some(Command::Submit(parse_text(rest)?));
        }
        if word == b"cap".as_slice() {
            return Some(Command::Cap(parse_number(rest)?));
        }
        Command::parse_named(word, rest)
    }

    /// The command that a word and what follows it spell, if it begins with a name, or `None`.
    #[tactic(auto, unfolding(crate::specs::Command::named_command_of))]
    fn parse_named(word: &[u8], rest: &[u8]) -> Option<Command<'a>>
        ensures value { result ≡ named_command_of word.now rest.now }
        ensures in_range { IfSome result IsInRange }
    {
        if word == b"sub".as_slice() {
            let (name, digits) = split_word(rest);
            return Some(Command::Sub(Name::new(name)?, parse_number(digits)?));
        }
        if word == b"request".as_slice() {
            let (name, digits) = split_word(rest);
            return Some(Command::Request(Name::new(name)?, parse_signed(digits)?));
        }
        if word == b"cancel".as_slice() {
            return Some(Command::Cancel(Name::new(rest)?));
        }
        None
    }
}
