//! A refusal in words.
use super::Refusal;
use crate::name::Name;
use std::fmt;
use std::marker::Model;

/// A refusal in words for people, as `source-3 is still held` ([`Refusal::explain`]).
#[derive(Debug, Drop)]
pub struct Explained<'a> {
    pub(super) refusal: &'a Refusal,
}

impl<'a> Model for Explained<'a> {
    ghost use Rattle.flow_rules.specs.declared.refusal.Refusal.{Refusal};

    ghost Value = { Refusal };

    ghost view = { λ explained. explained.refusal.now };
}

impl fmt::Display for Explained<'_> {
    fn fmt<W: fmt::Write>(&self, f: &mut fmt::Formatter<W>) -> fmt::Result {
        let words = match self.refusal {
            Refusal::Closed(ending) => return write!(f, "the publisher is {ending}"),
            Refusal::StillHeld(name) => return write!(f, "{name} is still held"),
            Refusal::Unsettled(names) => return write_unsettled(names.as_slice(), f),
            Refusal::BadCapacity => "the capacity is 0",
            Refusal::Duplicate => "a live subscription has this name",
            Refusal::TooMany => "there are as many as there may be",
            Refusal::NoMemory => "out of memory",
            Refusal::LineTooLong => "the line or its text is too long",
            Refusal::BadWorkers => "the number of workers is not 1 to 8",
            Refusal::Unknown => "no subscription has this name",
            Refusal::WouldWait => "it would have to wait",
            Refusal::BadCommand => "nothing of this form may stand here",
            Refusal::Exhausted => "as many were made as there may ever be",
        };
        f.write_str(words)
    }
}

/// Writes which subscriptions have not ended.
fn write_unsettled<W: fmt::Write>(names: &[Name], f: &mut fmt::Formatter<W>) -> fmt::Result {
    f.write_str("not ended")?;
    let mut mark = ':';
    for name in names {
        write!(f, "{mark} {name}")?;
        mark = ',';
    }
    Ok(())
}
