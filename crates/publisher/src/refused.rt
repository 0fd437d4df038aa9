//! A refusal that gives back what a call was handed, or what it left.
//!
//! Calls that were handed nothing answer a plain [`Refusal`].
ghost use Rattle.std.specs.Prelude.{◌≡◌};

use flow_rules::Refusal;
use std::error::Error;
use std::fmt;
use std::marker::Model;

/// Why a call was refused, with what comes back: the subscriber, the handler or the subscription that it was handed, or
/// what is left of a finished publisher.
///
/// `?` makes an `anyhow::Error` or a plain [`Refusal`] of it, and drops what came back. It prints as
/// `refused N WORD (REASON)`, and names what is still held or has not ended.
#[must_use]
#[derive(Drop)]
pub struct Refused<T> {
    pub(crate) refusal: Refusal,
    pub(crate) back: T,
}

impl<T> Model for Refused<T> {
    ghost use Rattle.flow_rules.specs.declared.refusal.Refusal.{Refusal};

    ghost Value = { Refusal × T };

    ghost view = { λ refused. (refused.refusal, refused.back) };
}

impl<T> Refused<T> {
    /// Tells why the call was refused.
    pub fn refusal(&self) -> &Refusal
        ensures { result.now ≡ self.now.0 }
    {
        &self.refusal
    }

    /// Gives what comes back.
    pub fn into_inner(self) -> T
        ensures { result ≡ self.1 }
    {
        let Refused { refusal: _, back } = self;
        back
    }

    /// Gives both.
    pub fn into_parts(self) -> (Refusal, T)
        ensures { result ≡ self }
    {
        let Refused { refusal, back } = self;
        (refusal, back)
    }
}

/// `refused N WORD (REASON)`
impl<T> fmt::Display for Refused<T> {
    fn fmt<W: fmt::Write>(&self, f: &mut fmt::Formatter<W>) -> fmt::Result {
        write!(f, "{} ({})", self.refusal, self.refusal.explain())
    }
}

/// What comes back is not shown, since it need not be `Debug`.
impl<T> fmt::Debug for Refused<T> {
    fn fmt<W: fmt::Write>(&self, f: &mut fmt::Formatter<W>) -> fmt::Result {
        write!(f, "Refused {{ refusal: {:?}, .. }}", self.refusal)
    }
}

impl<T: Drop> Error for Refused<T> {}

impl<T> From<(Refusal, T)> for Refused<T> {
    ghost use Rattle.std.specs.Prelude.{◌≡◌};

    ghost from_gives = { λ parts refused. refused ≡ parts };

    fn from(parts: (Refusal, T)) -> Refused<T> {
        let (refusal, back) = parts;
        Refused { refusal, back }
    }
}

/// Drops what comes back.
impl<T: Drop> From<Refused<T>> for Refusal {
    ghost use Rattle.std.specs.Prelude.{◌≡◌};

    ghost from_gives = { λ refused refusal. refusal ≡ refused.0 };

    fn from(refused: Refused<T>) -> Refusal {
        let (refusal, _) = refused.into_parts();
        refusal
    }
}
