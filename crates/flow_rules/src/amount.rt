//! A number that only clauses read.
ghost use Rattle.std.specs.Prelude.{◌≡◌, ◌+◌};

use boxcar::tag::{Names, Tag};
use std::fmt;

/// How many there were: of jobs that an inbox took, or of looks that a publisher made. It is a value of no bytes that a
/// proof keeps a number in, so it costs nothing when the program runs, and it never wraps. Clauses read it by
/// `amount_of`.
#[derive(Drop)]
pub struct Amount {
    tag: Tag,
}

struct Zero;

impl Names<()> for Zero {
    ghost use Rattle.std.specs.Prelude.{[], ◌∷◌};

    ghost numbers = { λ _. 0 ∷ [] };
}

struct OneMore;

impl Names<Amount> for OneMore {
    ghost use Rattle.std.specs.Prelude.{[], ◌∷◌, ◌+◌};
    ghost use Rattle.flow_rules.specs.Amount.{amount_of};

    ghost numbers = { λ amount. (amount_of amount + 1) ∷ [] };
}

impl Amount {
    ghost use Rattle.flow_rules.specs.Amount.{amount_of};

    /// None.
    pub fn zero() -> Amount
        ensures { amount_of result ≡ 0 }
    {
        Amount {
            tag: Tag::of::<(), Zero>(&()),
        }
    }

    /// One more.
    pub fn add_one(&mut self)
        ensures { amount_of self.new ≡ amount_of self.old + 1 }
    {
        self.tag = Tag::of::<Amount, OneMore>(self);
    }
}

impl fmt::Debug for Amount {
    fn fmt<W: fmt::Write>(&self, f: &mut fmt::Formatter<W>) -> fmt::Result {
        f.write_str("Amount")
    }
}
