//! The rule by which a sink takes the texts of one source, or skips them: no line is written in part.
ghost use Rattle.std.specs.Prelude.{◌≡◌, ◌⊎◌, ◌↔◌, true, false, IsTrue};
ghost use Rattle.fanout.specs.Filter.{passes};
ghost use Rattle.fanout.specs.Piece.{ends_line};
ghost use Rattle.fanout.specs.Strand.{GivesUp, IsOpen, Takes, stand_of};

use crate::filter::{Rule, passes};
use crate::piece::{Piece, ends_line};

/// Where a sink stands in the pieces of a source.
#[derive(Clone, Copy, PartialEq, Eq, Debug)]
pub enum Stand {
    /// Between two lines.
    Between,
    /// In a line of which it holds back all pieces so far.
    Holding,
    /// In a line of which it has written all pieces so far.
    Writing,
    /// In a line of which it writes nothing more.
    Skipping,
}

/// What a sink sees of a piece: of whole lines, or of a part of one.
#[derive(Clone, Copy)]
pub struct Sight {
    /// Whether pieces of the source before it are missing.
    pub is_late: bool,
    /// Whether a line begins with it.
    pub is_first: bool,
    /// Whether a line ends with it.
    pub is_last: bool,
    /// Whether the filter lets a line through that begins with it and goes on. Of whole lines it decides each by itself.
    pub passes: bool,
    /// Whether a line is held back until it is whole, and there is room for one piece more.
    pub is_held: bool,
}

impl Sight {
    /// What a sink with these rules sees of a piece.
    pub fn of(rules: &[Rule], piece: Piece<'_>, is_late: bool, is_held: bool) -> Sight
        ensures late { result.is_late ≡ is_late }
        ensures first { result.is_first ≡ piece.entry.is_first }
        ensures last { result.is_last ≡ ends_line piece.entry.bytes.now }
        ensures begins { (result.is_first ≡ true) → (result.is_last ≡ false)
            → result.passes ≡ passes rules.now piece.entry.bytes.now }
        ensures lines { (result.is_first ≡ true) → (result.is_last ≡ true)
            → result.passes ≡ true }
        ensures held { result.is_held ≡ is_held }
    {
        let is_last = ends_line(piece.bytes);
        Sight {
            is_late,
            is_first: piece.is_first,
            is_last,
            passes: piece.is_first && (is_last || passes(rules, piece.bytes)),
            is_held,
        }
    }

    /// Whether it has whole lines.
    pub fn has_lines(self) -> bool
        ensures { IsTrue result ↔ ((self.is_first ≡ true) × (self.is_last ≡ true)) }
    {
        self.is_first && self.is_last
    }
}

/// What is done with a piece.
#[derive(Clone, Copy, PartialEq, Eq, Debug)]
pub enum Deed {
    /// Nothing.
    Skip,
    /// It is held back behind those that are.
    Hold,
    /// Those that are held back are written, and then it; of whole lines those that pass.
    Write,
}

/// What comes of a piece.
#[derive(Clone, Copy)]
pub struct Step {
    /// Whether the line before it is given up: the rest of it is missing.
    pub gives_up: bool,
    pub deed: Deed,
    pub stand: Stand,
}

impl Stand {
    /// Whether a line has begun that is written if nothing is missing.
    pub fn is_open(self) -> bool
        ensures { IsTrue result ↔ IsOpen self }
    {
        matches!(self, Stand::Holding | Stand::Writing)
    }

    /// What comes of a piece at this stand.
    pub fn step(self, sight: Sight) -> Step
        ensures skips { (result.deed ≡ Deed.Skip) ↔ (¬ Takes self sight) }
        ensures gives_up { IsTrue result.gives_up ↔ GivesUp self sight }
        ensures last { sight.is_last ≡ true → result.stand ≡ Stand.Between }
        ensures others { sight.is_last ≡ false → result.stand ≡ stand_of result.deed }

        // A line of which a part was written is never held back, and a last piece never is.
        ensures held { result.deed ≡ Deed.Hold → (sight.is_last ≡ false)
            × ((sight.is_first ≡ true) ⊎ (self ≡ Stand.Holding)) }
    {
        let deed = self.deed(sight, self.takes(sight));
        Step {
            gives_up: self.is_open() && (sight.is_late || sight.is_first),
            deed,
            stand: stand_after(sight.is_last, deed),
        }
    }

    /// Whether a piece is written, sooner or later.
    fn takes(self, sight: Sight) -> bool
        ensures { IsTrue result ↔ Takes self sight }
    {
        if sight.is_first {
            sight.passes
        } else {
            self.is_open() && !sight.is_late
        }
    }

    /// What is done with a piece that is taken, or isn't.
    fn deed(self, sight: Sight, takes: bool) -> Deed
        ensures skips { (result ≡ Deed.Skip) ↔ (takes ≡ false) }
        ensures held { result ≡ Deed.Hold → (sight.is_last ≡ false)
            × ((sight.is_first ≡ true) ⊎ (self ≡ Stand.Holding)) }
    {
        if !takes {
            Deed::Skip
        } else if !sight.is_last && sight.is_held && (sight.is_first || self == Stand::Holding) {
            Deed::Hold
        } else {
            Deed::Write
        }
    }
}

/// Where a sink stands after a piece.
fn stand_after(is_last: bool, deed: Deed) -> Stand
    ensures last { is_last ≡ true → result ≡ Stand.Between }
    ensures others { is_last ≡ false → result ≡ stand_of deed }
{
    if is_last {
        return Stand::Between;
    }
    match deed {
        Deed::Skip => Stand::Skipping,
        Deed::Hold => Stand::Holding,
        Deed::Write => Stand::Writing,
    }
}
