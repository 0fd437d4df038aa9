//! A note: what a thread knows of a publisher's close.
//!
//! How the publisher is closed stands in a cell that all its notes read. It is set behind the lock, and not here.
ghost use Rattle.std.specs.Prelude.{◌≡◌, None, Some, IfOk, IfSome, IfNone, OnErr, is_some};
ghost use Rattle.once_cell.specs.Once.{Agrees, cell_name};

use flow_rules::{Ending, NoMemory};
use once_cell::race;
use once_cell::race::OnceBox;
use std::alloc::Global;
use std::fmt;
use std::marker::Model;

/// What its owner was told of a publisher's close ([`Publisher::note`](crate::Publisher::note)). It is used with the
/// publisher that gave it. What it knows it knows for good, and all notes of one publisher that know of its close know
/// the same ending ([`Note::compare`]).
#[derive(Drop)]
pub struct Note {
    closing: race::Note<Ending>,
    /// Whether it knows that the publisher is closed.
    knows: bool,
}

impl Model for Note {
    ghost use Rattle.std.specs.Prelude.{◌≡◌, is_some};
    ghost use Rattle.publisher.specs.Note.{NoteState};

    ghost Value = { NoteState };

    ghost view = { λ n. record { cell = n.closing.cell; known = n.closing.known } };

    ghost invariant = { λ n. n.knows ≡ is_some n.closing.known };
}

impl Note {
    /// Makes a note of this cell that knows nothing.
    pub(crate) fn of(closing: &OnceBox<Ending>) -> Note
        ensures { result ≡ record { cell = cell_name closing.now; known = None } }
    {
        Note {
            closing: closing.note(),
            knows: false,
        }
    }

    /// Compares two notes of one publisher: if both know of its close, they know the same ending.
    pub fn compare(&mut self, other: Note)
        requires { other.cell ≡ self.old.cell }
        ensures same { self.new ≡ self.old }
        ensures agree { IfSome other.known (Agrees self.old.known) }
    {
        let Note { closing, knows: _ } = other;
        self.closing.compare(closing);
    }

    /// Tells whether it knows that the publisher is closed.
    pub(crate) fn knows(&self) -> bool
        ensures { result ≡ is_some self.now.known }
    {
        self.knows
    }

    /// Makes one more note that knows what this one knows.
    pub(crate) fn again(&mut self) -> Note
        ensures same { self.new ≡ self.old }
        ensures value { result ≡ self.old }
    {
        Note {
            closing: self.closing.again(),
            knows: self.knows,
        }
    }

    /// Tells how the publisher is closed, if the note knows that.
    pub(crate) fn known(&mut self, closing: &OnceBox<Ending>) -> Option<Ending>
        requires { self.old.cell ≡ cell_name closing.now }
        ensures value { result ≡ self.old.known }
        ensures same { self.new ≡ self.old }
    {
        if self.knows { self.read(closing) } else { None }
    }

    /// Reads how the publisher is closed, if it is.
    pub(crate) fn read(&mut self, closing: &OnceBox<Ending>) -> Option<Ending>
        requires { self.old.cell ≡ cell_name closing.now }
        ensures cell { self.new.cell ≡ self.old.cell }
        ensures tells { result ≡ self.new.known }
        ensures same { IfSome self.old.known (λ ending. self.new.known ≡ Some ending) }
        ensures unchanged { IfNone result (self.new ≡ self.old) }
    {
        let ending = closing.get_as(&mut self.closing).copied();
        self.knows = ending.is_some();
        ending
    }

    /// Sets the cell to the ending of this box, unless it has one already, and learns which it has.
    pub(crate) fn learn(&mut self, closing: &OnceBox<Ending>, made: Box<Ending>) -> Ending
        requires { self.old.cell ≡ cell_name closing.now }
        ensures cell { self.new.cell ≡ self.old.cell }
        ensures knows { self.new.known ≡ Some result }
        ensures same { IfSome self.old.known (λ ending. result ≡ ending) }
    {
        let ending = *closing.get_or_init_as(move || made, &mut self.closing);
        self.knows = true;
        ending
    }

    /// Learns the publisher's ending: that of its cell, which is set to this ending if it is still empty.
    pub(crate) fn hear(
        &mut self,
        alloc: Global,
        closing: &OnceBox<Ending>,
        ending: Ending,
    ) -> Result<Ending, NoMemory>
        requires { self.old.cell ≡ cell_name closing.now }
        ensures cell { self.new.cell ≡ self.old.cell }
        ensures ok { IfOk result (λ ending. self.new.known ≡ Some ending) }
        ensures same { IfSome self.old.known (λ ending. self.new.known ≡ Some ending) }
        ensures unchanged { OnErr result (self.new ≡ self.old) }
    {
        if let Some(known) = self.read(closing) {
            return Ok(known);
        }
        let made = Box::new(alloc, ending)?;
        Ok(self.learn(closing, made))
    }
}

impl fmt::Debug for Note {
    /// Writes `Note(knows)` or `Note(does not know)`: how the publisher is closed stands in its cell, and not in the
    /// note.
    fn fmt<W: fmt::Write>(&self, f: &mut fmt::Formatter<W>) -> fmt::Result {
        f.write_str(if self.knows {
            "Note(knows)"
        } else {
            "Note(does not know)"
        })
    }
}
