//! One history of all that was published, which lies behind a lock, and of each source a pass that knows what it wrote of it.
ghost use Rattle.std.specs.Prelude.{◌≡◌, ℕ, ◌+◌, ◌<◌, ◌≤◌, [], ◌∷◌, ◌++◌, IfOk, false};
ghost use Rattle.history.specs.History.{Kept, Written, entry, is_in, keeper, StartsWith, texts_of};

use crate::rule::{
    Desk, GiveReceipt, HistoryId, Look, MakeSource, Meet, PartWays, Recall, Return, Said, View,
    WORD, Write,
};
use atomic_table::{Seat, Table};
use flow_rules::Text;
use std::alloc::{AllocError, Global};
use std::marker::{Brand, Model, PhantomData};
use std::snapshot::Snapshot;

/// An empty history of which no type says yet which it is.
#[derive(Drop)]
pub struct BlankHistory {
    desk: Desk,
    seat: Seat<(), View>,
}

impl Model for BlankHistory {
    ghost use Rattle.std.specs.Prelude.{◌≡◌, []};
    ghost use Rattle.atomic_table.specs.Seated.{TableId};
    ghost use Rattle.history.specs.History.{keeper};

    ghost Value = { TableId };

    ghost view = { λ blank. blank.desk.shared.table_id };

    ghost invariant = { λ blank. (blank.desk.shared.table_id.words ≡ 1) × (blank.seat.table_id ≡ blank.desk.shared.table_id) × (blank.seat.me ≡ (keeper [] 0 [], [])) };
}

impl BlankHistory {
    /// Makes one, with a table of one word. `AllocError` if the memory for that is refused.
    pub fn new(alloc: Global) -> Result<BlankHistory, AllocError> {
        let (desk, seat) = Table::of_words(alloc, &[0], &())?;
        Ok(BlankHistory { desk, seat })
    }

    /// Makes it the history that a type stands for: there is nothing in it, and it has no source.
    pub fn named<R: HistoryId>(self) -> History<R>
        requires { self ≡ R.table }
        ensures { result ≡ record { log = []; made = 0; back = [] } }
    {
        let BlankHistory { desk, seat } = self;
        History {
            desk,
            seat,
            id: PhantomData,
        }
    }
}

/// All that was published, in its order, and how many sources there are. No text is stored: the proofs alone know them.
#[derive(Drop)]
pub struct History<R: HistoryId> {
    desk: Desk,
    seat: Seat<(), View>,
    id: PhantomData<R>,
}

impl<R: HistoryId> Model for History<R> {
    ghost use Rattle.std.specs.Prelude.{◌≡◌, []};
    ghost use Rattle.history.specs.History.{Kept, keeper};

    ghost Value = { Kept };

    ghost view = { λ h. record { log = h.seat.me.0.log; made = h.seat.me.0.made; back = h.seat.me.0.back } };

    ghost invariant = { λ h. (h.desk.shared.table_id ≡ R.table) × (h.desk.shared.table_id.words ≡ 1) × (h.seat.table_id ≡ R.table) × (h.seat.me ≡ (keeper h.seat.me.0.log h.seat.me.0.made h.seat.me.0.back, [])) };
}

/// What a source wrote. It has no bytes.
#[derive(Drop)]
pub struct Pass<R: HistoryId> {
    seat: Seat<(), View>,
    id: PhantomData<R>,
}

impl<R: HistoryId> Model for Pass<R> {
    ghost use Rattle.std.specs.Prelude.{◌≡◌, []};
    ghost use Rattle.history.specs.History.{Written, writer};

    ghost Value = { Written };

    ghost view = { λ p. record { source = p.seat.me.0.source; sent = p.seat.me.0.sent } };

    ghost invariant = { λ p. (p.seat.table_id ≡ R.table) × (p.seat.me ≡ (writer p.seat.me.0.source p.seat.me.0.sent, [])) };
}

impl<R: HistoryId> History<R> {
    /// Makes one more source, with the next number, which wrote nothing yet.
    pub fn make_source(&mut self) -> Pass<R>
        ensures pass { result ≡ record { source = self.old.made; sent = [] } }
        ensures made { self.new ≡ record self.old { made = self.old.made + 1 } }
    {
        let History { desk, seat, .. } = self;
        Pass {
            seat: desk.shared.split_seat::<MakeSource>(seat),
            id: PhantomData,
        }
    }

    /// Writes one more text of a source: it is the last of the history, and the last that the source wrote.
    pub fn write(&mut self, pass: &mut Pass<R>, text: Snapshot<Text>)
        ensures pass { pass.new ≡ record pass.old { sent = pass.old.sent ++ text.value ∷ [] } }
        ensures history { self.new
            ≡ record self.old { log = self.old.log ++ entry pass.old.source text.value ∷ [] } }
    {
        self.write_said::<Brand>(pass, text);
    }

    /// Writes the text that a type stands for.
    fn write_said<T: Said>(&mut self, pass: &mut Pass<R>, text: Snapshot<Text>)
        requires { text.value ≡ T.text }
        ensures pass { pass.new ≡ record pass.old { sent = pass.old.sent ++ T.text ∷ [] } }
        ensures history { self.new
            ≡ record self.old { log = self.old.log ++ entry pass.old.source T.text ∷ [] } }
    {
        let _ = text;
        let History { desk, seat, .. } = self;
        let shared = &desk.shared;
        shared.join_seat::<Meet>(&mut pass.seat, shared.split_seat::<PartWays>(seat));
        shared.load::<Write<T>>(&mut pass.seat, WORD);
        *seat = shared.split_seat::<PartWays>(&mut pass.seat);
    }

    /// Takes a pass back, and compares it with the history: what it wrote are the texts of its source, of which none
    /// was taken back before.
    pub fn take_back(&mut self, pass: Pass<R>)
        ensures texts { pass.sent ≡ texts_of pass.source self.old.log }
        ensures there { pass.source < self.old.made }
        ensures first { is_in pass.source self.old.back ≡ false }
        ensures history { self.new ≡ record self.old { back = pass.source ∷ self.old.back } }
    {
        let Pass {
            seat: mut theirs,
            id: _,
        } = pass;
        let History { desk, seat, .. } = self;
        let shared = &desk.shared;
        shared.join_seat::<Meet>(&mut theirs, shared.split_seat::<PartWays>(seat));
        shared.load::<Return>(&mut theirs, WORD);
        *seat = theirs;
    }

    /// Looks at all of it: no text is of a source that was not made.
    pub fn look(&mut self)
        ensures made { (source : ℕ) → self.old.made ≤ source → texts_of source self.old.log ≡ [] }
        ensures same { self.new ≡ self.old }
    {
        let History { desk, seat, .. } = self;
        desk.shared.load::<Look>(seat, WORD);
    }

    /// Gives a receipt of all that was published so far.
    pub fn receipt(&mut self) -> Receipt<R>
        ensures seen { result ≡ self.old.log }
        ensures same { self.new ≡ self.old }
    {
        let History { desk, seat, .. } = self;
        Receipt {
            seat: desk.shared.split_seat::<GiveReceipt>(seat),
            id: PhantomData,
        }
    }

    /// Compares a receipt with the history, which begins with what was seen then.
    pub fn recall(&mut self, receipt: &mut Receipt<R>)
        ensures begins { StartsWith self.old.log receipt.old }
        ensures same { (self.new ≡ self.old) × (receipt.new ≡ receipt.old) }
    {
        let History { desk, seat, .. } = self;
        let shared = &desk.shared;
        shared.join_seat::<Meet>(&mut receipt.seat, shared.split_seat::<PartWays>(seat));
        shared.load::<Recall>(&mut receipt.seat, WORD);
        *seat = shared.split_seat::<PartWays>(&mut receipt.seat);
    }
}

/// A beginning of the history that was seen. It has no bytes.
#[derive(Drop)]
pub struct Receipt<R: HistoryId> {
    seat: Seat<(), View>,
    id: PhantomData<R>,
}

impl<R: HistoryId> Model for Receipt<R> {
    ghost use Rattle.std.specs.Prelude.{◌≡◌, List, []};
    ghost use Rattle.history.specs.declared.rule.Entry.{Entry};
    ghost use Rattle.history.specs.History.{claimer};

    ghost Value = { List Entry };

    ghost view = { λ r. r.seat.me.0.seen };

    ghost invariant = { λ r. (r.seat.table_id ≡ R.table) × (r.seat.me ≡ (claimer r.seat.me.0.seen, [])) };
}
