//! The list of the signals of one turn.
ghost use Rattle.std.specs.Prelude.{◌≡◌, ◌<◌, ◌≤◌, ◌↔◌, ◌∷◌, [], length, IfOk, true};

use crate::turn::SIGNALS_IN_A_TURN;
use flow_rules::{NoMemory, Signal};
use std::alloc::Global;
use std::marker::Model;

/// The signals of one turn, in order. Its room is made when it is made, and no call changes it.
#[derive(Debug, Drop)]
pub struct Seen {
    signals: Vec<Signal>,
}

impl Model for Seen {
    ghost use Rattle.std.specs.Prelude.{◌≤◌, length, vec_capacity};
    ghost use Rattle.feed_core.specs.declared.turn.TheConstants.{SIGNALS_IN_A_TURN};
    ghost use Rattle.feed_core.specs.Seen.{SeenState};

    ghost Value = { SeenState };

    ghost view = { λ s. record { signals = s.signals.items; room = vec_capacity s.signals } };

    ghost invariant = { λ s. (SIGNALS_IN_A_TURN ≤ vec_capacity s.signals)
        × (length s.signals.items ≤ SIGNALS_IN_A_TURN) };
}

impl Seen {
    ghost use Rattle.feed_core.specs.Seen.{seen_with, seen_cleared};

    /// An empty one. Its room may be refused, as any growth.
    pub fn new(alloc: Global) -> Result<Seen, NoMemory>
        ensures { IfOk result (λ seen. (seen.signals ≡ []) × (SIGNALS_IN_A_TURN ≤ seen.room)) }
    {
        Ok(Seen {
            signals: Vec::with_capacity(alloc, SIGNALS_IN_A_TURN)?,
        })
    }

    /// Forgets all signals, and keeps the room.
    pub fn clear(&mut self)
        ensures { self.new ≡ seen_cleared self.old }
    {
        self.signals.clear();
    }

    /// Adds a signal, if there is room.
    pub fn push(&mut self, signal: Signal)
        requires { length self.old.signals < SIGNALS_IN_A_TURN }
        ensures { self.new ≡ seen_with (signal ∷ []) self.old }
    {
        self.signals.push_reserved(signal);
    }

    /// The signals, in order.
    pub fn as_slice(&self) -> &[Signal]
        ensures { result.now ≡ self.now.signals }
    {
        self.signals.as_slice()
    }

    /// The number of signals.
    pub fn len(&self) -> usize
        ensures value { result ≡ length self.now.signals }
        ensures within { length self.now.signals ≤ SIGNALS_IN_A_TURN }
    {
        self.signals.len()
    }

    /// Whether it holds no signal.
    pub fn is_empty(&self) -> bool
        ensures { (result ≡ true) ↔ (self.now.signals ≡ []) }
    {
        self.signals.is_empty()
    }
}
