//! How a publisher stands: the figures of its live subscriptions, and how much was ever made.
ghost use Rattle.std.specs.Prelude.{◌≡◌, IfOk, OnErr};
ghost use Rattle.publisher.specs.Stats.{AreStats, TellsStats};

use super::State;
use crate::ledgers::Ledgers;
use flow_rules::{Listener, NoMemory};
use publisher_hub::Figures;
use std::alloc::Global;

/// How a publisher stands at one moment.
#[derive(Debug, Drop)]
pub struct Stats {
    /// The figures of each live subscription, in order of their numbers.
    pub live: Vec<Figures>,
    /// How many subscriptions there ever were.
    pub made: u64,
    /// How many of them were reclaimed.
    pub reclaimed: u64,
    /// How many publications were made.
    pub published: u64,
}

impl<L: Ledgers, B: Listener> State<L, B> {
    /// Tells how the publisher stands.
    pub fn stats(&mut self, alloc: Global) -> Result<Stats, NoMemory>
        ensures ok { IfOk result (λ stats. TellsStats self.old self.new stats) }
        ensures agrees { IfOk result AreStats }
        ensures unchanged { OnErr result (self.new ≡ self.old) }
    {
        let live = self.hub.figures(alloc)?;
        Ok(Stats {
            live,
            made: self.census.made(),
            reclaimed: self.census.reclaimed(),
            published: self.hub.next_serial(),
        })
    }
}
