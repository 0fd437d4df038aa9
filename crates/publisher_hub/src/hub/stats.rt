//! How each live subscription stands: one round of looks that lists what it finds.
ghost use Rattle.std.specs.Prelude.{◌≡◌, ◌≤◌, ◌<◌, ◌+◌, ◌-◌, [], All, IfOk, OnErr, length, map, vec_len};
ghost use Rattle.std.specs.Vec.{vec_capacity};
ghost use Rattle.publisher_hub.specs.Entry.{entry_of};
ghost use Rattle.publisher_hub.specs.Hub.{hub_of};
ghost use Rattle.publisher_hub.specs.Sound.{AreLive, IsSound, MOST_LIVE};
ghost use Rattle.publisher_hub.specs.Stats.{AreTallied, IsBounded, IsTallied, Surveys, SurveysAll, SurveysRound};

use crate::entry::Entry;
use crate::hub::Hub;
use crate::policy::OnFull;
use flow_rules::{Feed, Name, NoMemory};
use std::alloc::Global;

/// How a live subscription stands.
#[derive(Clone, Copy, Debug, PartialEq, Eq)]
pub struct Figures {
    /// The name that its subscriber subscribed with.
    pub name: Name,
    /// What it said of its full buffer.
    pub on_full: OnFull,
    /// How many items wait in its buffer.
    pub lag: u64,
    /// How many items it has accepted.
    pub accepted: u64,
    /// How many publications were dropped at it, after the second tries.
    pub dropped: u64,
}

impl<F: Feed> Hub<F> {
    /// Looks at all live subscriptions, and lists how those stand that go on, in the order of the numbers.
    ///
    /// `NoMemory` if a growth is refused; nothing has changed then.
    pub fn figures(&mut self, alloc: Global) -> Result<Vec<Figures>, NoMemory>
        requires sound { IsSound (hub_of F.meaning self.old) }
        ensures ok { IfOk result (λ figures.
            SurveysAll F.meaning F.does figures.items self.old self.new) }
        ensures few { IfOk result (λ figures. length figures.items ≤ MOST_LIVE) }
        ensures bounded { IfOk result (λ figures.
            All (IsBounded (hub_of F.meaning self.new).progress) figures.items) }
        ensures unchanged { OnErr result (self.new ≡ self.old) }
        ensures sound { IsSound (hub_of F.meaning self.new) }
    {
        let mut figures = Vec::with_capacity(alloc, self.live.len())?;
        let Hub {
            next,
            entries,
            live,
            ..
        } = self;
        survey_all(entries, live, *next, &mut figures);
        Ok(figures)
    }
}

/// Looks at all live subscriptions, and lists those that go on in a list that has room for all.
fn survey_all<F: Feed>(
    entries: &mut [Entry<F>],
    live: &[u32],
    next: u64,
    figures: &mut Vec<Figures>,
)
    requires live { AreLive live.now (map (entry_of F.meaning) entries.old) }
    requires tallied { AreTallied next (map (entry_of F.meaning) entries.old) }
    requires empty { figures.old.items ≡ [] }
    requires room { length live.now ≤ vec_capacity figures.old }
    ensures survey { SurveysRound F.meaning F.does next figures.new.items
        entries.old entries.new }
    ensures few { length figures.new.items ≤ length live.now }
{
    for number in live {
        survey_one(&mut entries[*number as usize], next, figures);
    }
}

/// Looks at a subscription, and lists it if it goes on.
fn survey_one<F: Feed>(entry: &mut Entry<F>, next: u64, figures: &mut Vec<Figures>)
    requires tallied { IsTallied next (entry_of F.meaning entry.old) }
    requires room { vec_len figures.old < vec_capacity figures.old }
    ensures survey { Surveys F.meaning F.does next figures.old.items figures.new.items
        entry.old entry.new }
    ensures capacity { vec_capacity figures.new ≡ vec_capacity figures.old }
{
    match entry.look(next) {
        Some(standing) if !standing.ended => {
            figures.push_reserved(figures_of(entry, next, standing.held))
        }
        _ => {}
    }
}

/// Gives the figures of a subscription with this backlog, where this is the next serial number.
fn figures_of<F>(entry: &Entry<F>, next: u64, lag: u64) -> Figures
    requires { entry.now.since + entry.now.dropped ≤ next }
    ensures { result ≡ record {
      name = entry.now.name;
      on_full = entry.now.on_full;
      lag = lag;
      accepted = next - (entry.now.since + entry.now.dropped);
      dropped = entry.now.dropped;
    } }
{
    Figures {
        name: entry.name,
        on_full: entry.on_full,
        lag,
        accepted: next - (entry.since + entry.dropped),
        dropped: entry.dropped,
    }
}
