//! How many subscriptions a publisher ever had, and whose numbers a later one may have.
//!
//! A subscription's number is its place in the Hub. That of one that was reclaimed is given to a later one, so that a
//! publisher keeps as many places as were ever taken at one time, however many subscriptions come and go.
ghost use Rattle.std.specs.Prelude.{◌≡◌, ◌⊎◌, ◌+◌, ◌<◌, ◌≤◌, IfErr, OnOk};
ghost use Rattle.flow_rules.specs.declared.refusal.Refusal.TheVariants as Refusal;
ghost use Rattle.publisher_hub.specs.declared.hub.TheConstants.{MOST_LIVE};

use feed_cell::Producer;
use flow_rules::{Listener, Refusal};
use std::alloc::Global;
use std::marker::Model;

/// How many subscriptions there ever were and may be live, and whose numbers a later one may have.
#[derive(Drop)]
pub struct Census {
    /// How many there ever were, and how many of them were reclaimed.
    made: u64,
    reclaimed: u64,
    /// The numbers of reclaimed ones that no later one has.
    vacant: Vec<u32>,
    /// Of each number, whether the thread that ended its subscription has let go of it.
    let_go: Vec<bool>,
    /// How many may be live at once.
    most: usize,
}

impl Model for Census {
    ghost use Rattle.std.specs.Prelude.{◌≤◌};
    ghost use Rattle.publisher_hub.specs.declared.hub.TheConstants.{MOST_LIVE};
    ghost use Rattle.publisher.specs.Census.{CensusState};

    ghost Value = { CensusState };

    ghost view = { λ s. record {
      made = s.made;
      reclaimed = s.reclaimed;
      most = s.most;
    } };

    ghost invariant = { λ s. (s.reclaimed ≤ s.made) × (s.most ≤ MOST_LIVE) };
}

impl Census {
    /// Makes that of a publisher without subscriptions, of which this many may be live.
    pub fn new(alloc: Global, most: usize) -> Census
        requires { most ≤ MOST_LIVE }
        ensures { result ≡ record {
          made = 0;
          reclaimed = 0;
          most = most;
        } }
    {
        Census {
            made: 0,
            reclaimed: 0,
            vacant: Vec::new(alloc),
            let_go: Vec::new(alloc),
            most,
        }
    }

    /// Tells how many may be live at once.
    pub fn most_live(&self) -> usize
        ensures value { result ≡ self.now.most }
        ensures few { result ≤ MOST_LIVE }
    {
        self.most
    }

    /// Tells how many there ever were.
    pub fn made(&self) -> u64
        ensures { result ≡ self.now.made }
    {
        self.made
    }

    /// Tells how many of them were reclaimed.
    pub fn reclaimed(&self) -> u64
        ensures value { result ≡ self.now.reclaimed }
        ensures few { result ≤ self.now.made }
    {
        self.reclaimed
    }

    /// Tells how many of them were not.
    pub fn unreclaimed(&self) -> u64
        ensures { result + self.now.reclaimed ≡ self.now.made }
    {
        self.made - self.reclaimed
    }

    /// Makes room for one more subscription if there are this many places, so that each of them can become vacant
    /// without memory.
    ///
    /// Refused 13 if no more can be counted, and 5 if the growth is refused.
    pub fn make_room(&mut self, places: u32) -> Result<(), Refusal>
        ensures same { self.new ≡ self.old }
        ensures countable { OnOk result (self.old.made < 18446744073709551615) }
        ensures refusals { IfErr result
            (λ refusal. (refusal ≡ Refusal.Exhausted) ⊎ (refusal ≡ Refusal.NoMemory)) }
    {
        if self.made == u64::MAX {
            return Err(Refusal::Exhausted);
        }
        if self.vacant.is_empty() && self.vacant.reserve(places as usize + 1).is_err() {
            return Err(Refusal::NoMemory);
        }
        self.let_go.reserve(1)?;
        Ok(())
    }

    /// Counts one more subscription, which has this number. There is room for it.
    pub fn add(&mut self, number: u32)
        requires { self.old.made < 18446744073709551615 }
        ensures { self.new ≡ record self.old { made = self.old.made + 1 } }
    {
        self.made += 1;
        match self.let_go.get_mut(number as usize) {
            Some(let_go) => *let_go = false,
            None => {
                if self.let_go.len() < self.let_go.capacity() {
                    self.let_go.push_reserved(false);
                }
            }
        }
    }

    /// Notes that the thread that ended the subscription of this number has let go of it.
    pub fn let_go(&mut self, number: u32)
        ensures { self.new ≡ self.old }
    {
        if let Some(let_go) = self.let_go.get_mut(number as usize) {
            *let_go = true;
        }
    }

    /// Tells whether the thread that ended the subscription of this number has let go of it.
    pub fn is_let_go(&self, number: u32) -> bool {
        self.let_go.get(number as usize) == Some(&true)
    }

    /// Gives a number that no subscription has, if one became vacant, for a subscription whose end for its producer was
    /// made: one that is refused memory before takes none.
    pub fn take_vacant<B: Listener>(&mut self, _of: &Producer<B>) -> Option<u32>
        ensures { self.new ≡ self.old }
    {
        self.vacant.pop()
    }

    /// Counts one that was reclaimed, and whose number this was. There is room for it, as long as nothing is lost; if
    /// there were none, no later one would have that number.
    pub fn reclaim(&mut self, number: u32)
        requires { self.old.reclaimed < self.old.made }
        ensures { self.new ≡ record self.old { reclaimed = self.old.reclaimed + 1 } }
    {
        self.reclaimed += 1;
        if self.vacant.len() < self.vacant.capacity() {
            self.vacant.push_reserved(number);
        }
    }
}
