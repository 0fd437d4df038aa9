//! How the two ends of each subscription of a publisher are brought together at its end, while the lock is held.
//!
//! The owners' ends come from the subscriptions that were handed in, and the producers' ends from the Hub. Nothing is
//! closed here.
ghost use Rattle.std.specs.Prelude.{◌≡◌, ◌<◌, ◌≤◌, ◌↔◌, [], length, None, Some, slice_get, slice_set, true, vec_capacity};
ghost use Rattle.publisher_hub.specs.Hub.{hub_of};
ghost use Rattle.publisher_hub.specs.Sound.{IsSound};
ghost use Rattle.publisher.specs.Finding.{AreNone, ArePlaced, FindsAll, FindsOne, ends_of, is_reclaimed};
ghost use Rattle.publisher.specs.State.{producer_end};
ghost use Rattle.publisher.specs.Tickets.{IsLate};

use crate::ledgers::Ledgers;
use crate::owner::OwnersEnd;
use crate::subscription::Subscription;
use feed_cell::Producer;
use flow_rules::{FailHandler, Listener, Name};
use publisher_hub::{Facts, Hub};

/// The two ends of a subscription, with what its publisher knows of it.
#[derive(Drop)]
pub struct Taken<B: Listener> {
    /// What the Hub knows of it.
    pub facts: Facts,
    /// Whether it was subscribed after the close.
    pub late: bool,
    /// The publisher's end.
    pub producer: Producer<B>,
    /// The owner's end.
    pub owner: OwnersEnd<B>,
}

/// What is found of a subscription.
#[derive(Drop)]
pub enum Found<B: Listener> {
    /// Both its ends.
    Both(Taken<B>),
    /// Its owner's end was not handed in.
    Missing(Name),
    /// It was reclaimed: its producer's end was taken out before.
    Reclaimed,
}

impl<B: Listener> Found<B> {
    /// Tells whether it was reclaimed.
    fn is_reclaimed(&self) -> bool
        ensures { result ≡ is_reclaimed self.now }
    {
        match self {
            Found::Both(_) => false,
            Found::Missing(_) => false,
            Found::Reclaimed => true,
        }
    }
}

/// Lays the owner's end of each subscription at the place of its number. The answer is whether each has a place.
pub fn place_all<L: Ledgers + Send, B: Listener + Send, F: FailHandler + Send>(
    owners: &mut [Option<OwnersEnd<B>>],
    mut subscriptions: Vec<Subscription<L, B, F>>,
) -> bool
    requires empty { AreNone owners.old }
    ensures placed { ArePlaced subscriptions.items owners.new result }
    ensures length { length owners.new ≡ length owners.old }
{
    let mut all = true;
    while let Some(subscription) = subscriptions.pop() {
        // Not `&&`: the others are laid down, also after one that has no place.
        all &= place(owners, subscription.into_owner());
    }
    all
}

/// Lays an owner's end at the place of its number. The answer is whether there is one.
fn place<B: Listener>(owners: &mut [Option<OwnersEnd<B>>], owner: OwnersEnd<B>) -> bool
    ensures set { owners.new ≡ slice_set owners.old owner.entry (Some owner) }
    ensures there { result ≡ true → owner.entry < length owners.old }
{
    let place = owner.entry as usize;
    let is_there = place < owners.len();
    if is_there {
        owners[place] = Some(owner);
    }
    is_there
}

/// Finds what there is of each subscription, in order. The answer is whether an owner's end is that of a reclaimed one.
pub fn find_all<B: Listener>(
    hub: &mut Hub<Producer<B>>,
    counted: Option<u32>,
    owners: &mut [Option<OwnersEnd<B>>],
    founds: &mut Vec<Found<B>>,
) -> bool
    requires sound { IsSound (hub_of producer_end hub.old) }
    requires all { length owners.old ≡ length hub.old.entries.items }
    requires empty { founds.old.items ≡ [] }
    requires room { length owners.old ≤ vec_capacity founds.old }
    ensures { FindsAll hub.old hub.new counted owners.old founds.new.items result }
{
    let mut gone = false;
    for number in 0..owners.len() {
        let owner = take_at(owners, number);
        let is_handed = owner.is_some();
        let found = find_one(hub, counted, number as u32, owner);
        // Two Bools that are there already, so `&` leaves nothing out.
        gone |= is_handed & found.is_reclaimed();
        founds.push_reserved(found);
    }
    gone
}

/// Counts those of which an end is there: the others were reclaimed.
pub fn count_ends<B: Listener>(founds: &[Found<B>]) -> u64
    ensures { result ≡ ends_of founds.now }
{
    let mut ends = 0;
    for found in founds {
        if !found.is_reclaimed() {
            ends += 1;
        }
    }
    ends
}

/// Takes the owner's end of this place, if it is there.
fn take_at<B: Listener>(owners: &mut [Option<OwnersEnd<B>>], place: usize) -> Option<OwnersEnd<B>>
    requires { place < length owners.old }
    ensures taken { slice_get owners.old place ≡ Some result }
    ensures left { owners.new ≡ slice_set owners.old place None }
{
    owners[place].take()
}

/// Finds what there is of the subscription of this number, with this owner's end, if that was handed in.
fn find_one<B: Listener>(
    hub: &mut Hub<Producer<B>>,
    counted: Option<u32>,
    number: u32,
    owner: Option<OwnersEnd<B>>,
) -> Found<B>
    requires sound { IsSound (hub_of producer_end hub.old) }
    requires there { number < length hub.old.entries.items }
    ensures finds { FindsOne counted number owner result hub.old hub.new }
    ensures sound { IsSound (hub_of producer_end hub.new) }
{
    let facts = hub.facts(number).unwrap();
    let Some(owner) = owner else {
        return if hub.has_feed(number) {
            Found::Missing(facts.name)
        } else {
            Found::Reclaimed
        };
    };
    match hub.take_feed(number) {
        Some(producer) => Found::Both(Taken {
            facts,
            late: is_late(counted, number),
            producer,
            owner,
        }),
        None => Found::Reclaimed,
    }
}

/// Tells whether the subscription of this number was made after the close, before which this many were.
pub fn is_late(counted: Option<u32>, number: u32) -> bool
    ensures { (result ≡ true) ↔ IsLate counted number }
{
    match counted {
        Some(many) => many <= number,
        None => false,
    }
}
