//! The memory that the end of a publisher takes, made before anything is taken out.
//!
//! A growth that is refused later would lose what was taken out by then. What fills these places stands in `find` and
//! `close`.
ghost use Rattle.std.specs.Prelude.{◌≡◌, ◌≤◌, [], IfOk, None, replicate, vec_capacity};
ghost use Rattle.publisher.specs.Finishing.{HasRoomFor};

use super::find::Found;
use crate::outcome::NamedLane;
use crate::owner::OwnersEnd;
use flow_rules::{Listener, Name, NoMemory};
use std::alloc::Global;

/// Room for what is left of a publisher.
#[derive(Drop)]
pub struct Room<B: Listener> {
    /// For what is left of each subscription.
    pub lanes: Vec<NamedLane<B>>,
    /// For the numbers of those that a thread still holds.
    pub held: Vec<u32>,
    /// For the names of those that run or have not ended.
    pub unsettled: Vec<Name>,
}

/// A place for each subscription.
pub struct Places<B: Listener> {
    /// The owner's end of each that was handed in.
    pub owners: Vec<Option<OwnersEnd<B>>>,
    /// For what is found of each.
    pub founds: Vec<Found<B>>,
    /// For what is left of them.
    pub room: Room<B>,
}

/// Makes places for this many subscriptions, with the room for what is left of them.
pub fn new_places<B: Listener>(alloc: Global, entries: usize) -> Result<Places<B>, NoMemory>
    ensures owners { IfOk result (λ places. places.owners.items ≡ replicate entries None) }
    ensures founds { IfOk result
        (λ places. (places.founds.items ≡ []) × (entries ≤ vec_capacity places.founds)) }
    ensures room { IfOk result (λ places. HasRoomFor entries places.room) }
{
    Ok(Places {
        owners: no_owners(alloc, entries)?,
        founds: Vec::with_capacity(alloc, entries)?,
        room: Room {
            lanes: Vec::with_capacity(alloc, entries)?,
            held: Vec::with_capacity(alloc, entries)?,
            unsettled: Vec::with_capacity(alloc, entries)?,
        },
    })
}

/// Makes this many places without an owner's end.
fn no_owners<B: Listener>(
    alloc: Global,
    entries: usize,
) -> Result<Vec<Option<OwnersEnd<B>>>, NoMemory>
    ensures { IfOk result (λ owners. owners.items ≡ replicate entries None) }
{
    let mut owners = Vec::with_capacity(alloc, entries)?;
    let mut i = 0;
    while i < entries {
        owners.push_reserved(None);
        i += 1;
    }
    Ok(owners)
}
