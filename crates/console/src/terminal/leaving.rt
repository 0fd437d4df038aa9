//! `leave`: a subscription that has ended is freed before the end of its publisher.
ghost use Rattle.std.specs.Prelude.{◌≡◌, ◌<◌, IfNone, IfOk, IfSome, OnErr, length};
ghost use Rattle.console.specs.Leaving.{IsLatestOf, Leaves, LeavesAt, NoneIsNamed};

use super::{Named, Terminal};
use crate::echo::Echoes;
use crate::site::Site;
use flow_rules::{Name, Refusal};
use publisher::{Ledgers, NamedLane};
use std::sync::Wait;
use std::thread::Threads;
use std::time::Clock;

impl<
    'e,
    L: Ledgers + Send + Sync + 'static,
    R: Print + Clock + Threads + Wait + Copy + Send + Sync + 'static,
> Terminal<'e, L, R> {
    /// Frees the latest subscription of the name that this word is, which has ended, and gives what is left of it.
    /// Refused 12 if the word is no name, 10 if no subscription has it, and as
    /// [`Publisher::reclaim`](publisher::Publisher::reclaim) is; it stays then, and works on.
    pub(super) fn leave(&mut self, word: &[u8]) -> Result<NamedLane<Echoes<R>>, Refusal> {
        match Name::new(word) {
            Some(name) => leave_of(self.site, &mut self.named, name),
            None => Err(Refusal::BadCommand),
        }
    }
}

/// Frees the latest of these subscriptions that has this name, and gives what is left of it. The others keep their
/// order. If it is refused, all stay.
fn leave_of<L: Ledgers + Send, R: Print + Clock + Wait + Copy + Send + Sync + 'static>(
    site: &Site<L, R>,
    named: &mut Vec<Named<L, R>>,
    name: Name,
) -> Result<NamedLane<Echoes<R>>, Refusal>
    ensures leaves { IfOk result (Leaves name named.old.items named.new.items) }
    ensures stays { OnErr result (named.new.items ≡ named.old.items) }
{
    match latest_of(named.as_slice(), name) {
        Some(place) => leave_at(site, named, place),
        None => Err(Refusal::Unknown),
    }
}

/// The place of the latest of these subscriptions that has this name, ended or not.
pub(super) fn latest_of<L: Ledgers + Send, R: Print + Clock + Wait + Copy + Send + Sync + 'static>(
    named: &[Named<L, R>],
    name: Name,
) -> Option<usize>
    ensures latest { IfSome result (IsLatestOf name named.now) }
    ensures none { IfNone result (NoneIsNamed name named.now 0) }
{
    for place in (0..named.len()).rev() {
        if named[place].name == name {
            return Some(place);
        }
    }
    None
}

/// Frees the subscription at this place.
fn leave_at<L: Ledgers + Send, R: Print + Clock + Wait + Copy + Send + Sync + 'static>(
    site: &Site<L, R>,
    named: &mut Vec<Named<L, R>>,
    place: usize,
) -> Result<NamedLane<Echoes<R>>, Refusal>
    requires { place < length named.old.items }
    ensures leaves { IfOk result (LeavesAt place named.old.items named.new.items) }
    ensures stays { OnErr result (named.new.items ≡ named.old.items) }
{
    let Named {
        name,
        subscription,
        told,
        on_full,
        is_ending,
    } = named.remove(place);
    match site.publisher.reclaim(&site.rt, site.alloc, subscription) {
        Ok(left) => Ok(left),
        Err(refused) => {
            let (refusal, subscription) = refused.into_parts();
            let back = Named {
                name,
                subscription,
                told,
                on_full,
                is_ending,
            };
            match named.insert(place, back) {
                Ok(()) => Err(refusal),
                Err(_) => unreachable!(),
            }
        }
    }
}
