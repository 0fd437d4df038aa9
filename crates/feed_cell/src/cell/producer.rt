//! The producer's end of a subscription, which its publisher has. It is the `Feed` of that publisher's Hub, and calls
//! no subscriber.
mod plays;
pub mod steps;

use self::steps::{Found, find_room, place, place_all, see_standing, signal_end};
use super::seated::Seated;
use super::signal::{signal, signal_more, start};
use super::task::Task;
use super::{MARK, STATE, SharedTable};
use flow_rules::{Ending, Feed, Item, Listener, NoMemory, Put, PutAll, Standing};
use std::fmt;
use std::marker::Model;
use std::sync::Arc;

/// The producer's end of a subscription.
#[derive(Drop)]
pub struct Producer<B: Listener> {
    pub(crate) party: Seated<B>,
    /// The share of the table that the next started task gets. After a start it is missing until the next `ready`.
    pub(crate) spare: Option<SharedTable<B>>,
    /// The number of items put, as in the word tail, which this end alone writes.
    pub(crate) tail: u64,
    /// How it closed the subscription, if it did.
    pub(crate) closing: Option<Ending>,
}

impl<B: Listener> fmt::Debug for Producer<B> {
    fn fmt<W: fmt::Write>(&self, f: &mut fmt::Formatter<W>) -> fmt::Result {
        write!(f, "Producer {{ accepted: {} }}", self.tail)
    }
}

impl<B: Listener> Model for Producer<B> {
    ghost use Rattle.std.specs.Prelude.{◌≡◌, is_some, IfSome};
    ghost use Rattle.std.specs.Arc.{arc_value};
    ghost use Rattle.crossbeam_utils.specs.Padded.{padded_value};
    ghost use Rattle.feed_cell.specs.Parties.{ProducerState, known_end};
    ghost use Rattle.feed_cell.specs.ProducerSteps.{IsProducerOf};

    ghost Value = { ProducerState };

    ghost view = { λ p. record {
      table = p.party.seat.table_id;
      order = p.party.seat.me.0.order;
      end = known_end p.party.seat.me.0 (is_some p.spare);
      started = p.party.seat.me.0.started;
    } };

    ghost invariant = { λ p.
        IfSome p.spare (λ spare. (padded_value (arc_value spare)).shared.table_id ≡ p.party.seat.table_id)
        × IsProducerOf p.tail p.closing p.party.seat.me };
}

impl<B: Listener> Feed for Producer<B> {
    ghost use Rattle.feed_cell.specs.Offering.{DoesCall};

    type Task = Task<B>;

    ghost meaning = { λ p. p.end };

    ghost does = { DoesCall };

    fn ready(&mut self) -> Result<(), NoMemory> {
        if self.spare.is_none() {
            self.spare = Some(Arc::try_clone(&self.party.table)?);
        }
        Ok(())
    }

    fn put(&mut self, item: Item) -> Put<Task<B>> {
        if self.closing.is_some() {
            return Put::Gone(item);
        }
        let held = match find_room(&mut self.party, self.tail) {
            Found::Ended => return Put::Gone(item),
            Found::Full => return Put::Full(item),
            Found::Room(held) => held,
        };
        place(&mut self.party, self.tail, item);
        let task = signal_more(&mut self.party);
        self.tail += 1;
        Put::Accepted {
            lag: held + 1,
            start: start(&self.party, &mut self.spare, task),
        }
    }

    fn put_all(&mut self, items: Vec<Item>) -> PutAll<Task<B>> {
        if self.closing.is_some() {
            return PutAll::Gone(items);
        }
        let held = match find_room(&mut self.party, self.tail) {
            Found::Ended => return PutAll::Gone(items),
            Found::Full => unreachable!(),
            Found::Room(held) => held,
        };
        let many = items.len() as u64;
        place_all(&mut self.party, self.tail, items);
        let seat = signal_more(&mut self.party);
        self.tail += many;
        PutAll::Accepted {
            lag: held + many,
            start: start(&self.party, &mut self.spare, seat),
        }
    }

    fn end(&mut self, ending: Ending) -> Option<Task<B>> {
        if self.closing.is_some() {
            return None;
        }
        let task = signal_end(&mut self.party, ending);
        self.closing = Some(ending);
        start(&self.party, &mut self.spare, task)
    }

    fn duplicate(&mut self) -> Option<Task<B>> {
        let task = signal(&mut self.party, STATE);
        start(&self.party, &mut self.spare, task)
    }

    fn standing(&mut self) -> Standing {
        let head = see_standing(&mut self.party);
        if head >= MARK {
            Standing {
                ended: true,
                held: self.tail - (head - MARK),
            }
        } else {
            Standing {
                ended: false,
                held: self.tail - head,
            }
        }
    }
}
