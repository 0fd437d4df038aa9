//! The parties of a subscription in one hand, and their calls as rows.
ghost use Rattle.std.specs.Prelude.{◌≡◌, []};

use super::putting::Putting;
use crate::{Row, item_with, signals};
use feed_cell::{Cell, Handle, Patience, Producer, Task, Turn, close};
use feed_core::{Lane, Outlook, Seen};
use flow_rules::{Ending, ErrorOrder, Feed, Listener, NoMemory, Put, Refusal, capacity};
use std::alloc::Global;

// The parties of a subscription, and its task where that is not at rest and was not lost.
#[derive(Drop)]
pub struct Parties<B: Listener> {
    pub putting: Putting<B>,
    pub handle: Handle<B>,
    pub task: Option<Task<B>>,
}

impl<B: Listener> Parties<B> {
    // Those of a new subscription, for whose buffer this capacity is asked. Its task owes the first turn.
    pub fn new(alloc: Global, asked: usize, listener: B) -> Result<Parties<B>, Refusal>
        requires untold { B.told listener ≡ [] }
        requires unheard { B.replied listener ≡ [] }
    {
        Parties::new_with(alloc, asked, ErrorOrder::Overtake, listener)
    }

    // Those of a new subscription in which a closing error and the items are told in this order.
    pub fn new_with(
        alloc: Global,
        asked: usize,
        order: ErrorOrder,
        listener: B,
    ) -> Result<Parties<B>, Refusal>
        requires untold { B.told listener ≡ [] }
        requires unheard { B.replied listener ≡ [] }
    {
        match Cell::new_with(alloc, capacity(asked)?, order, listener) {
            Ok((producer, handle, task)) => Ok(Parties {
                putting: Putting::new(producer),
                handle,
                task: Some(task),
            }),
            Err((refused, _)) => Err(refused.into()),
        }
    }

    // The place of the first row that is not answered as the row says.
    pub fn first_wrong(
        &mut self,
        alloc: Global,
        rows: &[Row<'_>],
    ) -> Result<Option<usize>, NoMemory> {
        for (place, row) in rows.iter().enumerate() {
            if !self.answers(alloc, *row)? {
                return Ok(Some(place));
            }
        }
        Ok(None)
    }

    // The producer and the handle. The task is dropped.
    pub fn into_ends(self) -> (Producer<B>, Handle<B>) {
        (self.putting.producer, self.handle)
    }

    // Closes it for good, without its task, unless it is still shared.
    pub fn close(self) -> Option<Lane<B>> {
        let (producer, handle) = self.into_ends();
        close(producer, handle).ok()
    }

    // Whether a row's call is answered as the row says. What a Desk alone shows is passed over; a close compares it.
    fn answers(&mut self, alloc: Global, row: Row<'_>) -> Result<bool, NoMemory> {
        Ok(match row {
            Row::Accepted(letter, lag, starts) => self.accepts(alloc, letter, (lag, starts))?,
            Row::Full(letter) => self.gives_back(alloc, letter, false)?,
            Row::Gone(letter) => self.gives_back(alloc, letter, true)?,
            Row::Turn(letters, outlook) => self.turns(alloc, letters, outlook)?,
            Row::Standing(ended, held) => {
                let standing = self.putting.producer.standing();
                (standing.ended, standing.held) == (ended, held)
            }
            Row::Capacity(_) | Row::Counts(_, _, _) | Row::Lag(_) | Row::Ended(_) => true,
            signal => self.signals(signal)?,
        })
    }

    // Whether an item with this letter is accepted so: with this lag, and the task is to be started or not.
    fn accepts(&mut self, alloc: Global, letter: u8, want: (u64, bool)) -> Result<bool, NoMemory> {
        let item = item_with(alloc, &[letter])?;
        let Put::Accepted { lag, start } = self.putting.put(item)? else {
            return Ok(false);
        };
        Ok(self.starts(start, want.1) && lag == want.0)
    }

    // Whether an item with this letter comes back: from a full buffer, or since the subscription is gone.
    fn gives_back(&mut self, alloc: Global, letter: u8, from_gone: bool) -> Result<bool, NoMemory> {
        let item = item_with(alloc, &[letter])?;
        let twin = item.share()?;
        Ok(match self.putting.put(item)? {
            Put::Accepted {
                lag: _,
                start: _start,
            } => false,
            Put::Full(back) => !from_gone && back == twin,
            Put::Gone(back) => from_gone && back == twin,
        })
    }

    // Whether a signal starts the task, or does not, as its row says.
    fn signals(&mut self, row: Row<'_>) -> Result<bool, NoMemory> {
        self.putting.producer.ready()?;
        self.handle.ready()?;
        let (start, wanted) = match row {
            Row::Request(n, starts) => (self.handle.request(n), starts),
            Row::Cancel(starts) => (self.handle.cancel(), starts),
            Row::Close(starts) => (self.putting.producer.end(Ending::Normal), starts),
            Row::Fail(code, starts) => (self.putting.producer.end(Ending::Failed(code)), starts),
            Row::Duplicate(starts) => (self.putting.producer.duplicate(), starts),
            _ => return Ok(false),
        };
        Ok(self.starts(start, wanted))
    }

    // Keeps the task that a call started. Whether it did so or not as wanted, and there was none beside it.
    fn starts(&mut self, start: Option<Task<B>>, wanted: bool) -> bool {
        match start {
            None => !wanted,
            Some(task) => wanted && self.task.replace(task).is_none(),
        }
    }

    // Whether the task is there, and a turn of it tells what these letters write, and has this outlook.
    fn turns(&mut self, alloc: Global, letters: &[u8], outlook: Outlook) -> Result<bool, NoMemory> {
        let wanted = signals(alloc, letters)?;
        let mut seen = Seen::new(alloc)?;
        let Some(task) = self.task.take() else {
            return Ok(false);
        };
        let found = match task.turn(&mut seen, &mut Patience::waits()) {
            Turn::Again(task) => {
                self.task = Some(task);
                Outlook::Again
            }
            Turn::Resting(_) => Outlook::Resting,
            Turn::Ended(how, _) => Outlook::Ended(how),
        };
        Ok(found == outlook && seen.as_slice() == wanted.as_slice())
    }
}
