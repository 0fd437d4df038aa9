//! What the producer's end answers.
ghost use Rattle.std.specs.Prelude.{◌<◌, ◌≤◌, ◌+◌, ◌≡◌, ◌++◌, [], length, None, false, vec_capacity, vec_len};

use super::Counting;
use flow_rules::{Amount, Ending, Feed, Item, NoMemory, Put, PutAll, Standing};
use std::alloc::Global;
use test_kit::Notes;

impl Counting {
    ghost use Rattle.hub_tests.specs.Counting.{end_of_counting};
    ghost use Rattle.flow_rules.specs.Feed.{Answers, Looked};
    ghost use Rattle.publisher_hub.specs.Adding.{IsFresh};

    /// One of this capacity that accepted nothing.
    pub fn new(alloc: Global, capacity: usize, notes: Notes, letter: u8, frees_at: u64) -> Counting
        ensures { IsFresh capacity (end_of_counting result) }
    {
        Counting {
            notes,
            letter,
            capacity,
            accepted: Vec::new(alloc),
            taken: 0,
            looks: Amount::zero(),
            over: false,
            closing: None,
            state: false,
            puts: 0,
            frees_at,
        }
    }

    /// Looks before a put of this many items. One that is refused their places has ended.
    fn look(&mut self, many: usize)
        ensures looked { Looked (end_of_counting self.old) (end_of_counting self.new) }
        ensures place { self.new.over ≡ false
            → vec_len self.new.accepted + many ≤ vec_capacity self.new.accepted }
    {
        self.looks.add_one();
        if self.puts == self.frees_at {
            self.taken = self.accepted.len();
        }
        if self.accepted.reserve(many).is_err() {
            self.over = true;
        }
    }

    /// Takes an item, where there is room.
    fn take(&mut self, item: Item) -> Put<()>
        requires unclosed { self.old.closing ≡ None }
        requires place { self.old.over ≡ false
            → vec_len self.old.accepted < vec_capacity self.old.accepted }
        ensures { Answers (end_of_counting self.old) item result (end_of_counting self.new) }
    {
        if self.over {
            return Put::Gone(item);
        }
        let held = self.accepted.len() - self.taken;
        if held == self.capacity {
            return Put::Full(item);
        }
        self.accepted.push_reserved(item);
        Put::Accepted {
            lag: held as u64 + 1,
            start: None,
        }
    }
}

impl Counting {
    ghost use Rattle.hub_tests.specs.Counting.{end_of_counting};
    ghost use Rattle.flow_rules.specs.Feed.{AnswersAll, held_count};

    /// Takes several items, for which there is room.
    fn take_all(&mut self, items: Vec<Item>) -> PutAll<()>
        requires unclosed { self.old.closing ≡ None }
        requires room { held_count (end_of_counting self.old) + length items.items ≤ self.old.capacity }
        requires place { self.old.over ≡ false
            → vec_len self.old.accepted + length items.items ≤ vec_capacity self.old.accepted }
        ensures { AnswersAll (end_of_counting self.old) items.items result (end_of_counting self.new) }
    {
        if self.over {
            return PutAll::Gone(items);
        }
        let held = self.accepted.len() - self.taken;
        let many = items.len();
        push_all(&mut self.accepted, items);
        PutAll::Accepted {
            lag: (held + many) as u64,
            start: None,
        }
    }
}

/// Puts items at the end of a list that has room for them, in their order.
fn push_all(accepted: &mut Vec<Item>, items: Vec<Item>)
    requires room { vec_len accepted.old + length items.items ≤ vec_capacity accepted.old }
    ensures { accepted.new.items ≡ accepted.old.items ++ items.items }
{
    for item in items {
        accepted.push_reserved(item);
    }
}

impl Feed for Counting {
    ghost use Rattle.hub_tests.specs.Counting.{end_of_counting};

    type Task = ();

    ghost meaning = { end_of_counting };

    fn ready(&mut self) -> Result<(), NoMemory> {
        Ok(())
    }

    fn put(&mut self, item: Item) -> Put<()> {
        self.notes.note(self.letter);
        self.puts = self.puts.saturating_add(1);
        if self.closing.is_some() {
            return Put::Gone(item);
        }
        self.look(1);
        self.take(item)
    }

    fn put_all(&mut self, items: Vec<Item>) -> PutAll<()> {
        self.notes.note(self.letter);
        self.puts = self.puts.saturating_add(1);
        if self.closing.is_some() {
            return PutAll::Gone(items);
        }
        self.look(items.len());
        self.take_all(items)
    }

    fn end(&mut self, ending: Ending) -> Option<()> {
        if self.closing.is_none() {
            self.closing = Some(ending);
        }
        None
    }

    fn duplicate(&mut self) -> Option<()> {
        self.state = true;
        None
    }

    fn standing(&mut self) -> Standing {
        self.looks.add_one();
        Standing {
            ended: self.over,
            held: (self.accepted.len() - self.taken) as u64,
        }
    }
}
