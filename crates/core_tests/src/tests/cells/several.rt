//! Several items by one put: 64 of them into buffers of different room, and what an end that has none to give answers.
ghost use Rattle.std.specs.Prelude.{◌≡◌, ◌≤◌, [], length};

use super::in_order::InOrder;
use feed_cell::{Cell, Handle, Patience, Producer, Task, Turn, close};
use feed_core::{Lane, Seen};
use flow_rules::{
    Ending, Feed, Item, Listener, MOST_PUBLICATIONS, NoMemory, PutAll, Text, capacity,
};
use std::alloc::Global;
use std::process::Abort;
use std::test::Fail;

const ITEMS: u64 = 64;

// A producer, how many items its buffer has room for, and how many puts were tried.
#[derive(Drop)]
struct Batching<B: Listener> {
    producer: Producer<B>,
    capacity: u64,
    tried: u64,
    ghost sized: { producer.end.capacity ≡ capacity },
    ghost few: { length producer.end.accepted ≤ tried },
}

impl<B: Listener> Batching<B> {
    // A new subscription's producer, with a buffer of this capacity.
    fn new(producer: Producer<B>, capacity: usize) -> Batching<B>
        requires sized { producer.end.capacity ≡ capacity }
        requires empty { producer.end.accepted ≡ [] }
    {
        Batching {
            producer,
            capacity: capacity as u64,
            tried: 0,
        }
    }

    // A put of several, if a look shows room for all.
    fn put_all(&mut self, items: Vec<Item>) -> Result<Option<PutAll<Task<B>>>, NoMemory> {
        self.producer.ready()?;
        let many = items.len() as u64;
        let held = self.producer.standing().held;
        let tried = self.tried.saturating_add(many);
        if many == 0 || held.saturating_add(many) > self.capacity || tried > MOST_PUBLICATIONS {
            return Ok(None);
        }
        self.tried = tried;
        Ok(Some(self.producer.put_all(items)))
    }
}

// The items with the serial numbers from this one on, up to that.
fn batch(alloc: Global, first: u64, last: u64) -> Result<Vec<Item>, NoMemory> {
    let mut items = Vec::new(alloc);
    for serial in first..last {
        items.push(Item {
            source: 1,
            seq: serial,
            serial,
            text: Text::new(alloc, b"x")?,
        })?;
    }
    Ok(items)
}

// Runs turns until the task rests or has ended.
fn runs(rt: &impl Abort, alloc: Global, task: Task<InOrder>) -> Result<(), Fail> {
    let mut next = Some(task);
    for _ in 0..100 {
        let Some(task) = next else {
            return Ok(());
        };
        let mut seen = Seen::new(alloc)?;
        next = match task.turn(&mut seen, &mut Patience::hurries()) {
            Turn::Again(task) => Some(task),
            Turn::Resting(_) | Turn::Ended(_, _) => None,
        };
    }
    assert!(rt; next.is_none(), "it goes on");
    Ok(())
}

// Puts the items in batches of this many, each told before the next.
fn puts_all(
    rt: &impl Abort,
    alloc: Global,
    batching: &mut Batching<InOrder>,
    many: u64,
) -> Result<(), Fail> {
    let mut first = 0_u64;
    for _ in 0..ITEMS {
        let last = ITEMS.min(first.saturating_add(many));
        match batching.put_all(batch(alloc, first, last)?)? {
            Some(PutAll::Accepted { lag, start }) => {
                assert!(rt;
                    lag == last.saturating_sub(first),
                    "a lag of {lag} from {first} on"
                );
                let task = start.ok_or("no task was started")?;
                runs(rt, alloc, task)?;
            }
            Some(PutAll::Gone(_)) | None => return Err("a batch came back".into()),
        }
        first = last;
        if first == ITEMS {
            return Ok(());
        }
    }
    Ok(())
}

// A subscription with room for this many, whose task has rested once and which requested all.
fn new_one(
    rt: &impl Abort,
    alloc: Global,
    places: usize,
) -> Result<(Batching<InOrder>, Handle<InOrder>), Fail> {
    let size = capacity(places)?;
    let Ok((producer, mut handle, task)) = Cell::new(alloc, size, InOrder::new()) else {
        return Err(NoMemory.into());
    };
    let batching = Batching::new(producer, size);
    handle.ready()?;
    assert!(rt; handle.request(i64::MAX).is_none(), "its task was at rest");
    runs(rt, alloc, task)?;
    Ok((batching, handle))
}

// Ends it, and runs the task that this starts.
fn is_ended(rt: &impl Abort, alloc: Global, batching: &mut Batching<InOrder>) -> Result<(), Fail> {
    batching.producer.ready()?;
    let task = batching.producer.end(Ending::Normal);
    runs(rt, alloc, task.ok_or("the end started no task")?)
}

// Whether the listener that is left was told all.
fn has_all(left: Result<Lane<InOrder>, Producer<InOrder>>) -> Result<bool, Fail> {
    let Ok(lane) = left else {
        return Err(Fail::new("it is still shared"));
    };
    match &lane.subscriber {
        Some(listener) => Ok(listener.has_all(ITEMS)),
        None => Err(Fail::new("its subscriber is lost")),
    }
}

// Whether a listener is told all in batches of this many, with room for this many.
fn are_told(rt: &impl Abort, alloc: Global, places: usize, many: u64) -> Result<bool, Fail> {
    let (mut batching, handle) = new_one(rt, alloc, places)?;
    puts_all(rt, alloc, &mut batching, many)?;
    is_ended(rt, alloc, &mut batching)?;
    has_all(close(batching.producer, handle))
}

#[test]
fn batches_are_told_in_order(rt: HostRuntime) -> Result<(), Fail> {
    for (places, many) in [(1, 1), (4, 4), (4, 3), (256, 64), (256, 20)] {
        assert!(rt;
            are_told(&rt, rt.alloc(), places, many)?,
            "batches of {many} with room for {places}"
        );
    }
    Ok(())
}

// Puts three items after an end, which come back.
fn gives_back(
    rt: &impl Abort,
    alloc: Global,
    batching: &mut Batching<InOrder>,
) -> Result<(), Fail> {
    batching.producer.ready()?;
    let _task = batching.producer.end(Ending::Normal);
    match batching.put_all(batch(alloc, 0, 3)?)? {
        Some(PutAll::Gone(back)) => assert!(rt; back.len() == 3, "not all came back"),
        _ => return Err("a closed end took them".into()),
    }
    Ok(())
}

#[test]
fn a_batch_comes_back_from_an_end_that_is_closed(rt: HostRuntime) -> Result<(), Fail> {
    let (mut batching, _handle) = new_one(&rt, rt.alloc(), 4)?;
    gives_back(&rt, rt.alloc(), &mut batching)
}

// Puts two batches into a buffer that has room for both, and one for which there is none.
fn starts_one(
    rt: &impl Abort,
    alloc: Global,
    batching: &mut Batching<InOrder>,
) -> Result<(), Fail> {
    let first = batching.put_all(batch(alloc, 0, 2)?)?;
    let is_started = matches!(
        &first,
        Some(PutAll::Accepted {
            lag: 2,
            start: Some(_),
        },)
    );
    assert!(rt; is_started, "the first batch");
    let second = batching.put_all(batch(alloc, 2, 4)?)?;
    let is_put = matches!(
        &second,
        Some(PutAll::Accepted {
            lag: 4,
            start: None,
        },)
    );
    assert!(rt; is_put, "the second batch");
    assert!(rt;
        batching.put_all(batch(alloc, 4, 5)?)?.is_none(),
        "there is no room"
    );
    Ok(())
}

#[test]
fn a_second_batch_starts_no_second_task(rt: HostRuntime) -> Result<(), Fail> {
    let (mut batching, _handle) = new_one(&rt, rt.alloc(), 4)?;
    starts_one(&rt, rt.alloc(), &mut batching)
}
