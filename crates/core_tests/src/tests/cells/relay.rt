//! Threads that share a subscription: one puts, one requests, and two run whatever task there is.
use super::board::{Board, run_all};
use super::in_order::InOrder;
use super::numbers;
use super::putting::Putting;
use feed_cell::{Cell, Handle, Producer, close};
use feed_core::{Lane, Seen};
use flow_rules::{Ending, Feed, How, Item, NoMemory, Put, Text, capacity};
use std::alloc::Global;
use std::sync::{Arc, Wait};
use std::test::Fail;
use std::thread;
use std::thread::{JoinHandle, Threads};
use std::time::{Clock, Instant};

// How many items are put, if there is time for them.
const ITEMS: u64 = 100_000;

// For how many seconds they are put at most: on busy processors each may wait for another thread's turn.
const TIME: u64 = 10;

// How many items are put between two looks at the clock.
const BETWEEN_LOOKS: u64 = 64;

// How many items may be requested and not given.
const MOST_AHEAD: u64 = 8;

// An item with this serial number.
fn item_of(serial: u64, text: &Text) -> Result<Item, NoMemory> {
    Ok(Item {
        source: 0,
        seq: serial,
        serial,
        text: text.share()?,
    })
}

// Puts an item, again while it comes back from a full buffer.
fn put_one<R: Wait>(
    rt: &R,
    board: &Board,
    putting: &mut Putting<InOrder>,
    item: Item,
) -> Result<(), NoMemory> {
    let mut item = item;
    for _ in rt.forever() {
        match putting.put(item)? {
            Put::Accepted { start, .. } => {
                board.post(rt, start);
                break;
            }
            Put::Full(back) => item = back,
            Put::Gone(_) => break,
        }
        thread::yield_now();
    }
    Ok(())
}

// Whether the time is over. It isn't if the clock doesn't tell.
fn is_late<R: Clock>(rt: &R, start: &Instant) -> bool {
    match start.elapsed(rt) {
        Ok(time) => time.as_secs() >= TIME,
        Err(_) => false,
    }
}

// Puts the items in order while there is time, and closes. How many it put.
fn put_all<R: Clock + Wait>(
    rt: &R,
    board: &Board,
    mut putting: Putting<InOrder>,
    text: &Text,
    start: Instant,
) -> Result<(Producer<InOrder>, u64), NoMemory> {
    let mut many = 0;
    for serial in 0..ITEMS {
        if serial % BETWEEN_LOOKS == 0 && is_late(rt, &start) {
            break;
        }
        put_one(rt, board, &mut putting, item_of(serial, text)?)?;
        many = serial + 1;
    }
    putting.producer.ready()?;
    board.post(rt, putting.producer.end(Ending::Normal));
    Ok((putting.producer, many))
}

// Requests items, a few ahead of those that are given, until the subscription has ended or all are requested.
fn request_all<R: Wait>(
    rt: &R,
    board: &Board,
    mut handle: Handle<InOrder>,
) -> Result<Handle<InOrder>, NoMemory> {
    let mut asked = 0;
    for _ in rt.forever() {
        if asked >= ITEMS || board.has_ended() {
            break;
        }
        if asked >= board.given().saturating_add(MOST_AHEAD) {
            thread::yield_now();
            continue;
        }
        let some = (asked % 3 + 1).min(ITEMS - asked);
        asked += some;
        handle.ready()?;
        board.post(rt, handle.request(some as i64));
    }
    Ok(handle)
}

// Starts a thread that runs whatever task there is.
fn start_runner<R: Threads + Wait + Send + Copy + 'static>(
    rt: R,
    alloc: Global,
    board: &Arc<Board, Global>,
) -> Result<JoinHandle<()>, Fail> {
    let board = Arc::try_clone(board)?;
    let seen = Seen::new(alloc)?;
    Ok(thread::spawn(&rt, move || run_all(&rt, &board, seen))?)
}

// Shares a subscription between a thread that puts, one that requests, and two that run its task. What is left of it, and how
// many items were put.
fn relay<R: Clock + Threads + Wait + Send + Copy + 'static>(
    rt: R,
    alloc: Global,
    asked: usize,
) -> Result<(Lane<InOrder>, u64), Fail> {
    let start = Instant::now(&rt)?;
    let Ok((producer, handle, task)) = Cell::new(alloc, capacity(asked)?, InOrder::new()) else {
        return Err(NoMemory.into());
    };
    // It takes memory of its own, which the threads share.
    let text = Text::new(alloc, b"a text of more than thirty bytes")?;
    let board = Arc::new(alloc, Board::of(task))?;
    let putting = Putting::new(producer);
    let (of_producer, of_handle) = (Arc::try_clone(&board)?, Arc::try_clone(&board)?);
    let puts = thread::spawn(
        &rt,
        move || put_all(&rt, &of_producer, putting, &text, start),
    )?;
    let requests = thread::spawn(&rt, move || request_all(&rt, &of_handle, handle))?;
    let runner = start_runner(rt, alloc, &board)?;
    let other = start_runner(rt, alloc, &board)?;
    let (producer, many) = puts.join(&rt)?;
    let handle = requests.join(&rt)?;
    runner.join(&rt);
    other.join(&rt);
    match close(producer, handle) {
        Ok(lane) if board.had_one_at_most() => Ok((lane, many)),
        _ => Err(Fail::new("a second task")),
    }
}

#[test]
fn four_threads_share_a_subscription(rt: HostRuntime) -> Result<(), Fail> {
    for asked in [1, 4, 64] {
        let (lane, many) = relay(rt, rt.alloc(), asked)?;
        let requested = lane.asked;
        assert!(rt; numbers(&lane) == (many, many, requested, Some(How::Completed), false));
        assert!(rt;
            many <= requested && requested <= ITEMS,
            "{requested} requested of {many}"
        );
        assert!(rt;
            lane.subscriber
                .is_some_and(|listener| listener.has_all(many))
        );
    }
    Ok(())
}
