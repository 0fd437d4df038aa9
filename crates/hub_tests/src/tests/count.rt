//! Counts: what their tickets answer, alone and between threads.
use close_count::{Count, Opening, last_once, none_left, none_open, one_of_all_is_last};
use std::alloc::Global;
use std::test::Fail;
use std::thread;
use std::thread::{JoinHandle, Threads};

#[test]
fn the_last_of_three_is_true(rt: HostRuntime) -> Result<(), Fail> {
    let mut opening = Count::new(rt.alloc())?;
    let first = opening.add()?;
    let second = opening.add()?;
    let first_is_last = first.try_complete();
    let opening_is_last = opening.try_complete();
    assert!(rt; !first_is_last && !opening_is_last && second.try_complete());
    Ok(())
}

#[test]
fn the_opening_alone_is_the_last(rt: HostRuntime) -> Result<(), Fail> {
    assert!(rt; Count::new(rt.alloc())?.try_complete());
    Ok(())
}

#[test]
fn a_dropped_ticket_is_never_spent(rt: HostRuntime) -> Result<(), Fail> {
    let mut opening = Count::new(rt.alloc())?;
    drop(opening.add()?);
    assert!(rt; !opening.try_complete());
    Ok(())
}

#[test]
fn no_two_of_one_count_are_the_last(rt: HostRuntime) -> Result<(), Fail> {
    let mut opening = Count::new(rt.alloc())?;
    let first = opening.add()?.spend();
    let second = opening.add()?.spend();
    assert!(rt; !first.is_last() && !second.is_last());
    last_once(first, second);
    Ok(())
}

#[test]
fn none_is_last_where_one_is_left(rt: HostRuntime) -> Result<(), Fail> {
    let mut opening = Count::new(rt.alloc())?;
    let first = opening.add()?;
    none_left(opening.add()?.spend(), first);
    none_open(opening.add()?.spend(), opening);
    Ok(())
}

#[test]
fn of_all_one_is_the_last(rt: HostRuntime) -> Result<(), Fail> {
    let mut tickets = Vec::with_capacity(rt.alloc(), 2)?;
    let mut opening = Count::new(rt.alloc())?;
    let first = opening.add()?.spend();
    let second = opening.add()?.spend();
    let third = opening.spend();
    let first_is_last = first.is_last();
    let second_is_last = second.is_last();
    let third_is_last = third.is_last();
    tickets.push(first)?;
    tickets.push(second)?;
    one_of_all_is_last(third, tickets);
    prove!(first_is_last || second_is_last || third_is_last);
    assert!(rt; third_is_last);
    Ok(())
}

/// Starts seven threads, each of which completes a ticket.
fn complete_in_threads<R: Threads>(
    rt: &R,
    alloc: Global,
    opening: &mut Opening,
) -> Result<Vec<JoinHandle<bool>>, Fail> {
    let mut threads = Vec::with_capacity(alloc, 7)?;
    for _ in 0..7 {
        let ticket = opening.add()?;
        threads.push(thread::spawn(rt, move || ticket.try_complete())?)?;
    }
    Ok(threads)
}

/// How many of seven tickets in threads of their own, and of their opening, were the last.
fn count_the_last<R: Threads>(rt: &R, alloc: Global) -> Result<u64, Fail> {
    let mut opening = Count::new(alloc)?;
    let threads = complete_in_threads(rt, alloc, &mut opening)?;
    let mut last = u64::from(opening.try_complete());
    for thread in threads {
        last = last.saturating_add(u64::from(thread.join(rt)));
    }
    Ok(last)
}

#[test]
fn one_of_several_threads_finds_the_last(rt: HostRuntime) -> Result<(), Fail> {
    for round in 0..50 {
        assert!(rt; count_the_last(&rt, rt.alloc())? == 1, "round {round}");
    }
    Ok(())
}

// Also run from outside with each request for memory refused in turn: a refusal leaves the opening as it was.
#[test]
fn a_refusal_is_answered(rt: HostRuntime) -> Result<(), Fail> {
    let Ok(mut opening) = Count::new(rt.alloc()) else {
        return Ok(());
    };
    let last = match opening.add() {
        Ok(ticket) => !opening.try_complete() && ticket.try_complete(),
        Err(_) => opening.try_complete(),
    };
    assert!(rt; last);
    Ok(())
}
