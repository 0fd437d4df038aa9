//! Callbacks and handlers of drops that wait for what other threads do, and listeners of different types.
mod acting;
mod handling;
mod meeting;
mod mixing;
mod waiting;

use acting::Acting;
use flow_rules::{Listener, Watching};
use handling::offer_twice;
use meeting::meet;
use mixing::{Ones, Tens, mix};
use publisher::BlankPair;
use std::alloc::Global;
use std::marker::Brand;
use std::sync::Arc;
use std::sync::atomic::Ordering::SeqCst;
use std::sync::atomic::{AtomicBool, AtomicU64};
use std::test::Fail;
use waiting::call_all;

type Flag = Arc<AtomicBool, Global>;

type Count = Arc<AtomicU64, Global>;

#[test]
fn two_callbacks_meet(rt: HostRuntime) -> Result<(), Fail> {
    let met = meet::<Brand, _>(rt, rt.alloc(), BlankPair::new(rt.alloc())?)?;
    assert!(rt; met == 2, "{met} met");
    Ok(())
}

#[test]
fn each_call_returns_while_a_callback_runs(rt: HostRuntime) -> Result<(), Fail> {
    let told = call_all::<Brand, _>(rt, rt.alloc(), BlankPair::new(rt.alloc())?)?;
    let wanted = "lag 1, answer 2, lag 2 of 2, a true; 0 and 2 went on";
    assert!(rt; told.as_str() == wanted, "{told}");
    Ok(())
}

#[test]
fn a_handler_finds_room_that_is_made_meanwhile(rt: HostRuntime) -> Result<(), Fail> {
    let answer = offer_twice::<Brand, _>(rt, rt.alloc(), BlankPair::new(rt.alloc())?)?;
    assert!(rt; answer == 1, "answer {answer}");
    Ok(())
}

#[test]
fn listeners_of_two_types_hear_one_publisher(rt: HostRuntime) -> Result<(), Fail> {
    let alloc = rt.alloc();
    let count = Arc::new(alloc, AtomicU64::new(0))?;
    let tens = Watching::new(Tens(Arc::try_clone(&count)?));
    let ones = Acting::new(Ones(Arc::try_clone(&count)?));
    let tens: Box<dyn Listener + Send> = Box::new(alloc, tens)?;
    let ones: Box<dyn Listener + Send> = Box::new(alloc, ones)?;
    let blanks = BlankPair::new(rt.alloc())?;
    mix::<Brand, _, _>(rt, alloc, blanks, tens, ones)?;
    let count = count.load(SeqCst);
    // The watch counts two items as ten each, and the other one an item as one.
    assert!(rt; count == 21, "counted {count}");
    Ok(())
}
