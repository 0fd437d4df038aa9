//! Errors of one subscription alone, as a thread finds them in its inbox: they are no completions.
ghost use Rattle.publisher.specs.Blanks.{AreBlanksOf};

use super::{add_inbox, take_one};
use flow_rules::{Refusal, Watching};
use inbox::{Inbox, Inlet};
use publisher::{BlankPair, Ledgers};
use std::alloc::Global;
use std::marker::Brand;
use std::sync::Wait;
use std::test::Fail;
use std::thread::Threads;
use test_stand::{Stand, name_of};

// What a thread finds after a bad request, and what another one finds whose name was subscribed a second time.
fn find_errors<
    L: Ledgers + Send + Sync + 'static,
    R: Threads + Wait + Copy + Send + Sync + 'static,
>(rt: R, alloc: Global, blanks: BlankPair) -> Result<String, Fail>
    requires blanks { AreBlanksOf blanks L.publications L.drops L.history }
{
    let mut stand: Stand<L, Watching<Inlet<R>>> = Stand::new(rt, alloc, blanks, 1, 4)?;
    let found = find_two(&rt, &mut stand);
    let _ = stand.end(&rt);
    found
}

fn find_two<L: Ledgers + Send + Sync + 'static, R: Wait + Copy + Send + 'static>(
    rt: &R,
    stand: &mut Stand<L, Watching<Inlet<R>>>,
) -> Result<String, Fail> {
    let mut wrong = add_inbox(rt, stand, "a", 2)?;
    let mut doubled = add_inbox(rt, stand, "b", 2)?;
    stand.request(rt, 0, 0)?;
    let (inlet, _inbox) = Inbox::pair(*rt, stand.alloc, 2)?;
    let subscribed = stand
        .publisher
        .subscribe(rt, stand.alloc, name_of("b")?, Watching::new(inlet));
    if let Err(refused) = subscribed {
        if *refused.refusal() != Refusal::Duplicate {
            return Err(refused.into());
        }
    }
    let one = take_one(rt, stand, 0, &mut wrong)?;
    let other = take_one(rt, stand, 1, &mut doubled)?;
    Ok(format!(in stand.alloc;
        "{one} {:?} {:?}; {other} {:?} {:?}",
        wrong.ending(),
        wrong.fault(),
        doubled.ending(),
        doubled.fault()
    )?)
}

#[test]
fn an_error_of_one_subscription_is_no_completion(rt: HostRuntime) -> Result<(), Fail> {
    let blanks = BlankPair::new(rt.alloc())?;
    let found = find_errors::<Brand, _>(rt, rt.alloc(), blanks)?;
    let wanted = "false Some(Errored(IllegalArgument)) Some(IllegalArgument); \
        false Some(Errored(IllegalState)) Some(IllegalState)";
    assert!(rt; found.as_str() == wanted, "{found}");
    Ok(())
}
