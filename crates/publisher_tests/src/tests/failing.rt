//! The handler of failures: for what it is called, how often, and when.
mod draining;
mod hearing;
mod others;
mod waiting;

use draining::hears_before_the_drain;
use flow_rules::Answer;
use hearing::hear;
use others::{Heard, hear_beside_others};
use publisher::BlankPair;
use std::marker::Brand;
use std::test::Fail;
use waiting::look_while_it_hears;

#[test]
fn a_handler_hears_of_a_failed_item_alone(rt: HostRuntime) -> Result<(), Fail> {
    // How many callbacks go on before one gives this answer, and what the handler hears.
    let rows: [(u32, Answer, &str); 8] = [
        (1, Answer::Cancel, "0 times"),
        (1, Answer::Fail(7), "1 times, 0 again, last 7"),
        (1, Answer::Request(0), "0 times"),
        (1, Answer::Request(2), "0 times"),
        (0, Answer::Cancel, "0 times"),
        (0, Answer::Fail(7), "0 times"),
        (0, Answer::Request(-1), "0 times"),
        (0, Answer::Request(3), "0 times"),
    ];
    for (callbacks, answer, wanted) in rows {
        let blanks = BlankPair::new(rt.alloc())?;
        let heard = hear::<Brand, _>(rt, rt.alloc(), blanks, 1, 1, callbacks, answer)?;
        assert!(rt;
            heard.as_str() == wanted,
            "{heard}, after {callbacks} and {answer:?}"
        );
    }
    Ok(())
}

#[test]
fn a_handler_hears_once_of_each_of_many(rt: HostRuntime) -> Result<(), Fail> {
    for round in 0..20 {
        let blanks = BlankPair::new(rt.alloc())?;
        let heard = hear::<Brand, _>(rt, rt.alloc(), blanks, 4, 40, 1, Answer::Fail(9))?;
        assert!(rt;
            heard.as_str() == "40 times, 0 again, last 9",
            "{heard} in round {round}"
        );
    }
    Ok(())
}

#[test]
fn a_handler_hears_after_the_end_while_the_lock_is_free(rt: HostRuntime) -> Result<(), Fail> {
    let blanks = BlankPair::new(rt.alloc())?;
    let told = look_while_it_hears::<Brand, _>(rt, rt.alloc(), blanks)?;
    let wanted = "ended true, live 0, lag 0; went on true, last a 7";
    assert!(rt; told.as_str() == wanted, "{told}");
    Ok(())
}

#[test]
fn a_handler_hears_before_all_have_ended(rt: HostRuntime) -> Result<(), Fail> {
    for round in 0..10 {
        let blanks = BlankPair::new(rt.alloc())?;
        let is_told = hears_before_the_drain::<Brand, _>(rt, rt.alloc(), blanks)?;
        assert!(rt; is_told, "it has not heard in round {round}");
    }
    Ok(())
}

#[test]
fn a_handler_hears_the_name_of_the_one_that_failed(rt: HostRuntime) -> Result<(), Fail> {
    let blanks = BlankPair::new(rt.alloc())?;
    let heard = hear_beside_others::<Brand, _>(rt, rt.alloc(), blanks)?;
    let Heard {
        rounds,
        right,
        wrong,
    } = heard;
    assert!(rt;
        right == rounds && wrong == 0,
        "of {rounds} failures it heard {right}, and {wrong} of another one"
    );
    Ok(())
}
