//! The calls of the subscriber, one function a signal. What was told goes into `seen`, and the callback's answer back
//! to the caller.
ghost use Rattle.std.specs.Prelude.{◌≡◌, ◌<◌, ◌∷◌, ◌++◌, [], true, length, Ok, IfOk, OnOk, IfErr, OnErr};
ghost use Rattle.flow_rules.specs.declared.answer.Answer.TheVariants.{Go};
ghost use Rattle.feed_core.specs.Prelude.{Subscribed, Next};
ghost use Rattle.feed_core.specs.AnsweredTurn.{refused, replies_to};
ghost use Rattle.feed_core.specs.PlainTurn.{terminal_of};
ghost use Rattle.feed_core.specs.Seen.{seen_with};
ghost use Rattle.feed_core.specs.Steps.{HasTerminal};

use crate::turn::{SIGNALS_IN_A_TURN, Seen};
use flow_rules::{Answer, How, Item, Listener, NoMemory, Signal};

/// Tells `onSubscribe`.
pub fn tell_subscribed<B: Listener>(subscriber: &mut B, seen: &mut Seen) -> Result<Answer, NoMemory>
    requires room { length seen.old.signals < SIGNALS_IN_A_TURN }
    ensures told { OnOk result (B.told subscriber.new ≡ B.told subscriber.old ++ Subscribed ∷ []) }
    ensures seen { OnOk result (seen.new ≡ seen_with (Subscribed ∷ []) seen.old) }
    ensures untold { OnErr result (B.told subscriber.new ≡ B.told subscriber.old) }
    ensures unseen { OnErr result (seen.new ≡ seen.old) }
    ensures replied { IfOk result
        (λ answer. B.replied subscriber.new ≡ B.replied subscriber.old ++ Ok answer ∷ []) }
    ensures refused { OnErr result
        (B.replied subscriber.new ≡ B.replied subscriber.old ++ refused ∷ []) }
    ensures steady { B.is_steady subscriber.old ≡ true → B.is_steady subscriber.new ≡ true }
    ensures goes_on { B.is_steady subscriber.old ≡ true → IfOk result (λ answer. answer ≡ Go) }
{
    let answer = subscriber.on_subscribe()?;
    seen.push(Signal::Subscribed);
    Ok(answer)
}

/// Tells an item, and moves it to what was seen. If the callback is refused memory, the item comes back.
pub fn tell_next<B: Listener>(
    subscriber: &mut B,
    item: Item,
    seen: &mut Seen,
) -> Result<Answer, Item>
    requires room { length seen.old.signals < SIGNALS_IN_A_TURN }
    ensures told { OnOk result (B.told subscriber.new ≡ B.told subscriber.old ++ Next item ∷ []) }
    ensures seen { OnOk result (seen.new ≡ seen_with (Next item ∷ []) seen.old) }
    ensures untold { OnErr result (B.told subscriber.new ≡ B.told subscriber.old) }
    ensures unseen { OnErr result (seen.new ≡ seen.old) }
    ensures replied { IfOk result
        (λ answer. B.replied subscriber.new ≡ B.replied subscriber.old ++ Ok answer ∷ []) }
    ensures refused { OnErr result
        (B.replied subscriber.new ≡ B.replied subscriber.old ++ refused ∷ []) }
    ensures back { IfErr result (λ back. back ≡ item) }
    ensures steady { B.is_steady subscriber.old ≡ true → B.is_steady subscriber.new ≡ true }
    ensures goes_on { B.is_steady subscriber.old ≡ true → IfOk result (λ answer. answer ≡ Go) }
{
    match subscriber.on_next(&item) {
        Ok(answer) => {
            seen.push(Signal::Next(item));
            Ok(answer)
        }
        Err(NoMemory) => Err(item),
    }
}

/// Tells the terminal signal of an end, if it has one. What its callback answers is not obeyed.
pub fn tell_terminal<B: Listener>(
    subscriber: &mut B,
    how: How,
    seen: &mut Seen,
) -> Result<(), NoMemory>
    requires room { length seen.old.signals < SIGNALS_IN_A_TURN }
    ensures told { OnOk result (B.told subscriber.new ≡ B.told subscriber.old ++ terminal_of how) }
    ensures seen { OnOk result (seen.new ≡ seen_with (terminal_of how) seen.old) }
    ensures untold { OnErr result (B.told subscriber.new ≡ B.told subscriber.old) }
    ensures unseen { OnErr result (seen.new ≡ seen.old) }
    ensures replied { OnOk result (B.replied subscriber.new
        ≡ B.replied subscriber.old ++ replies_to (terminal_of how)) }
    ensures refused { OnErr result
        (B.replied subscriber.new ≡ B.replied subscriber.old ++ refused ∷ []) }
    ensures missed { OnErr result (HasTerminal how) }
    ensures steady { B.is_steady subscriber.old ≡ true → B.is_steady subscriber.new ≡ true }
{
    match how {
        How::Completed => {
            let _ = subscriber.on_complete()?;
            seen.push(Signal::Complete);
        }
        How::Errored(fault) => {
            let _ = subscriber.on_error(fault)?;
            seen.push(Signal::Error(fault));
        }
        How::Cancelled | How::Failed(_) | How::OutOfMemory => {}
    }
    Ok(())
}
