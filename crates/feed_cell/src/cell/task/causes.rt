//! The causes that the control word tells, with those that the answers of callbacks brought about.
ghost use Rattle.std.specs.Prelude.{◌≡◌, ◌<◌, ℕ, Bool};
ghost use Rattle.std.specs.Int.{bit_at};
ghost use Rattle.feed_cell.specs.Control.{Flags, Reads, number, causes_of};

use crate::cell::{BAD_REQUEST, CANCELLED, CODE, COMPLETED, DOUBLED, FAILED};
use feed_core::Causes;
use flow_rules::Ending;

/// Reads the causes that this control word tells, and joins those of the answers, with which the order of errors lies.
pub(crate) fn causes_in(word: u64, answers: Causes) -> Causes
    ensures { (flags : Flags) → Reads word flags → result ≡ causes_of flags answers }
{
    Causes {
        order: answers.order,
        cancel: is_set(word, CANCELLED) || answers.cancel,
        argument: is_set(word, BAD_REQUEST) || answers.argument,
        state: is_set(word, DOUBLED),
        closing: closing_in(word),
        failed: answers.failed,
        memory: answers.memory,
    }
}

/// Reads how the subscription was closed, if it was.
fn closing_in(word: u64) -> Option<Ending>
    ensures { (flags : Flags) → Reads word flags → result ≡ flags.closing }
{
    if is_set(word, FAILED) {
        return Some(Ending::Failed((word >> CODE) as u32));
    }
    if is_set(word, COMPLETED) {
        return Some(Ending::Normal);
    }
    None
}

/// Answers whether this bit of the word is set.
fn is_set(word: u64, bit: u32) -> bool
    requires { bit < 64 }
    ensures { (flag : Bool) → bit_at word bit ≡ number flag → result ≡ flag }
{
    (word >> bit) & 1 == 1
}
