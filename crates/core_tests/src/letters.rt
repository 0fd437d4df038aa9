//! Items and signals, as letters write them.
ghost use Rattle.std.specs.Prelude.{◌≡◌, ◌≤◌, length, map, IfOk};
ghost use Rattle.core_tests.specs.Letters.{lettered_item, signal_of_letter};

use flow_rules::{Fault, Item, NoMemory, Signal, Text};
use std::alloc::Global;

/// An item with this text, whose other parts are 1, 2 and 3.
pub fn item_with(alloc: Global, text: &[u8]) -> Result<Item, NoMemory>
    requires { length text.now ≤ Text.LONGEST }
    ensures { IfOk result (λ item. item ≡ lettered_item text.now) }
{
    Ok(Item {
        source: 1,
        seq: 2,
        serial: 3,
        text: Text::new(alloc, text)?,
    })
}

/// The signals that the letters write: `s` for `onSubscribe`, `c` for `onComplete`, `e` for `onError` of a publisher that
/// was closed with code 7, `a` for that of a bad request, `t` for that of a second subscribing, and any other letter for `onNext` of
/// an item with that text.
pub fn signals(alloc: Global, letters: &[u8]) -> Result<Vec<Signal>, NoMemory>
    ensures { IfOk result (λ signals. signals.items ≡ map signal_of_letter letters.now) }
{
    let mut signals = Vec::new(alloc);
    for letter in letters {
        signals.push(signal(alloc, *letter)?)?;
    }
    Ok(signals)
}

/// The signal that a letter writes.
fn signal(alloc: Global, letter: u8) -> Result<Signal, NoMemory>
    ensures { IfOk result (λ signal. signal ≡ signal_of_letter letter) }
{
    Ok(match letter {
        b's' => Signal::Subscribed,
        b'c' => Signal::Complete,
        b'e' => Signal::Error(Fault::Published(7)),
        b'a' => Signal::Error(Fault::IllegalArgument),
        b't' => Signal::Error(Fault::IllegalState),
        _ => Signal::Next(item_with(alloc, &[letter])?),
    })
}
