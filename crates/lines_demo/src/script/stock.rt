//! The subscribers of a script as listeners, which keep for clauses what they replied.
ghost use Rattle.std.specs.Prelude.{◌≡◌, [], true, All, length, IfOk};

use flow_rules::{NoMemory, Shown, Subscriber};
use std::alloc::Global;

/// Makes a listener of each subscriber, in order. None has replied anything yet.
pub fn shown<S: Subscriber>(alloc: Global, subscribers: Vec<S>) -> Result<Vec<Shown<S>>, NoMemory>
    requires untold { All (λ s. S.told s ≡ []) subscribers.items }
    requires steady { All (λ s. S.is_steady s ≡ true) subscribers.items }
    ensures untold { IfOk result
        (λ stock. All (λ b. (S.told b.subscriber ≡ []) × (b.replied ≡ [])) stock.items) }
    ensures steady { IfOk result
        (λ stock. All (λ b. S.is_steady b.subscriber ≡ true) stock.items) }
    ensures whole { IfOk result (λ stock. length stock.items ≡ length subscribers.items) }
{
    let mut stock = Vec::new(alloc);
    for subscriber in subscribers {
        stock.push(Shown::new(subscriber))?;
    }
    Ok(stock)
}
