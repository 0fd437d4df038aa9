//! What the tests of public calls share: a listener that gives each of the answers, one that is refused memory, a handler of drops
//! that notes its calls, and waits for what other threads do, none of which is for ever.
#![tactic(auto)]

mod answering;
mod asking;
mod refused;
mod waiting;

pub use answering::Answering;
pub use asking::{Asking, Notes};
pub use refused::Refused;
pub use waiting::{comes_to, wait_for};
