//! A boxed listener that may go to another thread.
use super::Listener;
use crate::answer::Answer;
use crate::item::Item;
use crate::refusal::NoMemory;
use crate::signal::Fault;

/// Meets `Listener + Send`, which a publisher that threads share asks for: so listeners of different types can
/// subscribe to one publisher. A `Box<dyn Subscriber>` needs no word `Send`, since each
/// [`Subscriber`](crate::Subscriber) has it.
impl Listener for Box<dyn Listener + Send> {
    ghost told = { λ b. (Listener-box b).told b.value };

    ghost replied = { λ b. (Listener-box b).replied b.value };

    ghost is_steady = { λ b. (Listener-box b).is_steady b.value };

    fn on_subscribe(&mut self) -> Result<Answer, NoMemory> {
        (**self).on_subscribe()
    }

    fn on_next(&mut self, item: &Item) -> Result<Answer, NoMemory> {
        (**self).on_next(item)
    }

    fn on_error(&mut self, fault: Fault) -> Result<Answer, NoMemory> {
        (**self).on_error(fault)
    }

    fn on_complete(&mut self) -> Result<Answer, NoMemory> {
        (**self).on_complete()
    }
}
