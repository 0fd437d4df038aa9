//! How the handler of failures is set, told and taken out.
//!
//! It stands behind a lock of its own. Which end of a turn is a failure that it hears of is found in `consumer_task`.
ghost use Rattle.std.specs.Prelude.{◌≡◌, IfSome, Some};

use crate::ledgers::Ledgers;
use crate::shared::Shared;
use crate::turned::EndedTask;
use flow_rules::{FailHandler, Listener};
use publisher_hub::Facts;
use std::sync::Wait;

impl<L: Ledgers, B: Listener, F: FailHandler> Shared<L, B, F> {
    /// Lets this handler hear of failures from now on.
    pub fn set_handler<R: Wait>(&self, rt: &R, handler: F) {
        *self.handler.lock(rt) = Some(handler);
    }

    /// Takes the handler out, if there is one. No failure is told after that.
    pub fn take_handler<R: Wait>(&self, rt: &R) -> Option<F> {
        self.handler.lock(rt).take()
    }

    /// Tells the handler, if there is one, that the `onNext` of a subscription that has ended failed with this code. The
    /// lock of the publisher is free meanwhile.
    pub fn tell_failure<R: Wait>(&self, rt: &R, ended: &EndedTask, code: u32) {
        let facts = self.lock(rt).facts_of_ended(ended);
        tell(&mut *self.handler.lock(rt), facts, code);
    }
}

/// Tells the handler, if there is one, that the subscriber of which this is known failed with this code, if there is
/// such a subscriber.
fn tell<F: FailHandler>(handler: &mut Option<F>, facts: Option<Facts>, code: u32)
    ensures { IfSome handler.new
        (λ told. IfSome facts (λ facts. F.last told ≡ Some (facts.name, code))) }
{
    if let (Some(handler), Some(facts)) = (handler, facts) {
        handler.on_fail(facts.name, code);
    }
}
