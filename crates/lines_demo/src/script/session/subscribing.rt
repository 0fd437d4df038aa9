//! `sub`.
ghost use Rattle.std.specs.Prelude.{◌≡◌, ◌≤◌, [], true, IfOk, IfErr};
ghost use Rattle.feed_core.specs.LaneCalls.{IsCapacity};
ghost use Rattle.lines_demo.specs.Prelude.{UNBOUNDED, desk_after_demand};
ghost use Rattle.lines_demo.specs.Script.Playing.{Replies};
ghost use Rattle.commands.specs.Reply.{reply_or_refusal};
ghost use Rattle.lines_demo.specs.Script.Subscribing.{sub_result, desk_at_start};

use super::Session;
use commands::Reply;
use feed_core::Desk;
use flow_rules::{ErrorOrder, Listener, Name, NoMemory, Refusal};
use publisher_hub::USUAL_LIVE;
use std::alloc::Global;

impl<B: Listener> Session<B> {
    /// The next subscriber of the stock subscribes. If memory is refused for its buffer, it goes to the end of the
    /// stock.
    pub(super) fn subscribe(
        &mut self,
        alloc: Global,
        name: Name,
        number: u64,
    ) -> Result<Reply, Refusal>
        requires begun { self.old.beginning.is_over ≡ true }
        requires bounded { number ≤ UNBOUNDED }
        ensures { Replies (λ refusals. sub_result self.old refusals name number)
            (reply_or_refusal result) self.new }
    {
        if let Err(refusal) = self.hub.may_subscribe(name, USUAL_LIVE, &mut self.due) {
            self.woken.push_all(&mut self.due);
            return Err(refusal);
        }
        let Some(subscriber) = self.stock.pop_front() else {
            return Err(Refusal::TooMany);
        };
        let order = self.beginning.order;
        match new_desk(alloc, self.hub.capacity(), order, subscriber, number) {
            Ok(desk) => {
                let entry = self.hub.admit(name, desk, None, USUAL_LIVE, &mut self.due)?;
                self.woken.push(entry);
                Ok(Reply::Name(name))
            }
            Err(subscriber) => {
                self.stock.push_back_reserved(subscriber);
                Err(Refusal::NoMemory)
            }
        }
    }
}

/// A new subscription of this subscriber, which has requested this many items, and is told a closing error in this
/// order. If memory is refused, the subscriber comes back.
fn new_desk<B: Listener>(
    alloc: Global,
    capacity: usize,
    order: ErrorOrder,
    subscriber: B,
    number: u64,
) -> Result<Desk<B>, B>
    requires untold { (B.told subscriber ≡ []) × (B.replied subscriber ≡ []) }
    requires steady { B.is_steady subscriber ≡ true }
    requires sized { IsCapacity capacity }
    requires bounded { number ≤ UNBOUNDED }
    ensures ok { IfOk result
        (λ desk. desk ≡ desk_after_demand number (desk_at_start order capacity)) }
    ensures back { IfErr result (λ back. back ≡ subscriber) }
{
    match Desk::new_with(alloc, capacity, order, subscriber) {
        Ok(mut desk) => {
            if number > 0 {
                let _ = desk.request(number as i64);
            }
            Ok(desk)
        }
        Err((NoMemory, subscriber)) => Err(subscriber),
    }
}
