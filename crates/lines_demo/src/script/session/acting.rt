//! `request` and `cancel`: what the owner of a subscription does.
ghost use Rattle.std.specs.Prelude.{◌≡◌, true, IsSome};
ghost use Rattle.publisher_hub.specs.Lending.{feed_at};
ghost use Rattle.lines_demo.specs.Script.Acting.{ActsOn, was_started};
ghost use Rattle.lines_demo.specs.Script.Obeying.{act_result, desk_after_act};
ghost use Rattle.lines_demo.specs.Script.Playing.{Replies, IsLatest};
ghost use Rattle.commands.specs.Reply.{reply_or_refusal};

use super::Session;
use commands::Reply;
use feed_core::Desk;
use flow_rules::{Listener, Name, Refusal};
use publisher_hub::Hub;

/// What the owner of a subscription does to it (`Flow.Subscription`, Java SE 17).
#[derive(Clone, Copy, Debug)]
pub enum Act {
    /// Requests this many more items; a number that is not positive is a bad request.
    Request(i64),
    /// Cancels it.
    Cancel,
}

impl<B: Listener> Session<B> {
    /// Does this to the latest subscription of this name.
    pub(super) fn act(&mut self, name: Name, act: Act) -> Result<Reply, Refusal>
        requires begun { self.old.beginning.is_over ≡ true }
        ensures { Replies (λ refusals. act_result self.old refusals name act)
            (reply_or_refusal result) self.new }
    {
        let Some(entry) = self.latest(name) else {
            return Err(Refusal::Unknown);
        };
        let is_started = act_at(&mut self.hub, entry, act);
        self.woken.push_if(entry, is_started);
        Ok(Reply::Done)
    }

    /// The latest subscription of this name.
    fn latest(&self, name: Name) -> Option<u32>
        ensures { IsLatest name self.now.subscriptions result }
    {
        let mut latest = None;
        let mut entry = 0;
        while let Some(other) = self.hub.facts(entry) {
            if other.name == name {
                latest = Some(entry);
            }
            entry += 1;
        }
        latest
    }
}

/// Does this to the subscription of this number. The answer says whether that started its task.
fn act_at<B: Listener>(hub: &mut Hub<Desk<B>>, entry: u32, act: Act) -> bool
    requires there { IsSome (feed_at hub.old entry) }
    ensures { ActsOn act entry hub.old result hub.new }
{
    act_on(hub.feed_mut(entry).unwrap(), act)
}

/// Does this to a subscription. The answer says whether that started its task.
fn act_on<B: Listener>(desk: &mut Desk<B>, act: Act) -> bool
    ensures acts { desk.new ≡ desk_after_act act desk.old }
    ensures starts { result ≡ was_started desk.old desk.new }
{
    match act {
        Act::Request(number) => desk.request(number).is_some(),
        Act::Cancel => desk.cancel().is_some(),
    }
}
