//! The turns of a `run`.
ghost use Rattle.std.specs.Prelude.{◌≡◌, ◌<◌, true};
ghost use Rattle.lines_demo.specs.Script.Acting.{OwesTurn, TurnsOn};
ghost use Rattle.lines_demo.specs.Script.Playing.{MakesTurn};
ghost use Rattle.lines_demo.specs.Script.Running.{most_turns};
ghost use Rattle.lines_demo.specs.Script.Waking.{has_woken};

use super::Session;
use feed_core::{Desk, Outlook, Seen};
use flow_rules::{Listener, Name};
use publisher_hub::Hub;

impl<B: Listener> Session<B> {
    /// Makes the turn of the first of the woken, and answers whose it was. What it told stands in `seen`.
    pub fn turn(&mut self, seen: &mut Seen) -> (Name, Outlook)
        requires { has_woken self.old.woken ≡ true }
        ensures turn { MakesTurn self.old self.new result.0 seen.new.signals result.1 }
        ensures fewer { most_turns self.new < most_turns self.old }
    {
        let entry = self.woken.pop().unwrap();
        let name = self.hub.facts(entry).unwrap().name;
        let outlook = turn_at(&mut self.hub, entry, seen);
        self.woken.push_if(entry, matches!(outlook, Outlook::Again));
        (name, outlook)
    }
}

/// Makes the turn that the subscription of this number owes. What it told stands in `seen`.
fn turn_at<B: Listener>(hub: &mut Hub<Desk<B>>, entry: u32, seen: &mut Seen) -> Outlook
    requires owed { OwesTurn entry hub.old }
    ensures { TurnsOn entry hub.old seen.new.signals result hub.new }
{
    hub.feed_mut(entry).unwrap().turn(seen)
}
