//! What comes out of a Hub when a subscription is done: its ticket, its producer's end, its number among those that may
//! be live. The subscription itself stays, and keeps its number until another one gets that.
ghost use Rattle.std.specs.Prelude.{◌≡◌, map, vec_capacity};
ghost use Rattle.publisher_hub.specs.Adding.{AreAllLive, goes_on, live_of};
ghost use Rattle.publisher_hub.specs.Entry.{entry_of};
ghost use Rattle.publisher_hub.specs.Hub.{hub_of};
ghost use Rattle.publisher_hub.specs.Reclaiming.{TakesEndedAt};
ghost use Rattle.publisher_hub.specs.Sound.{IsSound};
ghost use Rattle.publisher_hub.specs.Taking.{TakesOutAt};
ghost use Rattle.publisher_hub.specs.Tickets.{RetiresIfEndedAt};

use crate::entry::Entry;
use crate::hub::Hub;
use close_count::Ticket;
use flow_rules::Feed;

impl<F: Feed> Hub<F> {
    /// Looks at the subscription of this number, also if it is retired. If that shows that it has ended, it is retired,
    /// and its ticket, if that is there still, is taken out; whoever gets it has to spend it.
    ///
    /// `None` if it goes on, if its ticket was taken out before or never was there, if its producer's end was taken
    /// out, or if no subscription has the number; nothing has changed then but by the look.
    #[must_use]
    pub fn ended(&mut self, entry: u32) -> Option<Ticket>
        requires sound { IsSound (hub_of F.meaning self.old) }
        ensures looks { RetiresIfEndedAt F.meaning F.does entry result self.old self.new }
        ensures sound { IsSound (hub_of F.meaning self.new) }
    {
        let next = self.next;
        match self.entries.get_mut(entry as usize) {
            Some(entry) => entry.ended(next),
            None => None,
        }
    }

    /// Takes the producer's end of the subscription of this number out. The subscription is retired, if it isn't, and
    /// its ticket is dropped, if it is there: that ticket is never spent. Its name, what it dropped and since when it
    /// took part stay, until [`admit_at`](Hub::admit_at) gives its place to another one.
    ///
    /// `None`, with nothing changed, if the end was taken out before, or if no subscription has the number.
    pub fn take_feed(&mut self, entry: u32) -> Option<F>
        requires sound { IsSound (hub_of F.meaning self.old) }
        ensures takes { TakesOutAt F.meaning entry result self.old self.new }
        ensures sound { IsSound (hub_of F.meaning self.new) }
    {
        let next = self.next;
        match self.entries.get_mut(entry as usize) {
            Some(entry) => entry.take_feed(next),
            None => None,
        }
    }

    /// Looks at the subscription of this number, also if it is retired. If that shows that it has ended, its producer's
    /// end is taken out as by [`take_feed`](Hub::take_feed), and with it its ticket, if that is there still; whoever
    /// gets that has to spend it. The numbers of all retired ones are then left out of those that may be live, and a
    /// publication costs nothing for this subscription.
    ///
    /// `None`, with nothing changed but by the look, if it goes on, if the end was taken out before, or if no
    /// subscription has the number.
    #[must_use]
    pub fn take_ended(&mut self, entry: u32) -> Option<(F, Option<Ticket>)>
        requires sound { IsSound (hub_of F.meaning self.old) }
        ensures takes { TakesEndedAt F.meaning F.does entry result self.old self.new }
        ensures sound { IsSound (hub_of F.meaning self.new) }
    {
        let next = self.next;
        let taken = self.entries.get_mut(entry as usize)?.take_ended(next)?;
        self.leave_out_retired();
        Some(taken)
    }

    /// Leaves the numbers of the retired subscriptions out of those that may be live.
    pub(super) fn leave_out_retired(&mut self)
        requires sound { IsSound (hub_of F.meaning self.old) }
        ensures left { self.new.live.items
            ≡ live_of (hub_of F.meaning self.old).entries self.old.live.items }
        ensures all_live { AreAllLive self.new.live.items (hub_of F.meaning self.old).entries }
        ensures rest { self.new ≡ record self.old { live = self.new.live } }
        ensures places { vec_capacity self.new.live ≡ vec_capacity self.old.live }
        ensures sound { IsSound (hub_of F.meaning self.new) }
    {
        leave_out(&self.entries, &mut self.live);
    }
}

/// Leaves out the numbers of retired subscriptions.
fn leave_out<F: Feed>(entries: &[Entry<F>], live: &mut Vec<u32>)
    ensures left { live.new.items ≡ live_of (map (entry_of F.meaning) entries.now) live.old.items }
    ensures places { vec_capacity live.new ≡ vec_capacity live.old }
{
    live.retain(|number| is_live(entries, *number));
}

/// Says whether the subscription of this number is there, and isn't retired.
fn is_live<F: Feed>(entries: &[Entry<F>], number: u32) -> bool
    ensures { result ≡ goes_on (map (entry_of F.meaning) entries.now) number }
{
    match entries.get(number as usize) {
        Some(entry) => !entry.retired,
        None => false,
    }
}
