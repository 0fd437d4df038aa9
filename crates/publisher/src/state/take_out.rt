//! What is taken out from behind the lock: one subscription that has ended, or all at the end of the publisher.
//!
//! Only the two ends of subscriptions come out. They are closed outside the lock, by whoever took them out.
ghost use Rattle.std.specs.Prelude.{◌≡◌, ◌<◌, IfErr, IfOk, IfSome, IsSome};
ghost use Rattle.publisher.specs.Content.{ArePublished};
ghost use Rattle.publisher.specs.Finishing.{IsNothing, TakesBooksOut};
ghost use Rattle.publisher.specs.Reclaiming.{Knows, NamesOne, Reclaims, RefusesReclaim, TakesEnd};

use super::State;
use super::close::{compare_tickets, keep_last};
use super::sources::put_together;
use crate::finishing::find::{Taken, count_ends, find_all, is_late, place_all};
use crate::finishing::judge::Books;
use crate::finishing::room::{Places, new_places};
use crate::ledgers::Ledgers;
use crate::outcome::Outcome;
use crate::owner::OwnersEnd;
use crate::submitter::Submitter;
use crate::subscription::Subscription;
use feed_cell::{Producer, is_shared};
use flow_rules::{FailHandler, Listener, Name, Refusal};
use publisher_hub::Facts;
use std::alloc::Global;

impl<L: Ledgers, B: Listener> State<L, B> {
    /// Takes the producer's end of a subscription out, if that has ended, for its owner's end, which this is. Its ticket
    /// is spent, if it wasn't.
    ///
    /// Refused, with the owner's end back: 9 if a look shows that it has not ended, by its name; 8 if the thread that ended
    /// it has not let go of it; and 5 if the memory for the list of that one name is refused, or if no subscription has the number.
    /// Nothing has changed then but by looks. If it is given, one more was reclaimed, and a later one may have its
    /// number.
    pub fn reclaim(
        &mut self,
        alloc: Global,
        owner: OwnersEnd<B>,
    ) -> Result<Taken<B>, (Refusal, OwnersEnd<B>)>
        ensures ok { IfOk result (λ taken. Reclaims owner taken self.old self.new) }
        ensures back { IfErr result (λ refused. refused.1 ≡ owner) }
        ensures refused { IfErr result (λ refused.
            RefusesReclaim owner.entry refused.0 self.old self.new) }
    {
        let entry = owner.entry;
        let has_ended = self.has_ended(entry);
        let Some(facts) = self.facts(entry) else {
            return Err((Refusal::NoMemory, owner));
        };
        let late = is_late(self.counted, entry);
        if !has_ended {
            return Err((unsettled(alloc, facts.name), owner));
        }
        let is_held = match self.hub.feed(entry) {
            Some(producer) => { is_shared(producer, &owner.handle) | !self.census.is_let_go(entry) }
            None => false,
        };
        if is_held {
            return Err((Refusal::StillHeld(facts.name), owner));
        }
        match self.take_end(entry) {
            Some(producer) => {
                self.census.reclaim(entry);
                Ok(Taken {
                    facts,
                    late,
                    producer,
                    owner,
                })
            }
            None => Err((unsettled(alloc, facts.name), owner)),
        }
    }

    /// Gives what the Hub knows of the subscription of this number, if there is one, and not all were reclaimed.
    fn facts(&self, entry: u32) -> Option<Facts>
        ensures known { IfSome result (Knows self.now entry) }
        ensures unreclaimed { IsSome result
            → self.now.census.reclaimed < self.now.census.made }
    {
        if self.census.unreclaimed() == 0 {
            return None;
        }
        self.hub.facts(entry)
    }

    /// Looks at the subscription of this number. If that shows that it has ended, its producer's end is taken out, its
    /// number is none of those that may be live, and its ticket is spent.
    fn take_end(&mut self, entry: u32) -> Option<Producer<B>>
        ensures takes { TakesEnd entry result self.old self.new }
        ensures census { self.new.census ≡ self.old.census }
    {
        let (producer, ticket) = self.hub.take_ended(entry)?;
        if let Some(ticket) = ticket {
            let is_closed = self.hub.ending().is_some();
            keep_last(&mut self.last, ticket.spend(), is_closed);
        }
        Some(producer)
    }
}

impl<L: Ledgers + Send, B: Listener + Send> State<L, B> {
    /// Takes the producer's end of each subscription out that was handed in, and sums up the shares of the submitters.
    /// If a growth is refused, the answer is an outcome without lanes and without a handler.
    pub fn take_out<F: FailHandler + Send>(
        &mut self,
        alloc: Global,
        submitters: Vec<Submitter<L, B, F>>,
        subscriptions: Vec<Subscription<L, B, F>>,
    ) -> Result<Books<B>, Outcome<B, F>>
        ensures ok { IfOk result
            (λ books. TakesBooksOut submitters.items subscriptions.items self.old books) }
        ensures nothing { IfErr result (λ outcome. IsNothing outcome) }
        ensures sent { IfErr result
            (λ outcome. ArePublished submitters.items outcome.published) }
    {
        let together = put_together(
            &mut self.rest,
            &mut self.rest_of_drops,
            &mut self.history,
            submitters,
        );
        let Ok(
            Places {
                mut owners,
                mut founds,
                room,
            },
        ) = new_places(alloc, self.entries as usize)
        else {
            return Err(self.nothing(alloc));
        };
        let all = place_all(&mut owners, subscriptions);
        compare_tickets(&mut self.hub, &mut self.last, self.entries);
        let gone = find_all(&mut self.hub, self.counted, &mut owners, &mut founds);
        // Each subscription of this publisher has its place, one that is reclaimed is given up by its owner, and the
        // others have their ends here.
        let whole = count_ends(&founds) == self.census.unreclaimed();
        if gone | !all | !whole {
            return Err(self.nothing(alloc));
        }
        let is_closed = together.knows | self.hub.ending().is_some();
        let missing = self.audit(together);
        Ok(Books {
            founds,
            room,
            made: self.census.made(),
            reclaimed: self.census.reclaimed(),
            published: self.hub.next_serial(),
            drained: self.last.is_some(),
            is_closed,
            missing,
        })
    }

    /// Makes an outcome without lanes and without a handler.
    fn nothing<F: FailHandler>(&self, alloc: Global) -> Outcome<B, F>
        ensures nothing { IsNothing result }
        ensures published { result.published ≡ self.now.hub.next }
    {
        let published = self.hub.next_serial();
        let drained = self.last.is_some();
        Outcome {
            lanes: Vec::new(alloc),
            held: Vec::new(alloc),
            reclaimed: self.census.reclaimed(),
            made: self.census.made(),
            published,
            drained,
            handler: None,
        }
    }
}

/// Makes the refusal of a subscription of this name that has not ended: 9, or 5 if the memory for the list of its name
/// is refused.
fn unsettled(alloc: Global, name: Name) -> Refusal
    ensures { NamesOne name result }
{
    match Vec::with_capacity(alloc, 1) {
        Ok(mut names) => {
            names.push_reserved(name);
            Refusal::Unsettled(names)
        }
        Err(_) => Refusal::NoMemory,
    }
}
