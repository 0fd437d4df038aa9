//! A publisher with its owners: the submitters and the subscriptions that go back to it at the end.
ghost use Rattle.std.specs.Prelude.{◌≡◌, []};
ghost use Rattle.publisher.specs.Blanks.{AreBlanksOf};

use flow_rules::{ErrorOrder, FailHandler, LastFailure, Listener, Name, Refusal};
use publisher::{
    BlankPair, Ledgers, NamedLane, Outcome, Publisher, PublisherOptions, Refused, Submitter,
    Subscription, USUAL_LIVE, finish,
};
use std::alloc::Global;
use std::sync::Wait;
use std::test::Fail;
use std::thread;
use std::thread::Threads;

/// A publisher, and in order its submitters and its subscriptions.
#[derive(Drop)]
pub struct Stand<
    L: Ledgers + Send + Sync + 'static,
    B: Listener + Send + 'static,
    F: FailHandler + Send + 'static = LastFailure,
> {
    /// What gives all its memory.
    pub alloc: Global,
    pub publisher: Publisher<L, B, F>,
    /// Those that go back at the end.
    pub submitters: Vec<Submitter<L, B, F>>,
    /// Those that go back at the end.
    pub subscriptions: Vec<Subscription<L, B, F>>,
}

impl<L: Ledgers + Send + Sync + 'static, B: Listener + Send + 'static> Stand<L, B> {
    /// A publisher with this many workers, for whose buffers this capacity is asked, and with one submitter.
    pub fn new<R: Threads + Wait + Copy + Send + 'static>(
        rt: R,
        alloc: Global,
        blanks: BlankPair,
        workers: usize,
        capacity: usize,
    ) -> Result<Stand<L, B>, Fail>
        requires blanks { AreBlanksOf blanks L.publications L.drops L.history }
    {
        let publisher = Publisher::new(rt, alloc, blanks, workers, capacity)?;
        let mut stand = Stand::of(alloc, publisher);
        stand.add_submitter(&rt)?;
        Ok(stand)
    }
}

impl<
    L: Ledgers + Send + Sync + 'static,
    B: Listener + Send + 'static,
    F: FailHandler + Send + 'static,
> Stand<L, B, F> {
    /// A publisher with this handler of failures and this many workers, whose buffers hold 8 items, and with one submitter.
    pub fn with_handler<R: Threads + Wait + Copy + Send + 'static>(
        rt: R,
        alloc: Global,
        blanks: BlankPair,
        workers: usize,
        handler: F,
    ) -> Result<Stand<L, B, F>, Fail>
        requires blanks { AreBlanksOf blanks L.publications L.drops L.history }
    {
        let options = PublisherOptions {
            workers,
            capacity: 8,
            order: ErrorOrder::Overtake,
            most_live: USUAL_LIVE,
        };
        let made = Publisher::with_handler(rt, alloc, blanks, options, handler);
        let mut stand = match made {
            Ok(publisher) => Stand::of(alloc, publisher),
            Err(refused) => return Err(refused.into()),
        };
        stand.add_submitter(&rt)?;
        Ok(stand)
    }

    /// A publisher without owners.
    pub fn of(alloc: Global, publisher: Publisher<L, B, F>) -> Stand<L, B, F> {
        Stand {
            alloc,
            publisher,
            submitters: Vec::new(alloc),
            subscriptions: Vec::new(alloc),
        }
    }

    /// One more submitter, from a note that knows nothing.
    pub fn add_submitter<R: Wait>(&mut self, rt: &R) -> Result<(), Fail> {
        let mut note = self.publisher.note();
        let submitter = self.publisher.submitter(rt, self.alloc, &mut note)?;
        self.submitters.push(submitter)?;
        Ok(())
    }

    /// Subscribes under a name.
    pub fn subscribe<R: Wait>(&mut self, rt: &R, name: &str, listener: B) -> Result<(), Fail>
        requires untold { B.told listener ≡ [] }
        requires unheard { B.replied listener ≡ [] }
    {
        let name = name_of(name)?;
        match self.publisher.subscribe(rt, self.alloc, name, listener) {
            Ok(subscription) => {
                self.subscriptions.push(subscription)?;
                Ok(())
            }
            Err(refused) => Err(refused.into()),
        }
    }

    /// The subscription of this place requests this many items.
    pub fn request<R: Wait>(&mut self, rt: &R, place: usize, n: i64) -> Result<(), Fail> {
        if let Some(subscription) = self.subscriptions.get_mut(place) {
            subscription.request(rt, n)?;
        }
        Ok(())
    }

    /// The subscription of this place is cancelled.
    pub fn cancel<R: Wait>(&mut self, rt: &R, place: usize) -> Result<(), Fail> {
        if let Some(subscription) = self.subscriptions.get_mut(place) {
            subscription.cancel(rt)?;
        }
        Ok(())
    }

    /// Waits for the end of the subscription of this place.
    pub fn wait_end<R: Wait>(&self, rt: &R, place: usize) {
        if let Some(subscription) = self.subscriptions.get(place) {
            subscription.wait_end(rt);
        }
    }

    /// Reclaims the subscription of this place, once the thread that ended it has let go of it. Gives what is left of it.
    pub fn reclaim<R: Wait>(&mut self, rt: &R, place: usize) -> Result<NamedLane<B>, Fail> {
        if place >= self.subscriptions.len() {
            return Err(Fail::new("there is no such subscription"));
        }
        let mut subscription = self.subscriptions.remove(place);
        for _ in rt.forever() {
            match self.publisher.reclaim(rt, self.alloc, subscription) {
                Ok(left) => return Ok(left),
                Err(refused) => match refused.into_parts() {
                    (Refusal::StillHeld(_), back) => subscription = back,
                    (refusal, back) => {
                        self.subscriptions.push(back)?;
                        return Err(refusal.into());
                    }
                },
            }
            thread::yield_now();
        }
        unreachable!()
    }

    /// The first submitter publishes a text.
    pub fn submit<R: Wait>(&mut self, rt: &R, text: &[u8]) -> Result<u64, Fail> {
        match self.submitters.first_mut() {
            Some(submitter) => Ok(submitter.submit(rt, self.alloc, text)?),
            None => Err(Fail::new("there is no submitter")),
        }
    }

    /// The first submitter offers a text, without a handler.
    pub fn offer<R: Wait>(&mut self, rt: &R, text: &[u8]) -> Result<i64, Fail> {
        match self.submitters.first_mut() {
            Some(submitter) => Ok(submitter.offer(rt, self.alloc, text, None)?),
            None => Err(Fail::new("there is no submitter")),
        }
    }

    /// Closes the publisher.
    pub fn close<R: Wait>(&self, rt: &R) -> Result<(), Fail> {
        let mut note = self.publisher.note();
        self.publisher.close(rt, self.alloc, &mut note)?;
        Ok(())
    }

    /// Ends the workers, once they have run each turn that was started. Gives what is left, whatever the answer.
    pub fn end<R: Wait>(self, rt: &R) -> Outcome<B, F> {
        match self.finish(rt) {
            Ok(outcome) => outcome,
            Err(refused) => refused.into_inner(),
        }
    }

    /// Ends the workers, and gives what is left with the answer.
    pub fn finish<R: Wait>(self, rt: &R) -> Result<Outcome<B, F>, Refused<Outcome<B, F>>> {
        let Stand {
            alloc,
            publisher,
            submitters,
            subscriptions,
        } = self;
        finish(rt, alloc, publisher, submitters, subscriptions)
    }
}

/// The name that these characters are.
pub fn name_of(name: &str) -> Result<Name, Refusal> {
    Name::new(name.as_bytes()).ok_or(Refusal::Unknown)
}
