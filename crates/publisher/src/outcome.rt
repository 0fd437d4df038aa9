//! What is left of a publisher that was finished, and which of its subscriptions failed first.
//!
//! How it comes about stands in `finishing`.
ghost use Rattle.std.specs.Prelude.{◌≡◌, IfNone, IfSome, length};
ghost use Rattle.publisher.specs.Failing.{IsFirstFailure, NoneFails, failure_of};

use feed_core::Lane;
use flow_rules::{FailHandler, How, LastFailure, Name};
use publisher_hub::{Facts, OnFull};

/// What is left of a publisher that was finished.
#[derive(Drop)]
#[derive_where(Debug; B)]
pub struct Outcome<B, F: FailHandler = LastFailure> {
    /// What is left of its subscriptions, in order of subscription.
    pub lanes: Vec<NamedLane<B>>,
    /// The numbers of those subscriptions that were handed in and have no lane, since a thread is still in the middle
    /// of a turn of theirs, rising.
    pub held: Vec<u32>,
    /// How many subscriptions have no lane since [`reclaim`](crate::Publisher::reclaim) gave it before.
    pub reclaimed: u64,
    /// How many subscriptions there ever were. After `Ok` and 9 this is the number of the lanes and the reclaimed ones
    /// together.
    pub made: u64,
    /// How many items were published.
    pub published: u64,
    /// Whether the last ticket of the count was spent: the publisher was closed, and each subscription from before the
    /// close has ended. After `Ok` the later ones have ended, too.
    pub drained: bool,
    /// The handler of failures, if the publisher had one.
    #[derive_where(skip(Debug))]
    pub handler: Option<F>,
}

/// What is left of one subscription.
#[derive(Debug, Drop)]
pub struct NamedLane<B> {
    /// The name that its subscriber subscribed with.
    pub name: Name,
    /// Its number. That of one that was reclaimed goes to a later one.
    pub entry: u32,
    /// How many subscriptions were made before it.
    pub made_before: u64,
    /// What becomes of a text that [`publish`](crate::Submitter::publish) publishes, and that finds its buffer full.
    pub on_full: OnFull,
    /// The serial number of the next publication when it was subscribed.
    pub since: u64,
    /// How many items it was not given, since its buffer was full, also at a second try if there was one.
    pub dropped: u64,
    /// Whether it was subscribed after the close, so that it isn't counted in `drained`. Nothing was published since
    /// then.
    pub late: bool,
    /// Its subscriber, and the numbers of what was accepted, taken and requested.
    pub lane: Lane<B>,
}

impl<B, F: FailHandler> Outcome<B, F> {
    /// Gives the name of the first subscription that ended otherwise than by `onComplete` or a cancel, and how it
    /// ended: with an error, by a callback that failed, or by one that was refused memory. A subscription without an
    /// end is none of these; after a close [`finish`](crate::finish) refuses 9 for it.
    pub fn first_failure(&self) -> Option<(Name, How)>
        ensures first { IfSome result (IsFirstFailure self.now.lanes.items) }
        ensures none { IfNone result
            (NoneFails self.now.lanes.items (length self.now.lanes.items)) }
    {
        for left in &self.lanes {
            if let Some(how) = left.failure() {
                return Some((left.name, how));
            }
        }
        None
    }
}

impl<B> NamedLane<B> {
    /// Adds its lane to what is known of the subscription of this number.
    pub(crate) fn of(
        entry: u32,
        made_before: u64,
        facts: Facts,
        late: bool,
        lane: Lane<B>,
    ) -> NamedLane<B>
        ensures { result ≡ record {
          name = facts.name;
          entry = entry;
          made_before = made_before;
          on_full = facts.on_full;
          since = facts.since;
          dropped = facts.dropped;
          late = late;
          lane = lane;
        } }
    {
        NamedLane {
            name: facts.name,
            entry,
            made_before,
            on_full: facts.on_full,
            since: facts.since,
            dropped: facts.dropped,
            late,
            lane,
        }
    }

    /// Gives its subscriber, with what that was told; `None` only if a turn is running. The numbers beside it are read
    /// before.
    pub fn into_subscriber(self) -> Option<B>
        ensures { result ≡ self.lane.subscriber }
    {
        let NamedLane { lane, .. } = self;
        let Lane { subscriber, .. } = lane;
        subscriber
    }

    /// Tells how it ended, if it neither completed nor was cancelled.
    fn failure(&self) -> Option<How>
        ensures { result ≡ failure_of self.now.lane.ending }
    {
        match self.lane.ending {
            None | Some(How::Completed | How::Cancelled) => None,
            failed => failed,
        }
    }
}
