//! The owner's end of a subscription, and which subscription it is.
//!
//! A [`Subscription`](crate::Subscription) is one with what it takes to schedule a task that it starts.
use feed_cell::Handle;
use flow_rules::Listener;
use std::marker::Model;

/// What the owner of a subscription has of it.
#[derive(Drop)]
pub struct OwnersEnd<B: Listener> {
    /// The number of the subscription.
    pub entry: u32,
    /// How many subscriptions its publisher had made before it.
    pub made_before: u64,
    /// What its owner requests and cancels with.
    pub handle: Handle<B>,
}

impl<B: Listener> Model for OwnersEnd<B> {
    ghost use Rattle.publisher.specs.Handles.{SubscriptionState};

    ghost Value = { SubscriptionState };

    ghost view = { λ owner. record {
      entry = owner.entry;
      made_before = owner.made_before;
      handle = owner.handle;
    } };
}
