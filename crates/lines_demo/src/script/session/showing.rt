//! What a session shows of its subscriptions.
use super::Session;
use feed_core::Desk;
use flow_rules::{Listener, Name};

impl<B: Listener> Session<B> {
    /// Shows the subscription of this number, from 0 on in the order of subscribing, with its name.
    pub fn subscription(&self, number: u32) -> Option<(Name, &Desk<B>)> {
        match (self.hub.facts(number), self.hub.feed(number)) {
            (Some(facts), Some(desk)) => Some((facts.name, desk)),
            _ => None,
        }
    }
}
