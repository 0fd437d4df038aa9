//! What holds of a subscription in whatever order its parties make their steps. Each law is a function, and to call it
//! is to learn it.
ghost use Rattle.feed_core.specs.World.Laws.{NothingIsForgotten, EndsWithinOneItem};

/// Nothing is forgotten: if nobody runs the task or is about to, and nobody is between a store and its signal, every
/// accepted item that was requested was given, and each end that is due was told. So no wake-up is ever lost.
pub fn worlds_at_rest_forget_nothing()
    ensures { NothingIsForgotten }
{}

/// After an event that brings a cancel, a bad request, a second subscribing or a closing error that overtakes the items
/// at most one item is given, whatever happens later: the next one, or the one that was just taken
/// (`Flow.Subscription.cancel`, Java SE 17; Reactive Streams 1.0, rules 2.8 and 3.12).
pub fn at_most_one_item_follows_an_end()
    ensures { EndsWithinOneItem }
{}
