//! What is done to a publisher on a day.
use super::act::Act;

// One call, or one wait.
#[derive(Clone, Copy)]
pub enum Step {
    // One more subscription of this name, which requests this many items, if any.
    Subscribe(&'static str, i64),
    // The same of a subscription that loses what finds its buffer full, if that is published for such.
    Lossy(&'static str, i64),
    // The next subscriber is refused memory after this many callbacks.
    Refuse(u32),
    // Any callback may be refused memory.
    MayRefuse,
    // The subscription of this place requests this many items more, or is cancelled.
    Request(usize, i64),
    Cancel(usize),
    // It is cancelled once all subscribers together were told this many signals, while more are told.
    CancelAmid(usize, u64),
    // One more submitter, from the note that the closes get.
    Source,
    // The submitter of this place submits, or offers, a text of this many bytes.
    Submit(usize, usize),
    Offer(usize, usize),
    // It publishes a text of this many bytes, as the subscriptions ask for it.
    Publish(usize, usize),
    // It publishes texts of these many bytes by one call, in the same way.
    PublishAll(usize, &'static [usize]),
    // It submits texts of these many bytes by one call.
    SubmitAll(usize, &'static [usize]),
    // It offers a text of one byte with a handler of drops that always answers so, and is asked about the subscribers
    // of these names, each of one letter.
    Ask(usize, bool, &'static str),
    // The last submitter goes to a thread of its own, and submits this many texts of one byte there.
    Send(u64),
    // The same, but it publishes them as the subscriptions ask for it.
    Spread(u64),
    // The same by one call, but the second text has two bytes, the third three, and so on.
    SpreadAll(u64),
    // The threads had time enough to find no room, and to sleep.
    Nap,
    // Some turns of this thread, another number in each round.
    Turns,
    // The subscription of this place requests one item after the other, this many times, each once its buffer is full.
    Serve(usize, u64),
    // The subscription of this place, for which no item waits, requests one item after the other, this many times.
    Stir(usize, u64),
    // The threads end, and their submitters come back in order.
    Join,
    // The publisher is closed, or closed with this code.
    Close,
    Fail(u32),
    // A note that knows nothing asks how the publisher is closed.
    Closing,
    // All subscribers together were told this many signals, this many subscriptions are live, and nobody has anything
    // to do.
    Rest(u64, usize),
    // What is asked of all subscriptions.
    Looks,
    // The subscription of this place has ended.
    End(usize),
    // It is reclaimed.
    Reclaim(usize),
    // Controllers of one subscription do this.
    Control(Act),
    // The subscription, or the submitter, of this place is not handed in at the end. After the end such a subscription
    // requests one item.
    KeepSubscription(usize),
    KeepSubmitter(usize),
}
