//! Why a subscription ends.
ghost use Rattle.std.specs.Prelude.{◌≡◌, None, Some, true, false};

use flow_rules::{Ending, ErrorOrder, Fault, How};

/// Why a subscription may end: what its publisher, its subscription's owner and its own callbacks have asked for.
#[derive(Clone, Copy, Debug, PartialEq, Eq)]
pub struct Causes {
    /// When a closing error is told, if items wait for it.
    pub order: ErrorOrder,
    /// It was cancelled (`Flow.Subscription.cancel`).
    pub cancel: bool,
    /// A number of items was requested that is not positive.
    pub argument: bool,
    /// Its subscriber subscribed a second time.
    pub state: bool,
    /// Its publisher was closed, in this way.
    pub closing: Option<Ending>,
    /// A callback failed, with this code.
    pub failed: Option<u32>,
    /// A callback was refused memory.
    pub memory: bool,
}

impl Causes {
    ghost use Rattle.feed_core.specs.Cause.{no_causes, no_causes_in, stops, closes, with_cause_of};

    /// No cause. A closing error overtakes the items.
    pub const fn none() -> Causes
        ensures { result ≡ no_causes }
    {
        Causes::none_in(ErrorOrder::Overtake)
    }

    /// No cause. A closing error is told in this order.
    pub const fn none_in(order: ErrorOrder) -> Causes
        ensures { result ≡ no_causes_in order }
    {
        Causes {
            order,
            cancel: false,
            argument: false,
            state: false,
            closing: None,
            failed: None,
            memory: false,
        }
    }

    /// The end that is due at once: by a cancel, a bad request, a second subscribing or a closing error that overtakes
    /// the items, in this order.
    pub fn stops(&self) -> Option<How>
        ensures { result ≡ stops self.now }
    {
        if self.cancel {
            return Some(How::Cancelled);
        }
        if self.argument {
            return Some(How::Errored(Fault::IllegalArgument));
        }
        if self.state {
            return Some(How::Errored(Fault::IllegalState));
        }
        match (self.closing, self.order) {
            (Some(Ending::Failed(code)), ErrorOrder::Overtake) => {
                Some(How::Errored(Fault::Published(code)))
            }
            _ => None,
        }
    }

    /// The end that is due once every item was given: completion, or a closing error that waits for the items.
    pub fn closes(&self) -> Option<How>
        ensures { result ≡ closes self.now }
    {
        match (self.closing, self.order) {
            (Some(Ending::Normal), _) => Some(How::Completed),
            (Some(Ending::Failed(code)), ErrorOrder::AfterItems) => {
                Some(How::Errored(Fault::Published(code)))
            }
            _ => None,
        }
    }

    /// Adds the cause of an end that a callback brought about: that it cancelled, failed or was refused memory.
    pub fn join(&mut self, how: How)
        ensures { self.new ≡ with_cause_of how self.old }
    {
        match how {
            How::Cancelled => self.cancel = true,
            How::Failed(code) => self.failed = Some(code),
            How::OutOfMemory => self.memory = true,
            How::Completed | How::Errored(_) => {}
        }
    }
}
