//! A subscription that several threads have, each a controller of it, so that one cancels while another waits.
//!
//! The owner's end stands behind a lock of its own (`shared_handle`). A task that a request or a cancel starts is handed to
//! the pool once that is free.
ghost use Rattle.std.specs.Prelude.{◌≡◌, IfErr, IfOk};
ghost use Rattle.publisher.specs.Handles.{controller_of};

use crate::dispatcher::Dispatcher;
use crate::ledgers::Ledgers;
use crate::owner::OwnersEnd;
use crate::refused::Refused;
use crate::shared_handle::SharedHandle;
use crate::subscription::Subscription;
use flow_rules::{FailHandler, LastFailure, Listener, NoMemory, Refusal};
use std::alloc::Global;
use std::fmt;
use std::marker::Model;
use std::sync::Wait;

/// What a thread requests and cancels with of a subscription that several threads have
/// ([`Subscription::share`]; `Flow.Subscription`, Java SE 17, whose methods any thread may call).
///
/// Once all others are dropped, [`into_subscription`](Controller::into_subscription) gives what
/// [`finish`](crate::finish) takes back.
#[derive(Drop)]
pub struct Controller<L: Ledgers + Send, B: Listener + Send, F: FailHandler + Send = LastFailure> {
    dispatcher: Dispatcher<L, B, F>,
    entry: u32,
    made_before: u64,
    handle: SharedHandle<B>,
}

impl<L: Ledgers + Send, B: Listener + Send, F: FailHandler + Send> fmt::Debug
    for Controller<L, B, F> {
    fn fmt<W: fmt::Write>(&self, f: &mut fmt::Formatter<W>) -> fmt::Result {
        write!(f, "Controller {{ entry: {} }}", self.entry)
    }
}

impl<L: Ledgers + Send, B: Listener + Send, F: FailHandler + Send> Model for Controller<L, B, F> {
    ghost use Rattle.publisher.specs.Handles.{ControllerState};

    ghost Value = { ControllerState };

    ghost view = { λ c. record { entry = c.entry; made_before = c.made_before } };
}

impl<L: Ledgers + Send, B: Listener + Send, F: FailHandler + Send> Subscription<L, B, F> {
    /// Makes it one that several threads can have: this is the first controller of it, and
    /// [`another`](Controller::another) makes more.
    ///
    /// Refused 5, with the subscription back, if the memory for that is refused.
    pub fn share(self, alloc: Global) -> Result<Controller<L, B, F>, Refused<Subscription<L, B, F>>>
        ensures same { IfOk result (λ controller. controller ≡ controller_of self) }
        ensures back { IfErr result (λ refused.
            controller_of refused.1 ≡ controller_of self) }
        ensures refusal { IfErr result (λ refused. refused.0 ≡ Refusal.NoMemory) }
    {
        let (dispatcher, owner) = self.into_all();
        let OwnersEnd {
            entry,
            made_before,
            handle,
        } = owner;
        match SharedHandle::new(alloc, handle) {
            Ok(handle) => Ok(Controller {
                dispatcher,
                entry,
                made_before,
                handle,
            }),
            Err(handle) => {
                let owner = OwnersEnd {
                    entry,
                    made_before,
                    handle,
                };
                Err(Refused {
                    refusal: Refusal::NoMemory,
                    back: Subscription::new(dispatcher, owner),
                })
            }
        }
    }
}

impl<L: Ledgers + Send, B: Listener + Send, F: FailHandler + Send> Controller<L, B, F> {
    /// Makes a controller for one more thread. `NoMemory` if what it needs is refused.
    pub fn another(&self, alloc: Global) -> Result<Controller<L, B, F>, NoMemory>
        ensures same { IfOk result (λ other. other ≡ self.now) }
    {
        Ok(Controller {
            dispatcher: self.dispatcher.another(alloc)?,
            entry: self.entry,
            made_before: self.made_before,
            handle: self.handle.another()?,
        })
    }

    /// Gives the subscription back, if this is its last controller, and else the controller.
    pub fn into_subscription(self) -> Result<Subscription<L, B, F>, Controller<L, B, F>>
        ensures same { IfOk result (λ subscription.
            controller_of subscription ≡ self) }
        ensures back { IfErr result (λ controller. controller ≡ self) }
    {
        let Controller {
            dispatcher,
            entry,
            made_before,
            handle,
        } = self;
        match handle.into_handle() {
            Ok(handle) => {
                let owner = OwnersEnd {
                    entry,
                    made_before,
                    handle,
                };
                Ok(Subscription::new(dispatcher, owner))
            }
            Err(handle) => Err(Controller {
                dispatcher,
                entry,
                made_before,
                handle,
            }),
        }
    }

    /// Tells the number of the subscription.
    pub fn entry(&self) -> u32
        ensures { result ≡ self.now.entry }
    {
        self.entry
    }

    /// Tells how many subscriptions were made before it, as [`Subscription::made_before`] does.
    pub fn made_before(&self) -> u64
        ensures { result ≡ self.now.made_before }
    {
        self.made_before
    }

    /// Adds to the demand, as [`Subscription::request`] does.
    ///
    /// `NoMemory` if what a started task needs is refused; nothing has changed then.
    pub fn request<R: Wait>(&mut self, rt: &R, n: i64) -> Result<(), NoMemory>
        ensures { self.new ≡ self.old }
    {
        if let Some(task) = self.handle.request(rt, n)? {
            self.dispatcher.start(rt, self.entry, task);
        }
        Ok(())
    }

    /// Ends the subscription, as [`Subscription::cancel`] does: only the first cancel of any controller does anything.
    ///
    /// `NoMemory` if what a started task needs is refused; nothing has changed then.
    pub fn cancel<R: Wait>(&mut self, rt: &R) -> Result<(), NoMemory>
        ensures { self.new ≡ self.old }
    {
        if let Some(task) = self.handle.cancel(rt)? {
            self.dispatcher.start(rt, self.entry, task);
        }
        Ok(())
    }

    /// Tells how many items were requested with the subscription, by any controller and before it was shared, saturated
    /// at 2^63-1.
    pub fn requested<R: Wait>(&self, rt: &R) -> u64 {
        self.handle.requested(rt)
    }

    /// Tells how many items wait for the subscriber; 0 once the subscription has ended.
    pub fn lag<R: Wait>(&self, rt: &R) -> u64 {
        self.dispatcher.shared.lock(rt).lag(self.entry)
    }

    /// Tells whether the subscription has ended, as [`Subscription::has_ended`] does.
    pub fn has_ended<R: Wait>(&self, rt: &R) -> bool {
        self.dispatcher.shared.lock(rt).has_ended(self.entry)
    }

    /// Waits until the subscription has ended, as [`Subscription::wait_end`] does. The other controllers request and
    /// cancel meanwhile.
    pub fn wait_end<R: Wait>(&self, rt: &R) {
        let _ended = self.dispatcher.shared.wait_for_end(rt, self.entry);
    }
}
