//! The owner's end of a subscription that several threads have, behind a lock of its own.
//!
//! The lock is held here alone, for a few steps of the end's words, in which nobody waits. A task that these start comes
//! out as a value, and nobody else can hold the lock: so no turn runs while it is held, and a callback may request or
//! cancel by a controller, too.
use feed_cell::{Handle, Task};
use flow_rules::{Listener, NoMemory};
use std::alloc::Global;
use std::sync::{Arc, Mutex, Wait};

/// A share of the owner's end of a subscription.
#[derive(Drop)]
pub struct SharedHandle<B: Listener>(Arc<Mutex<Handle<B>>>);

impl<B: Listener> SharedHandle<B> {
    /// Makes the first share. The end comes back if the memory for that is refused.
    pub fn new(alloc: Global, handle: Handle<B>) -> Result<SharedHandle<B>, Handle<B>> {
        match Arc::new(alloc, Mutex::new(handle)) {
            Ok(shared) => Ok(SharedHandle(shared)),
            Err(failed) => Err(failed.value.into_inner()),
        }
    }

    /// Makes one more share. `NoMemory` if what it needs is refused.
    pub fn another(&self) -> Result<SharedHandle<B>, NoMemory> {
        Ok(SharedHandle(Arc::try_clone(&self.0)?))
    }

    /// Gives the end back, if this is its last share, and else the share.
    pub fn into_handle(self) -> Result<Handle<B>, SharedHandle<B>> {
        let SharedHandle(shared) = self;
        match Arc::try_unwrap(shared) {
            Ok(handle) => Ok(handle.into_inner()),
            Err(shared) => Err(SharedHandle(shared)),
        }
    }

    /// Requests, and gives the task that this starts. `NoMemory` if what that needs is refused; nothing has changed then.
    pub fn request<R: Wait>(&self, rt: &R, n: i64) -> Result<Option<Task<B>>, NoMemory> {
        let mut held = self.0.lock(rt);
        held.ready()?;
        Ok(held.request(n))
    }

    /// Cancels, and gives the task that this starts. `NoMemory` if what that needs is refused; nothing has changed then.
    pub fn cancel<R: Wait>(&self, rt: &R) -> Result<Option<Task<B>>, NoMemory> {
        let mut held = self.0.lock(rt);
        held.ready()?;
        Ok(held.cancel())
    }

    /// Tells how many items were requested, saturated at 2^63-1.
    pub fn requested<R: Wait>(&self, rt: &R) -> u64 {
        self.0.lock(rt).requested()
    }
}
