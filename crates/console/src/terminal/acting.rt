//! What concerns one subscription: `sub`, `request` and `cancel`.
use super::leaving::latest_of;
use super::{Named, Terminal};
use crate::echo::Echo;
use commands::Reply;
use flow_rules::{Name, Refusal, Watching};
use publisher::{Ledgers, OnFull};
use std::sync::atomic::AtomicU64;
use std::sync::{Arc, Wait};
use std::thread::Threads;
use std::time::Clock;

impl<
    'e,
    L: Ledgers + Send + Sync + 'static,
    R: Print + Clock + Threads + Wait + Copy + Send + Sync + 'static,
> Terminal<'e, L, R> {
    /// Subscribes an echo of this name, which says this of its full buffer, and requests this many items for it.
    pub(super) fn subscribe(
        &mut self,
        name: Name,
        number: u64,
        on_full: OnFull,
    ) -> Result<Reply, Refusal> {
        let site = self.site;
        self.named.reserve(1)?;
        let told = Arc::new(site.alloc, AtomicU64::new(0))?;
        let echo = Echo {
            name,
            screen: Arc::try_clone(&site.screen)?,
            told: Arc::try_clone(&told)?,
        };
        let subscribed = site
            .publisher
            .subscribe_with(&site.rt, site.alloc, name, Watching::new(echo), on_full);
        let subscription = match subscribed {
            Ok(subscription) => subscription,
            Err(refused) => {
                if *refused.refusal() == Refusal::Duplicate {
                    self.latest(name)?.is_ending = true;
                }
                return Err(refused.into());
            }
        };
        self.named.push(Named {
            name,
            subscription,
            told,
            on_full,
            is_ending: false,
        })?;
        if let Ok(number @ 1..) = i64::try_from(number) {
            return self.request(name, number).map(|_| Reply::Name(name));
        }
        Ok(Reply::Name(name))
    }

    /// Requests items for the latest subscription of this name. Refused 10 if there is none.
    pub(super) fn request(&mut self, name: Name, number: i64) -> Result<Reply, Refusal> {
        let rt = self.site.rt;
        let named = self.latest(name)?;
        named.subscription.request(&rt, number)?;
        named.is_ending |= number < 1;
        Ok(Reply::Done)
    }

    /// Cancels the latest subscription of this name. Refused 10 if there is none.
    pub(super) fn cancel(&mut self, name: Name) -> Result<Reply, Refusal> {
        let rt = self.site.rt;
        let named = self.latest(name)?;
        named.subscription.cancel(&rt)?;
        named.is_ending = true;
        Ok(Reply::Done)
    }

    /// The latest subscription of this name, ended or not. Refused 10 if there is none.
    fn latest(&mut self, name: Name) -> Result<&mut Named<L, R>, Refusal> {
        match latest_of(self.named.as_slice(), name) {
            Some(place) => Ok(&mut self.named[place]),
            None => Err(Refusal::Unknown),
        }
    }
}
