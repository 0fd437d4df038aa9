//! How subscriptions are reclaimed.
use super::{Player, refused_line};
use crate::tests::heard::Heard;
use crate::tests::left::reclaimed_line;
use flow_rules::Refusal;
use publisher::{Ledgers, NamedLane, Refused, Subscription};
use std::sync::Wait;
use std::test::Fail;
use std::thread;

impl<L: Ledgers + Send + Sync + 'static> Player<L> {
    // Waits until the subscription of this place has ended.
    pub fn wait_end<R: Wait>(&mut self, rt: &R, place: usize) -> Result<String, Fail> {
        if let Some(subscription) = self.stand.subscriptions.get(place) {
            subscription.wait_end(rt);
        }
        Ok(String::new(self.stand.alloc))
    }

    // Reclaims the subscription of this place, which comes back to its place if it is refused.
    pub fn reclaim<R: Wait>(&mut self, rt: &R, place: usize) -> Result<String, Fail> {
        if place >= self.stand.subscriptions.len() {
            return Ok(String::new(self.stand.alloc));
        }
        let subscription = self.stand.subscriptions.remove(place);
        match self.reclaim_patiently(rt, subscription) {
            Ok(left) => reclaimed_line(self.stand.alloc, &left, self.may_be_refused),
            Err(refused) => {
                let (refusal, back) = refused.into_parts();
                self.stand.subscriptions.insert(place, back)?;
                refused_line(self.stand.alloc, &refusal)
            }
        }
    }

    // Reclaims once more if memory was refused, or if a thread still has the task.
    fn reclaim_patiently<R: Wait>(
        &self,
        rt: &R,
        subscription: Subscription<L, Heard>,
    ) -> Result<NamedLane<Heard>, Refused<Subscription<L, Heard>>> {
        let mut subscription = subscription;
        let mut was_refused = false;
        for _ in rt.forever() {
            match self
                .stand
                .publisher
                .reclaim(rt, self.stand.alloc, subscription)
            {
                Ok(left) => return Ok(left),
                Err(refused) => match refused.into_parts() {
                    (Refusal::StillHeld(_), back) => subscription = back,
                    (Refusal::NoMemory, back) if !was_refused => {
                        was_refused = true;
                        subscription = back;
                    }
                    parts => return Err(parts.into()),
                },
            }
            thread::yield_now();
        }
        unreachable!()
    }
}
