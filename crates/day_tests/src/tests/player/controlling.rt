//! What the controllers of one subscription do.
use super::Player;
use super::ending::request_of;
use crate::tests::act::Act;
use crate::tests::heard::Heard;
use flow_rules::NoMemory;
use publisher::{Controller, Ledgers, Refused, Subscription};
use std::sync::Wait;
use std::sync::atomic::Ordering::SeqCst;
use std::test::Fail;
use std::time::{Clock, Duration};
use std::{mem, thread};

impl<L: Ledgers + Send + Sync + 'static> Player<L> {
    // What an act answers.
    pub fn control<R: Clock + Wait>(&mut self, rt: &R, act: Act) -> Result<String, Fail> {
        match act {
            Act::Share(place, n) => self.share(rt, place, n),
            Act::Another(n) => self.add_controller(rt, n),
            Act::Request(place, n) => self.request_by(rt, place, n),
            Act::Cancel(place) => self.cancel_by(rt, place),
            Act::End(place) => self.end_by(rt, place),
            Act::Stand => self.stands(rt),
            Act::Unite => self.unite(),
        }
    }

    // Shares the subscription of this place, and requests by the first controller.
    fn share<R: Clock + Wait>(&mut self, rt: &R, place: usize, n: i64) -> Result<String, Fail> {
        if place >= self.stand.subscriptions.len() {
            return Ok(String::new(self.stand.alloc));
        }
        let subscription = self.stand.subscriptions.remove(place);
        match subscription.share(self.stand.alloc) {
            Ok(mut controller) => {
                request_some(rt, &mut controller, n)?;
                self.controllers.push(controller)?;
                Ok(String::new(self.stand.alloc))
            }
            Err(refused) => self.share_again(rt, refused, n),
        }
    }

    // The subscription that came back requests, is told what it requested, and is shared then.
    fn share_again<R: Clock + Wait>(
        &mut self,
        rt: &R,
        refused: Refused<Subscription<L, Heard>>,
        n: i64,
    ) -> Result<String, Fail> {
        let mut back = refused.into_inner();
        let before = self.told.load(SeqCst);
        if n != 0 {
            request_of(rt, &mut back, n)?;
        }
        let line = self.rest_at_least(rt, before.saturating_add(n.unsigned_abs()))?;
        match back.share(self.stand.alloc) {
            Ok(controller) => {
                self.controllers.push(controller)?;
                Ok(line)
            }
            Err(refused) => Err(refused.into()),
        }
    }

    // Makes one more controller, and requests by it. If memory was refused, the first one requests, is told what it
    // requested, and makes the other one then.
    fn add_controller<R: Clock + Wait>(&mut self, rt: &R, n: i64) -> Result<String, Fail> {
        let alloc = self.stand.alloc;
        let Some(first) = self.controllers.first_mut() else {
            return Ok(String::new(alloc));
        };
        if let Ok(mut other) = first.another(alloc) {
            request_some(rt, &mut other, n)?;
            self.controllers.push(other)?;
            return Ok(String::new(alloc));
        }
        thread::sleep(rt, Duration::from_millis(20));
        let before = self.told.load(SeqCst);
        request_some(rt, first, n)?;
        let other = first.another(alloc)?;
        self.controllers.push(other)?;
        self.rest_at_least(rt, before.saturating_add(n.unsigned_abs()))
    }

    // Requests by the controller of this place, a second time if memory was refused and nothing has changed. Says how
    // many items were requested in all.
    fn request_by<R: Clock + Wait>(
        &mut self,
        rt: &R,
        place: usize,
        n: i64,
    ) -> Result<String, Fail> {
        let alloc = self.stand.alloc;
        let Some(controller) = self.controllers.get_mut(place) else {
            return Ok(String::new(alloc));
        };
        let before = (controller.requested(rt), self.told.load(SeqCst));
        if controller.request(rt, n).is_err() {
            thread::sleep(rt, Duration::from_millis(20));
            if (controller.requested(rt), self.told.load(SeqCst)) != before {
                return Ok(format!(in alloc; "changed")?);
            }
            controller.request(rt, n)?;
        }
        Ok(format!(in alloc; "requested {}", controller.requested(rt))?)
    }

    // Cancels by the controller of this place, a second time if memory was refused and it goes on.
    fn cancel_by<R: Clock + Wait>(&mut self, rt: &R, place: usize) -> Result<String, Fail> {
        let alloc = self.stand.alloc;
        let Some(controller) = self.controllers.get_mut(place) else {
            return Ok(String::new(alloc));
        };
        let had_ended = controller.has_ended(rt);
        if controller.cancel(rt).is_err() {
            thread::sleep(rt, Duration::from_millis(20));
            if controller.has_ended(rt) != had_ended {
                return Ok(format!(in alloc; "ended")?);
            }
            controller.cancel(rt)?;
        }
        Ok(String::new(alloc))
    }

    // Waits for the end by the controller of this place. Says whether it has come.
    fn end_by<R: Wait>(&self, rt: &R, place: usize) -> Result<String, Fail> {
        let Some(controller) = self.controllers.get(place) else {
            return Ok(String::new(self.stand.alloc));
        };
        controller.wait_end(rt);
        let has_ended = controller.has_ended(rt);
        Ok(format!(in self.stand.alloc; "ended {has_ended}")?)
    }

    // What each controller tells of the subscription, in order.
    fn stands<R: Wait>(&self, rt: &R) -> Result<String, Fail> {
        let alloc = self.stand.alloc;
        let mut line = String::new(alloc);
        for controller in self.controllers.iter() {
            let lag = controller.lag(rt);
            let requested = controller.requested(rt);
            let has_ended = controller.has_ended(rt);
            let comma = if line.is_empty() { "" } else { "; " };
            let told = format!(in alloc; "{comma}lag {lag} of {requested}, ended {has_ended}")?;
            line.push_str(&told)?;
        }
        Ok(line)
    }

    // Each controller asks for the subscription back, in order, and is dropped if another one is held. Says which got it.
    fn unite(&mut self) -> Result<String, Fail> {
        let alloc = self.stand.alloc;
        let mut line = String::new(alloc);
        let controllers = mem::replace(&mut self.controllers, Vec::new(alloc));
        for controller in controllers {
            match controller.into_subscription() {
                Ok(subscription) => {
                    self.stand.subscriptions.push(subscription)?;
                    line.push_str("back")?;
                }
                Err(refused) => {
                    drop(refused);
                    line.push_str("held, ")?;
                }
            }
        }
        Ok(line)
    }
}

// Requests this many items by a controller, if any, a second time if memory was refused.
fn request_some<L: Ledgers + Send + Sync + 'static, R: Wait>(
    rt: &R,
    controller: &mut Controller<L, Heard>,
    n: i64,
) -> Result<(), NoMemory> {
    if n != 0 && controller.request(rt, n).is_err() {
        controller.request(rt, n)?;
    }
    Ok(())
}
