//! Waits, none of which is for ever.
use super::Player;
use super::senders::Sent;
use crate::tests::step::Step;
use publisher::Ledgers;
use std::sync::Wait;
use std::sync::atomic::Ordering::SeqCst;
use std::test::Fail;
use std::thread;
use std::thread::Threads;
use std::time::{Clock, Duration, Instant};

// How often, and for how many seconds, a test looks for what other threads do before it gives up.
const LOOKS: u64 = 100_000_000;

const PATIENCE: u64 = 10;

// What a wait waits for.
#[derive(Clone, Copy)]
enum Until {
    // This many signals were told, and this many subscriptions are live.
    Told(u64, usize),
    // This many signals were told, or more.
    ToldAtLeast(u64),
    // An item waits.
    Held,
    // The threads that submit have ended.
    Ended,
}

impl<L: Ledgers + Send + Sync + 'static> Player<L> {
    // Waits as the step says.
    pub fn wait<R: Clock + Threads + Wait>(&mut self, rt: &R, step: Step) -> Result<String, Fail> {
        match step {
            Step::Rest(told, live) => self.rest(rt, told, live),
            Step::Nap => {
                thread::sleep(rt, self.nap());
                Ok(String::new(self.stand.alloc))
            }
            Step::Turns => {
                yield_often(self.round);
                Ok(String::new(self.stand.alloc))
            }
            Step::Serve(place, items) => self.serve(rt, place, items),
            Step::Stir(place, times) => self.stir(rt, place, times),
            Step::Join => self.join(rt),
            Step::CancelAmid(place, told) => self.cancel_amid(rt, place, told),
            _ => Ok(String::new(self.stand.alloc)),
        }
    }

    // Time enough for threads to find no room, and to sleep, on busy processors, too. A day on which memory may be refused
    // is played some hundred times from outside, so it naps for less.
    fn nap(&self) -> Duration {
        Duration::from_millis(if self.may_be_refused { 20 } else { 150 })
    }

    // Waits until so much was told, and a little longer, since whoever told it last comes to rest after that.
    fn rest<R: Clock + Wait>(&mut self, rt: &R, told: u64, live: usize) -> Result<String, Fail> {
        let line = self.look_until(rt, Until::Told(told, live))?;
        thread::sleep(rt, Duration::from_millis(1));
        Ok(line)
    }

    // Waits until this many signals were told, or more.
    pub fn rest_at_least<R: Clock + Wait>(&mut self, rt: &R, told: u64) -> Result<String, Fail> {
        self.look_until(rt, Until::ToldAtLeast(told))
    }

    // Requests this many items one by one.
    fn serve<R: Clock + Wait>(&mut self, rt: &R, place: usize, items: u64) -> Result<String, Fail> {
        for number in 0..items {
            let line = self.serve_one(rt, place, number % 32)?;
            if self.is_stuck {
                return Ok(line);
            }
        }
        Ok(String::new(self.stand.alloc))
    }

    // Requests an item once one waits, this many turns later, and waits until it was told.
    fn serve_one<R: Clock + Wait>(
        &mut self,
        rt: &R,
        place: usize,
        turns: u64,
    ) -> Result<String, Fail> {
        let line = self.look_until(rt, Until::Held)?;
        if self.is_stuck {
            return Ok(line);
        }
        yield_often(turns);
        let told = self.told.load(SeqCst).saturating_add(1);
        self.request(rt, place, 1)?;
        self.look_until(rt, Until::Told(told, 1))
    }

    // Requests one item this many times, a few turns apart.
    fn stir<R: Wait>(&mut self, rt: &R, place: usize, times: u64) -> Result<String, Fail> {
        for number in 0..times {
            self.request(rt, place, 1)?;
            yield_often(number % 8);
        }
        Ok(String::new(self.stand.alloc))
    }

    // Cancels once so much was told, and notes how much that is then.
    fn cancel_amid<R: Clock + Wait>(
        &mut self,
        rt: &R,
        place: usize,
        told: u64,
    ) -> Result<String, Fail> {
        let line = self.look_until(rt, Until::ToldAtLeast(told))?;
        self.cancel(rt, place)?;
        self.amid = Some(self.told.load(SeqCst));
        Ok(line)
    }

    // Waits until the threads have ended, and says what was taken of each, and why one was refused.
    fn join<R: Clock + Threads + Wait>(&mut self, rt: &R) -> Result<String, Fail> {
        let mut line = self.look_until(rt, Until::Ended)?;
        for _ in 0..LOOKS {
            if self.is_stuck {
                break;
            }
            let Some(sent) = self.senders.join_last(rt) else {
                break;
            };
            let Sent {
                submitter,
                texts,
                refusal,
            } = sent;
            self.stand.submitters.push(submitter)?;
            let comma = if line.is_empty() { "" } else { "; " };
            line.push_str(&format!(in self.stand.alloc; "{comma}sent {texts}")?)?;
            if let Some(refusal) = refusal {
                line.push_str(&format!(in self.stand.alloc; "; {refusal:?}")?)?;
            }
        }
        Ok(line)
    }

    // Looks until something is so. If it never is, it says what is there then.
    fn look_until<R: Clock + Wait>(&mut self, rt: &R, until: Until) -> Result<String, Fail> {
        let start = Instant::now(rt)?;
        for _ in 0..LOOKS {
            if self.is_so(rt, until) {
                return Ok(String::new(self.stand.alloc));
            }
            if start.elapsed(rt)?.as_secs() >= PATIENCE {
                break;
            }
            thread::yield_now();
        }
        self.is_stuck = true;
        let told = self.told.load(SeqCst);
        let live = self.stand.publisher.number_of_subscribers(rt);
        let lag = self.stand.publisher.estimate_maximum_lag(rt);
        Ok(format!(in self.stand.alloc; "stuck at {told} signals of {live}, lag {lag}")?)
    }

    fn is_so<R: Wait>(&self, rt: &R, until: Until) -> bool {
        match until {
            Until::Told(told, live) => {
                self.told.load(SeqCst) == told
                    && self.stand.publisher.number_of_subscribers(rt) == live
            }
            Until::ToldAtLeast(told) => self.told.load(SeqCst) >= told,
            Until::Held => self.stand.publisher.estimate_maximum_lag(rt) > 0,
            Until::Ended => self.senders.have_ended(),
        }
    }
}

fn yield_often(turns: u64) {
    for _ in 0..turns {
        thread::yield_now();
    }
}
