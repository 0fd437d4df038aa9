//! What the submitters do.
use super::senders::{Call, Sent, texts_of};
use super::{Player, refused_line};
use flow_rules::{DropHandler, Refusal};
use publisher::{Ledgers, Published, PublishedAll, PublishedPart, Unsent};
use std::sync::Wait;
use std::test::Fail;
use std::thread::Threads;
use test_kit::Notes;

impl<L: Ledgers + Send + Sync + 'static> Player<L> {
    // Submits a text of this many bytes, a second time if memory was refused.
    pub fn submit<R: Wait>(&mut self, rt: &R, place: usize, bytes: usize) -> Result<String, Fail> {
        let alloc = self.stand.alloc;
        let text = vec![in alloc; b'x'; bytes]?;
        let Some(submitter) = self.stand.submitters.get_mut(place) else {
            return Ok(String::new(alloc));
        };
        let answer = match submitter.submit(rt, alloc, &text) {
            Err(Refusal::NoMemory) => submitter.submit(rt, alloc, &text),
            other => other,
        };
        match answer {
            Ok(lag) => Ok(format!(in alloc; "lag {lag}")?),
            Err(refusal) => refused_line(alloc, &refusal),
        }
    }

    // Publishes a text of this many bytes, a second time if memory was refused.
    pub fn publish<R: Wait>(&mut self, rt: &R, place: usize, bytes: usize) -> Result<String, Fail> {
        let alloc = self.stand.alloc;
        let text = vec![in alloc; b'x'; bytes]?;
        let Some(submitter) = self.stand.submitters.get_mut(place) else {
            return Ok(String::new(alloc));
        };
        let answer = match submitter.publish(rt, alloc, &text) {
            Err(Refusal::NoMemory) => submitter.publish(rt, alloc, &text),
            other => other,
        };
        match answer {
            Ok(Published { lag, dropped }) => Ok(format!(in alloc; "lag {lag} dropped {dropped}")?),
            Err(refusal) => refused_line(alloc, &refusal),
        }
    }

    // Publishes texts of these many bytes by one call, and what is left of them by a second one if memory was refused.
    pub fn publish_all<R: Wait>(
        &mut self,
        rt: &R,
        place: usize,
        lengths: &[usize],
    ) -> Result<String, Fail> {
        let alloc = self.stand.alloc;
        let texts = texts_of(alloc, lengths)?;
        let Some(submitter) = self.stand.submitters.get_mut(place) else {
            return Ok(String::new(alloc));
        };
        let mut before = 0_usize;
        let answer = match submitter.publish_all(rt, alloc, texts.as_slice()) {
            Err(
                PublishedPart {
                    published,
                    lost,
                    refusal: Refusal::NoMemory,
                },
            ) => {
                before = lost;
                let left = texts.as_slice().get(published..).unwrap_or(&[]);
                submitter.publish_all(rt, alloc, left)
            }
            other => other,
        };
        match answer {
            Ok(PublishedAll { lag, lost }) => {
                let lost = lost.saturating_add(before);
                Ok(format!(in alloc; "lag {lag} lost {lost}")?)
            }
            Err(
                PublishedPart {
                    published,
                    lost,
                    refusal,
                },
            ) => Ok(format!(in alloc; "{published} lost {lost}; {refusal:?}")?),
        }
    }

    // Submits texts of these many bytes by one call, and what is left of them by a second one if memory was refused. Says
    // how many were submitted.
    pub fn submit_all<R: Wait>(
        &mut self,
        rt: &R,
        place: usize,
        lengths: &[usize],
    ) -> Result<String, Fail> {
        let alloc = self.stand.alloc;
        let texts = texts_of(alloc, lengths)?;
        let Some(submitter) = self.stand.submitters.get_mut(place) else {
            return Ok(String::new(alloc));
        };
        let mut before = 0_usize;
        let answer = match submitter.submit_all(rt, alloc, texts.as_slice()) {
            Err(
                Unsent {
                    published,
                    refusal: Refusal::NoMemory,
                },
            ) => {
                before = published;
                let left = texts.as_slice().get(published..).unwrap_or(&[]);
                submitter.submit_all(rt, alloc, left)
            }
            other => other,
        };
        match answer {
            Ok(_) => Ok(format!(in alloc; "sent {}", texts.len())?),
            Err(Unsent { published, refusal }) => {
                let sent = published.saturating_add(before);
                Ok(format!(in alloc; "sent {sent}; {refusal:?}")?)
            }
        }
    }

    // Offers a text of this many bytes, a second time if memory was refused.
    pub fn offer<R: Wait>(&mut self, rt: &R, place: usize, bytes: usize) -> Result<String, Fail> {
        let alloc = self.stand.alloc;
        let text = vec![in alloc; b'x'; bytes]?;
        let Some(submitter) = self.stand.submitters.get_mut(place) else {
            return Ok(String::new(alloc));
        };
        let answer = match submitter.offer(rt, alloc, &text, None) {
            Err(Refusal::NoMemory) => submitter.offer(rt, alloc, &text, None),
            other => other,
        };
        match answer {
            Ok(answer) => Ok(format!(in alloc; "answer {answer}")?),
            Err(refusal) => refused_line(alloc, &refusal),
        }
    }

    // Offers with a handler, and says whether that was asked about these names in order, and about nobody else.
    pub fn ask<R: Wait>(
        &mut self,
        rt: &R,
        place: usize,
        answer: bool,
        names: &str,
    ) -> Result<String, Fail> {
        let alloc = self.stand.alloc;
        let notes = Notes::new(alloc)?;
        let mut handler: Box<dyn DropHandler> = Box::new(alloc, notes.handler([answer; 3])?)?;
        let Some(submitter) = self.stand.submitters.get_mut(place) else {
            return Ok(String::new(alloc));
        };
        let answer = submitter.offer(rt, alloc, b"x", Some(&mut handler))?;
        let asked = if notes.take(names.as_bytes()) {
            names
        } else {
            "others"
        };
        Ok(format!(in alloc; "answer {answer} asked {asked}")?)
    }

    // Gives the last submitter to a thread of its own, which submits its texts or publishes them.
    pub fn send<R: Threads + Wait + Copy + Send + 'static>(
        &mut self,
        rt: R,
        texts: u64,
        call: Call,
    ) -> Result<String, Fail> {
        if let Some(submitter) = self.stand.submitters.pop() {
            let sent = Sent::new(submitter);
            self.senders.start(rt, self.stand.alloc, sent, texts, call)?;
        }
        Ok(String::new(self.stand.alloc))
    }
}
