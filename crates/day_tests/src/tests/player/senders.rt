//! Threads that submit.
use crate::tests::heard::{Count, Heard};
use flow_rules::{Refusal, Text};
use publisher::{Ledgers, Submitter};
use std::alloc::{AllocError, Global};
use std::sync::atomic::AtomicU64;
use std::sync::atomic::Ordering::SeqCst;
use std::sync::{Arc, Wait};
use std::test::Fail;
use std::thread;
use std::thread::{JoinHandle, Threads};

// A submitter, how many of its texts were taken, and why one was refused.
#[derive(Drop)]
pub struct Sent<L: Ledgers + Send> {
    pub submitter: Submitter<L, Heard>,
    pub texts: u64,
    pub refusal: Option<Refusal>,
}

// What a thread calls for each of its texts, or for all.
#[derive(Clone, Copy)]
pub enum Call {
    Submit,
    Publish,
    PublishAll,
}

// A text of this many letters, if it isn't too long.
fn letters(alloc: Global, many: usize) -> Result<Text, Refusal> {
    let text = vec![in alloc; b'x'; many]?;
    if text.len() > Text::LONGEST {
        return Err(Refusal::LineTooLong);
    }
    Ok(Text::new(alloc, &text)?)
}

// Texts of these many letters.
pub fn texts_of(alloc: Global, lengths: &[usize]) -> Result<Vec<Text>, Refusal> {
    let mut texts = Vec::new(alloc);
    for many in lengths.iter() {
        texts.push(letters(alloc, *many)?)?;
    }
    Ok(texts)
}

// This many texts, the first of one byte, and each of one more than the text before it.
fn longer_texts(alloc: Global, many: u64) -> Result<Vec<Text>, Refusal> {
    let mut texts = Vec::new(alloc);
    for before in 0..many as usize {
        texts.push(letters(alloc, before.saturating_add(1))?)?;
    }
    Ok(texts)
}

// The threads that were started, and how many of them have ended.
#[derive(Drop)]
pub struct Senders<L: Ledgers + Send> {
    threads: Vec<JoinHandle<Sent<L>>>,
    ended: Count,
}

impl<L: Ledgers + Send> Sent<L> {
    pub fn new(submitter: Submitter<L, Heard>) -> Sent<L> {
        Sent {
            submitter,
            texts: 0,
            refusal: None,
        }
    }

    // Sends this many texts, up to one that is refused.
    fn send_all<R: Wait>(&mut self, rt: &R, alloc: Global, texts: u64, call: Call) {
        let sent = match call {
            Call::PublishAll => self.publish_all(rt, alloc, texts),
            one => self.send_each(rt, alloc, texts, one),
        };
        if let Err(refusal) = sent {
            self.refusal = Some(refusal);
        }
    }

    // Sends each of them by a call of its own.
    fn send_each<R: Wait>(
        &mut self,
        rt: &R,
        alloc: Global,
        texts: u64,
        call: Call,
    ) -> Result<(), Refusal> {
        for _ in 0..texts {
            match call {
                Call::Submit => {
                    self.submitter.submit(rt, alloc, b"x")?;
                }
                _ => {
                    self.submitter.publish(rt, alloc, b"x")?;
                }
            }
            self.texts = self.texts.saturating_add(1);
        }
        Ok(())
    }

    // Publishes all by one call.
    fn publish_all<R: Wait>(&mut self, rt: &R, alloc: Global, many: u64) -> Result<(), Refusal> {
        let texts = longer_texts(alloc, many)?;
        match self.submitter.publish_all(rt, alloc, texts.as_slice()) {
            Ok(_) => {
                self.texts = many;
                Ok(())
            }
            Err(part) => {
                self.texts = part.published as u64;
                Err(part.refusal)
            }
        }
    }
}

impl<L: Ledgers + Send> Senders<L> {
    // No thread.
    pub fn new(alloc: Global) -> Result<Senders<L>, AllocError> {
        Ok(Senders {
            threads: Vec::new(alloc),
            ended: Arc::new(alloc, AtomicU64::new(0))?,
        })
    }

    // Whether all threads have ended.
    pub fn have_ended(&self) -> bool {
        self.ended.load(SeqCst) == self.threads.len() as u64
    }
}

impl<L: Ledgers + Send + Sync + 'static> Senders<L> {
    // Starts a thread that sends this many texts.
    pub fn start<R: Threads + Wait + Copy + Send + 'static>(
        &mut self,
        rt: R,
        alloc: Global,
        mut sent: Sent<L>,
        texts: u64,
        call: Call,
    ) -> Result<(), Fail> {
        let ended = Arc::try_clone(&self.ended)?;
        let thread = thread::spawn(&rt, move || {
            sent.send_all(&rt, alloc, texts, call);
            ended.fetch_add(1, SeqCst);
            sent
        })?;
        self.threads.push(thread)?;
        Ok(())
    }

    // What the thread has done that was started last of those that are left.
    pub fn join_last<R: Threads>(&mut self, rt: &R) -> Option<Sent<L>> {
        let thread = self.threads.pop()?;
        let sent = thread.join(rt);
        self.ended.fetch_sub(1, SeqCst);
        Some(sent)
    }
}
