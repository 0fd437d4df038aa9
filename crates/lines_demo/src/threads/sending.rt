//! The sources of a run: each publishes its lines in order from a thread of its own, 64 by one call.
ghost use Rattle.std.specs.Prelude.{◌≡◌, [], IfOk, OnOk};
ghost use Rattle.std.specs.List.{AllZip};
ghost use Rattle.lines_demo.specs.Threads.Sending.{AreSubmittersOf, Publishes, Sends, texts_from};

use super::input::Publication;
use flow_rules::{FailHandler, Listener, Refusal, Text};
use publisher::{Ledgers, Submitter};
use std::alloc::Global;
use std::sync::Wait;
use std::thread;
use std::thread::Threads;

/// How many lines of a source are published by one call, but for its last ones.
const AT_ONCE: usize = 64;

/// A source, and the submitter that publishes its lines.
#[derive(Drop)]
pub struct Sender<L: Ledgers + Send, B: Listener + Send, F: FailHandler + Send> {
    source: u32,
    submitter: Submitter<L, B, F>,
    /// Why a line was refused, if one was.
    refused: Option<Refusal>,
}

impl<L: Ledgers + Send, B: Listener + Send, F: FailHandler + Send> Sender<L, B, F> {
    /// One that has published no line.
    pub fn new(source: u32, submitter: Submitter<L, B, F>) -> Sender<L, B, F>
        ensures source { result.source ≡ source }
        ensures submitter { result.submitter ≡ submitter }
    {
        Sender {
            source,
            submitter,
            refused: None,
        }
    }

    /// Publishes the lines of its source in order, up to one that is refused.
    fn send<R: Wait>(&mut self, rt: &R, alloc: Global, publications: &[Publication<'_>])
        ensures { Sends publications.now self.old self.new }
    {
        self.refused = self.send_all(rt, alloc, publications).err();
    }

    /// Publishes the lines of its source in order, [`AT_ONCE`] by one call.
    fn send_all<R: Wait>(
        &mut self,
        rt: &R,
        alloc: Global,
        publications: &[Publication<'_>],
    ) -> Result<(), Refusal>
        ensures source { self.new.source ≡ self.old.source }
        ensures sent { OnOk result (Publishes (texts_from self.old.source publications.now)
            self.old.submitter self.new.submitter) }
    {
        let mut texts = Vec::with_capacity(alloc, AT_ONCE)?;
        for publication in publications {
            if publication.source == self.source {
                texts.push(text_of(alloc, publication)?)?;
                if texts.len() == AT_ONCE {
                    self.publish(rt, alloc, &mut texts)?;
                }
            }
        }
        self.publish(rt, alloc, &mut texts)
    }

    /// Publishes these texts in order, and takes them out of the list.
    fn publish<R: Wait>(
        &mut self,
        rt: &R,
        alloc: Global,
        texts: &mut Vec<Text>,
    ) -> Result<(), Refusal>
        ensures source { self.new.source ≡ self.old.source }
        ensures published { OnOk result (Publishes texts.old.items self.old.submitter self.new.submitter) }
        ensures empty { OnOk result (texts.new.items ≡ []) }
    {
        match self.submitter.submit_all(rt, alloc, texts.as_slice()) {
            Ok(_) => {
                texts.clear();
                Ok(())
            }
            Err(unsent) => Err(unsent.refusal),
        }
    }
}

/// The text of a line. It is refused if it is too long.
fn text_of(alloc: Global, publication: &Publication<'_>) -> Result<Text, Refusal>
    ensures { IfOk result (λ text. text ≡ publication.now.text) }
{
    let bytes = publication.text.as_bytes();
    if bytes.len() > Text::LONGEST {
        return Err(Refusal::LineTooLong);
    }
    Ok(Text::new(alloc, bytes)?)
}

/// Publishes all lines, each source from a thread of its own. The threads have ended then, and the submitters come back,
/// in order. It is refused if a line of one is.
pub fn send_lines<
    L: Ledgers + Send + Sync + 'static,
    B: Listener + Send + 'static,
    F: FailHandler + Send + 'static,
    R: Threads + Wait + Sync,
>(
    rt: &R,
    alloc: Global,
    publications: &[Publication<'_>],
    senders: Vec<Sender<L, B, F>>,
) -> Result<Vec<Submitter<L, B, F>>, Refusal>
    ensures { IfOk result (λ submitters. AllZip
        (λ sender. Publishes (texts_from sender.source publications.now) sender.submitter)
        senders.items submitters.items) }
{
    let mut senders = senders;
    let send = |_: usize, sender: &mut Sender<L, B, F>|
        ensures { Sends publications.entry.now sender.old sender.new }
    { sender.send(rt, alloc, publications) };
    let threads = senders.len().max(1);
    thread::for_each_mut(rt, &mut senders, threads, &send);
    take_back(alloc, senders)
}

/// The submitters without their sources. It is refused if a line of one was.
fn take_back<L: Ledgers + Send, B: Listener + Send, F: FailHandler + Send>(
    alloc: Global,
    senders: Vec<Sender<L, B, F>>,
) -> Result<Vec<Submitter<L, B, F>>, Refusal>
    ensures { IfOk result (λ submitters. AreSubmittersOf senders.items submitters.items) }
{
    let mut submitters = Vec::new(alloc);
    for sender in senders {
        let Sender {
            submitter,
            refused,
            ..
        } = sender;
        match refused {
            Some(refusal) => return Err(refusal),
            None => submitters.push(submitter)?,
        }
    }
    Ok(submitters)
}
