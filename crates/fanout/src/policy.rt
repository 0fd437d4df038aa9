//! Who waits and who loses: how a source publishes. This is the only call of a publisher by a source.
use flow_rules::{Listener, Text};
use publisher::{Ledgers, PublishedPart, Submitter};
use std::alloc::Global;
use std::sync::Wait;

/// Publishes these texts in order, each to all sinks: it waits for those that wait, and the others may lose it. A refusal
/// says how many were published before.
pub fn publish_all<L: Ledgers + Send, B: Listener + Send, R: Wait>(
    rt: &R,
    alloc: Global,
    submitter: &mut Submitter<L, B>,
    texts: &[Text],
) -> Result<(), PublishedPart> {
    match submitter.publish_all(rt, alloc, texts) {
        Ok(_) => Ok(()),
        Err(part) => Err(part),
    }
}
