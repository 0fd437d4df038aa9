//! What is said of a script beside its answers, for people who look for what went wrong.
use super::session::Session;
use commands::Reply;
use flow_rules::{Listener, Refusal};

/// A line of a script, without its line feed and the carriage return before it.
#[derive(Clone, Copy)]
pub struct Line<'a> {
    /// Its number, from 1 on.
    pub number: u64,
    pub bytes: &'a [u8],
}

/// Hears how a script goes. No answer of the script depends on what it does.
pub trait Explain {
    /// Called before a refusal is answered to this line.
    fn refused(&mut self, line: Line<'_>, refusal: &Refusal);

    /// Called after the turns of a `run`, before `idle` is answered to it.
    fn ran<B: Listener>(&mut self, line: Line<'_>, session: &Session<B>);
}

/// Says nothing.
#[derive(Drop)]
pub struct Silent;

impl Explain for Silent {
    fn refused(&mut self, _line: Line<'_>, _refusal: &Refusal) {}

    fn ran<B: Listener>(&mut self, _line: Line<'_>, _session: &Session<B>) {}
}

/// Has explained what is about to be answered to a line.
pub fn explain_reply<E: Explain, B: Listener>(
    explain: &mut E,
    line: Line<'_>,
    reply: &Reply,
    session: &Session<B>,
) {
    match reply {
        Reply::Refused(refusal) => explain.refused(line, refusal),
        Reply::Idle => explain.ran(line, session),
        _ => {}
    }
}
