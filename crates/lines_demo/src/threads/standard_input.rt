//! A run on the lines of standard input.
use super::explaining::{explain_input, explain_plan};
use super::fault::LinesFault;
use super::plan::Plan;
use super::run::run_lines;
use crate::reader::read_whole;
use clap::ArgMatches;
use commands::OutputFault;
use flow_rules::{LastFailure, Refusal};
use std::alloc::Global;
use std::io;
use std::io::{BufWriter, Read, Write};
use std::sync::Wait;
use std::thread::Threads;

/// How many bytes of a report are written at once.
const WRITTEN_AT_ONCE: usize = 65_536;

/// Publishes the lines on standard input as the command line asks, and reports on standard output. If that is refused, it
/// says on standard error which option or line is, and why. The answer is the exit status.
pub fn run_standard_input<
    R: Input + Print + Eprint + AllocGlobal + Threads + Wait + Copy + Send + Sync + 'static,
>(rt: R, matches: &ArgMatches<'_>) -> Result<u8, LinesFault> {
    let alloc = rt.alloc();
    let plan = match Plan::read(alloc, matches) {
        Ok(plan) => plan,
        Err(refusal) => {
            explain_plan(&rt, matches, &refusal);
            return Err(refusal.into());
        }
    };
    let bytes = read_whole(alloc, &mut rt.reader())?;
    let ran = run_and_report(rt, alloc, &plan, &mut bytes.as_slice());
    if let Err(
        LinesFault::Refused(Refusal::BadCommand | Refusal::LineTooLong | Refusal::WouldWait),
    ) = ran
    {
        explain_input(&rt, alloc, &plan, bytes.as_slice());
    }
    ran
}

/// Publishes the lines of a reader by a plan, and reports on standard output.
fn run_and_report<R: Print + Threads + Wait + Copy + Send + Sync + 'static, I: Read>(
    rt: R,
    alloc: Global,
    plan: &Plan,
    reader: &mut I,
) -> Result<u8, LinesFault> {
    let Ok(mut writer) = BufWriter::with_capacity(alloc, WRITTEN_AT_ONCE, io::writer(&rt)) else {
        return Err(LinesFault::Refused(Refusal::NoMemory));
    };
    let status = run_lines(rt, alloc, plan, reader, &mut writer, LastFailure::new());
    let flushed = writer.flush();
    let status = status?;
    match flushed {
        Ok(()) => Ok(status),
        Err(error) => Err(OutputFault::of(error.kind()).into()),
    }
}
