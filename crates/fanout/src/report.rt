//! The report: what each source and each sink has done, as text, JSON or CSV.
mod quoting;

use crate::board::Board;
use crate::fault::EndFault;
use crate::plan::{Format, Plan};
pub use quoting::NameText;
use quoting::{CsvText, JsonText};
use std::alloc::{AllocError, Global};
use std::fmt;
use std::sync::Wait;
use std::sync::atomic::Ordering::SeqCst;

/// What a source or a sink has done.
#[derive(Clone, Copy)]
struct Row<'a> {
    name: &'a [u8],
    lines: u64,
    bytes: u64,
    end: End,
}

/// What a sink has done besides.
#[derive(Clone, Copy)]
struct More {
    left_out: u64,
    backlog: u64,
}

/// How a source or a sink stands.
#[derive(Clone, Copy)]
enum End {
    /// It hasn't ended.
    Open,
    Complete,
    Early(EndFault),
}

impl fmt::Display for End {
    fn fmt<W: fmt::Write>(&self, f: &mut fmt::Formatter<W>) -> fmt::Result {
        match self {
            End::Open => f.write_str("not ended"),
            End::Complete => f.write_str("complete"),
            End::Early(fault) => write!(f, "{fault}"),
        }
    }
}

/// The report in this format. What the sinks have done is looked at before the sources: so no sink has written more than
/// the sources have published, and what a sink has written, left out and lost are all lines of all sources.
pub fn report<R: Wait>(
    rt: &R,
    alloc: Global,
    plan: &Plan,
    board: &Board,
) -> Result<String, AllocError> {
    let sinks = look_at_sinks(rt, alloc, plan, board)?;
    let mut text = String::new(alloc);
    begin(&mut text, plan.format)?;
    let lines = add_sources(&mut text, rt, plan, board)?;
    if plan.format == Format::Json {
        text.push_str("],\"sinks\":[")?;
    }
    let mut is_first = true;
    for (row, more) in sinks.iter() {
        add_sink(&mut text, plan.format, *row, *more, lines, is_first)?;
        is_first = false;
    }
    if plan.format == Format::Json {
        text.push_str("]}\n")?;
    }
    Ok(text)
}

/// Begins a report.
fn begin(text: &mut String, format: Format) -> Result<(), AllocError> {
    match format {
        Format::Csv => text.push_str("kind,name,lines,bytes,left_out,lost,backlog,end\n"),
        Format::Json => text.push_str("{\"sources\":["),
        _ => Ok(()),
    }
}

/// Adds a row for each source, and tells how many lines they have published.
fn add_sources<R: Wait>(
    text: &mut String,
    rt: &R,
    plan: &Plan,
    board: &Board,
) -> Result<u64, AllocError> {
    let mut lines = 0_u64;
    let mut is_first = true;
    for (name, count) in plan.sources.iter().zip(board.sources.iter()) {
        let row = Row {
            name: name.as_slice(),
            lines: count.lines.load(SeqCst),
            bytes: count.bytes.load(SeqCst),
            end: end_of(count.ended.load(SeqCst), count.fault(rt)),
        };
        lines = lines.saturating_add(row.lines);
        add_source(text, plan.format, row, is_first)?;
        is_first = false;
    }
    Ok(lines)
}

/// What each sink has done.
fn look_at_sinks<'a, R: Wait>(
    rt: &R,
    alloc: Global,
    plan: &'a Plan,
    board: &Board,
) -> Result<Vec<(Row<'a>, More)>, AllocError> {
    let mut rows = Vec::new(alloc);
    for (sink, count) in plan.sinks.iter().zip(board.sinks.iter()) {
        let row = Row {
            name: sink.path.as_slice(),
            lines: count.lines.load(SeqCst),
            bytes: count.bytes.load(SeqCst),
            end: end_of(count.ended.load(SeqCst), count.fault(rt)),
        };
        if !count.has_ended() {
            let _waiting = board.look(count);
        }
        let more = More {
            left_out: count.left_out.load(SeqCst),
            backlog: count.backlog.load(SeqCst),
        };
        rows.push((row, more))?;
    }
    Ok(rows)
}

/// How one stands that has ended, or not, with this fault.
fn end_of(ended: u64, fault: Option<EndFault>) -> End {
    match fault {
        _ if ended == 0 => End::Open,
        None => End::Complete,
        Some(fault) => End::Early(fault),
    }
}

/// Adds the row of a source.
fn add_source(
    text: &mut String,
    format: Format,
    row: Row<'_>,
    is_first: bool,
) -> Result<(), AllocError> {
    let Row {
        name,
        lines,
        bytes,
        end,
    } = row;
    match format {
        Format::Text => {
            write!(
                text,
                "fanout: source {}: {lines} lines, {bytes} bytes, {end}\n",
                NameText(name)
            )
        }
        Format::Csv => write!(text, "source,{},{lines},{bytes},,,,{end}\n", CsvText(name)),
        Format::Json => {
            text.push_str(if is_first { "" } else { "," })?;
            write!(
                text,
                "{{\"name\":\"{}\",\"lines\":{lines},\"bytes\":{bytes},\"end\":\"{end}\"}}",
                JsonText(name)
            )
        }
        Format::None => Ok(()),
    }
}

/// Adds the row of a sink, of which all sources have published so many lines.
fn add_sink(
    text: &mut String,
    format: Format,
    row: Row<'_>,
    more: More,
    published: u64,
    is_first: bool,
) -> Result<(), AllocError> {
    let Row {
        name,
        lines,
        bytes,
        end,
    } = row;
    let More { left_out, backlog } = more;
    let lost = published.saturating_sub(lines).saturating_sub(left_out);
    match format {
        Format::Text => {
            write!(
                text,
                "fanout: sink {}: {lines} lines, {bytes} bytes, {left_out} left out, ",
                NameText(name)
            )?;
            write!(text, "{lost} lost, backlog {backlog}, {end}\n")
        }
        Format::Csv => {
            write!(text, "sink,{},{lines},{bytes},{left_out},", CsvText(name))?;
            write!(text, "{lost},{backlog},{end}\n")
        }
        Format::Json => {
            text.push_str(if is_first { "" } else { "," })?;
            write!(
                text,
                "{{\"name\":\"{}\",\"lines\":{lines},\"bytes\":{bytes},",
                JsonText(name)
            )?;
            write!(
                text,
                "\"left_out\":{left_out},\"lost\":{lost},\"backlog\":{backlog},"
            )?;
            write!(text, "\"end\":\"{end}\"}}")
        }
        Format::None => Ok(()),
    }
}
