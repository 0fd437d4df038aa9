//! The report of a run: what each subscriber was told, and how its subscription ended.
ghost use Rattle.std.specs.Prelude.{◌≡◌, ◌++◌, codes, decimal, is_ok, IfOk, length, min, ◌-◌, ◌^◌};
ghost use Rattle.commands.specs.Writing.{Writes, line_of};
ghost use Rattle.lines_demo.specs.Threads.Report.{all_completed, drained_line, end_text, handled_line, heard_of, is_completed, items_told, lane_lines, lines_of_lanes, lines_told, report_of};

use super::reporter::Reporter;
use commands::{OutputFault, write_line};
use flow_rules::{FailHandler, How, Name};
use publisher::{NamedLane, Outcome};
use std::alloc::Global;
use std::io::Write;

/// Writes the report. The answer is whether every subscriber completed.
pub fn write_report<F: FailHandler, W: Write>(
    alloc: Global,
    writer: &mut W,
    outcome: &Outcome<Reporter, F>,
) -> Result<bool, OutputFault>
    ensures written { Writes (is_ok result) (W.contents writer.old) (W.contents writer.new)
        (report_of F.last outcome.now) }
    ensures complete { IfOk result (λ complete. complete ≡ all_completed outcome.now) }
{
    let mut line = Vec::new(alloc);
    write_lanes(writer, &mut line, outcome.lanes.as_slice())?;
    write_handled(writer, &mut line, &outcome.handler)?;
    write_drained(writer, &mut line, outcome.drained)?;
    Ok(outcome.lanes.iter().all(is_complete))
}

/// Writes what the subscribers were told, one after the other, and how their subscriptions ended.
fn write_lanes<W: Write>(
    writer: &mut W,
    line: &mut Vec<u8>,
    lanes: &[NamedLane<Reporter>],
) -> Result<(), OutputFault>
    ensures { Writes (is_ok result) (W.contents writer.old) (W.contents writer.new) (lines_of_lanes lanes.now) }
{
    for left in lanes {
        write_lane(writer, line, left)?;
    }
    Ok(())
}

/// Writes what one subscriber was told, source by source, and how its subscription ended.
fn write_lane<W: Write>(
    writer: &mut W,
    line: &mut Vec<u8>,
    left: &NamedLane<Reporter>,
) -> Result<(), OutputFault>
    ensures { Writes (is_ok result) (W.contents writer.old) (W.contents writer.new) (lane_lines left.now) }
{
    let items = write_told(writer, &left.lane.subscriber)?;
    write_ending(writer, line, &left.name, left.lane.ending, items)
}

/// Writes what a subscriber was told, if it is there. The answer is how many items that were.
fn write_told<W: Write>(writer: &mut W, subscriber: &Option<Reporter>) -> Result<u64, OutputFault>
    ensures written { Writes (is_ok result) (W.contents writer.old) (W.contents writer.new) (lines_told subscriber.now) }
    ensures items { IfOk result (λ items. items ≡ min (length (items_told subscriber.now)) (2 ^ 64 - 1)) }
{
    match subscriber {
        Some(reporter) => {
            reporter.write_lines(writer)?;
            Ok(reporter.items())
        }
        None => Ok(0),
    }
}

/// Writes how a subscription ended, after how many items.
fn write_ending<W: Write>(
    writer: &mut W,
    line: &mut Vec<u8>,
    name: &Name,
    ending: Option<How>,
    items: u64,
) -> Result<(), OutputFault>
    ensures { Writes (is_ok result) (W.contents writer.old) (W.contents writer.new)
        (line_of (name.now ++ codes " " ++ end_text ending ++ codes " " ++ decimal items)) }
{
    match ending {
        Some(How::Failed(code)) => {
            write_line(writer, line, format_args!("{name} failed {code} {items}"))
        }
        Some(How::Completed) => write_line(writer, line, format_args!("{name} complete {items}")),
        Some(How::OutOfMemory) => write_line(writer, line, format_args!("{name} memory {items}")),
        _ => write_line(writer, line, format_args!("{name} open {items}")),
    }
}

/// Writes which failure the handler has heard of, if it has heard of one.
fn write_handled<F: FailHandler, W: Write>(
    writer: &mut W,
    line: &mut Vec<u8>,
    handler: &Option<F>,
) -> Result<(), OutputFault>
    ensures { Writes (is_ok result) (W.contents writer.old) (W.contents writer.new) (handled_line (heard_of F.last handler.now)) }
{
    let Some(handler) = handler else {
        return Ok(());
    };
    let Some((name, code)) = handler.last() else {
        return Ok(());
    };
    write_line(writer, line, format_args!("handled {name} {code}"))
}

/// Writes whether the publisher was drained.
fn write_drained<W: Write>(
    writer: &mut W,
    line: &mut Vec<u8>,
    drained: bool,
) -> Result<(), OutputFault>
    ensures { Writes (is_ok result) (W.contents writer.old) (W.contents writer.new) (drained_line drained) }
{
    let drained = u8::from(drained);
    write_line(writer, line, format_args!("drained {drained}"))
}

fn is_complete(left: &NamedLane<Reporter>) -> bool
    ensures { result ≡ is_completed left.now.lane.ending }
{
    matches!(left.lane.ending, Some(How::Completed))
}
