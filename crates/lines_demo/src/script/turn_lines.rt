//! The lines of a turn: a line for each signal that was told, and one by a refusal of memory.
ghost use Rattle.std.specs.Prelude.{◌≡◌, ◌++◌, ◌∷◌, [], is_ok, codes, IfOk, Some};
ghost use Rattle.feed_core.specs.Turn.{how_after};
ghost use Rattle.commands.specs.Writing.{Writes, line_of};
ghost use Rattle.lines_demo.specs.Script.Turns.{fault_text, signal_line, signal_lines, untold_end_line, turn_lines};

use commands::{OutputFault, write_line, write_whole};
use feed_core::Outlook;
use flow_rules::{Fault, How, Name, Signal};
use std::alloc::AllocError;
use std::io::Write;

/// Writes the lines of a turn: what was told, and whether a callback was refused memory.
pub fn write_turn<W: Write>(
    writer: &mut W,
    line: &mut Vec<u8>,
    name: &Name,
    told: &[Signal],
    outlook: Outlook,
) -> Result<(), OutputFault>
    ensures { Writes (is_ok result) (W.contents writer.old) (W.contents writer.new)
        (turn_lines name.now told.now outlook) }
{
    write_signals(writer, line, name, told)?;
    match outlook {
        Outlook::Ended(how) => write_end(writer, line, name, how),
        Outlook::Again | Outlook::Resting => Ok(()),
    }
}

/// Writes the lines of several signals.
fn write_signals<W: Write>(
    writer: &mut W,
    line: &mut Vec<u8>,
    name: &Name,
    signals: &[Signal],
) -> Result<(), OutputFault>
    ensures { Writes (is_ok result) (W.contents writer.old) (W.contents writer.new)
        (signal_lines name.now signals.now) }
{
    for signal in signals {
        write_signal(writer, line, name, signal)?;
    }
    Ok(())
}

/// Writes the line of a signal that the subscriber of this name was told.
fn write_signal<W: Write>(
    writer: &mut W,
    line: &mut Vec<u8>,
    name: &Name,
    signal: &Signal,
) -> Result<(), OutputFault>
    ensures { Writes (is_ok result) (W.contents writer.old) (W.contents writer.new)
        (signal_line name.now signal.now) }
{
    match signal {
        Signal::Subscribed => write_named(writer, line, name, " subscribed"),
        Signal::Next(item) => {
            if make_next(line, name, item.text.as_bytes()).is_err() {
                return Err(OutputFault::Memory);
            }
            write_whole(writer, line.as_slice())
        }
        Signal::Complete => write_named(writer, line, name, " complete"),
        Signal::Error(fault) => write_fault(writer, line, name, fault),
    }
}

/// Writes the line of an error that the subscriber was told.
fn write_fault<W: Write>(
    writer: &mut W,
    line: &mut Vec<u8>,
    name: &Name,
    fault: &Fault,
) -> Result<(), OutputFault>
    ensures { Writes (is_ok result) (W.contents writer.old) (W.contents writer.new)
        (line_of (name.now ++ fault_text fault.now)) }
{
    match fault {
        Fault::Published(code) => write_line(
            writer,
            line,
            format_args!("{name} error published {code}"),
        ),
        Fault::IllegalArgument => write_named(writer, line, name, " error argument"),
        Fault::IllegalState => write_named(writer, line, name, " error state"),
    }
}

/// Writes the line of what is said of a subscriber.
fn write_named<W: Write>(
    writer: &mut W,
    line: &mut Vec<u8>,
    name: &Name,
    what: &str,
) -> Result<(), OutputFault>
    ensures { Writes (is_ok result) (W.contents writer.old) (W.contents writer.new)
        (line_of (name.now ++ what.now)) }
{
    write_line(writer, line, format_args!("{name}{what}"))
}

/// Puts the line of an item into the buffer.
fn make_next(line: &mut Vec<u8>, name: &Name, text: &[u8]) -> Result<(), AllocError>
    ensures { IfOk result
        (λ _. line.new.items ≡ name.now ++ codes " next " ++ text.now ++ 10 ∷ []) }
{
    line.clear();
    line.extend_from_slice(name.as_bytes())?;
    line.extend_from_slice(b" next ")?;
    line.extend_from_slice(text)?;
    line.push(b'\n')?;
    Ok(())
}

/// Writes the line of an end that the subscriber was not told of, if there is one.
fn write_end<W: Write>(
    writer: &mut W,
    line: &mut Vec<u8>,
    name: &Name,
    how: How,
) -> Result<(), OutputFault>
    ensures { Writes (is_ok result) (W.contents writer.old) (W.contents writer.new)
        (untold_end_line name.now (Some how)) }
{
    match how {
        How::OutOfMemory => write_line(writer, line, format_args!("{name} memory")),
        How::Completed | How::Errored(_) | How::Cancelled | How::Failed(_) => Ok(()),
    }
}
