//! Writing: bytes and lines that reach a writer whole, or a prefix of them where it fails.
ghost use Rattle.std.specs.Prelude.{◌≡◌, is_ok, IfSome};
ghost use Rattle.commands.specs.Writing.{Writes, line_of};

use std::fmt::Display;
use std::io::{ErrorKind, Write};

/// Why bytes did not reach the writer whole.
#[derive(Clone, Copy, Debug, PartialEq, Eq)]
pub enum OutputFault {
    /// The writer failed, or took no more bytes.
    Write,
    /// Nobody reads any more what is written: the other end of the pipe is closed.
    Gone,
    /// The line buffer was refused memory.
    Memory,
}

impl OutputFault {
    /// What a writer's error of this kind is.
    pub fn of(kind: ErrorKind) -> OutputFault {
        match kind {
            ErrorKind::BrokenPipe => OutputFault::Gone,
            _ => OutputFault::Write,
        }
    }
}

/// Writes a line of this text. The line is made up in the buffer.
pub fn write_line<W: Write, D: Display + Drop>(
    writer: &mut W,
    line: &mut Vec<u8>,
    text: D,
) -> Result<(), OutputFault>
    ensures { IfSome (D.output text) (λ bytes.
        Writes (is_ok result) (W.contents writer.old) (W.contents writer.new) (line_of bytes)) }
{
    line.clear();
    if line.writeln(text).is_err() {
        return Err(OutputFault::Memory);
    }
    write_whole(writer, line.as_slice())
}

/// Writes all of the bytes, or a prefix of them where the writer fails.
pub fn write_whole<W: Write>(writer: &mut W, bytes: &[u8]) -> Result<(), OutputFault>
    ensures { Writes (is_ok result) (W.contents writer.old) (W.contents writer.new) bytes.now }
{
    let mut rest = bytes;
    // The bound is there to show that the loop ends. No writer is called that often.
    for _ in 0..u64::MAX {
        if rest.is_empty() {
            return Ok(());
        }
        match writer.write(rest) {
            Ok(0) => return Err(OutputFault::Write),
            Ok(count) => rest = &rest[count..],
            Err(error) => {
                if error.kind() != ErrorKind::Interrupted {
                    return Err(OutputFault::of(error.kind()));
                }
            }
        }
    }
    Err(OutputFault::Write)
}
