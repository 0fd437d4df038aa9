//! Standard input, which is read by a thread of its own, so that the program can end while it waits for a line.
use commands::{LONGEST_LINE, strip_return};
use flow_rules::NoMemory;
use inbox::Queue;
use std::alloc::Global;
use std::io::{BufRead, BufReader, ErrorKind, Read};
use std::sync::{Arc, Wait};
use std::thread;
use std::thread::Threads;

/// How many lines may wait to be obeyed.
pub const MOST_LINES: usize = 64;

/// The most bytes of a line with what ends it.
const LONGEST: u64 = LONGEST_LINE as u64 + 2;

/// What comes from standard input.
#[derive(Drop)]
pub enum Heard {
    /// A line, without its line feed and the carriage return before it.
    Line(Vec<u8>),
    /// A line of more than [`LONGEST_LINE`] bytes.
    LongLine,
    /// Reading has failed.
    ReadFault,
    /// Memory was refused where a line was read.
    NoMemory,
}

/// Starts the thread that reads standard input to its end, and closes the queue then. Nobody waits for it: it may stand
/// in the middle of a read when the program ends.
pub fn start_reading<R: Threads + Wait + Copy + Send + 'static, I: Read + Send + Drop + 'static>(
    rt: R,
    alloc: Global,
    reader: I,
    input: Arc<Queue<Heard>>,
) -> Result<(), NoMemory> {
    let Ok(reader) = BufReader::new(alloc, reader) else {
        return Err(NoMemory);
    };
    let read = move || {
        let mut reader = reader;
        read_lines(&rt, alloc, &mut reader, &input);
    };
    match thread::spawn(&rt, read) {
        Ok(_) => Ok(()),
        Err(_) => Err(NoMemory),
    }
}

/// Hands on each line, up to the end.
fn read_lines<R: Wait, I: BufRead>(rt: &R, alloc: Global, reader: &mut I, input: &Queue<Heard>) {
    for _ in rt.forever() {
        let Some(heard) = read_line(alloc, reader) else {
            break;
        };
        let is_last = matches!(heard, Heard::ReadFault | Heard::NoMemory);
        if !input.push(rt, heard) || is_last {
            break;
        }
    }
    input.close(rt);
}

/// Reads a line; `None` at the end.
fn read_line<I: BufRead>(alloc: Global, reader: &mut I) -> Option<Heard> {
    let mut line = Vec::new(alloc);
    if let Err(error) = reader.take(LONGEST).read_until(b'\n', &mut line) {
        return Some(fault_of(error.kind()));
    }
    let is_whole = line.as_slice().last() == Some(&b'\n');
    if line.is_empty() {
        return None;
    }
    if is_whole {
        line.pop();
    } else if line.len() as u64 == LONGEST {
        // The rest of it is passed over.
        return Some(match reader.skip_until(b'\n') {
            Ok(_) => Heard::LongLine,
            Err(error) => fault_of(error.kind()),
        });
    }
    let length = strip_return(line.as_slice()).len();
    line.truncate(length);
    Some(if length > LONGEST_LINE {
        Heard::LongLine
    } else {
        Heard::Line(line)
    })
}

/// What an error of reading comes to.
fn fault_of(kind: ErrorKind) -> Heard {
    match kind {
        ErrorKind::OutOfMemory => Heard::NoMemory,
        _ => Heard::ReadFault,
    }
}
