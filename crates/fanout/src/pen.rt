//! Pens: they write what a sink has, or what is said on standard error, and tell how many bytes each write took. A
//! descriptor that doesn't block is tried again until it takes some.
ghost use Rattle.std.specs.Io.{WritesAtMost};

use crate::doors::Doors;
use std::fs::{File, Metadata};
use std::io::{ErrorKind, Stderr, Stdout, Write};
use std::os::unix::fs::FileTypeExt;
use std::sync::Wait;
use std::time::{Clock, Duration};
use std::{io, thread};

/// How many bytes a pipe takes in one piece, or none of them.
const PIECE: usize = 4096;

/// The system's number of the error that a file has as many bytes as it may have.
const TOO_LARGE: i32 = 27;

/// The longest pause before a descriptor that doesn't block is tried again, in milliseconds.
const LONGEST_PAUSE: u64 = 16;

/// What is written to.
#[derive(Drop)]
pub enum Outlet {
    Output(Stdout),
    Errors(Stderr),
    File(File),
}

impl Outlet {
    fn write(&mut self, bytes: &[u8]) -> io::Result<usize>
        ensures bound { WritesAtMost result bytes.now }
    {
        match self {
            Outlet::Output(output) => output.write(bytes),
            Outlet::Errors(errors) => errors.write(bytes),
            Outlet::File(file) => file.write(bytes),
        }
    }

    /// Writes some of the bytes, however often that has to be tried.
    fn write_some<R: Clock + Wait>(&mut self, rt: &R, bytes: &[u8]) -> io::Result<usize>
        ensures bound { WritesAtMost result bytes.now }
    {
        let mut pause = 1;
        for _ in rt.forever() {
            match self.write(bytes) {
                Err(error) if error.kind() == ErrorKind::Interrupted => {}
                Err(error) if error.kind() == ErrorKind::WouldBlock => pause = rest(rt, pause),
                written => return written,
            }
        }
        unreachable!()
    }

    fn look<R: Doors>(&self, rt: &R) -> io::Result<Metadata> {
        match self {
            Outlet::Output(_) => rt.look(b"/proc/self/fd/1"),
            Outlet::Errors(_) => rt.look(b"/proc/self/fd/2"),
            Outlet::File(file) => file.metadata(),
        }
    }
}

/// What writes to an outlet.
#[derive(Drop)]
pub struct Pen<'a, R: Doors + Clock + Wait> {
    rt: &'a R,
    outlet: Outlet,
    /// How many bytes are written at once, at most.
    most: usize,
    /// How many bytes a file may have.
    limit: Option<u64>,
}

impl<'a, R: Doors + Clock + Wait> Pen<'a, R> {
    /// A pen for an outlet. What is in a pipe whose writer may be given up is known only if each write is in one piece.
    pub fn new(rt: &'a R, outlet: Outlet, limit: Option<u64>, may_be_given_up: bool) -> Pen<'a, R> {
        let is_in_pieces = may_be_given_up && is_pipe(rt, &outlet);
        Pen {
            rt,
            outlet,
            most: if is_in_pieces { PIECE } else { usize::MAX },
            limit,
        }
    }

    /// Whether the file has as many bytes as it may have.
    fn is_at_limit(&self) -> bool {
        match self.limit {
            Some(limit) => match self.outlet.look(self.rt) {
                Ok(found) => found.is_file() && found.len() >= limit,
                Err(_) => false,
            },
            None => false,
        }
    }
}

/// Whether an outlet is a pipe.
fn is_pipe<R: Doors>(rt: &R, outlet: &Outlet) -> bool {
    match outlet.look(rt) {
        Ok(found) => found.file_type().is_fifo(),
        Err(_) => false,
    }
}

impl<R: Doors + Clock + Wait> Write for Pen<'_, R> {
    fn write(&mut self, bytes: &[u8]) -> io::Result<usize> {
        if self.is_at_limit() {
            return Err(io::Error::from_raw_os_error(TOO_LARGE));
        }
        let length = bytes.len().min(self.most);
        self.outlet.write_some(self.rt, &bytes[..length])
    }

    fn flush(&mut self) -> io::Result<()> {
        Ok(())
    }
}

/// Waits for so many milliseconds, and tells how long the next pause is.
pub fn rest<R: Clock>(rt: &R, pause: u64) -> u64 {
    thread::sleep(rt, Duration::from_millis(pause));
    pause.saturating_mul(2).min(LONGEST_PAUSE)
}
