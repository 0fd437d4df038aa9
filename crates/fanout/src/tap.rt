//! Taps: they read what a source gives. A descriptor that doesn't block is tried again until it gives something.
ghost use Rattle.std.specs.Io.{ReadsAtMost};

use crate::pen::rest;
use std::fs::File;
use std::io;
use std::io::{ErrorKind, Read, Stdin};
use std::sync::Wait;
use std::time::Clock;

/// What is read.
#[derive(Drop)]
pub enum Well {
    Input(Stdin),
    File(File),
}

impl Well {
    fn read(&mut self, bytes: &mut [u8]) -> io::Result<usize>
        ensures bound { ReadsAtMost result bytes.new }
    {
        match self {
            Well::Input(input) => input.read(bytes),
            Well::File(file) => file.read(bytes),
        }
    }
}

/// What reads a well.
#[derive(Drop)]
pub struct Tap<'a, R: Clock + Wait> {
    pub rt: &'a R,
    pub well: Well,
}

impl<R: Clock + Wait> Read for Tap<'_, R> {
    fn read(&mut self, bytes: &mut [u8]) -> io::Result<usize> {
        let mut pause = 1;
        for _ in self.rt.forever() {
            match self.well.read(bytes) {
                Err(error) if error.kind() == ErrorKind::Interrupted => {}
                Err(error) if error.kind() == ErrorKind::WouldBlock => {
                    pause = rest(self.rt, pause);
                }
                read => return read,
            }
        }
        unreachable!()
    }
}
