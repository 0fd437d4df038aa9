//! Doors: what opens the files of sources and sinks, and looks at them. The threads of a session are lent it. (A bound with
//! types of its own, as that of the runtime's files, is one that the checker lets nobody lend to a thread.)
use crate::limit::limit_in;
use std::fs::{File, Metadata};
use std::io::{ErrorKind, Stderr, Stdin, Stdout};
use std::os::fd::{AsRawFd, IntoRawFd};
use std::{fs, io, str};

/// What opens files, and has the standard streams.
pub trait Doors {
    /// Opens each standard stream that is closed on `/dev/null`, for good: no other file takes its number then. This comes
    /// before anything else is opened.
    fn open_standard(&self);

    /// Standard input.
    fn input(&self) -> Stdin;

    /// Standard output.
    fn output(&self) -> Stdout;

    /// Standard error.
    fn errors(&self) -> Stderr;

    /// Opens a file to be read. The runtime opens none whose name is no UTF-8.
    fn open(&self, path: &[u8]) -> io::Result<File>;

    /// Opens a file to be written at its end, or from its beginning, when it is emptied first. It is made if it isn't
    /// there. The runtime opens none whose name is no UTF-8.
    fn create(&self, path: &[u8], is_appending: bool) -> io::Result<File>;

    /// Tells what a file is, unless its name is no UTF-8.
    fn look(&self, path: &[u8]) -> io::Result<Metadata>;

    /// Reads how many bytes a file may have that this process writes; `None` if that is not limited, or not told.
    fn limit(&self) -> Option<u64>;
}

impl Doors for HostRuntime {
    fn open_standard(&self) {
        // A file is opened with the lowest number that is free.
        for _ in 0..3 {
            let mut options = File::options();
            options.read(true).write(true);
            match options.open(self, "/dev/null") {
                Ok(file) if file.as_raw_fd() <= 2 => {
                    let _kept = file.into_raw_fd();
                }
                _ => return,
            }
        }
    }

    fn input(&self) -> Stdin {
        self.stdin()
    }

    fn output(&self) -> Stdout {
        self.stdout()
    }

    fn errors(&self) -> Stderr {
        self.stderr()
    }

    fn open(&self, path: &[u8]) -> io::Result<File> {
        fs::open(self, text_of(path)?)
    }

    fn create(&self, path: &[u8], is_appending: bool) -> io::Result<File> {
        let mut options = File::options();
        options
            .write(true)
            .create(true)
            .append(is_appending)
            .truncate(!is_appending);
        options.open(self, text_of(path)?)
    }

    fn look(&self, path: &[u8]) -> io::Result<Metadata> {
        fs::metadata(self, text_of(path)?)
    }

    fn limit(&self) -> Option<u64> {
        let list = fs::read_to_string(self, "/proc/self/limits").ok()?;
        limit_in(list.as_str())
    }
}

/// The text of a name, if it is one.
fn text_of(path: &[u8]) -> io::Result<&str> {
    match str::from_utf8(path) {
        Ok(text) => Ok(text),
        Err(_) => Err(io::Error::from(ErrorKind::InvalidFilename)),
    }
}
