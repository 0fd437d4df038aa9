//! The screen: standard output, on which all threads of the program write.
use crate::input::Heard;
use commands::{OutputFault, write_whole};
use flow_rules::Name;
use inbox::Queue;
use std::alloc::{AllocError, Global};
use std::fmt::Display;
use std::io;
use std::io::Write;
use std::sync::{Arc, Mutex, Wait};
use std::time::{Clock, Instant};

/// Standard output behind a lock of its own. A line reaches it whole and at once, and no two mix. Once a line has
/// failed, none is written any more, and no line of the input is heard either.
#[derive(Drop)]
pub struct Screen<R> {
    rt: R,
    /// When the program began, if each line shall say how long ago that was.
    start: Option<Instant>,
    /// Whether a terminal shows it, which would obey the control characters of a text.
    is_terminal: bool,
    page: Mutex<Page>,
    /// What is cut once a line has failed, so that the terminal ends.
    input: Arc<Queue<Heard>>,
}

/// The room for one line, and whether one has failed.
#[derive(Drop)]
struct Page {
    line: Vec<u8>,
    fault: Option<OutputFault>,
}

impl<R: Print + Clock + Wait> Screen<R> {
    /// A screen on which nothing has failed. With a start each line begins with the microseconds since then. On a
    /// terminal the control characters of a text are escaped.
    pub fn new(
        rt: R,
        alloc: Global,
        start: Option<Instant>,
        is_terminal: bool,
        input: Arc<Queue<Heard>>,
    ) -> Screen<R> {
        Screen {
            rt,
            start,
            is_terminal,
            page: Mutex::new(Page {
                line: Vec::new(alloc),
                fault: None,
            }),
            input,
        }
    }

    /// Writes a line of this text.
    pub fn say<D: Display + Drop>(&self, text: D) -> Result<(), OutputFault> {
        let mut page = self.page.lock(&self.rt);
        let page = &mut *page;
        if let Some(fault) = page.fault {
            return Err(fault);
        }
        page.line.clear();
        let made = self.stamp(&mut page.line).is_ok() && page.line.writeln(text).is_ok();
        self.show(page, made)
    }

    /// Writes the line of an item that the subscriber of this name is told.
    pub fn say_item(&self, name: &Name, text: &[u8]) -> Result<(), OutputFault> {
        let mut page = self.page.lock(&self.rt);
        let page = &mut *page;
        if let Some(fault) = page.fault {
            return Err(fault);
        }
        page.line.clear();
        let made = self.stamp(&mut page.line).is_ok()
            && self.add_item(&mut page.line, name, text).is_ok();
        self.show(page, made)
    }

    /// Why a line has failed, if one has.
    pub fn fault(&self) -> Option<OutputFault> {
        self.page.lock(&self.rt).fault
    }

    /// Begins a line.
    fn stamp(&self, line: &mut Vec<u8>) -> Result<(), AllocError> {
        let Some(start) = self.start else {
            return Ok(());
        };
        let micros = match start.elapsed(&self.rt) {
            Ok(elapsed) => elapsed.as_micros(),
            Err(_) => 0,
        };
        match write!(line, "{micros} ") {
            Ok(()) => Ok(()),
            Err(_) => Err(AllocError),
        }
    }

    /// Adds the rest of the line of an item.
    fn add_item(&self, line: &mut Vec<u8>, name: &Name, text: &[u8]) -> Result<(), AllocError> {
        line.extend_from_slice(name.as_bytes())?;
        line.extend_from_slice(b" next ")?;
        if self.is_terminal {
            for byte in text {
                add_shown(line, *byte)?;
            }
        } else {
            line.extend_from_slice(text)?;
        }
        line.push(b'\n')?;
        Ok(())
    }

    /// Writes the line, if it was made, and keeps what has failed.
    fn show(&self, page: &mut Page, made: bool) -> Result<(), OutputFault> {
        let shown = if made {
            write_whole(&mut io::writer(&self.rt), page.line.as_slice())
        } else {
            Err(OutputFault::Memory)
        };
        if let Err(fault) = shown {
            page.fault = Some(fault);
            self.input.cut(&self.rt);
        }
        shown
    }
}

/// Adds a byte as it is shown: a control character with a backslash and letters.
fn add_shown(line: &mut Vec<u8>, byte: u8) -> Result<(), AllocError> {
    if !byte.is_ascii_control() {
        line.push(byte)?;
        return Ok(());
    }
    match write!(line, "{}", byte.escape_ascii()) {
        Ok(()) => Ok(()),
        Err(_) => Err(AllocError),
    }
}
