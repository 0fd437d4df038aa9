//! Notices: what is said on standard error, a line at once, and the report.
use crate::doors::Doors;
use crate::fault::EndFault;
use crate::pen::{Outlet, Pen};
use crate::report::NameText;
use crate::site::Site;
use std::io::Write;
use std::sync::Wait;
use std::time::Clock;
use std::{fmt, io};

/// Writes a text on standard error, in one write if it can be.
pub fn say<R: Doors + Clock + Wait>(rt: &R, limit: Option<u64>, text: &str) -> io::Result<()> {
    Pen::new(rt, Outlet::Errors(rt.errors()), limit, false).write_all(text.as_bytes())
}

/// Says why a source or a sink has failed, whatever the report is. One that was stopped since no sink is left has not
/// failed.
pub fn say_fault<R: Doors + Clock + Wait>(rt: &R, site: &Site, path: &[u8], fault: EndFault) {
    if fault != EndFault::Stopped {
        say_of(rt, site, path, Reason(fault));
    }
}

/// Says that a sink was given up.
pub fn say_given_up<R: Doors + Clock + Wait>(rt: &R, site: &Site, path: &[u8]) {
    say_of(rt, site, path, "given up");
}

/// Says something of a source or a sink. If memory for the line is refused, it is written without.
fn say_of<R: Doors + Clock + Wait, D: fmt::Display + Drop>(
    rt: &R,
    site: &Site,
    path: &[u8],
    what: D,
) {
    let name = NameText(path);
    let _ = match format!(in site.alloc; "fanout: {name}: {what}\n") {
        Ok(line) => say(rt, site.limit, line.as_str()),
        Err(_) => rt.errors().eprintln(format_args!("fanout: {name}: {what}")),
    };
}

/// A fault, without what was done when it came.
#[derive(Clone, Copy)]
struct Reason(EndFault);

impl fmt::Display for Reason {
    fn fmt<W: fmt::Write>(&self, f: &mut fmt::Formatter<W>) -> fmt::Result {
        match self.0 {
            EndFault::Open(cause) | EndFault::Read(cause) | EndFault::Write(cause) => {
                write!(f, "{cause}")
            }
            fault => write!(f, "{fault}"),
        }
    }
}
