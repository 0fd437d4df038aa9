//! Clashes: two names of one file. A source that is a sink would be read for ever, and two sinks that are one file would
//! write over one another.
use crate::doors::Doors;
use crate::plan::{Plan, STANDARD};
use crate::report::NameText;
use std::alloc::{AllocError, Global};
use std::fmt;
use std::fs::Metadata;
use std::os::unix::fs::{FileTypeExt, MetadataExt};

/// Two names of one file.
#[derive(Clone, Copy)]
pub struct Clash<'a> {
    first: &'a [u8],
    second: &'a [u8],
}

impl fmt::Display for Clash<'_> {
    fn fmt<W: fmt::Write>(&self, f: &mut fmt::Formatter<W>) -> fmt::Result {
        let first = NameText(self.first);
        let second = NameText(self.second);
        write!(f, "{first} and {second} are the same file")
    }
}

/// What tells a file from others: its device and number, or those of its folder and its name there, if it isn't there yet.
#[derive(Drop, PartialEq, Eq)]
struct Identity {
    device: u64,
    number: u64,
    name: Vec<u8>,
}

/// A name, and what tells its file from others; `None` of what many may write to, as a terminal.
#[derive(Drop)]
struct Named<'a> {
    path: &'a [u8],
    identity: Option<Identity>,
}

/// Two names of one file, if the plan has such.
pub fn find_clash<'a, R: Doors>(
    rt: &R,
    alloc: Global,
    plan: &'a Plan,
) -> Result<Option<Clash<'a>>, AllocError> {
    let mut seen: Vec<Named<'a>> = Vec::new(alloc);
    for path in plan.sources.iter() {
        let named = name(rt, alloc, path.as_slice(), b"/proc/self/fd/0")?;
        if let Some(first) = find(seen.as_slice(), &named) {
            return Ok(Some(Clash {
                first,
                second: path.as_slice(),
            }));
        }
        seen.push(named)?;
    }
    for sink in plan.sinks.iter() {
        let named = name(rt, alloc, sink.path.as_slice(), b"/proc/self/fd/1")?;
        if let Some(first) = find(seen.as_slice(), &named) {
            return Ok(Some(Clash {
                first,
                second: sink.path.as_slice(),
            }));
        }
        seen.push(named)?;
    }
    Ok(None)
}

/// The name among these of the same file.
fn find<'a>(seen: &[Named<'a>], named: &Named<'a>) -> Option<&'a [u8]> {
    let identity = named.identity.as_ref()?;
    for other in seen {
        if let Some(known) = other.identity.as_ref() {
            if known == identity {
                return Some(other.path);
            }
        }
    }
    None
}

/// Looks at the file with this name. `standard` names the stream that the word for it stands for.
fn name<'a, R: Doors>(
    rt: &R,
    alloc: Global,
    path: &'a [u8],
    standard: &[u8],
) -> Result<Named<'a>, AllocError> {
    let found = rt.look(if path == STANDARD { standard } else { path });
    let identity = match found {
        Ok(found) if is_shared(&found) => None,
        Ok(found) => Some(Identity {
            device: found.dev(),
            number: found.ino(),
            name: Vec::new(alloc),
        }),
        Err(_) => Some(missing(rt, alloc, path)?),
    };
    Ok(Named { path, identity })
}

/// Whether it is usual that many write to this file, and read it, at once.
fn is_shared(found: &Metadata) -> bool {
    let kind = found.file_type();
    kind.is_char_device() || kind.is_socket()
}

/// What tells a file that isn't there from others.
fn missing<R: Doors>(rt: &R, alloc: Global, path: &[u8]) -> Result<Identity, AllocError> {
    let place = path.iter().rposition(|byte| *byte == b'/');
    let (folder, name) = match place {
        Some(place) => (&path[..place + 1], &path[place + 1..]),
        None => (b"./".as_slice(), path),
    };
    match rt.look(folder) {
        Ok(found) => Ok(Identity {
            device: found.dev(),
            number: found.ino(),
            name: Vec::from_slice(alloc, name)?,
        }),
        Err(_) => Ok(Identity {
            device: 0,
            number: 0,
            name: Vec::from_slice(alloc, path)?,
        }),
    }
}
