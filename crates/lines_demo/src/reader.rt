//! Reading: all bytes of a reader.
ghost use Rattle.std.specs.Prelude.{◌≡◌, ◌≤◌, length, IfOk, IfSome};

use std::alloc::Global;
use std::io::{ErrorKind, Read};

/// The most bytes of an input.
pub const LONGEST_INPUT: usize = 16_777_216;

/// Why the bytes of a reader were not read.
#[derive(Clone, Copy, Debug, PartialEq, Eq)]
pub enum InputFault {
    /// The reader failed.
    Read,
    /// It has more bytes than an input may have.
    TooLong,
    /// Memory was refused.
    Memory,
}

/// Reads all bytes.
pub fn read_whole<R: Read>(alloc: Global, reader: &mut R) -> Result<Vec<u8>, InputFault>
    ensures known { IfOk result
        (λ bytes. IfSome (R.remaining reader.old) (λ known. known ≡ bytes.items)) }
    ensures bounded { IfOk result (λ bytes. length bytes.items ≤ LONGEST_INPUT) }
{
    let mut bytes = Vec::new(alloc);
    match reader
        .take(LONGEST_INPUT as u64 + 1)
        .read_to_end(&mut bytes)
    {
        Ok(_) => {}
        Err(error) => {
            return Err(match error.kind() {
                ErrorKind::OutOfMemory => InputFault::Memory,
                _ => InputFault::Read,
            });
        }
    }
    if bytes.len() > LONGEST_INPUT {
        return Err(InputFault::TooLong);
    }
    Ok(bytes)
}
