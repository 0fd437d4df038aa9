//! Why a script stops before its end.
use crate::reader::InputFault;
use commands::OutputFault;
use thiserror::Error;

/// Why a script stopped. What was written before stays.
#[derive(Clone, Copy, Debug, PartialEq, Eq, Error)]
pub enum ScriptFault {
    /// The reader failed.
    #[error("read fault")]
    Read,
    /// The script is longer than it may be.
    #[error("the input has more than 16,777,216 bytes")]
    TooLong,
    /// The writer failed, or took no more bytes.
    #[error("write fault")]
    Write,
    /// Nobody reads the answers any more.
    #[error("nobody reads")]
    Gone,
    /// Memory was refused if no answer can say so.
    #[error("memory")]
    Memory,
}

impl From<OutputFault> for ScriptFault {
    ghost use Rattle.std.specs.Prelude.{◌≡◌};
    ghost use Rattle.lines_demo.specs.Script.Fault.{script_fault};

    ghost from_gives = { λ fault result. result ≡ script_fault fault };

    fn from(fault: OutputFault) -> ScriptFault {
        match fault {
            OutputFault::Write => ScriptFault::Write,
            OutputFault::Gone => ScriptFault::Gone,
            OutputFault::Memory => ScriptFault::Memory,
        }
    }
}

impl From<InputFault> for ScriptFault {
    ghost use Rattle.std.specs.Prelude.{◌≡◌};
    ghost use Rattle.lines_demo.specs.Script.Fault.{reading_fault};

    ghost from_gives = { λ fault result. result ≡ reading_fault fault };

    fn from(fault: InputFault) -> ScriptFault {
        match fault {
            InputFault::Read => ScriptFault::Read,
            InputFault::TooLong => ScriptFault::TooLong,
            InputFault::Memory => ScriptFault::Memory,
        }
    }
}
