//! Why a run stops before its report is written.
use crate::reader::InputFault;
use commands::OutputFault;
use flow_rules::Refusal;
use thiserror::Error;

/// Why a run stopped. What was written before stays.
#[derive(Debug, Drop, PartialEq, Eq, Error)]
pub enum LinesFault {
    /// The reader failed.
    #[error("read fault")]
    Read,
    /// The input is longer than it may be.
    #[error("the input has more than 16,777,216 bytes")]
    TooLong,
    /// The writer failed, or took no more bytes.
    #[error("write fault")]
    Write,
    /// Nobody reads the report any more.
    #[error("nobody reads")]
    Gone,
    /// The command line, the input or a call of the publisher was refused.
    #[error("{0}")]
    Refused(Refusal),
}

impl From<Refusal> for LinesFault {
    ghost use Rattle.std.specs.Prelude.{◌≡◌};
    ghost use Rattle.lines_demo.specs.declared.threads.fault.LinesFault.TheVariants.{Refused};

    ghost from_gives = { λ refusal result. result ≡ Refused refusal };

    fn from(refusal: Refusal) -> LinesFault {
        LinesFault::Refused(refusal)
    }
}

impl From<InputFault> for LinesFault {
    ghost use Rattle.std.specs.Prelude.{◌≡◌};
    ghost use Rattle.lines_demo.specs.Threads.Run.{fault_of_input};

    ghost from_gives = { λ fault result. result ≡ fault_of_input fault };

    fn from(fault: InputFault) -> LinesFault {
        match fault {
            InputFault::Read => LinesFault::Read,
            InputFault::TooLong => LinesFault::TooLong,
            InputFault::Memory => LinesFault::Refused(Refusal::NoMemory),
        }
    }
}

impl From<OutputFault> for LinesFault {
    ghost use Rattle.std.specs.Prelude.{◌≡◌};
    ghost use Rattle.lines_demo.specs.Threads.Run.{fault_of_output};

    ghost from_gives = { λ fault result. result ≡ fault_of_output fault };

    fn from(fault: OutputFault) -> LinesFault {
        match fault {
            OutputFault::Write => LinesFault::Write,
            OutputFault::Gone => LinesFault::Gone,
            OutputFault::Memory => LinesFault::Refused(Refusal::NoMemory),
        }
    }
}
