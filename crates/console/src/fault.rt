//! Why the program stops before its end.
use commands::OutputFault;
use flow_rules::{NoMemory, Refusal};
use std::alloc::AllocError;
use thiserror::Error;

/// Why the program stopped. What was written before stays.
#[derive(Debug, Drop, PartialEq, Eq, Error)]
pub enum ConsoleFault {
    /// Reading has failed: of standard input, or of the clock.
    #[error("read fault")]
    Read,
    /// Writing has failed, or standard output is closed.
    #[error("write fault")]
    Write,
    /// Nobody reads standard output any more.
    #[error("nobody reads")]
    Gone,
    /// Memory was refused where no answer can say so.
    #[error("memory")]
    Memory,
    /// The command line or a call of the publisher was refused.
    #[error("{0}")]
    Refused(Refusal),
}

impl From<OutputFault> for ConsoleFault {
    fn from(fault: OutputFault) -> ConsoleFault {
        match fault {
            OutputFault::Write => ConsoleFault::Write,
            OutputFault::Gone => ConsoleFault::Gone,
            OutputFault::Memory => ConsoleFault::Memory,
        }
    }
}

impl From<Refusal> for ConsoleFault {
    fn from(refusal: Refusal) -> ConsoleFault {
        match refusal {
            Refusal::NoMemory => ConsoleFault::Memory,
            other => ConsoleFault::Refused(other),
        }
    }
}

impl From<AllocError> for ConsoleFault {
    fn from(_refused: AllocError) -> ConsoleFault {
        ConsoleFault::Memory
    }
}

impl From<NoMemory> for ConsoleFault {
    fn from(_refused: NoMemory) -> ConsoleFault {
        ConsoleFault::Memory
    }
}
