//! Why a source or a sink ends early, and why the program does.
use crate::cause::Cause;
use flow_rules::{NoMemory, Refusal};
use std::alloc::{AllocError, AllocFailed};
use thiserror::Error;

/// Why a source or a sink ended before its end.
#[derive(Clone, Copy, Debug, PartialEq, Eq, Drop, Error)]
pub enum EndFault {
    /// The file can't be opened.
    #[error("cannot open: {0}")]
    Open(Cause),
    /// Reading has failed.
    #[error("cannot read: {0}")]
    Read(Cause),
    /// Writing has failed, or nobody reads any more.
    #[error("cannot write: {0}")]
    Write(Cause),
    /// Memory was refused.
    #[error("out of memory")]
    Memory,
    /// No sink was left.
    #[error("no sink was left")]
    Stopped,
}

/// Why the program stopped.
#[derive(Debug, Drop, PartialEq, Eq, Error)]
pub enum FanoutFault {
    /// Memory was refused, or a thread.
    #[error("memory")]
    Memory,
    /// A call of the publisher was refused.
    #[error("{0}")]
    Refused(Refusal),
}

impl From<NoMemory> for EndFault {
    fn from(_refused: NoMemory) -> EndFault {
        EndFault::Memory
    }
}

impl From<AllocError> for EndFault {
    fn from(_refused: AllocError) -> EndFault {
        EndFault::Memory
    }
}

impl From<NoMemory> for FanoutFault {
    fn from(_refused: NoMemory) -> FanoutFault {
        FanoutFault::Memory
    }
}

impl From<AllocError> for FanoutFault {
    fn from(_refused: AllocError) -> FanoutFault {
        FanoutFault::Memory
    }
}

impl<T: Drop> From<AllocFailed<T>> for FanoutFault {
    fn from(_refused: AllocFailed<T>) -> FanoutFault {
        FanoutFault::Memory
    }
}

impl From<Refusal> for FanoutFault {
    fn from(refusal: Refusal) -> FanoutFault {
        match refusal {
            Refusal::NoMemory => FanoutFault::Memory,
            other => FanoutFault::Refused(other),
        }
    }
}
