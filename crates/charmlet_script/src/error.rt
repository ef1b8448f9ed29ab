//! Why lines and scripts aren't read.

ghost use Rattle.std.specs.Prelude.{◌≡◌};
ghost use Rattle.charmlet_script.specs.declared.error.LineFault.TheVariants as faults;
ghost use Rattle.charmlet_script.specs.declared.error.ReadError.TheVariants as errors;
ghost use Rattle.charmlet_script.specs.Reading.{IsErrorOf};

use std::alloc::{AllocError, AllocFailed};
use std::io;
use std::io::ErrorKind;
use thiserror::Error;

/// Why a line was not read.
#[derive(Clone, Copy, Debug, PartialEq, Eq)]
pub(crate) enum LineFault {
    /// Memory ran out.
    Memory,
    /// The line spells nothing, or may not stand where it does.
    Malformed,
}

impl From<AllocError> for LineFault {
    ghost from_gives = { λ _ fault. fault ≡ faults.Memory };

    fn from(_error: AllocError) -> LineFault {
        LineFault::Memory
    }
}

impl<T: Drop> From<AllocFailed<T>> for LineFault {
    ghost from_gives = { λ _ fault. fault ≡ faults.Memory };

    fn from(_error: AllocFailed<T>) -> LineFault {
        LineFault::Memory
    }
}

/// Why a script was not read.
#[derive(Debug, Drop, Error)]
pub enum ReadError {
    /// Memory ran out.
    #[error("out of memory")]
    Memory,
    /// A read failed, for a reason other than lack of memory.
    #[error("cannot read script: {0}")]
    Failed(io::Error),
    /// The number of the first malformed line. Lines count from 1.
    #[error("script line {0}")]
    Malformed(u64),
}

impl From<AllocError> for ReadError {
    ghost from_gives = { λ _ error. error ≡ errors.Memory };

    fn from(_error: AllocError) -> ReadError {
        ReadError::Memory
    }
}

impl From<io::Error> for ReadError {
    ghost from_gives = { IsErrorOf };

    fn from(error: io::Error) -> ReadError {
        match error.kind() {
            ErrorKind::OutOfMemory => ReadError::Memory,
            _ => ReadError::Failed(error),
        }
    }
}
