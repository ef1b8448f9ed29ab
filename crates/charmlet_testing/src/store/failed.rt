//! Why a line does nothing.

use charmlet_disk::DeviceFault;
use charmlet_model::Refusal;
use charmlet_script::ReadError;
use std::alloc::{AllocError, AllocFailed};
use std::io;

/// Why a line does nothing.
#[derive(Clone, Copy, Debug, PartialEq, Eq)]
pub enum Failed {
    Refused(Refusal),
    /// No store was restarted, but this many blanks came back.
    NotRestarted(Refusal, u64),
    /// The line lacks this.
    Lacks(&'static str),
    /// The line spells nothing.
    Malformed,
}

impl Failed {
    /// The failure of refused memory.
    pub const MEMORY: Failed = Failed::Refused(Refusal::Memory);

    /// Whether memory was refused.
    pub fn is_memory(&self) -> bool {
        matches!(
            self,
            Failed::Refused(Refusal::Memory) | Failed::NotRestarted(Refusal::Memory, _)
        )
    }
}

impl From<Refusal> for Failed {
    fn from(refusal: Refusal) -> Failed {
        Failed::Refused(refusal)
    }
}

impl From<AllocError> for Failed {
    fn from(_error: AllocError) -> Failed {
        Failed::MEMORY
    }
}

impl<T: Drop> From<AllocFailed<T>> for Failed {
    fn from(_error: AllocFailed<T>) -> Failed {
        Failed::MEMORY
    }
}

impl From<DeviceFault> for Failed {
    fn from(fault: DeviceFault) -> Failed {
        Failed::Refused(Refusal::from(fault))
    }
}

/// The output is kept in memory at first.
impl From<io::Error> for Failed {
    fn from(_error: io::Error) -> Failed {
        Failed::MEMORY
    }
}

impl From<ReadError> for Failed {
    fn from(error: ReadError) -> Failed {
        match error {
            ReadError::Memory => Failed::MEMORY,
            _ => Failed::Malformed,
        }
    }
}
