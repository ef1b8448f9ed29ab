//! Why a replay stopped.

/// Why a replay stopped.
#[derive(Clone, Copy, Debug, PartialEq, Eq)]
pub enum Stopped {
    /// Memory was refused.
    Memory,
    /// The contents of a record are impossible, or aren't what the objects do.
    Fault,
}
