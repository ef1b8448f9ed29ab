//! The calls that change a disk in memory.

use crate::CrashChoice;
use charmlet_model::Half;

/// A call that changed a disk in memory.
#[derive(Drop, Debug)]
pub enum Call {
    /// The half, the offset and the bytes of a write.
    Write(Half, usize, Vec<u8>),
    /// The half of a sync.
    Sync(Half),
    /// A crash, with what it left.
    Crash(CrashChoice),
}
