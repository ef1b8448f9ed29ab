//! Stores on the probes' disk, with the probes' objects, and the machines on which the lines of
//! probes run.

mod blanks;
mod engine_machine;
mod failed;
mod machine;
mod parts;
mod probe_store;

pub use crate::store::blanks::{Blanks, wanted_objects};
pub use crate::store::engine_machine::EngineMachine;
pub use crate::store::failed::Failed;
pub use crate::store::machine::{Call, Counts, Ended, Machine, PassCounts, Running, Turn, Without};
pub use crate::store::parts::Parts;
pub use crate::store::probe_store::{NotBack, ProbeStore};
