//! Openings of runtimes with threads, over a new store or one that is restored from a disk. Both
//! begin as an engine's store does, and then go on under locks.
#![tactic(auto)]

mod builder;
mod creation;
mod laws;
mod reopened_store;

pub use crate::builder::RuntimeBuilder;
pub use crate::laws::passes_are_runs;
pub use crate::reopened_store::open_reopened;
pub use charmlet_engine::{NotRestarted, Reopened, Wanted, stock_from_objects};
