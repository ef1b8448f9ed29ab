//! Replayers: the part of a recovery that each of them has, and their joint result.

mod each;
pub mod laws;
mod replayer;
mod stops;
mod tasks;
mod threads;
mod workers;

pub use crate::replayer::replayer::Replayer;
pub use crate::replayer::workers::{catch_up_by_workers, redo_by_workers};
