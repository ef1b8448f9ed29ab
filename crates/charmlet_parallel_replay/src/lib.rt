//! Parallel replay: several replayers restore a half, in as many threads as can be started, and the
//! result is the store that a replay by one gives.
#![tactic(auto)]

mod half;
mod image;
mod log;
mod repeated;

pub use crate::log::ReplayError;
pub use crate::repeated::{NotRepeated, replay_by};
