//! The hub, which lies under the lock that orders all steps of a runtime with threads: a sequencer,
//! the tables of workers' seats and of clients' passes, and the fuzzy checkpoint that runs, if
//! there is one.
#![tactic(auto)]

mod checkpoint;
mod closed;
mod deliveries;
mod hints;
mod hub;
mod moves;
mod names;
mod requests;

pub use crate::checkpoint::{Checkpoint, GhostToken, NotSealed};
pub use crate::closed::{Closed, NotClosed};
pub use crate::hub::Hub;
pub use crate::names::{CheckpointsOf, PassesOf, SeatsOf};
