//! Writes of a store to its disk: creation, flushes, checkpoints, and fuzzy checkpoints, which let
//! the store go on meanwhile.
#![tactic(auto)]

mod fuzzy_checkpoint;
mod snapshot;
mod writes;

pub use crate::fuzzy_checkpoint::FuzzyCheckpoint;
pub use crate::fuzzy_checkpoint::laws::{captured_stays, others_keep_running, shelves_are_taken};
pub use crate::snapshot::{checkpoint, image_of};
pub use crate::writes::{Created, create, flush, seal};
