//! Fuzzy checkpoints, which let a store go on: what a checkpoint keeps of the store while it runs,
//! and what it writes at its end.

mod beginning;
mod captured_element;
mod checkpoint;
mod deliveries;
mod encoded;
mod entries;
pub mod laws;
mod shelves;

pub use crate::fuzzy_checkpoint::captured_element::CapturedElement;
pub use crate::fuzzy_checkpoint::checkpoint::FuzzyCheckpoint;
