//! An index of the pending messages: for each processor the sequence numbers that are ready on it,
//! and those that wait there.

mod chain;
mod index;
mod lists;
mod place;
mod turns;

pub use crate::index::chain::{Call, Chain};
pub use crate::index::index::Index;
pub use crate::index::lists::Lists;
pub use crate::index::place::{QueuePlace, Readiness};
