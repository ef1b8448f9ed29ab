//! Restored elements of an image and of its catch-up list, as objects on shelves.
#![tactic(auto)]

mod homes;
mod receivers;
mod restored_shard;
mod stopped;

pub use crate::restored_shard::RestoredShard;
pub use crate::stopped::Stopped;
