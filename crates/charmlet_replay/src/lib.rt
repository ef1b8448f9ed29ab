//! Replay of a half: its contents become objects on shelves again, by their own entry methods.
#![tactic(auto)]

mod beginning;
mod comparison;
mod events;
mod log;
mod not_replayed;
mod opened_store;
mod pending;
mod reclaimed;
mod replayed;
mod waiting;

pub use crate::beginning::begin;
pub use crate::not_replayed::{NotReplayed, take_back};
pub use crate::opened_store::open_store;
pub use crate::reclaimed::clear_shelf;
pub use crate::replayed::{Replayed, replay};
pub use crate::waiting::{Waiting, waiting_of};
pub use charmlet_shard::RestoredShard;
