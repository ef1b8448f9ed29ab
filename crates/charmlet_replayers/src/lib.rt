//! Replayers of a log: each has its own elements, and does the tasks that are dispatched to it.
#![tactic(auto)]

mod dispatch;
mod replayer;
mod replies;
mod shares;

pub use crate::dispatch::{Chunk, Reached, dispatch_chunk, worker_of};
pub use crate::replayer::laws::{
    merged_maps_are_opened, merged_replayers_are_home, records_stay_good,
};
pub use crate::replayer::{Replayer, catch_up_by_workers, redo_by_workers};
pub use crate::replies::fill;
pub use crate::replies::laws::{filled_are_worlds, replies_are_of_events, scan_keeps_others};
pub use crate::shares::laws::shares_add_up;
