//! One replayer's part of a recovery.

use crate::replies::Reply;
use charmlet_chare::Chare;
use charmlet_log_scan::Task;
use charmlet_model::CatchUpEntry;
use charmlet_record::{Positioned, ReadError};
use charmlet_shard::RestoredShard;
use std::alloc::Global;

/// A replayer's part of a recovery: its elements, with a shelf for each processor and a stock of
/// its own, the deliveries and tasks that it repeats, and why it stopped.
#[derive(Drop)]
pub struct Replayer<C: Chare> {
    pub alloc: Global,
    pub restored: RestoredShard<C>,
    pub deliveries: Vec<Positioned<CatchUpEntry>>,
    pub tasks: Vec<Task>,
    pub replies: Vec<Reply>,
    pub stopped: Option<ReadError>,
}
