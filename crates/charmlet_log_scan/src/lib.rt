//! The log scan of a parallel restart: one scan over a log, which runs no entry method, keeps the
//! world without its objects, and finds the tasks for the replayers.
#![tactic(auto)]

mod partition;
mod routing;
mod world;

pub use crate::partition::Task;
pub use crate::partition::laws::{
    catch_up_by_workers, events_by_workers, lack_is_fault, places_fall, scan_knows_ids,
};
pub use crate::routing::task_of_record;
pub use crate::world::ReplayWorld;
