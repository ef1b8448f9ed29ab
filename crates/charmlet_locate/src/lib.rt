//! Where the elements of a store stand: the home of each, and the places after a restart.
#![tactic(auto)]

mod homes;
mod locations;
mod restart;

pub use crate::homes::{MAX_PROCESSORS, home, is_processor_count};
pub use crate::locations::Locations;
pub use crate::restart::restart_map;
