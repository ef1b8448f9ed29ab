//! Restarts from two halves: reads that find the taken half and how many blank objects a restart
//! needs, and stores that are restored from it.
#![tactic(auto)]

mod blanks;
mod catch_up;
mod entries;
mod found;
mod half;
mod half_replay;
mod lack;
mod logged;
mod readable;
mod restarted;
mod settled;
mod wanted;

pub use crate::blanks::stock_from_objects;
pub use crate::found::{Found, manifest};
pub use crate::lack::lacking;
pub use crate::readable::replayable_half;
pub use crate::restarted::{NotRestarted, Recovered, restart, restart_by};
pub use crate::wanted::Wanted;
