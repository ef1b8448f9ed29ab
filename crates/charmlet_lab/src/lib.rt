//! A laboratory of crashes: it stops a script's runs at each write and sync, crashes the disk,
//! restarts from it, and judges whether the restarted store has a world of its run.
#![tactic(auto)]

mod disks;
mod line;
mod round;
mod same;
mod supplier;
mod trial;
mod trials;
mod verdict;
mod wanted;

pub use crate::disks::LabDisk;
pub use crate::line::LabLine;
pub use crate::round::{Round, lab_round};
pub use crate::supplier::Supplier;
pub use crate::trial::lab_outcome;
pub use crate::trials::{Watch, try_crashes};
pub use crate::verdict::lab_bad;
