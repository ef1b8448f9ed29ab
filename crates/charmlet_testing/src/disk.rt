//! A disk in memory that fails and forgets as told.

mod probe_disk;

pub use crate::disk::probe_disk::{ProbeDisk, Switches};
