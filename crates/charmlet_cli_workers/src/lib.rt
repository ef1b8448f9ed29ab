//! Runs of scripts over a runtime with threads, new or restarted. Each line is run to its end
//! before the next one begins. A `drain` line has a worker on each processor, in a thread of its
//! own; all other lines are run by the caller's thread.
#![tactic(auto)]

mod clients;
mod drain;
mod ended;
mod inquiries;
mod lines;
mod new_run;
mod opened;
mod restarted_run;
mod seats;
mod supply;

pub use crate::ended::{RanByWorkers, WorkersError};
pub use crate::new_run::run_workers;
pub use crate::restarted_run::restart_workers;
