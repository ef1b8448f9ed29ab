//! Runs of scripts over an engine, new or restarted, line by line; the showing of a store; the
//! command line; and the end of the program.
#![tactic(auto)]

mod command;
mod desk;
mod drain;
mod exit;
mod found_lines;
mod inquiries;
mod new_run;
mod restarted_run;
mod show;
mod spare;

pub use crate::command::{Command, CommandError, command_of};
pub use crate::exit::{Failure, end_program};
pub use crate::inquiries::{census_line, pending_line, state_line};
pub use crate::new_run::{Ran, RunError, run_script};
pub use crate::restarted_run::{FindError, RestartError, Restarted, find_blanks, restart_script};
pub use crate::show::{ShowError, show_store};
pub use crate::spare::{Spare, look_at_spare};
pub use charmlet_engine::Wanted;
pub use charmlet_script_output::{ExitReason, RestartedLine, handlers_of, write_line};
