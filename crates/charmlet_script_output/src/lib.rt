//! The output of scripts' runs, by an engine or by workers: lines and answers, the objects that a
//! script supplies, and why the program stops.
#![tactic(auto)]

mod calls;
mod exit_reason;
mod restarted_line;
mod shown;
mod supplies;
mod writers;

pub use crate::calls::{Call, handlers_of, told_answer};
pub use crate::exit_reason::ExitReason;
pub use crate::restarted_line::{RestartedLine, supplied_at_restart};
pub use crate::shown::{shown_of, write_counts};
pub use crate::supplies::{has_enough, stock_from_supplies, supplied_by};
pub use crate::writers::{write_answer, write_line, write_memory_refused, write_step_answer};
