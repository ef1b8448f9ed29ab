//! The language of Charmlet's scripts: the lines that a text spells, the readers of scripts, the
//! printed forms of lines that aren't steps, and the reasons why a line is malformed.
//! `docs/SCRIPT.md` has the grammar.
#![tactic(auto)]

mod draft;
mod error;
mod id;
mod line;
mod name;
mod number;
mod printed;
mod reading;
mod reasons;
mod restart;
mod runner;
mod script;
mod split;

pub use crate::reasons::{Purpose, Setting, explain, nearest, well_formed};
pub use error::ReadError;
pub use name::Name;
pub use number::{MAX_BLANKS, MAX_DELIVERIES};
pub use printed::{Counted, Drained, PendingIds, Shown, Standing, Supplied};
pub use reading::{MAX_LENGTH, ScriptText, read_restart_script, read_script};
pub use restart::RestartScript;
pub use runner::Runner;
pub use script::{ArrayLine, HandlerLine, Line, Script};
