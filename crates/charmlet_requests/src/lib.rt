//! Clients' passes, which are never told less than before, and names of handlers.
#![tactic(auto)]

mod asked;
mod calls;
mod handlers;
mod knowledge;
mod laws;
mod pass;
mod passes;

pub use crate::asked::{request, status};
pub use crate::calls::{call, target};
pub use crate::handlers::{Handler, Handlers};
pub use crate::laws::{accepts_are_numbered, told_rises};
pub use crate::pass::ClientPass;
pub use crate::passes::Passes;
pub use charmlet_history::Request;
