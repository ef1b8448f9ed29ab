//! The delivery of a message on one processor: what it does to a history, one shelf and the stock.
#![tactic(auto)]

mod delivery;
mod parts;
mod shelf_steps;

pub use crate::delivery::deliver_on;
pub use crate::parts::{assign, commit, finish, release};
pub use crate::shelf_steps::{assign_newcomer, release_shelf, settle_shelf};
pub use charmlet_history::History;
