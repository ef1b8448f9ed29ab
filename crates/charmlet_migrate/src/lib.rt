//! Moves of elements between processors.
#![tactic(auto)]

mod among;
mod copies;
mod moves;

pub use crate::among::move_among;
pub use crate::copies::{become_copy, place_copy};
pub use crate::moves::move_between;
pub use charmlet_delivery::{assign_newcomer, deliver_on, release_shelf, settle_shelf};
