//! Histories: the events of a store, and what clients are told of them.
#![tactic(auto)]

mod assigned;
mod delivery;
mod events;
mod flush;
mod history;
mod look;
mod moves;
mod next;
mod opening;
mod request;
mod wanted_blanks;
mod world;

pub use crate::delivery::RefusedCommit;
pub use crate::history::History;
pub use crate::opening::Opening;
pub use crate::request::Request;
pub use crate::world::{GhostWorld, HasWorld, WorldParts};
pub use charmlet_world::Element;
