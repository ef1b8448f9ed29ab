//! The hub of a runtime with the log of its calls, which is ghost state: each answer is known to be
//! of one moment of this very store, and each call to make its own step and no other.
#![tactic(auto)]

mod checkpoint;
mod deliveries;
mod moves;
mod names;
mod noted;
mod requests;
mod sightings;
mod story;
mod watched;

pub use crate::names::{
    GhostCall, GhostLog, GhostMoment, LogOf, RuntimeStory, SightingsOf, WatchedName, Watcher,
};
pub use crate::sightings::{Prefix, Sightings};
pub use crate::story::{Next, Story};
pub use crate::watched::Watched;
