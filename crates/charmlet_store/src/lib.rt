//! Stores in memory, on 1 to 64 processors: a history, and the objects that it makes.
#![tactic(auto)]

mod census;
mod dismantled;
mod look;
mod store;
mod upgraded;

pub use crate::census::Census;
pub use crate::dismantled::Dismantled;
pub use crate::look::{Look, Standing};
pub use crate::store::{Store, StoreParts, empty_shelves};
