//! Merge of a parallel restart's results: several replayers, each with its own elements, become one
//! store, or all their objects become blanks again.
#![tactic(auto)]

mod combined;
mod elements;
mod history;
mod reclaim;
mod reopened;
mod rows;
mod shelves;
mod store;

pub use crate::combined::{Combined, merge_replayers};
pub use crate::elements::elements_of;
pub use crate::reclaim::reclaim_objects;
pub use crate::reopened::reopen;
pub use crate::rows::fill_rows;
pub use crate::store::laws::reopened_is_repeated;
pub use crate::store::{NotBuilt, build_store, upgrade_store};
pub use charmlet_replayers::Replayer;
