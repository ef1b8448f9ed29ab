//! The store that several replayers restored from a half, and its upgrade to the newest versions of
//! its kinds.

mod built;
mod history;
pub mod laws;
mod upgrade;

pub use crate::store::built::{NotBuilt, build_store};
pub use crate::store::upgrade::upgrade_store;
