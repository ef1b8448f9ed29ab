//! Numbered locks, each over a value that is known to have the number of its place; and ghost
//! authorities, whose fragments under different locks are known to agree without a comparison.
#![tactic(auto)]

mod ghost_auth;
mod grip;
mod locks;
mod room;
mod rule;

pub use crate::ghost_auth::{Authority, AuthorityName, Fragment, GhostValue, UnnamedAuthority};
pub use crate::grip::{Grip, Held};
pub use crate::locks::Locks;
pub use crate::room::LockRoom;
pub use crate::rule::Numbering;
