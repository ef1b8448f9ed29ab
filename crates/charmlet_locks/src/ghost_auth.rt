//! Ghost values that lie under different locks, and are known to be equal without a comparison.
//!
//! An authority has a list of values, and each of its fragments has one of them. The holder of the
//! authority and a fragment at once knows that the fragment's value is the authority's, and may
//! change both. Nobody can change one of them alone. The values stand in contracts alone, and have
//! no bytes at run time: a change takes at most three steps on one atomic word, and waits for
//! nobody.

mod authority;
mod rule;

pub use crate::ghost_auth::authority::{Authority, Fragment, UnnamedAuthority};
pub use crate::ghost_auth::rule::{AuthorityName, GhostValue};
