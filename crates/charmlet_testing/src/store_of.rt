//! The store that a line needs.

use crate::store::{Failed, Machine};

/// The store, if there is one.
pub(crate) fn store_of<M: Machine>(store: &mut Option<M>) -> Result<&mut M, Failed> {
    store.as_mut().ok_or(Failed::Lacks("store"))
}
