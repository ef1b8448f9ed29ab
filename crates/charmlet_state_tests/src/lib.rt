//! Tests of objects, of worlds and histories, and of the leases of a runtime with threads. They are
//! a separate crate, since a crate with tests is proved twice.
#![tactic(auto)]

#[cfg(test)]
mod tests;
