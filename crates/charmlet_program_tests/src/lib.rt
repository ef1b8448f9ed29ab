//! Tests of the program and of its laboratory. They are a separate crate, since a crate with tests
//! is proved twice.
#![tactic(auto)]

#[cfg(test)]
mod tests;
