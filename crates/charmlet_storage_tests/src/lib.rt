//! Tests of the model, of disks and files, and of recovery from two files. They are a separate
//! crate, since a crate with tests is proved twice.
#![tactic(auto)]

#[cfg(test)]
mod tests;
