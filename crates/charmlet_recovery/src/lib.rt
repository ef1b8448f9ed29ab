//! Recovery of a store from two files: definitions, and their laws.
#![tactic(auto)]

pub mod examples;
pub mod laws;
