//! A recovery by several replayers, each with its own elements: definitions, and their laws.

pub mod laws;
mod task;

pub use crate::partition::task::Task;
