//! Tests of runtimes with threads, and of restarts by several workers. They are a separate crate,
//! since a crate with tests is proved twice.
#![tactic(auto)]

#[cfg(test)]
mod tests;
