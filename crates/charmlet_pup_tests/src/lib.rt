//! Tests with structs of the user's own, each with a pup routine and its proof, and their packed
//! forms. The gate proves these tests, since they show what such a proof takes.
#![tactic(auto)]

#[cfg(test)]
mod tests;
