//! The six kinds of objects: counter, tape, ring, account, sum and tree.
#![tactic(auto)]

mod account;
mod counter;
mod payload;
mod ring;
mod sum;
mod tape;
mod tree;

pub use crate::account::Account;
pub use crate::counter::Counter;
pub use crate::ring::Ring;
pub use crate::sum::Sum;
pub use crate::tape::Tape;
pub use crate::tree::Tree;
