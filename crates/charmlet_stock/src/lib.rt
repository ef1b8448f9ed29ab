//! The stock of blank objects, by kind, and the census of objects: how many were supplied, are in
//! the stock, and were retired.
#![tactic(auto)]

mod absorption;
mod by_kind;
mod pile;
mod stock;

pub use crate::absorption::absorb;
pub use crate::by_kind::ByKind;
pub use crate::pile::Tally;
pub use crate::stock::{Stock, count_of};
