//! The messages that wait for delivery, by processor, in the order of their sequence numbers.
#![tactic(auto)]

mod index;
mod seq_nos;

pub use crate::index::{Call, Chain, Index, QueuePlace, Readiness};
pub use crate::seq_nos::{SeqNos, Ticks};
