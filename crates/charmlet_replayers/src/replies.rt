//! Replies of deliveries that several replayers repeat: their laws, and rows that are filled with
//! them.

mod filled;
pub mod laws;
mod reply;

pub use crate::replies::filled::fill;
pub use crate::replies::reply::{Reply, reply_of};
