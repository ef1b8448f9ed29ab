//! Halves, two gated files of a store: each has an image, and after it the batches of events that
//! have become durable since.
#![tactic(auto)]

mod half_bytes;
mod halves;
mod new_store;
mod opened;
mod preparation;
mod surveyed;
mod taken;
mod writes;

pub use crate::halves::Halves;
pub use crate::new_store::test_closed;
pub use crate::opened::{Opened, Refused};
pub use crate::surveyed::{Contents, Surveyed, survey};
pub use charmlet_disk::sync_both;
