//! New stores, flushes and checkpoints: a history over two halves of a disk.

mod created;
mod flushed;
mod sealed;

pub use crate::writes::created::{Created, create};
pub use crate::writes::flushed::flush;
pub use crate::writes::sealed::seal;
