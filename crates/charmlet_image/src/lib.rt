//! The bytes of images and of halves: writers, and readers of headers, images and logs that report
//! the place of the first fault.
#![tactic(auto)]

mod catch_up;
mod clients;
mod entries;
pub mod examples;
mod half;
mod header;
mod image;
pub mod laws;
mod log;
mod manifest;
mod pending;
mod sizes;
mod writers;

pub use crate::entries::Entry;
pub use crate::half::{Beginning, HalfView, OpenHalf, read_half, read_top, reread_half};
pub use crate::header::{HEADER_SIZE, Header, MAX_GENERATION, Mark};
pub use crate::image::ImageView;
pub use crate::log::{KnownLog, LogBatches, LogView};
pub use crate::sizes::{arrays_size, client_size, entry_size};
pub use crate::writers::{new_store, write_arrays, write_client, write_entry, write_header};
