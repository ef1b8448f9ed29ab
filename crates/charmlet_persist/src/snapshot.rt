//! Checkpoints: the image of the present world of a history and its shelves, which replaces a
//! store.

mod clients;
mod image;
mod pending;
mod records;
mod whole_checkpoint;

pub use crate::snapshot::clients::append_clients;
pub use crate::snapshot::image::{append_arrays, count_of, fill_header, image_of};
pub use crate::snapshot::pending::append_pending;
pub use crate::snapshot::whole_checkpoint::checkpoint;
