//! The sequencer, which orders the steps of a runtime with threads, and a shelf for each processor.
//! Shelf and sequencer lie under different locks, and are known to agree without a comparison: the
//! sequencer has a ghost authority of the shelves, and each shelf has its fragment.
#![tactic(auto)]

mod checkpoint;
mod moves;
mod names;
mod opened;
mod part;
mod processor_state;
mod requests;
mod sequencer;
mod store_on_disk;

pub use crate::names::RuntimeName;
pub use crate::opened::{Opened, open_store};
pub use crate::part::GhostPart;
pub use crate::processor_state::{ProcessorState, SentBy};
pub use crate::sequencer::Sequencer;
pub use crate::store_on_disk::StoreOnDisk;
