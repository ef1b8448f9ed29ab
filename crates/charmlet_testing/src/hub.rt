//! Lines of probes over a hub, with its locked shelves and one seat for each processor.

mod checkpointing;
mod closing;
mod delivering;
mod hub_machine;
mod places;
mod running;

pub use crate::hub::hub_machine::{Authorities, HubMachine};
