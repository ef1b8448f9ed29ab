//! The engine: a store on the two files of a disk, which survives a crash at any moment.
#![tactic(auto)]

mod closed;
mod constructions;
mod creation;
mod deliveries;
mod engine;
mod laws;
mod looks;
mod memory;
mod reopened;
mod requests;
mod restarted;
mod resumption;
mod steps;

pub use crate::closed::Closed;
pub use crate::deliveries::Deliveries;
pub use crate::engine::Engine;
pub use crate::laws::lives_are_remembered;
pub use crate::reopened::Reopened;
pub use charmlet_recover::{Found, NotRestarted, Wanted, lacking, manifest, stock_from_objects};
// The names that a program with an engine uses, so that it depends on this crate alone.
pub use charmlet_chare::{Chare, Outbox};
pub use charmlet_disk::{DeviceFault, Disk, FileDisk, MemDisk};
pub use charmlet_halves::Refused;
pub use charmlet_kinds::{Account, Counter, Ring, Sum, Tape, Tree};
pub use charmlet_model::{
    Answer, CONSTRUCT, Elem, Kind, Manifest, MsgId, PupFault, Refusal, Step, Told, Words,
};
pub use charmlet_requests::{ClientPass, Handler, Handlers, Passes, Request};
pub use charmlet_stock::Stock;
pub use charmlet_store::{Look, Standing};
