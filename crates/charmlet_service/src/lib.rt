//! Clients that are served in threads over a runtime, which is made for them, or restored from a
//! disk, and is taken apart after them. The runtime's name, authorities and passes stay inside, so
//! a program that uses this crate has no proof of its own.
#![tactic(auto)]

mod client;
mod run;
mod threads;

pub use crate::client::{Ask, Client};
pub use crate::run::{Ran, serve_new, serve_restarted};
pub use crate::threads::Served;
// The other names that a program with served clients uses, so that it depends on this crate alone.
pub use charmlet_engine::{
    Account, Answer, CONSTRUCT, Chare, Counter, DeviceFault, Disk, Elem, FileDisk, Found, Handler,
    Handlers, Kind, Look, Manifest, MemDisk, MsgId, Outbox, PupFault, Refusal, Refused, Request,
    Ring, Standing, Stock, Sum, Tape, Told, Tree, Wanted, Words, manifest, stock_from_objects,
};
pub use charmlet_runtime::{NotRestarted, Reopened};
