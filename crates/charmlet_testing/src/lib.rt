//! The equipment of tests: a bench, on which a store has a disk that fails as told, and objects
//! that count their calls.
#![tactic(auto)]

mod bench;
mod clients;
mod disk;
mod files;
mod hub;
mod hubs;
mod lives;
mod objects;
mod running;
mod saying;
mod showing;
mod shows;
mod store;
mod store_of;

pub use crate::bench::Bench;
pub use crate::clients::{give, lend, pass};
pub use crate::disk::{ProbeDisk, Switches};
pub use crate::files::open_script;
pub use crate::hub::{Authorities, HubMachine};
pub use crate::hubs::{checkpoint, held, lend_seat, turn};
pub use crate::objects::{Object, Tally, blanks};
pub use crate::saying::say;
pub use crate::shows::{image, look, next};
pub use crate::store::{
    Blanks, EngineMachine, Failed, Machine, ProbeStore, Running, Turn, Without, wanted_objects,
};
pub use charmlet_cli::{ExitReason, Failure, end_program};
