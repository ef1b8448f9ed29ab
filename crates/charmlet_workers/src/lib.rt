//! A runtime with threads: its shelves and its hub, each under a lock of its own. Locks are taken
//! in this order: those of the shelves by rising number, then the hub's. While an object runs and
//! while a worker is at its gate the hub is free.
#![tactic(auto)]

mod checkpoint;
mod closed;
mod gate;
mod looks;
mod moves;
mod pause;
mod requests;
mod runtime;
mod runtime_room;
mod work;

pub use crate::closed::NotClosed;
pub use crate::gate::{Gate, MOST_ASKS, OpenGate};
pub use crate::pause::{NoPause, Pause};
pub use crate::runtime::Runtime;
pub use crate::runtime_room::{NotOpened, RuntimeRoom, UnnamedAuthorities};
pub use crate::work::{IDLE_TURNS, Worked, WorkerSlot, work_all};
