//! The model's definitions once more, as programs that are as plain as possible and are proved
//! equal to them: the kind table, packed objects, and the world with its events. Tests use them as
//! an oracle for the faster code.
#![tactic(auto)]

mod kind_table;
mod packed;
mod recovery;
mod upgraded;
mod world;

pub use crate::kind_table::react;
pub use crate::packed::{pack_state, read_state, state_at};
pub use crate::recovery::{Meaning, Recovered, recover, recover_as_written, replay};
pub use crate::world::PlainWorld;
