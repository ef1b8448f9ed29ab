//! What two files recover to, as a program that is as plain as possible. It is proved equal to the
//! definition for all bytes of the files. Tests use it as an oracle for the faster code.

mod catching_up;
mod events;
mod parts;
mod pending;
mod recovered;
mod replayed;

pub use crate::recovery::recovered::{Recovered, recover, recover_as_written};
pub use crate::recovery::replayed::{Meaning, Place, replay};
