//! The tasks of a replayer.

use charmlet_model::{Effect, Message, Sends};

/// A delivery that a replayer repeats: how many bytes are left from the first byte of its record
/// on, its message, and its written count, effect and sends.
#[derive(Debug, Drop)]
pub struct Task {
    pub bytes_left: usize,
    pub message: Message,
    pub received: u64,
    pub effect: Effect,
    pub sends: Sends,
}
