//! Table entries of messages, which also stay after the message is taken.

use crate::pending_message::PendingMessage;

/// A table's entry for the id of a message: its sequence number, the index at which its receiver
/// was counted, and, until it is taken, the message without its id.
#[derive(Debug, Drop)]
pub struct Envelope {
    pub(crate) seq: u64,
    /// The index at which the search for the receiver begins.
    pub(crate) receiver: usize,
    pub(crate) pending_message: Option<PendingMessage>,
}
