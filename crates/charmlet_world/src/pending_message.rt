//! Pending messages without their ids.

ghost use Rattle.std.specs.Prelude.{◌≡◌, IfOk};
ghost use Rattle.charmlet_world.specs.Waiting.{message_of};

use charmlet_model::{Elem, Message, MsgId, Words};
use std::alloc::{AllocError, Global};

/// A message without its id.
#[derive(Debug, Drop)]
pub struct PendingMessage {
    pub to: Elem,
    pub entry: u16,
    pub words: Words,
}

impl PendingMessage {
    /// Turns it into the message of this id.
    pub fn into_message(self, id: MsgId) -> Message
        ensures { result ≡ message_of id self }
    {
        let PendingMessage { to, entry, words } = self;
        Message {
            id,
            to,
            entry,
            words,
        }
    }

    /// A copy, as the message of this id. It fails only when out of memory.
    pub fn copy(&self, alloc: Global, id: MsgId) -> Result<Message, AllocError>
        ensures { IfOk result (λ message. message ≡ message_of id self.now) }
    {
        let words = Words::from_slice(alloc, self.words.as_slice())?;
        Ok(Message {
            id,
            to: self.to,
            entry: self.entry,
            words,
        })
    }
}
