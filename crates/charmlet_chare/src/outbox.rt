use crate::output::Output;
use charmlet_model::{Elem, MAX_SENDS, MAX_WORDS, Outgoing, Sends, Words};
use std::alloc::{AllocError, Global};
use std::marker::Model;

/// The place for an entry's sends and its reply. A contract sees the `Output`.
#[derive(Drop)]
pub struct Outbox {
    alloc: Global,
    sends: Vec<Outgoing>,
    reply: Words,
    is_destroyed: bool,
}

impl Model for Outbox {
    ghost use Rattle.charmlet_chare.specs.declared.output.Output.{Output};

    ghost Value = { Output };

    ghost view = { λ outbox. record {
      sends = outbox.sends.items;
      reply = outbox.reply;
      is_destroyed = outbox.is_destroyed;
    } };
}

impl Outbox {
    ghost use Rattle.std.specs.Prelude.{true, ◌≡◌, ◌≤◌, ◌<◌, length, OnOk, OnErr};
    ghost use Rattle.charmlet_chare.specs.Output.{empty_output, with_reply, with_send};

    /// An outbox with no message and no reply. It takes no memory.
    pub fn new(alloc: Global) -> Self
        ensures { result ≡ empty_output }
    {
        Outbox {
            alloc,
            sends: Vec::new(alloc),
            reply: Words::new(Vec::new(alloc)),
            is_destroyed: false,
        }
    }

    /// Sends a message to an element, after the earlier ones. An entry sends at most `MAX_SENDS`
    /// messages, each of at most `MAX_WORDS` words. It fails only when out of memory, and the
    /// outbox is then unchanged.
    pub fn send(&mut self, to: Elem, entry: u16, words: &[u64]) -> Result<(), AllocError>
        requires room { length self.old.sends < MAX_SENDS }
        requires short { length words.now ≤ MAX_WORDS }
        ensures ok { OnOk result (self.new ≡ with_send self.old to entry words.now) }
        ensures err { OnErr result (self.new ≡ self.old) }
    {
        let words = Words::from_slice(self.alloc, words)?;
        self.sends.push(Outgoing { to, entry, words })?;
        Ok(())
    }

    /// Sets the reply, at most `MAX_WORDS` words, which replaces an earlier one. It fails only when
    /// out of memory, and the outbox is then unchanged.
    pub fn reply(&mut self, words: &[u64]) -> Result<(), AllocError>
        requires { length words.now ≤ MAX_WORDS }
        ensures ok { OnOk result (self.new ≡ with_reply self.old words.now) }
        ensures err { OnErr result (self.new ≡ self.old) }
    {
        self.reply = Words::from_slice(self.alloc, words)?;
        Ok(())
    }

    /// Marks the object for destruction at the end of its entry.
    pub fn destroy(&mut self)
        ensures { self.new ≡ record self.old { is_destroyed = true } }
    {
        self.is_destroyed = true;
    }

    /// The messages that were sent, in order.
    pub fn sends(&self) -> &[Outgoing]
        ensures { result.now ≡ self.now.sends }
    {
        self.sends.as_slice()
    }

    /// The words of the reply, which are none if there is no reply.
    pub fn reply_words(&self) -> &[u64]
        ensures { result.now ≡ self.now.reply }
    {
        self.reply.as_slice()
    }

    /// Whether the object is destroyed once its entry ends.
    pub fn is_destroyed(&self) -> bool
        ensures { result ≡ self.now.is_destroyed }
    {
        self.is_destroyed
    }

    /// Turns the outbox into the output of the entry. It takes no memory.
    pub fn into_output(self) -> Output
        ensures { result ≡ self }
    {
        let Outbox {
            alloc: _,
            sends,
            reply,
            is_destroyed,
        } = self;
        Output {
            sends: Sends::new(sends),
            reply,
            is_destroyed,
        }
    }
}
