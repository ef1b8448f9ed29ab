//! The pending messages, and the next one to deliver.

ghost use Rattle.std.specs.Prelude.{◌≡◌, ◌+◌, ◌≤◌, length};
ghost use Rattle.charmlet_model.specs.Core.{present};
ghost use Rattle.charmlet_history.specs.Kept.{core_in, is_quiet, next_in, oldest_on_in, processor_for};

use crate::history::History;
use charmlet_model::MsgId;
use charmlet_ready_queue::Ticks;
use charmlet_world::Messages;
use std::sync::ledger::Ledger;

impl History {
    /// How many messages are pending.
    pub fn pending_count(&self) -> usize
        ensures { result ≡ length (present (core_in self.now)).pending }
    {
        self.present.pending_count()
    }

    /// The pending messages, in order of arrival, each with its id. It takes no memory.
    pub fn messages(&self) -> Messages<'_>
        ensures { result ≡ (present (core_in self.now)).pending }
    {
        self.present.messages()
    }

    /// The processor of the oldest pending message that can be delivered, and that message's id, or
    /// `None` if no message can be delivered. The processor is the place of the receiver, or its
    /// home if it isn't there.
    pub fn next(&self) -> Option<(u16, MsgId)>
        ensures { result ≡ next_in (core_in self.now) }
    {
        self.present.next()
    }

    /// Answers as `next`, and counts the looks: at most one for each processor.
    pub fn next_in<L: Ledger>(&self, ticks: &mut Ticks<L>) -> Option<(u16, MsgId)>
        ensures next { result ≡ next_in (core_in self.now) }
        ensures ticks { ticks.new ≤ ticks.old + (core_in self.now).processors }
    {
        self.present.next_in(ticks)
    }

    /// The oldest pending message on the processor that can be delivered, if there is one. A
    /// message is on its receiver's processor, or on the receiver's home if it isn't there. It
    /// takes at most one look.
    pub fn oldest_on<L: Ledger>(&self, processor: u16, ticks: &mut Ticks<L>) -> Option<MsgId>
        ensures oldest { result ≡ oldest_on_in (core_in self.now) processor }
        ensures ticks { ticks.new ≤ ticks.old + 1 }
    {
        self.present.oldest_on(processor, ticks)
    }

    /// Whether no pending message can be delivered. It takes no memory.
    pub fn quiet(&self) -> bool
        ensures { result ≡ is_quiet (core_in self.now) }
    {
        self.present.quiet()
    }

    /// The processor that is to deliver a pending message: the place of its receiver, or its home
    /// if it isn't there. `None` if no such message is pending.
    pub fn due_on(&self, id: MsgId) -> Option<u16>
        ensures { result ≡ processor_for (core_in self.now) id }
    {
        let pending_message = self.present.find(id)?;
        Some(self.present.place_or_home(pending_message.to))
    }
}
