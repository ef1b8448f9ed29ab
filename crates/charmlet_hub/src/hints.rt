//! Tickets for new messages.

ghost use Rattle.std.specs.Prelude.{◌≡◌};

use crate::hub::Hub;
use charmlet_chare::Chare;
use charmlet_disk::Disk;
use charmlet_model::{MsgId, Origin};
use charmlet_sequencer::{RuntimeName, SentBy};

impl<D: Disk, C: Chare, B: RuntimeName> Hub<D, C, B> {
    /// Puts a ticket for a pending message into the queue of the processor that is to deliver it,
    /// if the seat of that processor is out and its queue isn't full. Nothing else changes. It
    /// doesn't wait, and takes no memory.
    pub(crate) fn hint(&mut self, id: MsgId)
        ensures { self.new ≡ self.old }
    {
        let due_on = self.sequencer.history().due_on(id);
        if let Some(processor) = due_on {
            self.seats.hint(processor, id);
        }
    }

    /// Puts a ticket for each of the messages that an element sent.
    pub(crate) fn hint_sent(&mut self, sent: Option<SentBy>)
        ensures { self.new ≡ self.old }
    {
        let Some(SentBy { elem, last, count }) = sent else {
            return;
        };
        let before = last.saturating_sub(count);
        for place in 0..count {
            let number = before.saturating_add(place).saturating_add(1);
            self.hint(MsgId {
                origin: Origin::Element(elem),
                number,
            });
        }
    }
}
