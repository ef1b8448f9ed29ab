//! Additions of a delivery's sends to the pending messages.

ghost use Rattle.std.specs.Prelude.{◌≡◌, ◌+◌, ◌≤◌, ◌++◌, length};
ghost use Rattle.charmlet_model.specs.Fit.{AreDistinct};
ghost use Rattle.charmlet_model.specs.Reaction.{greatest};
ghost use Rattle.charmlet_model.specs.World.{numbered};

use crate::scheduler::Scheduler;
use charmlet_model::{Elem, Message, MsgId, Origin, Outgoing};

/// Adds the sends of an element, which had sent `sent` messages before. It takes no memory.
pub(crate) fn push_sends(scheduler: &mut Scheduler, from: Elem, sent: u64, sends: Vec<Outgoing>)
    requires counts { sent + length sends.items ≤ greatest }
    requires room { length sends.items ≤ scheduler.old.room }
    requires distinct { AreDistinct (scheduler.old.pending ++ numbered from sent sends.items) }
    ensures processors { scheduler.new.processors ≡ scheduler.old.processors }
    ensures rows { scheduler.new.rows ≡ scheduler.old.rows }
    ensures pending { scheduler.new.pending
        ≡ scheduler.old.pending ++ numbered from sent sends.items }
    ensures room { scheduler.old.room ≤ scheduler.new.room + length sends.items }
{
    let mut number = sent;
    for send in sends {
        number += 1;
        let Outgoing { to, entry, words } = send;
        let origin = Origin::Element(from);
        let id = MsgId { origin, number };
        scheduler.push(Message {
            id,
            to,
            entry,
            words,
        });
    }
}
