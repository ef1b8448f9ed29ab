//! The queue of pending messages, to which each message is added behind all others.

ghost use Rattle.std.specs.Prelude.{◌≡◌, ◌+◌, ◌≤◌, ◌<◌, [], ◌∷◌, ◌++◌, IfOk, None, OnOk, length};
ghost use Rattle.charmlet_model.specs.Fit.{AreDistinct};
ghost use Rattle.charmlet_model.specs.Reaction.{greatest};
ghost use Rattle.charmlet_model.specs.World.{message_among, numbered};

use charmlet_model::{Elem, Message, MsgId, Origin, Outgoing};
use charmlet_world::Pending;
use std::alloc::{AllocError, Global};

/// Makes room for this many more messages, and makes sure that there is a sequence number for each.
/// If memory is refused, no message changes.
pub(crate) fn make_room(pending: &mut Pending, additional: usize) -> Result<(), AllocError>
    ensures messages { pending.new.messages ≡ pending.old.messages }
    ensures room { OnOk result (additional ≤ pending.new.room) }
    ensures few { OnOk result (pending.new.next + additional ≤ greatest) }
{
    if u64::MAX - pending.next() < additional as u64 {
        return Err(AllocError);
    }
    pending.reserve(additional)
}

/// Adds a message. There has to be room for it. It takes no memory.
pub(crate) fn push(pending: &mut Pending, message: Message)
    requires room { 0 < pending.old.room }
    requires few { pending.old.next + 1 ≤ greatest }
    requires apart { message_among message.id pending.old.messages ≡ None }
    ensures messages { pending.new.messages ≡ pending.old.messages ++ message ∷ [] }
    ensures next { pending.new.next ≡ pending.old.next + 1 }
    ensures room { pending.old.room ≤ pending.new.room + 1 }
{
    let seq = pending.next();
    pending.push(message, seq);
}

/// Adds the sends of an element, which had sent `sent` messages before. It takes no memory.
pub(crate) fn push_sends(pending: &mut Pending, from: Elem, sent: u64, sends: Vec<Outgoing>)
    requires counts { sent + length sends.items ≤ greatest }
    requires room { length sends.items ≤ pending.old.room }
    requires few { pending.old.next + length sends.items ≤ greatest }
    requires distinct { AreDistinct (pending.old.messages ++ numbered from sent sends.items) }
    ensures messages { pending.new.messages
        ≡ pending.old.messages ++ numbered from sent sends.items }
{
    let mut number = sent;
    for send in sends {
        number += 1;
        let Outgoing { to, entry, words } = send;
        let origin = Origin::Element(from);
        let id = MsgId { origin, number };
        push(
            pending,
            Message {
                id,
                to,
                entry,
                words,
            },
        );
    }
}

/// These messages, in order. It fails only when out of memory.
pub(crate) fn queue_of(alloc: Global, messages: Vec<Message>) -> Result<Pending, AllocError>
    requires { AreDistinct messages.items }
    ensures { IfOk result (λ pending. pending.messages ≡ messages.items) }
{
    let mut pending = Pending::new(alloc);
    make_room(&mut pending, messages.len())?;
    for message in messages {
        push(&mut pending, message);
    }
    Ok(pending)
}
