//! The pending messages of an image.

ghost use Rattle.std.specs.Prelude.{◌≡◌, ◌++◌, All, OnOk, length};
ghost use Rattle.charmlet_model.specs.Spelling.{spell_list, spell_message};
ghost use Rattle.charmlet_record.specs.Limits.{AreFewWords};
ghost use Rattle.charmlet_model.specs.declared.message.Message as messages;
ghost use Rattle.charmlet_world.specs.Waiting.{message_of};

use charmlet_model::MsgId;
use charmlet_record::{append_message, write_u32};
use charmlet_world::{Messages, PendingMessage};
use std::alloc::{AllocError, Global};

/// Appends the number of messages, and each message. It fails only when out of memory.
pub fn append_pending(
    alloc: Global,
    out: &mut Vec<u8>,
    count: u32,
    pending: Messages<'_>,
) -> Result<(), AllocError>
    requires count { count ≡ length pending }
    requires short { All (λ (m : messages.Message). AreFewWords m.words) pending }
    ensures { OnOk result (out.new.items
        ≡ out.old.items ++ spell_list spell_message pending.entry) }
{
    out.reserve(4)?;
    write_u32(out, count);
    for (id, pending_message) in pending {
        append_pending_message(alloc, out, id, pending_message)?;
    }
    Ok(())
}

/// Appends the message of this id. It fails only when out of memory.
fn append_pending_message(
    alloc: Global,
    out: &mut Vec<u8>,
    id: MsgId,
    pending_message: &PendingMessage,
) -> Result<(), AllocError>
    requires { AreFewWords pending_message.now.words }
    ensures { OnOk result (out.new.items
        ≡ out.old.items ++ spell_message (message_of id pending_message.now)) }
{
    let message = pending_message.copy(alloc, id)?;
    append_message(out, &message)
}
