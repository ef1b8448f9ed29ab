//! Copies of a world's pending messages.

ghost use Rattle.std.specs.Prelude.{◌≡◌, IfOk};

use charmlet_log_scan::ReplayWorld;
use charmlet_model::Message;
use std::alloc::{AllocError, Global};

/// A copy of each pending message, in order of arrival. It fails only when out of memory.
pub(crate) fn pending_of(alloc: Global, world: &ReplayWorld) -> Result<Vec<Message>, AllocError>
    ensures { IfOk result (λ messages. messages.items ≡ world.now.pending) }
{
    let mut pending = Vec::with_capacity(alloc, world.pending_count())?;
    for (id, pending_message) in world.messages() {
        pending.push(pending_message.copy(alloc, id)?)?;
    }
    Ok(pending)
}
