//! Changes that events make to the clients' rows.

ghost use Rattle.std.specs.Prelude.{◌≡◌, OnOk, OnErr};
ghost use Rattle.charmlet_model.specs.Row.{with_request};
ghost use Rattle.charmlet_world.specs.Changed.{IsAwaited, flushed_row, with_answer, with_row};
ghost use Rattle.charmlet_world.specs.Seen.{client_at};

use crate::client::Client;
use charmlet_model::{MsgId, Origin, Words};
use std::alloc::AllocError;
use std::collections::BTreeMap;

/// Records the client's next request. When out of memory, nothing changes.
pub(crate) fn note_request(
    clients: &mut BTreeMap<u32, Client>,
    client: u32,
    number: u64,
) -> Result<(), AllocError>
    ensures ok { OnOk result (clients.new.entries
        ≡ with_row clients.old.entries client
        (with_request (client_at clients.old.entries client).present number)) }
    ensures err { OnErr result (clients.new.entries ≡ clients.old.entries) }
{
    if let Some(row) = clients.get_mut(&client) {
        row.accept(number);
        return Ok(());
    }
    let mut row = Client::new();
    row.accept(number);
    clients.insert(client, row)?;
    Ok(())
}

/// Keeps the reply with the client that asked, if one did. It takes no memory.
pub(crate) fn keep_reply(clients: &mut BTreeMap<u32, Client>, id: MsgId, reply: Words)
    requires { IsAwaited clients.old.entries id.origin id.number }
    ensures { clients.new.entries ≡ with_answer clients.old.entries id.origin id.number reply }
{
    let Origin::Client(client) = id.origin else {
        return;
    };
    let Some(row) = clients.get_mut(&client) else {
        unreachable!()
    };
    row.answer(id.number, reply);
}

/// Makes the client's row durable. It takes no memory.
pub(crate) fn flush_row(clients: &mut BTreeMap<u32, Client>, client: u32)
    ensures { clients.new.entries ≡ flushed_row clients.old.entries client }
{
    if let Some(row) = clients.get_mut(&client) {
        row.flush();
    }
}
