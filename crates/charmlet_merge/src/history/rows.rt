//! Copies of a world's clients' rows, and clients made of rows.

ghost use Rattle.std.specs.Prelude.{◌≡◌, IfOk};
ghost use Rattle.charmlet_world.specs.Seen.{present_rows};
ghost use Rattle.charmlet_history.specs.Opened.{opened_clients};

use charmlet_log_scan::ReplayWorld;
use charmlet_model::ClientRow;
use charmlet_world::Client;
use std::alloc::{AllocError, Global};
use std::collections::BTreeMap;

/// A copy of each client's row in the present world. It fails only when out of memory.
pub fn rows_of(alloc: Global, world: &ReplayWorld) -> Result<BTreeMap<u32, ClientRow>, AllocError>
    ensures { IfOk result (λ rows. rows.entries ≡ present_rows world.now.clients) }
{
    world.present_rows(alloc)
}

/// Each client with its row in both worlds. The rows are moved. It fails only when out of memory.
pub(crate) fn clients_of(
    alloc: Global,
    rows: BTreeMap<u32, ClientRow>,
) -> Result<BTreeMap<u32, Client>, AllocError>
    ensures { IfOk result (λ clients. clients.entries ≡ opened_clients rows.entries) }
{
    // Its keys rise.
    let _ = rows.len();
    let mut clients = BTreeMap::new(alloc);
    for (client, row) in rows {
        clients.insert(client, Client::of(row))?;
    }
    Ok(clients)
}
