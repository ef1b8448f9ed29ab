//! The clients of an image.

ghost use Rattle.std.specs.Prelude.{◌≡◌, ◌≤◌, ◌++◌, All, OnOk, length};
ghost use Rattle.charmlet_model.specs.Spelling.{spell_list};
ghost use Rattle.charmlet_image.specs.declared.header.Mark.TheVariants.{Third};
ghost use Rattle.charmlet_image.specs.Images.{spell_client};
ghost use Rattle.charmlet_world.specs.Seen.{present_rows};
ghost use Rattle.charmlet_persist.specs.Snapshot.Showing.{AreShort};

use charmlet_image::{client_size, write_client};
use charmlet_model::ClientRow;
use charmlet_record::write_u32;
use charmlet_world::Client;
use std::alloc::AllocError;
use std::collections::BTreeMap;

/// Appends the number of clients, and each client with its present row. It fails only when out of
/// memory.
pub fn append_clients(out: &mut Vec<u8>, clients: &BTreeMap<u32, Client>) -> Result<(), AllocError>
    requires few { length clients.now.entries ≤ 1024 }
    requires short { All (λ e. AreShort e.1.present) clients.now.entries }
    ensures { OnOk result (out.new.items ≡ out.old.items
        ++ spell_list (spell_client Third) (present_rows clients.now.entries)) }
{
    out.reserve(4)?;
    write_u32(out, clients.len() as u32);
    for (client, rows) in clients {
        append_client(out, *client, rows.present())?;
    }
    Ok(())
}

/// Appends a client. It fails only when out of memory.
fn append_client(out: &mut Vec<u8>, client: u32, row: &ClientRow) -> Result<(), AllocError>
    requires { AreShort row.now }
    ensures { OnOk result (out.new.items ≡ out.old.items ++ spell_client Third (client, row.now)) }
{
    out.reserve(client_size(row))?;
    write_client(out, client, row);
    Ok(())
}
