//! Writers of an image's entries.

ghost use Rattle.std.specs.Prelude.{◌≡◌, ◌≤◌, ◌++◌, All, IfSome, OnOk};
ghost use Rattle.indexmap.specs.IndexMap.{spare};
ghost use Rattle.charmlet_pup.specs.Fields.{number_bytes};
ghost use Rattle.charmlet_shelf.specs.Risen.{risen};
ghost use Rattle.charmlet_persist.specs.FuzzyCheckpoint.Sealing.{IsShort, count_kept, spell_entries, spell_kept, spell_kept_if};

use crate::fuzzy_checkpoint::captured_element::CapturedElement;
use charmlet_image::{Entry, entry_size, write_entry};
use charmlet_model::Elem;
use charmlet_record::{write_bytes, write_u32};
use indexmap::IndexMap;
use std::alloc::AllocError;

/// Sorts a table in rising order of its elements. When out of memory, it is unchanged.
pub(crate) fn rise(table: &mut IndexMap<Elem, Option<CapturedElement>>) -> Result<(), AllocError>
    ensures ok { OnOk result (table.new.entries ≡ risen table.old.entries) }
    ensures same { risen table.new.entries ≡ risen table.old.entries }
    ensures room { spare table.old ≤ spare table.new }
{
    table.sort_unstable_keys()
}

/// How many entries there are.
pub(crate) fn count_entries(table: &IndexMap<Elem, Option<CapturedElement>>) -> usize
    ensures { result ≡ count_kept table.now.entries }
{
    let mut count = 0;
    for (_elem, captured) in table {
        let is_counted = captured.is_some();
        if is_counted {
            count += 1;
        }
    }
    count
}

/// Appends the number of entries, and each entry. It fails only when out of memory.
pub(crate) fn append_entries(
    out: &mut Vec<u8>,
    count: u32,
    table: &IndexMap<Elem, Option<CapturedElement>>,
) -> Result<(), AllocError>
    requires count { count ≡ count_kept table.now.entries }
    requires short { All (λ e. IfSome e.1 IsShort) table.now.entries }
    ensures { OnOk result (out.new.items
        ≡ out.old.items ++ spell_entries table.now.entries) }
{
    out.reserve(4)?;
    write_u32(out, count);
    for (elem, captured) in table {
        append_entry_if(out, *elem, captured)?;
    }
    Ok(())
}

/// Appends an entry, if there is one. It fails only when out of memory.
fn append_entry_if(
    out: &mut Vec<u8>,
    elem: Elem,
    captured: &Option<CapturedElement>,
) -> Result<(), AllocError>
    requires { IfSome captured.now IsShort }
    ensures { OnOk result (out.new.items ≡ out.old.items ++ spell_kept_if elem captured.now) }
{
    match captured {
        None => Ok(()),
        Some(captured) => append_entry(out, elem, captured),
    }
}

/// Appends an entry. It fails only when out of memory.
#[tactic(auto, unfolding(charmlet_image::specs::NewStores::spell_packed_entry, crate::specs::FuzzyCheckpoint::Sealing::spell_kept))]
fn append_entry(out: &mut Vec<u8>, elem: Elem, captured: &CapturedElement) -> Result<(), AllocError>
    requires { IsShort captured.now }
    ensures { OnOk result (out.new.items ≡ out.old.items ++ spell_kept elem captured.now) }
{
    let packed = match &captured.packed {
        None => None,
        Some(packed) => Some(packed.as_slice()),
    };
    let entry = Entry {
        element: elem,
        sent: captured.sent,
        received: captured.received,
        packed,
    };
    out.reserve(entry_size(&entry))?;
    write_entry(out, &entry);
    Ok(())
}

/// Appends a list: its number of items, and the items' bytes. It fails only when out of memory.
pub(crate) fn append_list(out: &mut Vec<u8>, count: u32, bytes: &[u8]) -> Result<(), AllocError>
    ensures { OnOk result (out.new.items ≡ out.old.items ++ (number_bytes 4 count ++ bytes.now)) }
{
    out.reserve(4)?;
    write_u32(out, count);
    out.reserve(bytes.len())?;
    write_bytes(out, bytes);
    Ok(())
}
