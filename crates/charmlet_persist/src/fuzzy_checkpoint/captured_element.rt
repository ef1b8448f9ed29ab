//! Captured elements, whose entries in the image are fixed.

ghost use Rattle.std.specs.Prelude.{◌≡◌, ◌+◌, ◌≤◌, ◌<◌, IsOk, OnOk, OnErr, is_some};
ghost use Rattle.std.specs.BTreeMap.{insert_entry};
ghost use Rattle.indexmap.specs.IndexMap.{spare};
ghost use Rattle.charmlet_model.specs.Names.{elem_cmp};
ghost use Rattle.charmlet_shelf.specs.Risen.{risen};
ghost use Rattle.charmlet_persist.specs.FuzzyCheckpoint.Checkpoint.{captured_of};

use charmlet_model::Elem;
use indexmap::IndexMap;
use std::alloc::AllocError;

/// An element's entry in the image: how many messages it sent and received in its whole life, and
/// its packed state if it was there.
#[derive(Debug, Drop)]
pub struct CapturedElement {
    pub sent: u64,
    pub received: u64,
    pub packed: Option<Vec<u8>>,
}

/// Captures an element. When out of memory, the table is unchanged.
pub(crate) fn put(
    table: &mut IndexMap<Elem, Option<CapturedElement>>,
    elem: Elem,
    captured: Option<CapturedElement>,
) -> Result<(), AllocError>
    ensures ok { OnOk result (risen table.new.entries
        ≡ insert_entry elem_cmp (risen table.old.entries) elem captured) }
    ensures err { OnErr result (table.new.entries ≡ table.old.entries) }
    ensures succeeds { 0 < spare table.old → IsOk result }
    ensures room { spare table.old ≤ spare table.new + 1 }
{
    match table.insert(elem, captured) {
        Ok(_) => Ok(()),
        Err(_) => Err(AllocError),
    }
}

/// Whether an element is captured.
pub(crate) fn is_captured(table: &IndexMap<Elem, Option<CapturedElement>>, elem: Elem) -> bool
    ensures { result ≡ is_some (captured_of (risen table.now.entries) elem) }
{
    table.contains_key(&elem)
}
