//! Merge of a log scan's world into the opening of a history, once the replies that the scan
//! doesn't know are put into its rows.

ghost use Rattle.std.specs.Prelude.{◌≡◌, IfOk};
ghost use Rattle.charmlet_model.specs.Fit.{IsFit};
ghost use Rattle.charmlet_history.specs.Opened.{IsOpening, opened_elements};

mod pending;
mod rows;

use crate::history::pending::pending_of;
use crate::history::rows::clients_of;
pub use crate::history::rows::rows_of;
use charmlet_history::{GhostWorld, Opening};
use charmlet_log_scan::ReplayWorld;
use charmlet_model::{ClientRow, Elem, Manifest};
use charmlet_world::Element;
use std::alloc::{AllocError, Global};
use std::collections::BTreeMap;

/// The opening with a fit world, from a log scan's world, which has the same pending messages. Its
/// arrays, its clients' rows, and the place and counts of each of its elements are given too. It
/// fails only when out of memory.
pub fn history_opening(
    alloc: Global,
    seen: GhostWorld,
    manifest: Manifest,
    kept: &ReplayWorld,
    elements: BTreeMap<Elem, Element>,
    rows: BTreeMap<u32, ClientRow>,
) -> Result<Opening, AllocError>
    requires fit { IsFit seen.world }
    requires manifest { seen.world.manifest ≡ manifest }
    requires pending { kept.now.pending ≡ seen.world.pending }
    requires elements { elements.entries
        ≡ opened_elements kept.now.processors seen.world.records }
    requires rows { rows.entries ≡ seen.world.clients }
    ensures opening { IfOk result (λ opening. IsOpening opening) }
    ensures world { IfOk result (λ opening. opening.world ≡ seen.world) }
    ensures on { IfOk result (λ opening. opening.processors ≡ kept.now.processors) }
{
    let pending = pending_of(alloc, kept)?;
    let clients = clients_of(alloc, rows)?;
    let processors = kept.processors();
    Opening::with(
        alloc, seen, manifest, processors, elements, pending, clients,
    )
}
