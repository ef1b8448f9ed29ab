//! The history's opening with a world that several replayers restored.

ghost use Rattle.std.specs.Prelude.{◌≡◌, ℕ, List, IfOk, length};
ghost use Rattle.charmlet_model.specs.declared.logged.Logged as logs;
ghost use Rattle.charmlet_model.specs.World.{World};
ghost use Rattle.charmlet_record.specs.declared.positioned.Positioned as placed;
ghost use Rattle.charmlet_recovery.specs.Replays.{LogScan};
ghost use Rattle.charmlet_history.specs.Opened.{IsOpening};
ghost use Rattle.charmlet_merge.specs.Combined.{worker_at_home};
ghost use Rattle.charmlet_merge.specs.Merged.{ArePartsOn};
ghost use Rattle.charmlet_merge.specs.Store.Done.{AreAllDone};

use crate::history::{history_opening, rows_of};
use crate::{Replayer, elements_of, fill_rows};
use charmlet_chare::Chare;
use charmlet_history::{GhostWorld, Opening};
use charmlet_log_scan::ReplayWorld;
use charmlet_model::Manifest;
use std::alloc::{AllocError, Global};

/// The opening with the world after a log, whose tasks all replayers have done, given its arrays,
/// and the world of the log scan. It fails only when out of memory.
pub(crate) fn merged_opening<C: Chare>(
    alloc: Global,
    seen: GhostWorld,
    manifest: Manifest,
    kept: &ReplayWorld,
    replayers: &[Replayer<C>],
) -> Result<Opening, AllocError>
    requires done { (w : World) × (count : ℕ) × (scan : LogScan)
        × (log : List (placed.Positioned logs.Logged))
        × AreAllDone w count scan log seen.world kept.now replayers.now }
    requires manifest { seen.world.manifest ≡ manifest }
    requires parts { ArePartsOn (worker_at_home kept.now.processors (length replayers.now))
        kept.now.processors seen.world.records replayers.now }
    ensures opening { IfOk result (λ opening. IsOpening opening) }
    ensures world { IfOk result (λ opening. opening.world ≡ seen.world) }
    ensures on { IfOk result (λ opening. opening.processors ≡ kept.now.processors) }
{
    let elements = elements_of(alloc, replayers)?;
    let mut rows = rows_of(alloc, kept)?;
    fill_rows(alloc, &mut rows, replayers)?;
    history_opening(alloc, seen, manifest, kept, elements, rows)
}
