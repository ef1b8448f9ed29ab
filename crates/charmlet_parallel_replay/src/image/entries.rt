//! The elements of an image, restored by their replayer.

ghost use Rattle.std.specs.Prelude.{◌≡◌, ◌+◌, ◌≤◌, ◌<◌, ◌&&◌, List, [], None, IsSome, OnOk, is_some, map, true};
ghost use Rattle.std.specs.BTreeMap.{insert_entry, is_at};
ghost use Rattle.std.specs.Map.{lookup};
ghost use Rattle.std.specs.Ordering.{nat_cmp};
ghost use Rattle.charmlet_model.specs.declared.kind.Kind as kinds;
ghost use Rattle.charmlet_model.specs.declared.names.Elem as names;
ghost use Rattle.charmlet_model.specs.declared.state.Record.{Record};
ghost use Rattle.charmlet_model.specs.Names.{elem_cmp};
ghost use Rattle.charmlet_image.specs.Views.{ArePacked, IsPacked, entry_said};
ghost use Rattle.charmlet_image.specs.Written.{AreRecords};
ghost use Rattle.charmlet_recovery.specs.Blanks.{array_is, one_if, wanted_by_records};
ghost use Rattle.charmlet_stock.specs.Stock.{blanks_in};
ghost use Rattle.charmlet_log_scan.specs.Partition.Parts.{is_of_worker, part};
ghost use Rattle.charmlet_replay.specs.RestoredShard.{IsHeld, IsRestored};
ghost use Rattle.charmlet_replayers.specs.Dispatch.Sharing.{worker_of};
ghost use Rattle.charmlet_parallel_replay.specs.Image.Keeping.{KeepsOne};

use crate::image::blanks::draw_if;
use charmlet_chare::Chare;
use charmlet_image::Entry;
use charmlet_model::Manifest;
use charmlet_replay::RestoredShard;
use charmlet_replayers::worker_of;
use charmlet_stock::Stock;
use std::alloc::AllocError;

/// Restores an element, which has no entry at its replayer yet: its object, if it has one, from a
/// blank of the stock. It fails only when out of memory.
fn restore_entry<C: Chare>(
    manifest: &Manifest,
    stock: &mut Stock<C>,
    restored: &mut RestoredShard<C>,
    entry: &Entry<'_>,
) -> Result<(), AllocError>
    requires held { IsHeld restored.old }
    requires unknown { (records : List (names.Elem × Record)) × IsRestored records restored.old
        × (lookup (is_at (elem_cmp entry.now.element)) records ≡ None) }
    requires packed { IsPacked manifest.now entry.now }
    requires array { IsSome (lookup (is_at (nat_cmp entry.now.element.array)) manifest.now) }
    requires blank { (kind : kinds.Kind) → (is_some entry.now.packed
        && array_is manifest.now kind entry.now.element.array) ≡ true →
        1 ≤ blanks_in stock.old kind }
    ensures keeps { KeepsOne stock.old stock.new restored.old restored.new }
    ensures ok { (records : List (names.Elem × Record)) → IsRestored records restored.old →
        lookup (is_at (elem_cmp entry.now.element)) records ≡ None →
        OnOk result (IsRestored (insert_entry elem_cmp records entry.now.element
        (entry_said manifest.now entry.now).1) restored.new) }
    ensures own { OnOk result ((kind : kinds.Kind) → blanks_in restored.new.stock kind
        ≡ blanks_in restored.old.stock kind) }
    ensures given { OnOk result ((kind : kinds.Kind) → blanks_in stock.new kind
        + one_if (is_some entry.now.packed
        && array_is manifest.now kind entry.now.element.array) ≡ blanks_in stock.old kind) }
{
    let has_object = entry.packed.is_some();
    draw_if(has_object, manifest, stock, restored, entry.element.array)?;
    restored.restore(manifest, entry)
}

/// Restores the elements of an image that belong to this replayer, of `workers` replayers. The
/// entries rise and are of the manifest's arrays, and the stock has a blank for each of its
/// objects. It fails only when out of memory.
pub(crate) fn restore_own<C: Chare>(
    manifest: &Manifest,
    stock: &mut Stock<C>,
    restored: &mut RestoredShard<C>,
    entries: &[Entry<'_>],
    worker: usize,
    workers: usize,
) -> Result<(), AllocError>
    requires some { 0 < workers }
    requires held { IsHeld restored.old }
    requires nothing { IsRestored [] restored.old }
    requires packed { ArePacked manifest.now entries.now }
    requires good { AreRecords manifest.now (map (entry_said manifest.now) entries.now) }
    requires blanks { (kind : kinds.Kind) → wanted_by_records manifest.now kind
        (part (is_of_worker (worker_of restored.old.processors workers) worker)
        (map (entry_said manifest.now) entries.now)) ≤ blanks_in stock.old kind }
    ensures keeps { KeepsOne stock.old stock.new restored.old restored.new }
    ensures ok { OnOk result (IsRestored
        (part (is_of_worker (worker_of restored.old.processors workers) worker)
        (map (entry_said manifest.now) entries.now)) restored.new) }
    ensures own { OnOk result ((kind : kinds.Kind) → blanks_in restored.new.stock kind
        ≡ blanks_in restored.old.stock kind) }
    ensures given { OnOk result ((kind : kinds.Kind) → blanks_in stock.new kind
        + wanted_by_records manifest.now kind
        (part (is_of_worker (worker_of restored.old.processors workers) worker)
        (map (entry_said manifest.now) entries.now)) ≡ blanks_in stock.old kind) }
{
    for entry in entries {
        if worker_of(entry.element, restored.processors, workers) != worker {
            continue;
        }
        restore_entry(manifest, stock, restored, entry)?;
    }
    Ok(())
}
