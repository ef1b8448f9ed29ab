//! Replayers that get their elements, and the blanks for their deliveries.

ghost use Rattle.std.specs.Prelude.{◌≡◌, ◌+◌, ◌≤◌, ◌<◌, ℕ, List, OnOk, length, map};
ghost use Rattle.std.specs.List.{AllByRecursion};
ghost use Rattle.charmlet_model.specs.declared.kind.Kind as kinds;
ghost use Rattle.charmlet_model.specs.declared.logged.CatchUpEntry as logged;
ghost use Rattle.charmlet_record.specs.declared.positioned.Positioned as placed;
ghost use Rattle.charmlet_record.specs.Written.{IsCaughtUp};
ghost use Rattle.charmlet_image.specs.Positioned.{items_of};
ghost use Rattle.charmlet_image.specs.Views.{ArePacked, entry_said};
ghost use Rattle.charmlet_image.specs.Written.{AreRecords};
ghost use Rattle.charmlet_recovery.specs.Blanks.{wanted_by_catch_up, wanted_by_records};
ghost use Rattle.charmlet_stock.specs.Stock.{blanks_in};
ghost use Rattle.charmlet_log_scan.specs.Partition.Parts.{is_of_worker, part};
ghost use Rattle.charmlet_replay.specs.RestoredShard.{IsRestored};
ghost use Rattle.charmlet_replayers.specs.Dispatch.Keeping.{KeepsAll};
ghost use Rattle.charmlet_replayers.specs.Dispatch.Sharing.{worker_of};
ghost use Rattle.charmlet_parallel_replay.specs.Image.Filled.{AreFilled, CanBeFilled, IsToFill};
ghost use Rattle.charmlet_parallel_replay.specs.Image.Keeping.{KeepsOne};

use crate::image::counts::draw_for_all;
use crate::image::entries::restore_own;
use charmlet_chare::Chare;
use charmlet_image::Entry;
use charmlet_model::Manifest;
use charmlet_replayers::Replayer;
use charmlet_stock::Stock;
use std::alloc::{AllocError, Global};

/// Restores the elements of an image that belong to this replayer, of `workers` replayers, and
/// gives it the blanks for its deliveries. It fails only when out of memory.
fn fill_replayer<C: Chare>(
    alloc: Global,
    manifest: &Manifest,
    stock: &mut Stock<C>,
    replayer: &mut Replayer<C>,
    entries: &[Entry<'_>],
    worker: usize,
    workers: usize,
) -> Result<(), AllocError>
    requires some { 0 < workers }
    requires to_fill { IsToFill replayer.old.restored.processors replayer.old }
    requires packed { ArePacked manifest.now entries.now }
    requires good { AreRecords manifest.now (map (entry_said manifest.now) entries.now) }
    requires typed { AllByRecursion (IsCaughtUp manifest.now)
        (items_of replayer.old.deliveries.items) }
    requires enough { (kind : kinds.Kind) → wanted_by_records manifest.now kind
        (part (is_of_worker (worker_of replayer.old.restored.processors workers) worker)
        (map (entry_said manifest.now) entries.now))
        + wanted_by_catch_up manifest.now kind
        (part (is_of_worker (worker_of replayer.old.restored.processors workers) worker)
        (map (entry_said manifest.now) entries.now)) (items_of replayer.old.deliveries.items)
        ≤ blanks_in stock.old kind }
    ensures keeps { KeepsOne stock.old stock.new replayer.old.restored replayer.new.restored }
    ensures deliveries { replayer.new.deliveries ≡ replayer.old.deliveries }
    ensures tasks { replayer.new.tasks ≡ replayer.old.tasks }
    ensures restored { OnOk result (IsRestored
        (part (is_of_worker (worker_of replayer.old.restored.processors workers) worker)
        (map (entry_said manifest.now) entries.now)) replayer.new.restored) }
    ensures own { OnOk result ((kind : kinds.Kind) → blanks_in replayer.new.restored.stock kind
        ≡ wanted_by_catch_up manifest.now kind
        (part (is_of_worker (worker_of replayer.old.restored.processors workers) worker)
        (map (entry_said manifest.now) entries.now)) (items_of replayer.old.deliveries.items)) }
    ensures given { OnOk result ((kind : kinds.Kind) → blanks_in stock.new kind
        + (wanted_by_records manifest.now kind
        (part (is_of_worker (worker_of replayer.old.restored.processors workers) worker)
        (map (entry_said manifest.now) entries.now))
        + wanted_by_catch_up manifest.now kind
        (part (is_of_worker (worker_of replayer.old.restored.processors workers) worker)
        (map (entry_said manifest.now) entries.now)) (items_of replayer.old.deliveries.items))
        ≡ blanks_in stock.old kind) }
{
    restore_own(
        manifest,
        stock,
        &mut replayer.restored,
        entries,
        worker,
        workers,
    )?;
    draw_for_all(
        alloc,
        manifest,
        stock,
        &mut replayer.restored,
        replayer.deliveries.as_slice(),
    )
}

/// Restores the elements of an image, each for the replayer that has it, and gives each replayer
/// the blanks for its deliveries. It fails only when out of memory. Whatever it answers, no object
/// is lost.
pub(crate) fn fill_replayers<C: Chare>(
    alloc: Global,
    manifest: &Manifest,
    stock: &mut Stock<C>,
    replayers: &mut [Replayer<C>],
    entries: &[Entry<'_>],
) -> Result<(), AllocError>
    requires some { 0 < length replayers.old }
    requires packed { ArePacked manifest.now entries.now }
    requires good { AreRecords manifest.now (map (entry_said manifest.now) entries.now) }
    requires can { (processors : ℕ) × (ds : List (placed.Positioned logged.CatchUpEntry))
        × CanBeFilled processors manifest.now (map (entry_said manifest.now) entries.now) ds
        (blanks_in stock.old) replayers.old }
    ensures keeps { KeepsAll stock.old stock.new replayers.old replayers.new }
    ensures ok { (processors : ℕ) (ds : List (placed.Positioned logged.CatchUpEntry)) →
        CanBeFilled processors manifest.now (map (entry_said manifest.now) entries.now) ds
        (blanks_in stock.old) replayers.old → OnOk result (AreFilled
        (worker_of processors (length replayers.old)) manifest.now
        (map (entry_said manifest.now) entries.now) ds processors (blanks_in stock.old)
        (blanks_in stock.new) replayers.new) }
{
    let workers = replayers.len();
    for worker in 0..workers {
        fill_replayer(
            alloc,
            manifest,
            stock,
            &mut replayers[worker],
            entries,
            worker,
            workers,
        )?;
    }
    Ok(())
}
