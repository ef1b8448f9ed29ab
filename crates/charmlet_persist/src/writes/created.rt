//! The history of a new store, and its halves on a disk.

ghost use Rattle.std.specs.Prelude.{◌≡◌, ◌↔◌, false, IfErr, IfOk};
ghost use Rattle.charmlet_model.specs.declared.refusal.Refusal.TheVariants as refusals;
ghost use Rattle.charmlet_model.specs.KindVersion.{AreNewest};
ghost use Rattle.charmlet_model.specs.Fit.{IsFit};
ghost use Rattle.charmlet_model.specs.Sound.{new_world};
ghost use Rattle.charmlet_disk.specs.Calls.{AfterCall};
ghost use Rattle.charmlet_disk.specs.Disk.{IsSettled};
ghost use Rattle.charmlet_halves.specs.Answers.{is_no_failure};
ghost use Rattle.charmlet_halves.specs.Made.{AreClosed, IsCause, LeavesNew};
ghost use Rattle.charmlet_locate.specs.Locations.{is_processor_count};
ghost use Rattle.charmlet_persist.specs.Writes.NewStores.{IsCreationRefusal, IsNewOn, IsOnNewFiles, NothingOrNewWorld, created_disk, created_so};

use charmlet_disk::Disk;
use charmlet_halves::{Halves, Refused};
use charmlet_history::History;
use charmlet_locate::is_processor_count;
use charmlet_model::{Manifest, Refusal};
use std::alloc::Global;

/// A new store: its history, in which nothing has happened, and its halves.
#[derive(Drop)]
pub struct Created<D: Disk> {
    pub history: History,
    pub halves: Halves<D>,
}

/// Makes a store with these arrays and this number of processors, in which nothing has happened, on
/// a settled disk with no open half. It stands in half 0, at generation 1, as [`Halves::create`]
/// writes it, and is durable.
///
/// Its kinds have to be in their newest versions, as those of [`Manifest::of`] are.
///
/// `BadPes` if there aren't 1 to 64 processors; `AlreadyHere` if a half is open, but a failed look
/// at half 0 hides an open half 1; `Memory`: then nothing is written. `Device`: then a crash leaves
/// no store, or the new one. The refusals are tested in this order, and each hands the disk back.
pub fn create<D: Disk>(
    alloc: Global,
    disk: D,
    manifest: Manifest,
    processors: u16,
) -> Result<Created<D>, Refused<D>>
    requires settled { D.honest disk → IsSettled (D.file disk) }
    requires newest { AreNewest manifest }
    ensures ok { IfOk result (IsNewOn processors manifest) }
    ensures files { D.honest disk → IfOk result (IsOnNewFiles manifest (D.file disk)) }
    ensures bad { IfErr result (λ refused. (refused.refusal ≡ refusals.BadPes)
        ↔ (is_processor_count processors ≡ false)) }
    ensures err { IfErr result (λ refused. IsCreationRefusal refused.refusal) }
    ensures cause { D.honest disk → IfErr result (λ refused.
        IsCause (D.file disk) refused.refusal) }
    ensures leaves { D.honest disk → LeavesNew D.Disk (AreClosed (D.file disk))
        (NothingOrNewWorld manifest) disk (created_disk result) (created_so result) }
    ensures disk { AfterCall D.Disk disk (created_disk result)
        (is_no_failure (created_so result)) }
{
    manifest.facts();
    if !is_processor_count(processors) {
        let refusal = Refusal::BadPes;
        return Err(Refused { refusal, disk });
    }
    let halves = Halves::create(alloc, disk, &manifest)?;
    let Ok(history) = History::new(alloc, manifest, halves.log_end(), processors) else {
        unreachable!()
    };
    Ok(Created { history, halves })
}
