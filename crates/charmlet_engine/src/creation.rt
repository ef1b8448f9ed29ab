//! New engines.

ghost use Rattle.std.specs.Prelude.{◌≡◌, ◌↔◌, false, IfErr, IfOk};
ghost use Rattle.charmlet_model.specs.declared.refusal.Refusal.TheVariants as refusals;
ghost use Rattle.charmlet_model.specs.KindVersion.{AreNewest};
ghost use Rattle.charmlet_disk.specs.Calls.{AfterCall, IsOnlyRead};
ghost use Rattle.charmlet_disk.specs.Disk.{IsSettled};
ghost use Rattle.charmlet_halves.specs.Answers.{is_no_failure};
ghost use Rattle.charmlet_halves.specs.Made.{AreClosed, IsCause, IsMakingRefusal, LeavesNew};
ghost use Rattle.charmlet_locate.specs.Locations.{is_processor_count};
ghost use Rattle.charmlet_persist.specs.Writes.NewStores.{IsCreationRefusal};
ghost use Rattle.charmlet_engine.specs.Created.{IsNewOn, IsOnNewFiles};
ghost use Rattle.charmlet_engine.specs.Engine.{disk_after, engine_or_refusal};
ghost use Rattle.charmlet_engine.specs.Outcomes.{IsNothingOrNew, not_device};

use crate::engine::Engine;
use charmlet_chare::Chare;
use charmlet_disk::Disk;
use charmlet_halves::{Refused, test_closed};
use charmlet_locate::is_processor_count;
use charmlet_model::{Manifest, Refusal};
use charmlet_persist::{Created, create};
use charmlet_store::{Store, empty_shelves};
use std::alloc::Global;

impl<D: Disk, C: Chare> Engine<D, C> {
    /// Makes a store with these arrays and this number of processors, in which nothing has
    /// happened, on a settled disk with no open half. It stands in half 0, at generation 1, and is
    /// durable; half 1 isn't written. Its stock is empty, and drops retired objects. The kinds have
    /// to be in their newest versions, as those of [`Manifest::of`] are.
    ///
    /// `BadPes` if there aren't 1 to 64 processors; `AlreadyHere` if a half is open, but a failed
    /// look at half 0 hides an open half 1; `Memory`: then nothing is written. `Device`: then a
    /// crash leaves no store, or the new one. The refusals are tested in this order, and each hands
    /// the disk back.
    pub fn create(
        alloc: Global,
        disk: D,
        manifest: Manifest,
        processors: u16,
    ) -> Result<Self, Refused<D>>
        requires settled { D.honest disk → IsSettled (D.file disk) }
        requires newest { AreNewest manifest }
        ensures ok { IfOk result (IsNewOn processors manifest) }
        ensures files { D.honest disk → IfOk result (IsOnNewFiles D.Disk disk) }
        ensures bad { IfErr result (λ refused. (refused.refusal ≡ refusals.BadPes)
            ↔ (is_processor_count processors ≡ false)) }
        ensures err { IfErr result (λ refused. IsCreationRefusal refused.refusal) }
        ensures cause { D.honest disk → IfErr result (λ refused.
            IsCause (D.file disk) refused.refusal) }
        ensures leaves { D.honest disk → LeavesNew D.Disk (AreClosed (D.file disk))
            (IsNothingOrNew manifest) disk (disk_after result) (engine_or_refusal result) }
        ensures disk { AfterCall D.Disk disk (disk_after result)
            (is_no_failure (engine_or_refusal result)) }
    {
        manifest.facts();
        if !is_processor_count(processors) {
            let refusal = Refusal::BadPes;
            return Err(Refused { refusal, disk });
        }
        let Ok(shelves) = empty_shelves(alloc, processors) else {
            return Err(refuse_for_memory(disk));
        };
        match create(alloc, disk, manifest, processors) {
            Ok(Created { history, halves }) => Ok(Engine {
                store: Store::new(alloc, history, shelves),
                halves,
            }),
            Err(refused) => Err(refused),
        }
    }
}

/// The refusal if memory for a new store is refused: `AlreadyHere` if a half is open, `Device` if
/// the device failed, or `Memory`. The disk comes back, and nothing is written.
fn refuse_for_memory<D: Disk>(disk: D) -> Refused<D>
    ensures err { IsMakingRefusal result.refusal }
    ensures cause { D.honest disk → IsCause (D.file disk) result.refusal }
    ensures only_read { D.honest disk → IsOnlyRead D.Disk disk result.disk }
    ensures disk { AfterCall D.Disk disk result.disk (not_device result.refusal) }
{
    let mut disk = disk;
    let refusal = match test_closed(&mut disk) {
        Ok(()) => Refusal::Memory,
        Err(refusal) => refusal,
    };
    Refused { refusal, disk }
}
