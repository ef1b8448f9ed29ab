//! New runtimes.

ghost use Rattle.std.specs.Prelude.{◌≡◌, ◌↔◌, false, IfErr, IfOk};
ghost use Rattle.charmlet_model.specs.declared.refusal.Refusal.TheVariants as refusals;
ghost use Rattle.charmlet_model.specs.KindVersion.{AreNewest};
ghost use Rattle.charmlet_disk.specs.Calls.{AfterCall};
ghost use Rattle.charmlet_disk.specs.Disk.{IsSettled};
ghost use Rattle.charmlet_halves.specs.Answers.{is_no_failure};
ghost use Rattle.charmlet_halves.specs.Made.{AreClosed, IsCause, LeavesNew};
ghost use Rattle.charmlet_locate.specs.Locations.{is_processor_count};
ghost use Rattle.charmlet_persist.specs.Writes.NewStores.{IsCreationRefusal};
ghost use Rattle.charmlet_engine.specs.Created.{IsNewOn, IsOnNewFiles};
ghost use Rattle.charmlet_engine.specs.Engine.{disk_after, engine_or_refusal};
ghost use Rattle.charmlet_engine.specs.Outcomes.{IsNothingOrNew};

use crate::builder::RuntimeBuilder;
use charmlet_chare::Chare;
use charmlet_disk::Disk;
use charmlet_engine::Engine;
use charmlet_halves::Refused;
use charmlet_model::Manifest;
use std::alloc::Global;

impl<D: Disk, C: Chare> RuntimeBuilder<D, C> {
    /// Makes a store with these arrays and this number of processors on a settled disk with no open
    /// half, as [`Engine::create`] does. Nothing has happened in it, all of it is durable, and its
    /// stock is empty. An engine's promises about a creation hold here word for word.
    ///
    /// The refusals are in their order `BadPes`, `AlreadyHere`, `Memory` and `Device`. Each hands
    /// the disk back, and except for `Device` nothing is written.
    pub fn create(
        alloc: Global,
        disk: D,
        manifest: Manifest,
        processors: u16,
    ) -> Result<Self, Refused<D>>
        requires settled { D.honest disk → IsSettled (D.file disk) }
        requires newest { AreNewest manifest }
        ensures ok { IfOk result (IsNewOn processors manifest) }
        ensures files { D.honest disk → IfOk result (IsOnNewFiles D.Disk disk) }
        ensures bad { IfErr result (λ refused. (refused.refusal ≡ refusals.BadPes)
            ↔ (is_processor_count processors ≡ false)) }
        ensures err { IfErr result (λ refused. IsCreationRefusal refused.refusal) }
        ensures cause { D.honest disk → IfErr result (λ refused.
            IsCause (D.file disk) refused.refusal) }
        ensures leaves { D.honest disk → LeavesNew D.Disk (AreClosed (D.file disk))
            (IsNothingOrNew manifest) disk (disk_after result) (engine_or_refusal result) }
        ensures disk { AfterCall D.Disk disk (disk_after result)
            (is_no_failure (engine_or_refusal result)) }
    {
        match Engine::create(alloc, disk, manifest, processors) {
            Ok(engine) => Ok(RuntimeBuilder { engine }),
            Err(refused) => Err(refused),
        }
    }
}
