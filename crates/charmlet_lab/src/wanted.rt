//! The blanks that a restart from a disk wants.

ghost use Rattle.std.specs.Prelude.{◌≡◌, ◌⊎◌, false, IfErr, IfOk};
ghost use Rattle.charmlet_model.specs.declared.kind.Kind as kinds;
ghost use Rattle.charmlet_model.specs.declared.refusal.Refusal.TheVariants as refusals;
ghost use Rattle.charmlet_disk.specs.Disk.{SameFiles, faults_after};
ghost use Rattle.charmlet_engine.specs.Wanted.{blanks_in};
ghost use Rattle.charmlet_lab.specs.Restarts.{AreWanted};

use charmlet_disk::Disk;
use charmlet_engine::{Wanted, manifest};
use charmlet_model::Refusal;
use std::alloc::Global;

/// How many blanks of each kind a restart from this disk wants, or none if no store is found there.
/// It only reads.
///
/// `Memory` if out of memory; `Device` if a read fails, which the disk counts.
pub(crate) fn wanted_on<D: Disk>(alloc: Global, disk: &mut D) -> Result<Wanted, Refusal>
    ensures ok { IfOk result (λ wanted. AreWanted D.Disk disk.old (blanks_in wanted)) }
    ensures err { IfErr result (λ refusal. (refusal ≡ refusals.Memory)
        ⊎ ((refusal ≡ refusals.Device)
        × (D.faults disk.new ≡ faults_after false (D.faults disk.old)))) }
    ensures same { D.honest disk.old → SameFiles (D.file disk.old) (D.file disk.new) }
    ensures honest { (D.honest disk.old → D.honest disk.new)
        × (D.honest disk.new → D.honest disk.old) }
{
    match manifest(alloc, disk) {
        Ok(found) => Ok(found.wanted),
        Err(Refusal::Memory) => Err(Refusal::Memory),
        Err(Refusal::Device) => Err(Refusal::Device),
        Err(_) => Ok(no_blanks()),
    }
}

/// No blanks of any kind.
fn no_blanks() -> Wanted
    ensures { (kind : kinds.Kind) → blanks_in result kind ≡ 0 }
{
    Wanted {
        counters: 0,
        rings: 0,
        accounts: 0,
        sums: 0,
        trees: 0,
        tapes: 0,
    }
}
