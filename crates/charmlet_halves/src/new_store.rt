//! New halves.

ghost use Rattle.std.specs.Prelude.{Bool, ◌≡◌, ◌⊎◌, ◌∷◌, is_ok, length, IfErr, IfOk, OnOk};
ghost use Rattle.charmlet_model.specs.declared.refusal.Refusal.TheVariants as refusals;
ghost use Rattle.charmlet_model.specs.declared.half.Half.TheVariants as halves;
ghost use Rattle.charmlet_disk.specs.Calls.{AfterCall, IsOnlyRead};
ghost use Rattle.charmlet_disk.specs.Disk.{IsSettled, LeavesOnly};
ghost use Rattle.charmlet_image.specs.Spelled.{IsClosed, Spells};
ghost use Rattle.charmlet_halves.specs.Answers.{is_no_failure};
ghost use Rattle.charmlet_halves.specs.Bytes.{EndsClosed, FirstGate, before_gate, opened_by};
ghost use Rattle.charmlet_model.specs.Fit.{IsFit};
ghost use Rattle.charmlet_model.specs.Sound.{new_world};
ghost use Rattle.charmlet_image.specs.Images.{spell_half};
ghost use Rattle.charmlet_image.specs.NewStores.{new_half, new_saved};
ghost use Rattle.charmlet_halves.specs.Made.{AreClosed, IsAnyOpen, IsCause, IsMadeOn, IsMakingRefusal, IsNew, LeavesNew, made_disk, made_so};
ghost use Rattle.charmlet_halves.specs.Steps.{NothingOrNew};

use crate::half_bytes::closed_gate;
use crate::halves::Halves;
use crate::opened::Refused;
use crate::preparation::prepare;
use crate::writes::OPEN;
use charmlet_disk::{DeviceFault, Disk, write_and_sync};
use charmlet_image::new_store;
use charmlet_model::{Half, Manifest, Refusal};
use std::alloc::Global;

/// Writes this image into half 0, which is closed, as its only contents.
fn put_image<D: Disk>(disk: &mut D, is_closed: bool, bytes: &[u8]) -> Result<(), DeviceFault>
    requires settled { D.honest disk.old → IsSettled (D.file disk.old) }
    requires gate { D.honest disk.old → FirstGate is_closed (D.file disk.old halves.Zero).now }
    requires shut { D.honest disk.old → IsClosed (D.file disk.old halves.Zero).now }
    requires framed { EndsClosed bytes.now }
    ensures settled { D.honest disk.old → OnOk result (IsSettled (D.file disk.new)) }
    ensures says { D.honest disk.old → OnOk result (Spells (D.file disk.new halves.Zero).now
        (1 ∷ before_gate bytes.now)) }
    ensures other { D.honest disk.old → D.file disk.new halves.One ≡ D.file disk.old halves.One }
    ensures written { D.honest disk.old → OnOk result ((D.file disk.new halves.Zero).now
        ≡ opened_by is_closed bytes.now (D.file disk.old halves.Zero).now) }
    ensures any_moment { D.honest disk.old → LeavesOnly D.moment D.since disk.old disk.new
        (NothingOrNew (D.file disk.old) (1 ∷ before_gate bytes.now)) }
    ensures disk { AfterCall D.Disk disk.old disk.new (is_ok result) }
{
    prepare(disk, Half::Zero, is_closed, bytes)?;
    write_and_sync(disk, Half::Zero, 0, &[OPEN])?;
    Ok(())
}

/// Which first gates of two halves are closed; neither half is open.
#[derive(Clone, Copy)]
struct Gates {
    zero: bool,
    one: bool,
}

/// The first gates of two halves, neither of which is open. It looks at half 0 first, and stops at
/// the first look that fails (`Device`) or finds an open half (`AlreadyHere`). It makes at most
/// four calls of the disk, which change nothing.
fn closed_gates<D: Disk>(disk: &mut D) -> Result<Gates, Refusal>
    ensures zero { D.honest disk.old → IfOk result (λ gates. IsClosed
        (D.file disk.old halves.Zero).now
        × FirstGate gates.zero (D.file disk.old halves.Zero).now) }
    ensures one { D.honest disk.old → IfOk result (λ gates. IsClosed
        (D.file disk.old halves.One).now
        × FirstGate gates.one (D.file disk.old halves.One).now) }
    ensures here { D.honest disk.old → IfErr result (λ refusal. refusal ≡ refusals.AlreadyHere
        → IsAnyOpen (D.file disk.old)) }
    ensures err { IfErr result (λ refusal. (refusal ≡ refusals.AlreadyHere)
        ⊎ (refusal ≡ refusals.Device)) }
    ensures only_read { D.honest disk.old → IsOnlyRead D.Disk disk.old disk.new }
    ensures disk { AfterCall D.Disk disk.old disk.new (is_no_failure result) }
{
    let zero = closed_gate(disk, Half::Zero)?;
    let one = closed_gate(disk, Half::One)?;
    Ok(Gates { zero, one })
}

/// Tests whether a store can be made on a disk: neither half is open. It looks at half 0 first, and
/// stops at the first look that fails (`Device`) or finds an open half (`AlreadyHere`). It makes at
/// most four calls of the disk, which change nothing.
pub fn test_closed<D: Disk>(disk: &mut D) -> Result<(), Refusal>
    ensures ok { D.honest disk.old → OnOk result (AreClosed (D.file disk.old)) }
    ensures here { D.honest disk.old → IfErr result (λ refusal. refusal ≡ refusals.AlreadyHere
        → IsAnyOpen (D.file disk.old)) }
    ensures err { IfErr result (λ refusal. (refusal ≡ refusals.AlreadyHere)
        ⊎ (refusal ≡ refusals.Device)) }
    ensures only_read { D.honest disk.old → IsOnlyRead D.Disk disk.old disk.new }
    ensures disk { AfterCall D.Disk disk.old disk.new (is_no_failure result) }
{
    closed_gates(disk)?;
    Ok(())
}

/// A store that was written to half 0: where its log ends, and whether the first gate of half 1 is
/// closed.
#[derive(Clone, Copy)]
struct Written {
    log_end: u64,
    spare_closed: bool,
}

/// Writes a new store to half 0 of two halves, neither of which is open.
fn write_store<D: Disk>(
    alloc: Global,
    disk: &mut D,
    manifest: &Manifest,
) -> Result<Written, Refusal>
    requires settled { D.honest disk.old → IsSettled (D.file disk.old) }
    ensures settled { D.honest disk.old → IfOk result (λ _. IsSettled (D.file disk.new)) }
    ensures says { D.honest disk.old → IfOk result (λ _.
        Spells (D.file disk.new halves.Zero).now (spell_half (new_saved manifest.now))) }
    ensures log_end { IfOk result (λ written. written.log_end ≡ length (spell_half
        (new_saved manifest.now))) }
    ensures gate { D.honest disk.old → IfOk result (λ written.
        FirstGate written.spare_closed (D.file disk.old halves.One).now) }
    ensures other { D.honest disk.old → D.file disk.new halves.One ≡ D.file disk.old halves.One }
    ensures closed { D.honest disk.old → IfOk result (λ _. AreClosed (D.file disk.old)) }
    ensures cause { D.honest disk.old → IfErr result (IsCause (D.file disk.old)) }
    ensures err { IfErr result IsMakingRefusal }
    ensures leaves { D.honest disk.old →
        LeavesNew D.Disk (IsClosed (D.file disk.old halves.Zero).now)
        (NothingOrNew (D.file disk.old) (spell_half (new_saved manifest.now)))
        disk.old disk.new result }
    ensures written { D.honest disk.old → IfOk result (λ _. (is_closed : Bool) →
        FirstGate is_closed (D.file disk.old halves.Zero).now → (D.file disk.new halves.Zero).now
        ≡ opened_by is_closed (new_half manifest.now) (D.file disk.old halves.Zero).now) }
    ensures disk { AfterCall D.Disk disk.old disk.new (is_no_failure result) }
{
    manifest.facts();
    let gates = closed_gates(disk)?;
    let image = new_store(alloc, manifest)?;
    put_image(disk, gates.zero, image.as_slice())?;
    Ok(Written {
        log_end: image.len() as u64,
        spare_closed: gates.one,
    })
}

impl<D: Disk> Halves<D> {
    /// Makes a store with these arrays, in which nothing has happened, on a settled disk with no
    /// open half. The store is in half 0, at generation 1, and overwrites what half 0 has; bytes
    /// past its end stay, and aren't read. Half 1 isn't touched. The call looks at both first
    /// gates, and then makes three writes, each with a sync, or two if the first gate of half 0 is
    /// closed already. `AlreadyHere` if a half is open, and `Memory`: then nothing is written.
    /// `Device`: then half 0 is closed, or has the new store. Each refusal hands the disk back.
    pub fn create(alloc: Global, disk: D, manifest: &Manifest) -> Result<Halves<D>, Refused<D>>
        requires settled { D.honest disk → IsSettled (D.file disk) }
        ensures created { IfOk result (λ made. IsNew made (length (spell_half
            (new_saved manifest.now)))) }
        ensures files { D.honest disk → IfOk result (IsMadeOn manifest.now (D.file disk)) }
        ensures err { IfErr result (λ refused. IsMakingRefusal refused.refusal) }
        ensures cause { D.honest disk → IfErr result (λ refused.
            IsCause (D.file disk) refused.refusal) }
        ensures leaves { D.honest disk → LeavesNew D.Disk (IsClosed (D.file disk halves.Zero).now)
            (NothingOrNew (D.file disk) (spell_half (new_saved manifest.now)))
            disk (made_disk result) (made_so result) }
        ensures disk { AfterCall D.Disk disk (made_disk result) (is_no_failure (made_so result)) }
    {
        manifest.facts();
        let mut disk = disk;
        match write_store(alloc, &mut disk, manifest) {
            Ok(written) => Ok(Halves {
                disk,
                taken: Half::Zero,
                generation: 1,
                log_end: written.log_end,
                spare_closed: written.spare_closed,
                prepared: None,
                halted: false,
            }),
            Err(refusal) => Err(Refused { refusal, disk }),
        }
    }
}
