//! The findings in two halves: the world to which they recover, as it is written.

ghost use Rattle.std.specs.Prelude.{◌≡◌, IfErr, IfOk, true};
ghost use Rattle.charmlet_disk.specs.Disk.{LeavesOnly, SameFiles, faults_after};
ghost use Rattle.charmlet_disk.specs.File.{MayLeave, CrashBytes};
ghost use Rattle.charmlet_image.specs.Halves.{Takes};
ghost use Rattle.charmlet_image.specs.Images.{Saved};
ghost use Rattle.charmlet_halves.specs.Answers.{is_finding_refusal, is_no_failure};
ghost use Rattle.charmlet_halves.specs.Found.{Reads, Says};
ghost use Rattle.charmlet_locate.specs.Locations.{is_processor_count};
ghost use Rattle.charmlet_reference.specs.Recovery.Views.{seen};
ghost use Rattle.charmlet_reference.specs.Recovery.Written.{as_written_from, recovered_as_written};
ghost use Rattle.charmlet_dump.specs.Answers.{Comes, IsAnswer, IsRecovered, IsRefusal, read_of};

use charmlet_disk::Disk;
use charmlet_halves::{Surveyed, survey};
use charmlet_locate::is_processor_count;
use charmlet_model::{Half, KindVersion, Refusal};
use charmlet_reference::{PlainWorld, Recovered, recover_as_written};
use std::alloc::{AllocError, Global};

/// The findings in two halves.
#[derive(Drop)]
pub struct Found {
    /// The world to which the halves recover, in the kind versions that are written.
    pub world: PlainWorld,
    /// How many events led to it.
    pub events: u64,
    /// The generation of the taken image.
    pub generation: u64,
    /// The arrays of the world, each with its kind and its version.
    pub arrays: Vec<(u16, KindVersion)>,
}

/// Finds, by reads alone, the world to which two halves recover, in the kind versions that are
/// written, how many events led to it, and the generation of the taken image. Only the header of
/// the half that isn't taken is read.
///
/// `BadPes` if there aren't 1 to 64 processors, before anything is read; `Damaged` at the first
/// byte of the first field that breaks the format, or of the first record that can't have happened;
/// `NothingHere` if neither half is open; `Memory`; `Device`.
pub fn find<D: Disk>(alloc: Global, disk: &mut D, processors: u16) -> Result<Found, Refusal>
    ensures found { D.honest disk.old →
        IsAnswer processors (read_of (D.file disk.old)) result }
    ensures read { IfOk result IsRecovered }
    ensures err { IfErr result (IsRefusal processors) }
    ensures processors { IfOk result (λ _. is_processor_count processors ≡ true) }
    ensures arrays { IfOk result (λ found. found.arrays.items ≡ found.world.manifest) }
    ensures same { D.honest disk.old → SameFiles (D.file disk.old) (D.file disk.new) }
    ensures any_moment { D.honest disk.old →
        LeavesOnly D.moment D.since disk.old disk.new (MayLeave (D.file disk.old)) }
    ensures honest { (D.honest disk.old → D.honest disk.new)
        × (D.honest disk.new → D.honest disk.old) }
    ensures counted { D.faults disk.new ≡ faults_after (is_no_failure result) (D.faults disk.old) }
{
    if !is_processor_count(processors) {
        return Err(Refusal::BadPes);
    }
    match survey(alloc, disk) {
        Ok(survey) => found_in(alloc, &survey),
        Err(refusal) => Err(refusal),
    }
}

/// The findings in the surveyed half. `Damaged` at the first record that can't have happened;
/// `Memory`.
fn found_in(alloc: Global, survey: &Surveyed) -> Result<Found, Refusal>
    requires { Reads survey.now }
    ensures answer { (s : Saved) → Says survey.now.bytes.items survey.now.contents s →
        Comes (as_written_from (Takes survey.now.half s)) result }
    ensures read { IfOk result IsRecovered }
    ensures err { IfErr result (λ refusal. is_finding_refusal refusal ≡ true) }
    ensures no_failure { is_no_failure result ≡ true }
    ensures arrays { IfOk result (λ found. found.arrays.items ≡ found.world.manifest) }
{
    match recover_taken(alloc, survey)? {
        Recovered::Found {
            world,
            events,
            generation,
        } => {
            let arrays = world.manifest().arrays(alloc)?;
            Ok(Found {
                world,
                events,
                generation,
                arrays,
            })
        }
        Recovered::Damaged { half, offset } => Err(Refusal::Damaged { half, offset }),
        Recovered::Nothing => Err(Refusal::NothingHere),
    }
}

/// The result of recovering the surveyed half as it is written. It fails only when out of memory.
fn recover_taken(alloc: Global, survey: &Surveyed) -> Result<Recovered, AllocError>
    ensures taken { (s : Saved) → Says survey.now.bytes.items survey.now.contents s →
        IfOk result (λ r. seen r ≡ as_written_from (Takes survey.now.half s)) }
    ensures read { IfOk result (λ r. (outcome : CrashBytes)
        × (recovered_as_written outcome ≡ seen r)) }
{
    let bytes = survey.bytes.as_slice();
    match survey.half {
        Half::Zero => recover_as_written(alloc, bytes, &[]),
        Half::One => recover_as_written(alloc, &[], bytes),
    }
}
