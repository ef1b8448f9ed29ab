//! The findings in two halves, for a caller that may restart from them.

ghost use Rattle.std.specs.Prelude.{◌≡◌, true, IfErr, IfOk};
ghost use Rattle.charmlet_model.specs.declared.half.Half.TheVariants as halves;
ghost use Rattle.charmlet_disk.specs.Calls.{AfterCall, IsOnlyRead};
ghost use Rattle.charmlet_image.specs.Images.{Saved};
ghost use Rattle.charmlet_halves.specs.Answers.{is_finding_refusal, is_no_failure};
ghost use Rattle.charmlet_halves.specs.Found as surveys;
ghost use Rattle.charmlet_recover.specs.Found.{IsFoundIn, IsRead, Says};

use crate::half::wanted_in;
use crate::wanted::Wanted;
use charmlet_disk::Disk;
use charmlet_halves::{Surveyed, survey};
use charmlet_image::{ImageView, OpenHalf};
use charmlet_model::{Half, Manifest, Refusal};
use std::alloc::{AllocError, Global};

/// The findings in two halves: the taken one, its header and log, its arrays, and the blanks that a
/// restart needs.
#[derive(Debug, Drop)]
pub struct Found {
    /// The half that is taken.
    pub half: Half,
    /// The generation of the taken half.
    pub generation: u64,
    /// How many events came before the half's image.
    pub before: u64,
    /// How many events are in its open batches.
    pub logged: u64,
    /// The kind version of each array.
    pub manifest: Manifest,
    /// How many blank objects a restart from these halves needs.
    pub wanted: Wanted,
}

/// Reads two halves, and finds which of them is taken, the data of its header and its log, its
/// arrays, and how many blank objects a restart from it needs. It only reads, and syncs nothing.
///
/// `Damaged` names the first field that breaks the format, and `NothingHere` says that neither half
/// is open, as in [`charmlet_halves::survey`]; `Memory`; `Device`. Whether the events can have
/// happened isn't tested.
pub fn manifest<D: Disk>(alloc: Global, disk: &mut D) -> Result<Found, Refusal>
    ensures read { IfOk result IsRead }
    ensures err { IfErr result (λ refusal. is_finding_refusal refusal ≡ true) }
    ensures found { D.honest disk.old → IsFoundIn (D.file disk.old halves.Zero).now
        (D.file disk.old halves.One).now result }
    ensures only_read { D.honest disk.old → IsOnlyRead D.Disk disk.old disk.new }
    ensures disk { AfterCall D.Disk disk.old disk.new (is_no_failure result) }
{
    match survey(alloc, disk) {
        Ok(survey) => match found_in(alloc, &survey) {
            Ok(found) => Ok(found),
            Err(AllocError) => Err(Refusal::Memory),
        },
        Err(refusal) => Err(refusal),
    }
}

/// The findings in the surveyed half. It fails only when out of memory.
fn found_in(alloc: Global, survey: &Surveyed) -> Result<Found, AllocError>
    requires { surveys.Reads survey.now }
    ensures half { IfOk result (λ found. found.half ≡ survey.now.half) }
    ensures says { IfOk result (λ found. (s : Saved) →
        surveys.Says survey.now.bytes.items survey.now.contents s → Says s found) }
{
    let half = survey.reread(alloc)?;
    let wanted = wanted_in(alloc, survey.bytes.as_slice(), &half)?;
    let OpenHalf { image, .. } = half;
    let ImageView { manifest, .. } = image;
    Ok(Found {
        half: survey.half,
        generation: survey.contents.header.generation,
        before: survey.contents.header.events,
        logged: survey.contents.logged,
        manifest,
        wanted,
    })
}
