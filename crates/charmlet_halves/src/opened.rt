//! Halves that are there already.

ghost use Rattle.std.specs.Prelude.{◌≡◌, ◌≤◌, ◌^◌, true, List, ℕ, IfErr, IfOk};
ghost use Rattle.charmlet_model.specs.declared.half.Half.TheVariants as halves;
ghost use Rattle.charmlet_disk.specs.Calls.{AfterCall, IsOnlyRead};
ghost use Rattle.charmlet_disk.specs.Disk.{IsSettled};
ghost use Rattle.charmlet_image.specs.Images.{Saved, spell_half};
ghost use Rattle.charmlet_halves.specs.Answers.{is_finding_refusal, is_no_failure};
ghost use Rattle.charmlet_halves.specs.Found.{Finds, Reads, Says};
ghost use Rattle.charmlet_halves.specs.Halves.{text_of};
ghost use Rattle.charmlet_halves.specs.Opened.{disk_after, survey_of, OpensAs};

use crate::halves::Halves;
use crate::surveyed::{Surveyed, survey};
use charmlet_disk::Disk;
use charmlet_model::Refusal;
use std::alloc::Global;
use std::error::Error;
use std::fmt;

/// Why a call was refused, and the disk that it was given.
#[derive(Drop)]
pub struct Refused<D: Drop> {
    pub refusal: Refusal,
    pub disk: D,
}

/// Writes the refusal.
impl<D: Drop> fmt::Display for Refused<D> {
    ghost use Rattle.std.specs.Prelude.{Some};
    ghost use Rattle.charmlet_model.specs.Texts.{refusal_text};

    ghost output = { λ refused. Some (refusal_text refused.refusal) };

    fn fmt<W: fmt::Write>(&self, f: &mut fmt::Formatter<W>) -> fmt::Result {
        let refusal = self.refusal;
        write!(f, "{refusal}")
    }
}

impl<D: Drop> fmt::Debug for Refused<D> {
    fn fmt<W: fmt::Write>(&self, f: &mut fmt::Formatter<W>) -> fmt::Result {
        let refusal = self.refusal;
        write!(f, "Refused {refusal}")
    }
}

/// An error with the refusal's text, so that `?` works for callers that want the text alone.
impl<D: Drop> Error for Refused<D> {}

/// Two halves, and what was found in the taken one.
#[derive(Drop)]
pub struct Opened<D: Disk> {
    pub halves: Halves<D>,
    pub survey: Surveyed,
}

impl<D: Disk> Halves<D> {
    /// Opens the halves of a settled disk, by reads alone, with what [`survey`] finds in them. Each
    /// refusal is that of [`survey`], and hands the disk back: `Damaged`; `NothingHere`; `Memory`;
    /// `Device`.
    pub fn open(alloc: Global, disk: D) -> Result<Opened<D>, Refused<D>>
        requires { D.honest disk → IsSettled (D.file disk) }
        ensures finds { D.honest disk →
            Finds (D.file disk halves.Zero).now (D.file disk halves.One).now (survey_of result) }
        ensures reads { IfOk result (λ opened. Reads opened.survey × OpensAs opened) }
        ensures err { IfErr result (λ refused. is_finding_refusal refused.refusal ≡ true) }
        ensures text { D.honest disk → IfOk result (λ opened. (s : Saved) →
            Says opened.survey.bytes.items opened.survey.contents s
            → text_of opened.halves ≡ spell_half s) }
        ensures only_read { D.honest disk → IsOnlyRead D.Disk disk (disk_after result) }
        ensures disk { AfterCall D.Disk disk (disk_after result)
            (is_no_failure (survey_of result)) }
    {
        let mut disk = disk;
        match survey(alloc, &mut disk) {
            Ok(survey) => {
                let halves = Halves {
                    disk,
                    taken: survey.half,
                    generation: survey.contents.header.generation,
                    log_end: survey.contents.log_end,
                    spare_closed: survey.spare_closed,
                    prepared: None,
                    halted: false,
                };
                Ok(Opened { halves, survey })
            }
            Err(refusal) => Err(Refused { refusal, disk }),
        }
    }
}
