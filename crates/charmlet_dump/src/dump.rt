//! The dump of a store that is in two halves.

ghost use Rattle.std.specs.Prelude.{◌≡◌, IfErr, IfOk, Result};
ghost use Rattle.charmlet_disk.specs.Disk.{LeavesOnly, SameFiles, faults_after};
ghost use Rattle.charmlet_disk.specs.File.{MayLeave};
ghost use Rattle.charmlet_halves.specs.Answers.{is_no_failure};
ghost use Rattle.charmlet_model.specs.declared.refusal.Refusal as refusals;
ghost use Rattle.charmlet_dump.specs.Answers.{IsAnswer, IsRecovered, IsRefusal, read_of};
ghost use Rattle.charmlet_dump.specs.Dump.{IsSaid};
ghost use Rattle.charmlet_dump.specs.declared.found.Found as findings;

use crate::found::find;
use crate::output::{Form, write_refusal};
use crate::world_lines::write_world;
use charmlet_disk::Disk;
use charmlet_model::Refusal;
use std::alloc::Global;
use std::io;
use std::io::Write;

/// Why a store isn't dumped.
#[derive(Debug, Drop)]
pub enum DumpError {
    /// No store is found, for this reason. Only its line was written.
    Refused(Refusal),
    /// A line couldn't be written: the output failed, or there was no memory for its text. A
    /// beginning of the dump was written.
    Output(io::Error),
}

/// Dumps the store in the two halves of a disk, in this form: the findings of `find`, with each
/// element at its home on `processors` processors. It only reads the disk.
///
/// If no store is found, the refusal's line is written, as `find` has it. `DumpError` says what
/// each error means.
pub fn dump_store<D: Disk, W: Write>(
    alloc: Global,
    disk: &mut D,
    processors: u16,
    form: Form,
    writer: &mut W,
) -> Result<(), DumpError>
    ensures dumped { (answer : Result findings.Found refusals.Refusal) × IfOk answer IsRecovered
        × IfErr answer (IsRefusal processors)
        × (D.honest disk.old → IsAnswer processors (read_of (D.file disk.old)) answer)
        × (D.faults disk.new ≡ faults_after (is_no_failure answer) (D.faults disk.old))
        × IsSaid form processors answer result (W.contents writer.old) (W.contents writer.new) }
    ensures same { D.honest disk.old → SameFiles (D.file disk.old) (D.file disk.new) }
    ensures any_moment { D.honest disk.old →
        LeavesOnly D.moment D.since disk.old disk.new (MayLeave (D.file disk.old)) }
    ensures honest { (D.honest disk.old → D.honest disk.new)
        × (D.honest disk.new → D.honest disk.old) }
{
    match find(alloc, disk, processors) {
        Ok(found) => match write_world(alloc, writer, form, processors, &found) {
            Ok(()) => Ok(()),
            Err(error) => Err(DumpError::Output(error)),
        },
        Err(refusal) => match write_refusal(alloc, writer, form, refusal) {
            Ok(()) => Err(DumpError::Refused(refusal)),
            Err(error) => Err(DumpError::Output(error)),
        },
    }
}
