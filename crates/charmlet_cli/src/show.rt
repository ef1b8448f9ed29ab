//! The showing of a store that is in two halves.

ghost use Rattle.std.specs.Prelude.{◌≡◌, IfOk, Result};
ghost use Rattle.std.specs.List.{flat_map};
ghost use Rattle.charmlet_model.specs.declared.half.Half.TheVariants as halves;
ghost use Rattle.charmlet_model.specs.declared.kind.Kind.{Kind};
ghost use Rattle.charmlet_model.specs.declared.refusal.Refusal.{Refusal};
ghost use Rattle.charmlet_disk.specs.Disk.{LeavesOnly, SameFiles, faults_after};
ghost use Rattle.charmlet_disk.specs.File.{MayLeave};
ghost use Rattle.charmlet_halves.specs.Answers.{is_no_failure};
ghost use Rattle.charmlet_engine.specs.found.Found.{Found};
ghost use Rattle.charmlet_engine.specs.Found.{IsFoundIn, IsRead};
ghost use Rattle.charmlet_cli.specs.FoundLines.{array_texts, count_texts, found_texts, wanted_texts};
ghost use Rattle.charmlet_script_output.specs.Writing.{in_lines, Writes};
ghost use Rattle.charmlet_cli.specs.ShowStore.{IsSaid, found_of};
ghost use Rattle.charmlet_script_output.specs.Shown.{all_kinds};

use crate::found_lines::{ArrayLine, HalfLine, WantedLine};
use charmlet_disk::Disk;
use charmlet_engine::{Found, Wanted, manifest};
use charmlet_model::{Answer, Kind, KindVersion, Refusal};
use charmlet_script_output::{ExitReason, write_answer, write_line};
use std::alloc::{AllocError, Global};
use std::io;
use std::io::Write;

/// Why a store isn't shown.
#[derive(Debug, Drop)]
pub enum ShowError {
    /// No store is found, for this reason. Only its line was written.
    Refused(Refusal),
    /// A line couldn't be written: the output failed, or there was no memory for its text. A
    /// beginning of the output was written.
    Output(io::Error),
}

impl From<ShowError> for ExitReason {
    ghost use Rattle.std.specs.Prelude.{◌≡◌};
    ghost use Rattle.charmlet_cli.specs.ShowStore.{stop_shown};

    ghost from_gives = { λ error stop. stop ≡ stop_shown error };

    fn from(error: ShowError) -> ExitReason {
        match error {
            ShowError::Refused(refusal) => ExitReason::NotShown(refusal),
            ShowError::Output(_) => ExitReason::CannotGoOn,
        }
    }
}

/// Shows the findings in the two halves of a disk, and only reads the disk. It shows the taken
/// half, with its generation, how many events came before its image and how many its log has; then
/// each array with its kind and its version; then how many blank objects of each kind a restart
/// needs, if it needs any.
///
/// If no store is found, the refusal's line is written: `Damaged`, `NothingHere`, `Memory` or
/// `Device`, as [`charmlet_engine::manifest`] has them. `ShowError` says what each error means.
pub fn show_store<D: Disk, W: Write>(
    alloc: Global,
    disk: &mut D,
    writer: &mut W,
) -> Result<(), ShowError>
    ensures shown { (answer : Result Found Refusal) × IfOk answer IsRead
        × (D.honest disk.old → IsFoundIn (D.file disk.old halves.Zero).now
        (D.file disk.old halves.One).now answer)
        × (D.faults disk.new ≡ faults_after (is_no_failure answer) (D.faults disk.old))
        × IsSaid answer result (W.contents writer.old) (W.contents writer.new) }
    ensures same { D.honest disk.old → SameFiles (D.file disk.old) (D.file disk.new) }
    ensures any_moment { D.honest disk.old →
        LeavesOnly D.moment D.since disk.old disk.new (MayLeave (D.file disk.old)) }
    ensures honest { (D.honest disk.old → D.honest disk.new)
        × (D.honest disk.new → D.honest disk.old) }
{
    match list_found(alloc, disk) {
        Ok(listed) => match write_found(alloc, writer, &listed) {
            Ok(()) => Ok(()),
            Err(error) => Err(ShowError::Output(error)),
        },
        Err(refusal) => match write_answer(alloc, writer, &Answer::Refused(refusal)) {
            Ok(()) => Err(ShowError::Refused(refusal)),
            Err(error) => Err(ShowError::Output(error)),
        },
    }
}

/// The findings, with the arrays in a list.
#[derive(Drop)]
struct Listed {
    found: Found,
    arrays: Vec<(u16, KindVersion)>,
}

/// The findings in the two halves of a disk, and the list of the arrays. The refusals are those of
/// [`charmlet_engine::manifest`].
fn list_found<D: Disk>(alloc: Global, disk: &mut D) -> Result<Listed, Refusal>
    ensures found { D.honest disk.old → IsFoundIn (D.file disk.old halves.Zero).now
        (D.file disk.old halves.One).now (found_of result) }
    ensures read { IfOk (found_of result) IsRead }
    ensures arrays { IfOk result (λ listed. listed.arrays.items ≡ listed.found.manifest) }
    ensures same { D.honest disk.old → SameFiles (D.file disk.old) (D.file disk.new) }
    ensures any_moment { D.honest disk.old →
        LeavesOnly D.moment D.since disk.old disk.new (MayLeave (D.file disk.old)) }
    ensures honest { (D.honest disk.old → D.honest disk.new)
        × (D.honest disk.new → D.honest disk.old) }
    ensures counted { D.faults disk.new ≡ faults_after (is_no_failure (found_of result))
        (D.faults disk.old) }
{
    match manifest(alloc, disk) {
        Ok(found) => match found.manifest.arrays(alloc) {
            Ok(arrays) => Ok(Listed { found, arrays }),
            Err(AllocError) => Err(Refusal::Memory),
        },
        Err(refusal) => Err(refusal),
    }
}

/// Writes the findings. Fails as `write_line` does, and the lines before stay written.
fn write_found<W: Write>(alloc: Global, writer: &mut W, listed: &Listed) -> io::Result<()>
    requires { listed.now.arrays.items ≡ listed.now.found.manifest }
    ensures { Writes result (W.contents writer.old) (W.contents writer.new)
        (in_lines (found_texts listed.now.found)) }
{
    let found = &listed.found;
    let half = HalfLine {
        half: found.half,
        generation: found.generation,
        base: found.before,
        log: found.logged,
    };
    write_line(alloc, writer, &half)?;
    write_arrays(alloc, writer, listed.arrays.as_slice())?;
    write_wanted(alloc, writer, &found.wanted)
}

/// Writes each array with its kind and its version.
fn write_arrays<W: Write>(
    alloc: Global,
    writer: &mut W,
    arrays: &[(u16, KindVersion)],
) -> io::Result<()>
    ensures { Writes result (W.contents writer.old) (W.contents writer.new)
        (in_lines (flat_map array_texts arrays.now)) }
{
    for (array, kind_version) in arrays {
        let line = ArrayLine {
            array: *array,
            kind_version: *kind_version,
        };
        write_line(alloc, writer, &line)?;
    }
    Ok(())
}

/// Writes how many blanks of each kind are wanted, if any are.
fn write_wanted<W: Write>(alloc: Global, writer: &mut W, wanted: &Wanted) -> io::Result<()>
    ensures { Writes result (W.contents writer.old) (W.contents writer.new)
        (in_lines (flat_map (wanted_texts wanted.now) all_kinds)) }
{
    for kind in &Kind::ALL {
        write_count(alloc, writer, *kind, wanted.of(*kind))?;
    }
    Ok(())
}

/// Writes how many blanks of a kind are wanted, if any are.
fn write_count<W: Write>(alloc: Global, writer: &mut W, kind: Kind, count: u64) -> io::Result<()>
    ensures { Writes result (W.contents writer.old) (W.contents writer.new)
        (in_lines (count_texts kind count)) }
{
    if count == 0 {
        return Ok(());
    }
    write_line(alloc, writer, &WantedLine { kind, count })
}
