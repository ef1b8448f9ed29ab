//! The readers of scripts.

ghost use Rattle.std.specs.Prelude.{◌≡◌, ◌≢◌, ◌+◌, ◌<◌, ◌≤◌, ◌==◌, IfErr, IfOk, IfSome, OnOk, length, map, take};
ghost use Rattle.std.specs.IoError.{error_kind};
ghost use Rattle.std.specs.List.{list_any};
ghost use Rattle.std.specs.declared.io.ErrorKind.TheVariants.{Interrupted};
ghost use Rattle.charmlet_script.specs.Script.{most_lines, no_lines};
ghost use Rattle.charmlet_script.specs.declared.reading.TheConstants.{MAX_LENGTH};
ghost use Rattle.charmlet_script.specs.Reading.{Answers, AreFor, TellsFailure, LeavesLines, has_array, is_array_line, lines_spell, may_add, may_declare, may_follow, restart_lines_spell, restart_script_of, script_of, with_array, with_handler, with_item, with_line, with_lines, with_processors, within};

use crate::draft::{Draft, Purpose};
use crate::error::{LineFault, ReadError};
use crate::line::{Item, item_of};
use crate::restart::RestartScript;
use crate::runner::Runner;
use crate::script::{ArrayLine, HandlerLine, Line, Script};
use crate::split::parts;
use charmlet_model::{MAX_ARRAYS, Step};
use std::alloc::{AllocError, Global};
use std::io;
use std::io::Read;

/// The greatest length of a script, in bytes.
pub const MAX_LENGTH: usize = 1_048_576;

/// A byte that no line may contain.
const BEYOND: u8 = 255;

fn has_array(arrays: &[ArrayLine], array: u16) -> bool
    ensures { result ≡ has_array array arrays.now }
{
    arrays.iter().any(|other| other.array == array)
}

/// Whether an array line may stand here: in the header of a run's script, before the other lines,
/// once for an array, and at most 64 times.
fn may_add(purpose: Purpose, script: &Draft, line: ArrayLine) -> bool
    ensures { result ≡ may_add purpose script.now line }
{
    if !purpose.describes_store {
        return false;
    }
    let arrays = script.arrays();
    if !script.lines().is_empty() || arrays.len() >= MAX_ARRAYS {
        return false;
    }
    !has_array(arrays, line.array)
}

#[tactic(auto, unfolding(crate::specs::Reading::with_array))]
fn add_array(purpose: Purpose, script: &mut Draft, line: ArrayLine) -> Result<(), LineFault>
    ensures { LeavesLines result script.new (with_array purpose script.old line) }
{
    if !may_add(purpose, script, line) {
        return Err(LineFault::Malformed);
    }
    script.push_array(line)?;
    Ok(())
}

/// Whether a `pes` line may stand here: in the header of a run's script, before the other lines,
/// once.
fn may_declare(purpose: Purpose, script: &Draft) -> bool
    ensures { result ≡ may_declare purpose script.now }
{
    purpose.describes_store && script.lines().is_empty() && script.declared_processors().is_none()
}

#[tactic(auto, unfolding(crate::specs::Reading::with_processors))]
fn add_processors(purpose: Purpose, script: &mut Draft, processors: u16) -> Result<(), LineFault>
    ensures { LeavesLines result script.new (with_processors purpose script.old processors) }
{
    if !may_declare(purpose, script) {
        return Err(LineFault::Malformed);
    }
    script.declare_processors(processors);
    Ok(())
}

/// Adds a handler, if its line may stand there: in a header, before the other lines.
#[tactic(auto, unfolding(crate::specs::Reading::with_handler))]
fn add_handler(script: &mut Draft, line: HandlerLine) -> Result<(), LineFault>
    ensures { LeavesLines result script.new (with_handler script.old line) }
{
    if !script.lines().is_empty() {
        return Err(LineFault::Malformed);
    }
    script.push_handler(line)?;
    Ok(())
}

/// Whether a line may stand after the header: if workers deliver, a `deliver` line may not.
fn may_follow(runner: Runner, line: &Line) -> bool
    ensures { result ≡ may_follow runner line.now }
{
    match (runner, line) {
        (Runner::Workers, Line::Step(Step::Deliver { .. })) => false,
        _ => true,
    }
}

/// Adds the item of a line, if it may stand there.
#[tactic(auto, unfolding(crate::specs::Reading::with_item))]
fn add_item(purpose: Purpose, script: &mut Draft, item: Item) -> Result<(), LineFault>
    ensures { LeavesLines result script.new (with_item purpose script.old item) }
{
    match item {
        Item::Skipped => Ok(()),
        Item::Processors(processors) => add_processors(purpose, script, processors),
        Item::Array(line) => add_array(purpose, script, line),
        Item::Handler(line) => add_handler(script, line),
        Item::Line(line) => {
            if !may_follow(purpose.runner, &line) {
                return Err(LineFault::Malformed);
            }
            script.push_line(line)?;
            Ok(())
        }
    }
}

/// Adds the next line of a script.
#[tactic(auto, unfolding(crate::specs::Reading::with_line))]
fn add_line(
    alloc: Global,
    purpose: Purpose,
    script: &mut Draft,
    line: &[u8],
) -> Result<(), LineFault>
    ensures { LeavesLines result script.new (with_line purpose script.old line.now) }
{
    let item = item_of(alloc, line)?;
    add_item(purpose, script, item)
}

/// Whether the line spells an array.
fn is_array_line(alloc: Global, line: &[u8]) -> Result<bool, AllocError>
    ensures { IfOk result (λ found. found ≡ is_array_line line.now) }
{
    match item_of(alloc, line) {
        Ok(Item::Array(_)) => Ok(true),
        Ok(_) | Err(LineFault::Malformed) => Ok(false),
        Err(LineFault::Memory) => Err(AllocError),
    }
}

fn has_array_line(alloc: Global, lines: &[&[u8]]) -> Result<bool, AllocError>
    ensures { IfOk result (λ found. found
        ≡ list_any is_array_line (map (λ line. line.now) lines.now)) }
{
    for line in lines {
        if is_array_line(alloc, line)? {
            return Ok(true);
        }
    }
    Ok(false)
}

/// Reads lines up to the first malformed one.
fn add_lines(alloc: Global, purpose: Purpose, lines: &[&[u8]]) -> Result<Draft, ReadError>
    ensures reads { Answers result (with_lines purpose no_lines 1
        (map (λ line. line.now) lines.now)) }
    ensures lines { IfOk result (λ script. AreFor purpose.runner script.lines) }
    ensures few { IfOk result (λ script. length script.lines ≤ length lines.now) }
    ensures failure { IfErr result TellsFailure }
{
    let mut script = Draft::new(alloc);
    for (index, line) in lines.iter().enumerate() {
        match add_line(alloc, purpose, &mut script, line) {
            Ok(()) => {}
            Err(LineFault::Memory) => return Err(ReadError::Memory),
            Err(LineFault::Malformed) => return Err(ReadError::Malformed(index as u64 + 1)),
        }
    }
    Ok(script)
}

/// The script of a run that lines spell.
#[tactic(auto, unfolding(crate::specs::Reading::lines_spell))]
fn read_lines(alloc: Global, runner: Runner, lines: &[&[u8]]) -> Result<Script, ReadError>
    requires { length lines.now ≤ most_lines }
    ensures reads { Answers result (lines_spell runner (map (λ line. line.now) lines.now)) }
    ensures lines { IfOk result (λ script. AreFor runner script.lines) }
    ensures failure { IfErr result TellsFailure }
{
    if !has_array_line(alloc, lines)? {
        return Err(ReadError::Malformed(1));
    }
    let purpose = Purpose {
        describes_store: true,
        runner,
    };
    let script = add_lines(alloc, purpose, lines)?;
    Ok(script.finish())
}

/// The script of a restart that lines spell.
#[tactic(auto, unfolding(crate::specs::Reading::restart_lines_spell))]
fn read_restart_lines(
    alloc: Global,
    runner: Runner,
    lines: &[&[u8]],
) -> Result<RestartScript, ReadError>
    requires { length lines.now ≤ most_lines }
    ensures reads { Answers result (restart_lines_spell runner
        (map (λ line. line.now) lines.now)) }
    ensures lines { IfOk result (λ script. AreFor runner script.lines) }
    ensures failure { IfErr result TellsFailure }
{
    let purpose = Purpose {
        describes_store: false,
        runner,
    };
    let script = add_lines(alloc, purpose, lines)?;
    Ok(script.finish_restart())
}

/// The reader's bytes, up to one past the greatest length of a script.
fn read_start<R: Read>(alloc: Global, reader: &mut R) -> Result<Vec<u8>, io::Error>
    ensures reads { IfSome (R.remaining reader.old)
        (λ bytes. IfOk result (λ text. text.items ≡ take (MAX_LENGTH + 1) bytes)) }
    ensures retried { IfErr result (λ error. error_kind error ≢ Interrupted) }
{
    let mut text = Vec::new(alloc);
    let mut limited = Read::take(reader, MAX_LENGTH as u64 + 1);
    limited.read_to_end(&mut text)?;
    Ok(text)
}

/// Replaces the bytes past the greatest length by one byte that no line may contain.
#[tactic(auto, unfolding(crate::specs::Reading::within))]
fn cut(text: &mut Vec<u8>) -> Result<(), AllocError>
    ensures text { OnOk result (text.new.items ≡ within MAX_LENGTH text.old.items) }
    ensures length { OnOk result (length text.new.items ≤ MAX_LENGTH + 1) }
{
    if text.len() > MAX_LENGTH {
        text.truncate(MAX_LENGTH);
        text.push(BEYOND)?;
    }
    Ok(())
}

/// The reader's text. The bytes past the greatest length count as one byte that no line may
/// contain.
fn read_text<R: Read>(alloc: Global, reader: &mut R) -> Result<Vec<u8>, io::Error>
    ensures reads { IfSome (R.remaining reader.old)
        (λ bytes. IfOk result (λ text. text.items ≡ within MAX_LENGTH bytes)) }
    ensures length { IfOk result (λ text. length text.items ≤ MAX_LENGTH + 1) }
    ensures retried { IfErr result (λ error. error_kind error ≢ Interrupted) }
{
    let mut text = read_start(alloc, reader)?;
    cut(&mut text)?;
    Ok(text)
}

/// The text of a script, in the form that its readers take: the first 1,048,576 bytes, and, if
/// there are more, one byte that no line may contain.
#[derive(Drop)]
pub struct ScriptText {
    bytes: Vec<u8>,
    ghost length: { length bytes.items ≤ MAX_LENGTH + 1 },
}

impl ScriptText {
    ghost use Rattle.std.specs.Prelude.{◌≡◌, ◌≤◌, ◌+◌, IfErr, IfOk, IfSome, length};
    ghost use Rattle.charmlet_script.specs.Reading.{Answers, AreFor, IsUnread, TellsFailure, lines_of, lines_spell, restart_lines_spell, within};

    /// Reads the text of a script, and at most one byte past its greatest length. If a read fails,
    /// it answers `ReadError::Failed`, and when out of memory, `ReadError::Memory`. An interrupted
    /// read is tried again. After an error the reader has given any part of its bytes.
    pub fn read<R: Read>(alloc: Global, reader: &mut R) -> Result<ScriptText, ReadError>
        ensures reads { IfSome (R.remaining reader.old)
            (λ bytes. IfOk result (λ text. text.bytes.items ≡ within MAX_LENGTH bytes)) }
        ensures failure { IfErr result IsUnread }
    {
        let bytes = read_text(alloc, reader)?;
        Ok(ScriptText { bytes })
    }

    /// The bytes of the text.
    pub fn as_bytes(&self) -> &[u8]
        ensures { result.now ≡ self.now.bytes.items }
    {
        self.bytes.as_slice()
    }

    /// The script of a run that the text spells, as [`read_script`] answers it.
    pub fn script(&self, alloc: Global, runner: Runner) -> Result<Script, ReadError>
        ensures reads { Answers result (lines_spell runner (lines_of self.now.bytes.items)) }
        ensures lines { IfOk result (λ script. AreFor runner script.lines) }
        ensures failure { IfErr result TellsFailure }
    {
        let lines = parts(alloc, &self.bytes, b'\n')?;
        read_lines(alloc, runner, &lines)
    }

    /// The script of a restart that the text spells, as [`read_restart_script`] answers it.
    pub fn restart_script(&self, alloc: Global, runner: Runner) -> Result<RestartScript, ReadError>
        ensures reads { Answers result (restart_lines_spell runner (lines_of self.now.bytes.items)) }
        ensures lines { IfOk result (λ script. AreFor runner script.lines) }
        ensures failure { IfErr result TellsFailure }
    {
        let lines = parts(alloc, &self.bytes, b'\n')?;
        read_restart_lines(alloc, runner, &lines)
    }
}

/// Reads the script of a run, of at most 1,048,576 bytes, and at most one byte after these.
///
/// If a line is malformed, it answers `ReadError::Malformed` with the number of the first such
/// line, or with 1 if no line spells an array. If workers deliver, a `deliver` line is malformed
/// wherever it stands. If a read fails, it answers `ReadError::Failed`, and when out of memory,
/// `ReadError::Memory`. An interrupted read is tried again. After an error the reader has given any
/// part of its bytes.
#[tactic(auto, using(crate::proofs::Limit::unread_is))]
pub fn read_script<R: Read>(
    alloc: Global,
    reader: &mut R,
    runner: Runner,
) -> Result<Script, ReadError>
    ensures reads { IfSome (R.remaining reader.old)
        (λ bytes. Answers result (script_of runner bytes)) }
    ensures lines { IfOk result (λ script. AreFor runner script.lines) }
    ensures failure { IfErr result TellsFailure }
{
    ScriptText::read(alloc, reader)?.script(alloc, runner)
}

/// Reads the script of a restart, of at most 1,048,576 bytes, and at most one byte after these. The
/// header of such a script is its `handler` lines, and it may have no line at all.
///
/// If a line is malformed, it answers `ReadError::Malformed` with the number of the first such
/// line. An `array` line and a `pes` line are malformed wherever they stand, and if workers
/// deliver, a `deliver` line is too. If a read fails, it answers `ReadError::Failed`, and when out
/// of memory, `ReadError::Memory`. An interrupted read is tried again. After an error the reader
/// has given any part of its bytes.
#[tactic(auto, using(crate::proofs::Limit::unread_is))]
pub fn read_restart_script<R: Read>(
    alloc: Global,
    reader: &mut R,
    runner: Runner,
) -> Result<RestartScript, ReadError>
    ensures reads { IfSome (R.remaining reader.old)
        (λ bytes. Answers result (restart_script_of runner bytes)) }
    ensures lines { IfOk result (λ script. AreFor runner script.lines) }
    ensures failure { IfErr result TellsFailure }
{
    ScriptText::read(alloc, reader)?.restart_script(alloc, runner)
}
