//! Runs of scripts over a new store.

ghost use Rattle.std.specs.Prelude.{◌≡◌, ◌+◌, ◌≤◌, ℕ, List, Some, OnOk, OnErr, IfErr, IfOk};
ghost use Rattle.charmlet_model.specs.declared.kind.Kind.{Kind};
ghost use Rattle.charmlet_model.specs.KindVersion.{AreNewest};
ghost use Rattle.charmlet_model.specs.Manifest.{manifest_of};
ghost use Rattle.charmlet_script.specs.Script.{blanks_in, blanks_of, pairs_of};
ghost use Rattle.charmlet_script.specs.declared.script.Line.TheVariants as lines;
ghost use Rattle.charmlet_model.specs.declared.names.Elem as names;
ghost use Rattle.charmlet_model.specs.declared.step.Step.TheVariants as steps;
ghost use Rattle.charmlet_requests.specs.Handlers.{IsTarget};
ghost use Rattle.charmlet_engine.specs.Engine.{world_of};
ghost use Rattle.charmlet_stock.specs.Stock.{part_of};
ghost use Rattle.charmlet_script_output.specs.Supplied.{AreEnough, blanks_left};
ghost use Rattle.charmlet_script_output.specs.Ledgers.{ledger_in};
ghost use Rattle.charmlet_script_output.specs.Named.{named_by};
ghost use Rattle.charmlet_cli.specs.Lines.{AreRun, BreakOff, IsAnswered, IsPrinted, named_at, no_names};
ghost use Rattle.charmlet_cli.specs.RunError.{EndsRun, Lacks, Leaves};
ghost use Rattle.charmlet_cli.specs.Run.{IsRun};
ghost use Rattle.charmlet_disk.specs.Disk.{IsSettled};
ghost use Rattle.charmlet_engine.specs.Advances.{Advances};
ghost use Rattle.charmlet_cli.specs.declared.new_run.RunError.TheVariants as errors;

use crate::desk::Desk;
use crate::drain::drain_line;
use crate::inquiries::{census_line, pending_line, state_line};
use charmlet_chare::Chare;
use charmlet_disk::Disk;
use charmlet_engine::Engine;
use charmlet_halves::Refused;
use charmlet_history::Request;
use charmlet_model::{Answer, Kind, Manifest, Refusal, Step};
use charmlet_script::{Line, Script, Supplied};
use charmlet_script_output::{
    Call, ExitReason, has_enough, stock_from_supplies, supplied_by, told_answer, write_answer,
    write_line, write_memory_refused, write_step_answer,
};
use charmlet_stock::Stock;
use std::alloc::{AllocError, Global};
use std::io;
use std::io::Write;

/// Why a script wasn't run to its last line.
#[derive(Drop)]
pub enum RunError<C: Chare> {
    /// There are fewer objects of a kind than the script supplies. All objects come back, and
    /// nothing was written.
    TooFewBlanks(Vec<C>),
    /// The store wasn't created, for this reason. Only its line was written, and no line was run.
    NotCreated(Refusal),
    /// Memory ran out before the store was created. Nothing was written.
    Memory,
    /// A line couldn't be written: the output failed, or there was no memory for its text. A
    /// beginning of what the script prints was written.
    Output(io::Error),
}

impl<C: Chare> From<AllocError> for RunError<C> {
    ghost from_gives = { λ _ error. error ≡ errors.Memory };

    fn from(_error: AllocError) -> Self {
        RunError::Memory
    }
}

impl<C: Chare> From<io::Error> for RunError<C> {
    ghost from_gives = { λ e error. error ≡ errors.Output e };

    fn from(error: io::Error) -> Self {
        RunError::Output(error)
    }
}

impl<C: Chare> From<RunError<C>> for ExitReason {
    ghost use Rattle.std.specs.Prelude.{◌≡◌};
    ghost use Rattle.charmlet_cli.specs.RunError.{stop_after};

    ghost from_gives = { λ error stop. stop ≡ stop_after error };

    fn from(error: RunError<C>) -> ExitReason {
        match error {
            RunError::NotCreated(refusal) => ExitReason::NotCreated(refusal),
            RunError::TooFewBlanks(_) | RunError::Memory | RunError::Output(_) =>
                ExitReason::CannotGoOn,
        }
    }
}

/// The result of a script's run: the disk, which comes back in any case, and whether each line was
/// run.
#[derive(Drop)]
pub struct Ran<D: Disk, C: Chare> {
    pub disk: D,
    pub result: Result<(), RunError<C>>,
}

/// Makes the script's store on a disk, runs its lines there, and writes their output: everything
/// that a line prints is written before the next line is run. The writer is flushed after each
/// flush and each checkpoint, and before each drain, and not at the end. `blanks` are the objects
/// that the script's lines supply; any more are dropped at the end. A refusal is an answer, and the
/// run goes on. The disk has to be settled, and comes back in any case.
///
/// No store is made if the script's number of processors is outside 1 to 64, `BadPes`; a half of
/// the disk is open, `AlreadyHere`; it is out of memory, `Memory`; or the device fails, `Device`.
/// Then the refusal is written, no line is run, and all objects are dropped.
///
/// On an honest disk a crash at any moment of the run leaves files that recover to nothing, or to
/// the world after some of the run's history. From the end of each line on, that world has all
/// events that were durable then: whatever a line has told, or counted as durable, stays so. The
/// same holds from the run's end on, whether each line was run or not.
///
/// The disk's count of failures grows by one for each `Device` answer, and for nothing else. The
/// disk is as honest as before.
///
/// `RunError` says what each error means. Whether there are too few objects is tested before the
/// number of processors.
pub fn run_script<D: Disk, C: Chare, W: Write>(
    alloc: Global,
    disk: D,
    script: &Script,
    blanks: Vec<C>,
    writer: &mut W,
) -> Ran<D, C>
    requires settled { D.honest disk → IsSettled (D.file disk) }
    ensures enough { OnOk result.result (AreEnough C.state blanks.items script.now.lines) }
    ensures ran { OnOk result.result (IsRun D.Disk disk result.disk script.now
        (W.contents writer.old) (W.contents writer.new)) }
    ensures err { IfErr result.result (Leaves D.Disk C.state W.contents disk result.disk
        blanks.items script.now writer.old writer.new) }
    ensures honest { (D.honest disk → D.honest result.disk)
        × (D.honest result.disk → D.honest disk) }
{
    match prepare(alloc, script, blanks) {
        Ok(prepared) => run_in_new_store(alloc, disk, script, prepared, writer),
        Err(error) => Ran {
            disk,
            result: Err(error),
        },
    }
}

/// The beginning of a script's run: the arrays of its store, its handlers, and the blanks that it
/// supplies.
#[derive(Drop)]
struct Prepared<C: Chare> {
    manifest: Manifest,
    desk: Desk,
    source: Stock<C>,
}

/// The arrays of a script's store, its handlers, and a stock of the objects that its lines supply.
/// `TooFewBlanks` if there are fewer; otherwise `Memory`.
fn prepare<C: Chare>(
    alloc: Global,
    script: &Script,
    blanks: Vec<C>,
) -> Result<Prepared<C>, RunError<C>>
    ensures enough { OnOk result (AreEnough C.state blanks.items script.now.lines) }
    ensures manifest { IfOk result (λ prepared. manifest_of (pairs_of script.now.arrays)
        ≡ Some prepared.manifest) }
    ensures newest { IfOk result (λ prepared. AreNewest prepared.manifest) }
    ensures named { IfOk result (λ prepared. (name : List ℕ) →
        named_at prepared.desk name ≡ named_by script.now.handlers name) }
    ensures left { IfOk result (λ prepared. (kind : Kind) →
        blanks_of kind script.now.lines ≤ blanks_left prepared.source kind) }
    ensures err { IfErr result (Lacks C.state blanks.items script.now) }
{
    if !has_enough(&supplied_by(script), blanks.as_slice()) {
        return Err(RunError::TooFewBlanks(blanks));
    }
    let manifest = script.manifest(alloc)?;
    let desk = Desk::new(alloc, script.handlers())?;
    let source = stock_from_supplies(alloc, blanks)?;
    Ok(Prepared {
        manifest,
        desk,
        source,
    })
}

/// Creates the script's store and runs its lines there, or writes why there is no store.
fn run_in_new_store<D: Disk, C: Chare, W: Write>(
    alloc: Global,
    disk: D,
    script: &Script,
    prepared: Prepared<C>,
    writer: &mut W,
) -> Ran<D, C>
    requires settled { D.honest disk → IsSettled (D.file disk) }
    requires manifest { manifest_of (pairs_of script.now.arrays) ≡ Some prepared.manifest }
    requires newest { AreNewest prepared.manifest }
    requires named { (name : List ℕ) →
        named_at prepared.desk name ≡ named_by script.now.handlers name }
    requires enough { (kind : Kind) → blanks_of kind script.now.lines
        ≤ blanks_left prepared.source kind }
    ensures ran { OnOk result.result (IsRun D.Disk disk result.disk script.now
        (W.contents writer.old) (W.contents writer.new)) }
    ensures err { IfErr result.result (EndsRun D.Disk disk result.disk script.now
        (W.contents writer.old) (W.contents writer.new)) }
    ensures honest { (D.honest disk → D.honest result.disk)
        × (D.honest result.disk → D.honest disk) }
{
    let Prepared {
        manifest,
        mut desk,
        mut source,
    } = prepared;
    match Engine::create(alloc, disk, manifest, script.processors()) {
        Ok(mut engine) => {
            let lines = script.lines();
            let ran = run_lines(alloc, &mut engine, &mut desk, &mut source, lines, writer);
            engine.facts();
            match ran {
                Ok(()) => Ran {
                    disk: engine.into_disk(),
                    result: Ok(()),
                },
                Err(error) => Ran {
                    disk: engine.into_disk(),
                    result: Err(RunError::Output(error)),
                },
            }
        }
        Err(Refused { refusal, disk }) => {
            match write_answer(alloc, writer, &Answer::Refused(refusal)) {
                Ok(()) => Ran {
                    disk,
                    result: Err(RunError::NotCreated(refusal)),
                },
                Err(error) => Ran {
                    disk,
                    result: Err(RunError::Output(error)),
                },
            }
        }
    }
}

/// Runs lines one after another.
pub(crate) fn run_lines<D: Disk, C: Chare, W: Write>(
    alloc: Global,
    engine: &mut Engine<D, C>,
    desk: &mut Desk,
    source: &mut Stock<C>,
    lines: &[Line],
    writer: &mut W,
) -> io::Result<()>
    requires enough { (kind : Kind) → blanks_of kind lines.now ≤ blanks_left source.old kind }
    ensures prints { OnOk result (AreRun D.Disk (named_at desk.old) (ledger_in engine.new)
        (ledger_in engine.old)
        lines.now (ledger_in engine.new) (W.contents writer.old) (W.contents writer.new)) }
    ensures breaks_off { OnErr result (BreakOff D.Disk (named_at desk.old)
        (ledger_in engine.old) lines.now
        (ledger_in engine.new) (W.contents writer.old) (W.contents writer.new)) }
    ensures advances { Advances D.Disk engine.old engine.new }
{
    engine.facts();
    for line in lines {
        run_line(alloc, engine, desk, source, line, writer)?;
        engine.facts();
    }
    Ok(())
}

/// Runs one line, and writes its answers.
fn run_line<D: Disk, C: Chare, W: Write>(
    alloc: Global,
    engine: &mut Engine<D, C>,
    desk: &mut Desk,
    source: &mut Stock<C>,
    line: &Line,
    writer: &mut W,
) -> io::Result<()>
    requires enough { (kind : Kind) → blanks_in kind line.now ≤ blanks_left source.old kind }
    ensures prints { IsPrinted D.Disk (named_at desk.old) result (ledger_in engine.old) line.now
        (ledger_in engine.new) (W.contents writer.old) (W.contents writer.new) }
    ensures handlers { desk.new.handlers ≡ desk.old.handlers }
    ensures left { OnOk result ((kind : Kind) →
        blanks_left source.old kind ≤ blanks_left source.new kind + blanks_in kind line.now) }
    ensures advances { Advances D.Disk engine.old engine.new }
{
    engine.facts();
    match line {
        Line::Supply { kind, count } => {
            supply_line(alloc, engine, source, *kind, *count, writer)
        }
        Line::Drain { count } => drain_line(alloc, engine, *count, writer),
        Line::State(elem) => state_line(alloc, engine, *elem, writer),
        Line::Pending => pending_line(alloc, engine, writer),
        Line::Census => census_line(alloc, engine, writer),
        Line::Call {
            client,
            number,
            name,
            index,
            words,
        } => {
            let call = Call {
                client: *client,
                number: *number,
                name: name.as_str(),
                index: *index,
                words: words.as_slice(),
            };
            write_answer(alloc, writer, &answer_to_call(engine, desk, &call))
        }
        Line::Step(step) => {
            let answer = answer_to(engine, desk, step);
            write_step_answer(alloc, writer, step, &answer)
        }
    }
}

/// Answers a client's request to a named handler.
fn answer_to_call<D: Disk, C: Chare>(
    engine: &mut Engine<D, C>,
    desk: &mut Desk,
    call: &Call<'_>,
) -> Answer
    ensures answered { (to : names.Elem) × (entry : ℕ)
        × IsTarget (world_of engine.old) call.now.index
        (named_at desk.old call.now.name.now) to entry
        × IsAnswered D.Disk (steps.Request call.now.client call.now.number to entry
        call.now.words.now) result (ledger_in engine.old) (ledger_in engine.new) }
    ensures handlers { desk.new.handlers ≡ desk.old.handlers }
    ensures advances { Advances D.Disk engine.old engine.new }
{
    told_answer(desk.call(engine, call))
}

/// Runs one step. Clients' requests and questions go by their passes.
fn answer_to<D: Disk, C: Chare>(engine: &mut Engine<D, C>, desk: &mut Desk, step: &Step) -> Answer
    ensures answered { IsAnswered D.Disk step.now result (ledger_in engine.old)
        (ledger_in engine.new) }
    ensures handlers { desk.new.handlers ≡ desk.old.handlers }
    ensures advances { Advances D.Disk engine.old engine.new }
{
    match step {
        Step::Request {
            client,
            number,
            to,
            entry,
            words,
        } => {
            let request = Request {
                number: *number,
                to: *to,
                entry: *entry,
                words: words.as_slice(),
            };
            told_answer(desk.request(engine, *client, &request))
        }
        Step::Status { client, number } => told_answer(desk.status(engine, *client, *number)),
        _ => engine.step(step),
    }
}

/// Supplies `count` objects of a kind, and writes that it did, or that it is out of memory.
fn supply_line<D: Disk, C: Chare, W: Write>(
    alloc: Global,
    engine: &mut Engine<D, C>,
    source: &mut Stock<C>,
    kind: Kind,
    count: u32,
    writer: &mut W,
) -> io::Result<()>
    requires enough { count ≤ blanks_left source.old kind }
    ensures prints { IsPrinted D.Disk no_names result (ledger_in engine.old)
        (lines.Supply kind count)
        (ledger_in engine.new) (W.contents writer.old) (W.contents writer.new) }
    ensures left { OnOk result ((k : Kind) →
        blanks_left source.old k ≤ blanks_left source.new k + part_of kind count k) }
    ensures advances { Advances D.Disk engine.old engine.new }
{
    if engine.transfer_from(source, kind, count as usize).is_err() {
        return write_memory_refused(writer);
    }
    write_line(alloc, writer, &Supplied { kind, count })
}
