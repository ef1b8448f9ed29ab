//! Runs of scripts over a restarted store.

ghost use Rattle.std.specs.Prelude.{◌≡◌, ◌≤◌, ℕ, List, Err, None, IfErr, IfOk, IfSome, IsSome, OnErr, OnOk, Result, false, true};
ghost use Rattle.charmlet_model.specs.declared.half.Half.TheVariants as halves;
ghost use Rattle.charmlet_model.specs.declared.kind.Kind.{Kind};
ghost use Rattle.charmlet_model.specs.declared.refusal.Refusal.{Refusal};
ghost use Rattle.charmlet_model.specs.declared.refusal.Refusal.TheVariants as refusals;
ghost use Rattle.charmlet_script.specs.Script.{blanks_of};
ghost use Rattle.charmlet_locate.specs.Locations.{is_processor_count};
ghost use Rattle.charmlet_disk.specs.Disk.{LeavesOnly, SameFiles, faults_after};
ghost use Rattle.charmlet_disk.specs.File.{MayLeave};
ghost use Rattle.charmlet_halves.specs.Answers.{is_no_failure};
ghost use Rattle.charmlet_stock.specs.Stock.{supplied_to};
ghost use Rattle.charmlet_replay.specs.Unused.{IsUnused};
ghost use Rattle.charmlet_engine.specs.found.Found.{Found};
ghost use Rattle.charmlet_engine.specs.Found.{IsFoundIn, IsRead};
ghost use Rattle.charmlet_engine.specs.Advances.{Advances};
ghost use Rattle.charmlet_engine.specs.Engine.{core_of};
ghost use Rattle.charmlet_script_output.specs.Supplied.{AreEnough, blanks_left};
ghost use Rattle.charmlet_script_output.specs.Ledgers.{ledger_in};
ghost use Rattle.charmlet_script_output.specs.Named.{named_by};
ghost use Rattle.charmlet_cli.specs.Lines.{named_at};
ghost use Rattle.charmlet_script_output.specs.Back.{CameBackWith, given_of};
ghost use Rattle.charmlet_cli.specs.Restarted.{BreaksOffRestart, EndsRestart, IsRestarted, PrintsRestart, RestartLeaves, TellsWanted, is_without_store};

use crate::desk::Desk;
use crate::new_run::run_lines;
use charmlet_chare::Chare;
use charmlet_disk::Disk;
use charmlet_engine::{Engine, NotRestarted, Wanted, manifest};
use charmlet_locate::is_processor_count;
use charmlet_model::{Answer, Kind, Refusal};
use charmlet_script::RestartScript;
use charmlet_script_output::{
    ExitReason, RestartedLine, has_enough, stock_from_supplies, supplied_at_restart, write_answer,
    write_line,
};
use charmlet_stock::Stock;
use std::alloc::{AllocError, Global};
use std::io;
use std::io::Write;
use std::thread::Threads;

/// Why it isn't known which blanks a restart needs.
#[derive(Debug, Drop)]
pub enum FindError {
    /// No store is found, for this reason. Only its line was written.
    Refused(Refusal),
    /// The refusal's line couldn't be written: the output failed, or there was no memory for its
    /// text.
    Output(io::Error),
}

/// Why a script wasn't run to its last line over a restarted store.
#[derive(Drop)]
pub enum RestartError<C: Chare> {
    /// There are fewer objects of a kind than the script supplies. All objects come back, those for
    /// the restart first, and nothing was written.
    TooFewBlanks(Vec<C>, Vec<C>),
    /// No store was restarted, for this reason. Only its line was written, and no line was run.
    NotRestarted(Refusal),
    /// Memory ran out before the restart. Nothing was written.
    Memory,
    /// A line couldn't be written: the output failed, or there was no memory for its text. A
    /// beginning of the output was written.
    Output(io::Error),
}

impl From<FindError> for ExitReason {
    ghost use Rattle.std.specs.Prelude.{◌≡◌};
    ghost use Rattle.charmlet_cli.specs.Restarted.{stop_found};

    ghost from_gives = { λ error stop. stop ≡ stop_found error };

    fn from(error: FindError) -> ExitReason {
        match error {
            FindError::Refused(refusal) => ExitReason::NotRestarted(refusal),
            FindError::Output(_) => ExitReason::CannotGoOn,
        }
    }
}

impl<C: Chare> From<RestartError<C>> for ExitReason {
    ghost use Rattle.std.specs.Prelude.{◌≡◌};
    ghost use Rattle.charmlet_cli.specs.Restarted.{stop_restarted};

    ghost from_gives = { λ error stop. stop ≡ stop_restarted error };

    fn from(error: RestartError<C>) -> ExitReason {
        match error {
            RestartError::NotRestarted(refusal) => ExitReason::NotRestarted(refusal),
            RestartError::TooFewBlanks(_, _) | RestartError::Memory | RestartError::Output(_) => {
                ExitReason::CannotGoOn
            }
        }
    }
}

/// The result of a script's run over a restarted store.
#[derive(Drop)]
pub struct Restarted<D: Disk, C: Chare> {
    /// The disk, which comes back in any case.
    pub disk: D,
    /// Whether each line was run.
    pub result: Result<(), RestartError<C>>,
    /// How many blanks of each kind were wanted by the messages that were pending when the store
    /// was restarted, before any line was run: those that construct an element that wasn't there.
    /// `None` if no store was restarted.
    pub constructions: Option<Wanted>,
}

/// Finds how many blank objects of each kind a restart of the store on this disk needs, on this
/// number of processors. It only reads the disk, and writes nothing to it.
///
/// If no store is found, the refusal's line is written: `BadPes` if there aren't 1 to 64
/// processors, before anything is read; otherwise `Damaged`, `NothingHere`, `Memory` or `Device`,
/// as [`charmlet_engine::manifest`] has them.
pub fn find_blanks<D: Disk, W: Write>(
    alloc: Global,
    disk: &mut D,
    processors: u16,
    writer: &mut W,
) -> Result<Wanted, FindError>
    ensures bad { is_processor_count processors ≡ false → (disk.new ≡ disk.old)
        × TellsWanted (Err refusals.BadPes) result (W.contents writer.old) (W.contents writer.new) }
    ensures found { is_processor_count processors ≡ true → (answer : Result Found Refusal)
        × IfOk answer IsRead
        × (D.honest disk.old → IsFoundIn (D.file disk.old halves.Zero).now
        (D.file disk.old halves.One).now answer)
        × (D.faults disk.new ≡ faults_after (is_no_failure answer) (D.faults disk.old))
        × TellsWanted answer result (W.contents writer.old) (W.contents writer.new) }
    ensures same { D.honest disk.old → SameFiles (D.file disk.old) (D.file disk.new) }
    ensures any_moment { D.honest disk.old →
        LeavesOnly D.moment D.since disk.old disk.new (MayLeave (D.file disk.old)) }
    ensures honest { (D.honest disk.old → D.honest disk.new)
        × (D.honest disk.new → D.honest disk.old) }
{
    let answer = if is_processor_count(processors) {
        manifest(alloc, disk)
    } else {
        Err(Refusal::BadPes)
    };
    match answer {
        Ok(found) => Ok(found.wanted),
        Err(refusal) => match write_answer(alloc, writer, &Answer::Refused(refusal)) {
            Ok(()) => Err(FindError::Refused(refusal)),
            Err(error) => Err(FindError::Output(error)),
        },
    }
}

/// Restarts the store of a disk, whatever a crash left there, on this number of processors, and
/// runs a script's lines. First it writes the generation at which the store goes on, how many
/// events it has, and the number of processors; then the lines' output: everything that a line
/// prints is written before the next line is run. `blanks` are the objects from which the store's
/// elements are made, as many as [`find_blanks`] says; any more go to its stock. `supplies` are
/// those that the script's lines supply; any more are dropped at the end. A refusal is an answer,
/// and the run goes on. The disk comes back in any case.
///
/// If the taken half has all its kinds in their newest versions, the restart writes nothing to the
/// disk, and the store goes on at its generation. Otherwise an image of the store in the newest
/// versions replaces it, at the next generation, as [`Engine::restart`] says. A crash meanwhile
/// leaves what a crash before the restart might have left, or files that recover to the same world.
///
/// A restart is refused for the reasons of [`Engine::restart`], in its order. Then the refusal is
/// written, no line is run, and all objects are dropped. The disk is unchanged, unless the device
/// failed while that image was being written.
///
/// After a crash at any moment of an earlier run on this disk, the store has the world after some
/// of what had happened, including everything that was durable, and what clients were told before
/// is true. As in [`crate::run_script`], from the end of each line on, a crash leaves files with
/// all events that were durable then.
///
/// The disk's count of failures grows by one for each `Device` answer, and for nothing else. The
/// disk is as honest as before. `RestartError` says what each error means. How many blanks the
/// pending messages wanted is counted without memory.
pub fn restart_script<R: Threads + Sync, D: Disk, C: Chare, W: Write>(
    rt: &R,
    alloc: Global,
    disk: D,
    processors: u16,
    script: &RestartScript,
    blanks: Vec<C>,
    supplies: Vec<C>,
    writer: &mut W,
) -> Restarted<D, C>
    ensures enough { OnOk result.result (AreEnough C.state supplies.items script.now.lines) }
    ensures ran { OnOk result.result (IsRestarted D.Disk processors
        (given_of C.state blanks.items) disk result.disk script.now
        (W.contents writer.old) (W.contents writer.new)) }
    ensures err { IfErr result.result (RestartLeaves D.Disk C.state W.contents processors
        disk result.disk blanks.items supplies.items script.now writer.old writer.new) }
    ensures constructions { IfSome result.constructions
        (CameBackWith D.Disk processors (given_of C.state blanks.items) disk) }
    ensures counted { OnOk result.result (IsSome result.constructions) }
    ensures uncounted { IfErr result.result (λ error. is_without_store error ≡ true →
        result.constructions ≡ None) }
    ensures honest { (D.honest disk → D.honest result.disk)
        × (D.honest result.disk → D.honest disk) }
{
    if !has_enough(&supplied_at_restart(script), supplies.as_slice()) {
        return Restarted {
            disk,
            result: Err(RestartError::TooFewBlanks(blanks, supplies)),
            constructions: None,
        };
    }
    match prepare(alloc, script, blanks, supplies) {
        Ok(prepared) => restart_with(rt, alloc, disk, processors, script, prepared, writer),
        Err(AllocError) => Restarted {
            disk,
            result: Err(RestartError::Memory),
            constructions: None,
        },
    }
}

/// The beginning of a restart for a script: the objects from which the store's elements are made,
/// those that the script's lines supply, and its handlers.
#[derive(Drop)]
struct Prepared<C: Chare> {
    given: Stock<C>,
    source: Stock<C>,
    desk: Desk,
}

/// Stocks with these objects, and the script's handlers. It fails only when out of memory.
fn prepare<C: Chare>(
    alloc: Global,
    script: &RestartScript,
    blanks: Vec<C>,
    supplies: Vec<C>,
) -> Result<Prepared<C>, AllocError>
    ensures unused { IfOk result (λ prepared. IsUnused prepared.given) }
    ensures given { IfOk result (λ prepared. (kind : Kind) →
        supplied_to prepared.given kind ≡ given_of C.state blanks.items kind) }
    ensures source { IfOk result (λ prepared. (kind : Kind) →
        blanks_left prepared.source kind ≡ given_of C.state supplies.items kind) }
    ensures named { IfOk result (λ prepared. (name : List ℕ) →
        named_at prepared.desk name ≡ named_by script.now.handlers name) }
{
    let Ok(given) = charmlet_engine::stock_from_objects(alloc, blanks) else {
        return Err(AllocError);
    };
    let source = stock_from_supplies(alloc, supplies)?;
    let desk = Desk::new(alloc, script.handlers())?;
    Ok(Prepared {
        given,
        source,
        desk,
    })
}

/// Restarts the store and runs lines over it, or writes why the restart was refused.
fn restart_with<R: Threads + Sync, D: Disk, C: Chare, W: Write>(
    rt: &R,
    alloc: Global,
    disk: D,
    processors: u16,
    script: &RestartScript,
    prepared: Prepared<C>,
    writer: &mut W,
) -> Restarted<D, C>
    requires unused { IsUnused prepared.given }
    requires named { (name : List ℕ) →
        named_at prepared.desk name ≡ named_by script.now.handlers name }
    requires enough { (kind : Kind) → blanks_of kind script.now.lines
        ≤ blanks_left prepared.source kind }
    ensures ran { OnOk result.result (IsRestarted D.Disk processors
        (supplied_to prepared.given) disk result.disk script.now
        (W.contents writer.old) (W.contents writer.new)) }
    ensures err { IfErr result.result (EndsRestart D.Disk processors
        (supplied_to prepared.given) disk result.disk script.now
        (W.contents writer.old) (W.contents writer.new)) }
    ensures constructions { IfSome result.constructions
        (CameBackWith D.Disk processors (supplied_to prepared.given) disk) }
    ensures counted { OnOk result.result (IsSome result.constructions) }
    ensures uncounted { IfErr result.result (λ error. is_without_store error ≡ true →
        result.constructions ≡ None) }
    ensures honest { (D.honest disk → D.honest result.disk)
        × (D.honest result.disk → D.honest disk) }
{
    let Prepared {
        given,
        mut source,
        mut desk,
    } = prepared;
    match Engine::restart(rt, alloc, disk, given, processors) {
        Ok(mut engine) => {
            let constructions = Some(engine.constructions());
            let ran = run_restarted(
                alloc,
                &mut engine,
                processors,
                &mut desk,
                &mut source,
                script,
                writer,
            );
            engine.facts();
            match ran {
                Ok(()) => Restarted {
                    disk: engine.into_disk(),
                    result: Ok(()),
                    constructions,
                },
                Err(error) => Restarted {
                    disk: engine.into_disk(),
                    result: Err(RestartError::Output(error)),
                    constructions,
                },
            }
        }
        Err(NotRestarted { refusal, disk, .. }) => {
            match write_answer(alloc, writer, &Answer::Refused(refusal)) {
                Ok(()) => Restarted {
                    disk,
                    result: Err(RestartError::NotRestarted(refusal)),
                    constructions: None,
                },
                Err(error) => Restarted {
                    disk,
                    result: Err(RestartError::Output(error)),
                    constructions: None,
                },
            }
        }
    }
}

/// Writes the line of a restarted store, and runs lines over it.
fn run_restarted<D: Disk, C: Chare, W: Write>(
    alloc: Global,
    engine: &mut Engine<D, C>,
    processors: u16,
    desk: &mut Desk,
    source: &mut Stock<C>,
    script: &RestartScript,
    writer: &mut W,
) -> io::Result<()>
    requires processors { (core_of engine.old).processors ≡ processors }
    requires durable { (core_of engine.old).durable ≡ 0 }
    requires named { (name : List ℕ) → named_at desk.old name ≡ named_by script.now.handlers name }
    requires enough { (kind : Kind) → blanks_of kind script.now.lines
        ≤ blanks_left source.old kind }
    ensures prints { OnOk result (PrintsRestart D.Disk (ledger_in engine.old) script.now
        (ledger_in engine.new) (W.contents writer.old) (W.contents writer.new)) }
    ensures breaks_off { OnErr result (BreaksOffRestart D.Disk (ledger_in engine.old) script.now
        (ledger_in engine.new) (W.contents writer.old) (W.contents writer.new)) }
    ensures advances { Advances D.Disk engine.old engine.new }
{
    engine.facts();
    let line = RestartedLine {
        generation: engine.generation(),
        events: engine.durable(),
        processors,
    };
    write_line(alloc, writer, &line)?;
    run_lines(alloc, engine, desk, source, script.lines(), writer)
}
