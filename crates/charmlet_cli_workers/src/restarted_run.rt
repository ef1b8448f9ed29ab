//! Runs of scripts over restarted runtimes.

ghost use Rattle.std.specs.Prelude.{◌≡◌, ℕ, ◌≤◌, List, None, Some, false, IfErr, IfOk, IfSome, IsErr, IsSome, OnOk};
ghost use Rattle.charmlet_model.specs.declared.kind.Kind.{Kind};
ghost use Rattle.charmlet_script.specs.Script.{blanks_of};
ghost use Rattle.charmlet_requests.specs.Handlers.{handler_of};
ghost use Rattle.charmlet_script_output.specs.Named.{named_by};
ghost use Rattle.charmlet_stock.specs.Stock.{blanks_in, supplied_to};
ghost use Rattle.charmlet_replay.specs.Unused.{IsUnused};
ghost use Rattle.charmlet_script_output.specs.Back.{CameBackWith, given_of};
ghost use Rattle.charmlet_cli_workers.specs.Lines.{has_delivery};
ghost use Rattle.charmlet_cli_workers.specs.Said.{HaveRun};
ghost use Rattle.charmlet_cli_workers.specs.Restarts.{EndsBack, EndsRestart, IsBackByWorkers, IsCountedAt, TellsRefusal, line_of};
ghost use Rattle.charmlet_cli_workers.specs.Runs.{IsFit};

use crate::ended::{RanByWorkers, WorkersError};
use crate::lines::has_delivery;
use crate::opened::{Given, Lines, run_reopened};
use charmlet_chare::Chare;
use charmlet_disk::Disk;
use charmlet_model::Answer;
use charmlet_runtime::{NotRestarted, Reopened, stock_from_objects};
use charmlet_script::RestartScript;
use charmlet_script_output::{
    RestartedLine, handlers_of, has_enough, stock_from_supplies, supplied_at_restart, write_answer,
};
use charmlet_stock::Stock;
use charmlet_workers::UnnamedAuthorities;
use std::alloc::{AllocError, Global};
use std::io::Write;
use std::marker::Brand;
use std::sync::Wait;
use std::thread::Threads;

/// Restarts the store of a disk, as `restart_script` of `charmlet_cli` does, and runs a script's
/// lines there over a runtime with threads, as [`crate::run_workers`] does. First it writes the
/// generation at which the store goes on, how many events it has, and the number of processors.
/// `blanks` are the objects from which the store's elements are made, as many as `find_blanks` of
/// `charmlet_cli` says; `supplies` are those that the script's lines supply.
///
/// All memory that the runtime needs to open is asked for before a store of older versions is
/// brought forward. So at each refusal of the restart except `Device` the disk is unchanged. How
/// many blanks the pending messages wanted is counted without memory.
pub fn restart_workers<D: Disk, C: Chare, W: Write, R: Threads + Wait + Sync>(
    rt: &R,
    alloc: Global,
    disk: D,
    processors: u16,
    script: &RestartScript,
    blanks: Vec<C>,
    supplies: Vec<C>,
    writer: &mut W,
) -> RanByWorkers<D, (Vec<C>, Vec<C>)>
    ensures fit { OnOk result.result (IsFit C.state supplies.items script.now.lines) }
    ensures ran { OnOk result.result (IsBackByWorkers D.Disk processors
        (given_of C.state blanks.items) disk result.disk
        (λ back last. HaveRun (Some (line_of back)) last script.now.handlers script.now.lines
        (W.contents writer.old) (W.contents writer.new)) (λ back. Unit {0})) }
    ensures back { OnOk result.result (IsSome result.disk) }
    ensures err { IfErr result.result (EndsRestart D.Disk C.state W.contents processors
        disk result.disk blanks.items supplies.items script.now.handlers script.now.lines
        writer.old writer.new) }
    ensures constructions { IfSome result.constructions
        (CameBackWith D.Disk processors (given_of C.state blanks.items) disk) }
    ensures counted { OnOk result.result (IsSome result.constructions) }
    ensures uncounted { IfErr result.result (λ error. IsCountedAt error result.constructions) }
{
    if has_delivery(script.lines()) {
        return RanByWorkers {
            disk: Some(disk),
            result: Err(WorkersError::Delivers((blanks, supplies))),
            constructions: None,
        };
    }
    if !has_enough(&supplied_at_restart(script), supplies.as_slice()) {
        return RanByWorkers {
            disk: Some(disk),
            result: Err(WorkersError::TooFewBlanks((blanks, supplies))),
            constructions: None,
        };
    }
    match prepare(alloc, script, blanks, supplies) {
        Ok(prepared) => restart_with(rt, alloc, disk, processors, script, prepared, writer),
        Err(AllocError) => RanByWorkers {
            disk: Some(disk),
            result: Err(WorkersError::Memory),
            constructions: None,
        },
    }
}

/// The beginning of a restart for a script by workers: the objects from which the store's elements
/// are made, the authorities of its runtime, the script's handlers, and the objects that its lines
/// supply.
#[derive(Drop)]
struct Prepared<C: Chare> {
    blanks: Stock<C>,
    authorities: UnnamedAuthorities,
    given: Given<C>,
}

/// Stocks with these objects, the authorities of a runtime, and the script's handlers. It fails
/// only when out of memory.
fn prepare<C: Chare>(
    alloc: Global,
    script: &RestartScript,
    blanks: Vec<C>,
    supplies: Vec<C>,
) -> Result<Prepared<C>, AllocError>
    ensures unused { IfOk result (λ prepared. IsUnused prepared.blanks) }
    ensures given { IfOk result (λ prepared. (kind : Kind) →
        supplied_to prepared.blanks kind ≡ given_of C.state blanks.items kind) }
    ensures source { IfOk result (λ prepared. (kind : Kind) →
        blanks_in prepared.given.source kind ≡ given_of C.state supplies.items kind) }
    ensures handlers { IfOk result (λ prepared. (name : List ℕ) →
        handler_of prepared.given.handlers name ≡ named_by script.now.handlers name) }
{
    let Ok(blanks) = stock_from_objects(alloc, blanks) else {
        return Err(AllocError);
    };
    let authorities = UnnamedAuthorities::new(alloc)?;
    let source = stock_from_supplies(alloc, supplies)?;
    let handlers = handlers_of(alloc, script.handlers())?;
    Ok(Prepared {
        blanks,
        authorities,
        given: Given { handlers, source },
    })
}

/// Restarts the store and runs lines over it, or writes why the restart was refused.
fn restart_with<D: Disk, C: Chare, W: Write, R: Threads + Wait + Sync>(
    rt: &R,
    alloc: Global,
    disk: D,
    processors: u16,
    script: &RestartScript,
    prepared: Prepared<C>,
    writer: &mut W,
) -> RanByWorkers<D, (Vec<C>, Vec<C>)>
    requires unused { IsUnused prepared.blanks }
    requires no_delivery { has_delivery script.now.lines ≡ false }
    requires enough { (kind : Kind) → blanks_of kind script.now.lines
        ≤ blanks_in prepared.given.source kind }
    requires handlers { (name : List ℕ) →
        handler_of prepared.given.handlers name ≡ named_by script.now.handlers name }
    ensures ran { OnOk result.result (IsBackByWorkers D.Disk processors
        (supplied_to prepared.blanks) disk result.disk
        (λ back last. HaveRun (Some (line_of back)) last script.now.handlers script.now.lines
        (W.contents writer.old) (W.contents writer.new)) (λ back. Unit {0})) }
    ensures back { OnOk result.result (IsSome result.disk) }
    ensures err { IfErr result.result (EndsBack D.Disk W.contents processors
        (supplied_to prepared.blanks) disk result.disk script.now.handlers script.now.lines
        writer.old writer.new) }
    ensures constructions { IfSome result.constructions
        (CameBackWith D.Disk processors (supplied_to prepared.blanks) disk) }
    ensures counted { OnOk result.result (IsSome result.constructions) }
    ensures uncounted { IfErr result.result (λ error. IsCountedAt error result.constructions) }
{
    let Prepared {
        blanks,
        authorities,
        given,
    } = prepared;
    match Reopened::from_disk(rt, alloc, disk, blanks, processors) {
        Ok(reopened) => {
            let line = RestartedLine {
                generation: reopened.generation(),
                events: reopened.event_count(),
                processors,
            };
            let lines = Lines {
                processors,
                restarted: Some(line),
                lines: script.lines(),
            };
            let constructions = Some(reopened.constructions());
            match run_reopened::<D, C, (Vec<C>, Vec<C>), Brand, W, R>(
                rt,
                alloc,
                reopened,
                authorities,
                given,
                &lines,
                writer,
            ) {
                Ok(ran) => {
                    let RanByWorkers { disk, result, .. } = ran;
                    RanByWorkers {
                        disk,
                        result,
                        constructions,
                    }
                }
                Err(refused) => tell_refused(alloc, refused, writer),
            }
        }
        Err(refused) => tell_refused(alloc, refused, writer),
    }
}

/// Writes why the restart was refused. The disk comes back.
fn tell_refused<D: Disk, C: Chare, T: Drop, W: Write>(
    alloc: Global,
    refused: NotRestarted<D, C>,
    writer: &mut W,
) -> RanByWorkers<D, T>
    ensures disk { result.disk ≡ Some refused.disk }
    ensures uncounted { result.constructions ≡ None }
    ensures fails { IsErr result.result }
    ensures err { IfErr result.result (TellsRefusal W.contents refused.refusal
        writer.old writer.new) }
{
    let NotRestarted { refusal, disk, .. } = refused;
    match write_answer(alloc, writer, &Answer::Refused(refusal)) {
        Ok(()) => RanByWorkers {
            disk: Some(disk),
            result: Err(WorkersError::NotRestarted(refusal)),
            constructions: None,
        },
        Err(error) => RanByWorkers {
            disk: Some(disk),
            result: Err(WorkersError::Output(error)),
            constructions: None,
        },
    }
}
