//! Scripts over new runtimes.

ghost use Rattle.std.specs.Prelude.{◌≡◌, ℕ, ◌≤◌, List, None, Some, false, IfErr, IfOk, IsSome, OnOk};
ghost use Rattle.charmlet_model.specs.declared.kind.Kind.{Kind};
ghost use Rattle.charmlet_model.specs.Shelves.{count_of};
ghost use Rattle.charmlet_stock.specs.Stock.{blanks_in};
ghost use Rattle.charmlet_model.specs.KindVersion.{AreNewest};
ghost use Rattle.charmlet_model.specs.Manifest.{manifest_of};
ghost use Rattle.charmlet_disk.specs.Disk.{IsSettled};
ghost use Rattle.charmlet_script.specs.Script.{blanks_of, pairs_of, processors_of};
ghost use Rattle.charmlet_locks.specs.GhostAuth.Naming.{table_of};
ghost use Rattle.charmlet_persist.specs.Writes.NewStores.{new_core};
ghost use Rattle.charmlet_sequencer.specs.Sequencer.{IsOf};
ghost use Rattle.charmlet_requests.specs.Handlers.{handler_of};
ghost use Rattle.charmlet_script_output.specs.Named.{named_by};
ghost use Rattle.charmlet_cli_workers.specs.Lines.{has_delivery};
ghost use Rattle.charmlet_cli_workers.specs.Said.{HaveRun};
ghost use Rattle.charmlet_cli_workers.specs.Runs.{EndsMade, EndsRun, IsFit, IsMade, Lacks};

use crate::ended::{RanByWorkers, WorkersError};
use crate::lines::has_delivery;
use crate::opened::{Given, Lines, run_opened};
use charmlet_chare::Chare;
use charmlet_disk::Disk;
use charmlet_halves::Refused;
use charmlet_model::{Answer, Manifest};
use charmlet_runtime::RuntimeBuilder;
use charmlet_script::Script;
use charmlet_script_output::{
    handlers_of, has_enough, stock_from_supplies, supplied_by, write_answer,
};
use charmlet_sequencer::RuntimeName;
use charmlet_workers::{RuntimeRoom, UnnamedAuthorities};
use std::alloc::{AllocError, Global};
use std::io::Write;
use std::marker::Brand;
use std::sync::Wait;
use std::thread::Threads;

/// Makes the script's store on a disk, as `run_script` of `charmlet_cli` does, and runs its lines
/// there over a runtime with threads, with a worker for each processor.
///
/// A `drain N` line starts a thread for each processor, in which its worker takes N turns, and ends
/// once all of them have. It prints how many messages they delivered together and how many are
/// still pending, and then, if a worker was refused, that refusal; if several were, that of the
/// least processor. All other lines are run by the calling thread, and print the same as over an
/// engine. Clients' requests and questions go by their passes: each pass is lent at its client's
/// first line, and all of them are told of each flush.
///
/// The disk that comes back has a store that went on from the new one. Each line has printed an
/// answer of its own form, or a refusal, with its cause as far as the lines and the arrays tell it.
/// What it told a client is true of that store whichever events a crash leaves, including all
/// durable ones, and no less than follows from what the client was told before; and a request that
/// wasn't refused is accepted in it.
pub fn run_workers<D: Disk, C: Chare, W: Write, R: Threads + Wait + Sync>(
    rt: &R,
    alloc: Global,
    disk: D,
    script: &Script,
    blanks: Vec<C>,
    writer: &mut W,
) -> RanByWorkers<D, Vec<C>>
    requires settled { D.honest disk → IsSettled (D.file disk) }
    ensures fit { OnOk result.result (IsFit C.state blanks.items script.now.lines) }
    ensures ran { OnOk result.result (IsMade D.Disk disk result.disk script.now
        (λ last. HaveRun None last script.now.handlers script.now.lines (W.contents writer.old)
        (W.contents writer.new))) }
    ensures back { OnOk result.result (IsSome result.disk) }
    ensures err { IfErr result.result (EndsRun D.Disk C.state W.contents disk result.disk
        blanks.items script.now writer.old writer.new) }
{
    match prepare(alloc, script, blanks) {
        Ok(prepared) => {
            run_in_new_store::<D, C, Brand, W, R>(rt, alloc, disk, script, prepared, writer)
        }
        Err(error) => RanByWorkers {
            disk: Some(disk),
            result: Err(error),
            constructions: None,
        },
    }
}

/// The beginning of a script's run by workers: the arrays of its store, the authorities of its
/// runtime, its handlers, and the blanks that it supplies.
#[derive(Drop)]
struct Prepared<C: Chare> {
    manifest: Manifest,
    authorities: UnnamedAuthorities,
    given: Given<C>,
}

/// The arrays of a script's store, the authorities of its runtime, its handlers, and a stock of the
/// objects that its lines supply. `Delivers` if a line is `deliver`; then `TooFewBlanks` if there
/// are fewer objects; otherwise `Memory`.
fn prepare<C: Chare>(
    alloc: Global,
    script: &Script,
    blanks: Vec<C>,
) -> Result<Prepared<C>, WorkersError<Vec<C>>>
    ensures fit { OnOk result (IsFit C.state blanks.items script.now.lines) }
    ensures manifest { IfOk result (λ prepared. manifest_of (pairs_of script.now.arrays)
        ≡ Some prepared.manifest) }
    ensures newest { IfOk result (λ prepared. AreNewest prepared.manifest) }
    ensures source { IfOk result (λ prepared. (kind : Kind) →
        blanks_in prepared.given.source kind ≡ count_of C.state blanks.items kind) }
    ensures handlers { IfOk result (λ prepared. (name : List ℕ) →
        handler_of prepared.given.handlers name ≡ named_by script.now.handlers name) }
    ensures err { IfErr result (Lacks C.state blanks.items script.now.lines) }
{
    if has_delivery(script.lines()) {
        return Err(WorkersError::Delivers(blanks));
    }
    if !has_enough(&supplied_by(script), blanks.as_slice()) {
        return Err(WorkersError::TooFewBlanks(blanks));
    }
    match prepared_with(alloc, script, blanks) {
        Ok(prepared) => Ok(prepared),
        Err(_) => Err(WorkersError::Memory),
    }
}

/// Prepares a run with enough objects. It fails only when out of memory.
fn prepared_with<C: Chare>(
    alloc: Global,
    script: &Script,
    blanks: Vec<C>,
) -> Result<Prepared<C>, AllocError>
    ensures manifest { IfOk result (λ prepared. manifest_of (pairs_of script.now.arrays)
        ≡ Some prepared.manifest) }
    ensures newest { IfOk result (λ prepared. AreNewest prepared.manifest) }
    ensures source { IfOk result (λ prepared. (kind : Kind) →
        blanks_in prepared.given.source kind ≡ count_of C.state blanks.items kind) }
    ensures handlers { IfOk result (λ prepared. (name : List ℕ) →
        handler_of prepared.given.handlers name ≡ named_by script.now.handlers name) }
{
    let manifest = script.manifest(alloc)?;
    let authorities = UnnamedAuthorities::new(alloc)?;
    let handlers = handlers_of(alloc, script.handlers())?;
    let source = stock_from_supplies(alloc, blanks)?;
    Ok(Prepared {
        manifest,
        authorities,
        given: Given { handlers, source },
    })
}

/// Creates the script's store and runs its lines there, under the runtime's name `B`, or writes why
/// there is no store. The runtime's room is made first; if memory is lacking for it, neither disk
/// nor output is touched.
fn run_in_new_store<
    D: Disk,
    C: Chare,
    B: RuntimeName + Send + Sync,
    W: Write,
    R: Threads + Wait + Sync,
>(
    rt: &R,
    alloc: Global,
    disk: D,
    script: &Script,
    prepared: Prepared<C>,
    writer: &mut W,
) -> RanByWorkers<D, Vec<C>>
    requires settled { D.honest disk → IsSettled (D.file disk) }
    requires named { IsOf B.opening B.before B.processors
        (new_core (processors_of script.now) prepared.manifest) }
    requires generation { B.generation ≡ 1 }
    requires parts { table_of prepared.authorities.parts ≡ B.table }
    requires seats { table_of prepared.authorities.seats ≡ B.seats }
    requires passes { table_of prepared.authorities.passes ≡ B.passes }
    requires checkpoints { table_of prepared.authorities.checkpoints ≡ B.checkpoints }
    requires honest { B.honest → D.honest disk }
    requires only_honest { D.honest disk → B.honest }
    requires manifest { manifest_of (pairs_of script.now.arrays) ≡ Some prepared.manifest }
    requires newest { AreNewest prepared.manifest }
    requires no_delivery { has_delivery script.now.lines ≡ false }
    requires enough { (kind : Kind) → blanks_of kind script.now.lines
        ≤ blanks_in prepared.given.source kind }
    requires handlers { (name : List ℕ) →
        handler_of prepared.given.handlers name ≡ named_by script.now.handlers name }
    ensures ran { OnOk result.result (IsMade D.Disk disk result.disk script.now
        (λ last. HaveRun None last script.now.handlers script.now.lines (W.contents writer.old)
        (W.contents writer.new))) }
    ensures back { OnOk result.result (IsSome result.disk) }
    ensures err { IfErr result.result (EndsMade D.Disk W.contents disk result.disk script.now
        writer.old writer.new) }
{
    let Prepared {
        manifest,
        authorities,
        given,
    } = prepared;
    let processors = script.processors();
    let Ok(room) = RuntimeRoom::new(alloc, processors) else {
        return RanByWorkers {
            disk: Some(disk),
            result: Err(WorkersError::Memory),
            constructions: None,
        };
    };
    match RuntimeBuilder::create(alloc, disk, manifest, processors) {
        Ok(begun) => {
            let runtime = begun.open_in::<B>(authorities, room);
            let lines = Lines {
                processors,
                restarted: None,
                lines: script.lines(),
            };
            run_opened(rt, alloc, runtime, given, &lines, writer)
        }
        Err(Refused { refusal, disk }) => {
            match write_answer(alloc, writer, &Answer::Refused(refusal)) {
                Ok(()) => RanByWorkers {
                    disk: Some(disk),
                    result: Err(WorkersError::NotCreated(refusal)),
                    constructions: None,
                },
                Err(error) => RanByWorkers {
                    disk: Some(disk),
                    result: Err(WorkersError::Output(error)),
                    constructions: None,
                },
            }
        }
    }
}
