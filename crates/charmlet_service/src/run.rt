//! Runtimes that are made for their clients, and taken apart after them.

ghost use Rattle.std.specs.Prelude.{◌≡◌, ℕ, true};
ghost use Rattle.charmlet_model.specs.KindVersion.{AreNewest};
ghost use Rattle.charmlet_disk.specs.Disk.{IsSettled};
ghost use Rattle.charmlet_locks.specs.GhostAuth.Naming.{table_of};
ghost use Rattle.charmlet_locate.specs.Locations.{is_processor_count};
ghost use Rattle.charmlet_persist.specs.Writes.NewStores.{new_core};
ghost use Rattle.charmlet_sequencer.specs.Sequencer.{IsOf};
ghost use Rattle.charmlet_stock.specs.declared.stock.Stock as stocks;
ghost use Rattle.charmlet_replay.specs.Unused.{IsUnused};
ghost use Rattle.charmlet_engine.specs.Reopened.{IsReopened, core_to_be};
ghost use Rattle.charmlet_service.specs.Serving.{IsNewRun, IsRestartedRun, IsRunOver};

use crate::client::Client;
use crate::threads::{Served, serve_all};
use charmlet_chare::Chare;
use charmlet_disk::Disk;
use charmlet_halves::Refused;
use charmlet_locate::is_processor_count;
use charmlet_model::{Manifest, Refusal};
use charmlet_runtime::{NotRestarted, Reopened, RuntimeBuilder, open_reopened};
use charmlet_sequencer::RuntimeName;
use charmlet_stock::Stock;
use charmlet_workers::{Runtime, RuntimeRoom, UnnamedAuthorities};
use std::alloc::Global;
use std::marker::Brand;
use std::sync::Wait;
use std::thread::Threads;

/// The disk of a runtime after its clients were served, and the results of the clients.
#[derive(Drop)]
pub struct Ran<D: Drop, A: Drop> {
    pub disk: D,
    pub clients: Served<A>,
}

/// Makes a store on a disk, opens a runtime over it, and serves clients there. The store has these
/// arrays and this number of processors, and the disk is settled and has no open half; these blanks
/// are in the store's stock. Each client is served in a thread of its own, while a worker for each
/// processor delivers in another. Once all clients have ended, the disk comes back. The objects are
/// dropped, and with them the events that aren't durable.
///
/// All promises of [`RuntimeBuilder::create`] hold. The disk that comes back has the new store as
/// it was made, or as it is after the clients' work. If the disk is honest, a crash leaves the
/// world after some of the store's history, including all durable events.
///
/// The refusals are in their order `BadPes`; `Memory` for the runtime; and then those of the
/// creation, which are `AlreadyHere`, `Memory` and `Device`. Each hands the disk back, no client is
/// served, and except for `Device` nothing is written. Once the store is made, nothing is refused.
/// If memory is lacking for a client after that, [`Ran::clients`] says so.
///
/// If no threads can be made, clients are served one after another, and no worker delivers
/// meanwhile: a client that waits for a reply then waits for ever.
pub fn serve_new<D: Disk, C: Chare, A: Client + Send, R: Threads + Wait + Sync>(
    rt: &R,
    alloc: Global,
    disk: D,
    manifest: Manifest,
    processors: u16,
    blanks: Vec<C>,
    clients: Vec<A>,
) -> Result<Ran<D, A>, Refused<D>>
    requires settled { D.honest disk → IsSettled (D.file disk) }
    requires newest { AreNewest manifest }
    ensures { IsNewRun D.Disk processors manifest disk result }
{
    if !is_processor_count(processors) {
        return Err(Refused {
            refusal: Refusal::BadPes,
            disk,
        });
    }
    let Ok(authorities) = UnnamedAuthorities::new(alloc) else {
        return Err(Refused {
            refusal: Refusal::Memory,
            disk,
        });
    };
    run_new::<D, C, A, Brand, R>(
        rt,
        alloc,
        disk,
        manifest,
        processors,
        authorities,
        blanks,
        clients,
    )
}

/// Restarts the store of a disk, whatever a crash left there, as
/// [`charmlet_engine::Engine::restart`] does, opens a runtime over it, and serves clients there, as
/// [`serve_new`] does. Once all clients have ended, the disk comes back. The objects are dropped,
/// and with them the events that aren't durable.
///
/// All of an engine's promises about a restart hold. The disk that comes back has the restored
/// store as it was, or as it is after the clients' work. If the disk is honest, a crash leaves the
/// world after some of the store's history, including all durable events.
///
/// The refusals are those of a restart. Each hands the disk and all blanks back, these in whatever
/// state, so that the caller may try again, and no client is served. Except for `Device` nothing is
/// written: all memory that the runtime needs to open is asked for before.
pub fn serve_restarted<D: Disk, C: Chare, A: Client + Send, R: Threads + Wait + Sync>(
    rt: &R,
    alloc: Global,
    disk: D,
    blanks: Stock<C>,
    processors: u16,
    clients: Vec<A>,
) -> Result<Ran<D, A>, NotRestarted<D, C>>
    requires unused { IsUnused blanks }
    ensures { IsRestartedRun D.Disk processors blanks disk result }
{
    match Reopened::from_disk(rt, alloc, disk, blanks, processors) {
        Ok(reopened) => {
            let Ok(authorities) = UnnamedAuthorities::new(alloc) else {
                return Err(reopened.into_refused());
            };
            run_reopened::<D, C, A, Brand, R>(rt, alloc, reopened, authorities, clients)
        }
        Err(refused) => Err(refused),
    }
}

/// Makes a store, and serves clients over its runtime, under the name `B`. The runtime's room is
/// made first.
fn run_new<
    D: Disk,
    C: Chare,
    A: Client + Send,
    B: RuntimeName + Send + Sync,
    R: Threads + Wait + Sync,
>(
    rt: &R,
    alloc: Global,
    disk: D,
    manifest: Manifest,
    processors: u16,
    authorities: UnnamedAuthorities,
    blanks: Vec<C>,
    clients: Vec<A>,
) -> Result<Ran<D, A>, Refused<D>>
    requires settled { D.honest disk → IsSettled (D.file disk) }
    requires newest { AreNewest manifest }
    requires named { IsOf B.opening B.before B.processors (new_core processors manifest) }
    requires generation { B.generation ≡ 1 }
    requires parts { table_of authorities.parts ≡ B.table }
    requires seats { table_of authorities.seats ≡ B.seats }
    requires passes { table_of authorities.passes ≡ B.passes }
    requires checkpoints { table_of authorities.checkpoints ≡ B.checkpoints }
    requires honest { B.honest → D.honest disk }
    requires only_honest { D.honest disk → B.honest }
    requires count { is_processor_count processors ≡ true }
    ensures { IsNewRun D.Disk processors manifest disk result }
{
    let Ok(room) = RuntimeRoom::new(alloc, processors) else {
        return Err(Refused {
            refusal: Refusal::Memory,
            disk,
        });
    };
    match RuntimeBuilder::create(alloc, disk, manifest, processors) {
        Ok(begun) => {
            let runtime = begun.open_in::<B>(authorities, room);
            Ok(run_over(rt, alloc, runtime, processors, blanks, clients))
        }
        Err(refused) => Err(refused),
    }
}

/// Goes on with a restored store, and serves clients over its runtime, under the name `B`.
fn run_reopened<
    D: Disk,
    C: Chare,
    A: Client + Send,
    B: RuntimeName + Send + Sync,
    R: Threads + Wait + Sync,
>(
    rt: &R,
    alloc: Global,
    reopened: Reopened<D, C>,
    authorities: UnnamedAuthorities,
    clients: Vec<A>,
) -> Result<Ran<D, A>, NotRestarted<D, C>>
    requires named { IsOf B.opening B.before B.processors (core_to_be reopened) }
    requires generation { B.generation ≡ (core_to_be reopened).generation }
    requires parts { table_of authorities.parts ≡ B.table }
    requires seats { table_of authorities.seats ≡ B.seats }
    requires passes { table_of authorities.passes ≡ B.passes }
    requires checkpoints { table_of authorities.checkpoints ≡ B.checkpoints }
    requires honest { B.honest → D.honest reopened.disk }
    requires only_honest { D.honest reopened.disk → B.honest }
    ensures { (processors : ℕ) (blanks : stocks.Stock C C.Chare) (first : D) →
        IsReopened D.Disk processors blanks first reopened →
        IsRestartedRun D.Disk processors blanks first result }
{
    let processors = reopened.processors();
    let blanks = Vec::new(alloc);
    match open_reopened::<D, C, B>(alloc, reopened, authorities) {
        Ok(runtime) => Ok(run_over(rt, alloc, runtime, processors, blanks, clients)),
        Err(refused) => Err(refused),
    }
}

/// Supplies blanks to a runtime, serves clients over it, and takes the disk out of it.
fn run_over<
    D: Disk,
    C: Chare,
    A: Client + Send,
    B: RuntimeName + Send + Sync,
    R: Threads + Wait + Sync,
>(
    rt: &R,
    alloc: Global,
    runtime: Runtime<D, C, B>,
    processors: u16,
    blanks: Vec<C>,
    clients: Vec<A>,
) -> Ran<D, A>
    ensures { IsRunOver D.Disk B.honest runtime result.disk }
{
    let clients = match runtime.supply(rt, blanks) {
        Ok(()) => serve_all(rt, alloc, &runtime, processors, clients),
        Err(_) => Err(Refusal::Memory),
    };
    let disk = runtime.into_disk();
    Ran { disk, clients }
}
