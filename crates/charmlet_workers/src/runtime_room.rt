//! Openings of a runtime.

ghost use Rattle.std.specs.Prelude.{◌≡◌, ◌≤◌, IfErr, IfOk, vec_len};
ghost use Rattle.std.specs.Vec.{vec_capacity};
ghost use Rattle.charmlet_locks.specs.GhostAuth.Naming.{table_of};
ghost use Rattle.charmlet_halves.specs.Halves.{disk_of};
ghost use Rattle.charmlet_locks.specs.Locks.{AreInOrder, shown};
ghost use Rattle.charmlet_history.specs.Kept.{core_in};
ghost use Rattle.charmlet_sequencer.specs.Sequencer.{IsOf};
ghost use Rattle.charmlet_shelf.specs.Shelf.{View};
ghost use Rattle.charmlet_store.specs.Store.{AreEmpty};
ghost use Rattle.charmlet_workers.specs.Runtime.{IsReady, named, shown_of};

use crate::runtime::{ByProcessor, Runtime, Spare};
use charmlet_chare::Chare;
use charmlet_disk::Disk;
use charmlet_halves::Halves;
use charmlet_hub::{GhostToken, Hub};
use charmlet_leases::{GhostIds, GhostPass};
use charmlet_locks::{LockRoom, UnnamedAuthority};
use charmlet_sequencer::{GhostPart, Opened, ProcessorState, RuntimeName, open_store};
use charmlet_shelf::Shelf;
use charmlet_store::{Store, empty_shelves};
use std::alloc::{AllocError, Global};
use std::marker::Model;
use std::sync::Mutex;

/// The authorities of a runtime that has no name yet: of its shelves, of its seats, of its passes
/// and of its checkpoints.
#[derive(Drop)]
pub struct UnnamedAuthorities {
    pub parts: UnnamedAuthority<GhostPart>,
    pub seats: UnnamedAuthority<GhostIds>,
    pub passes: UnnamedAuthority<GhostPass>,
    pub checkpoints: UnnamedAuthority<GhostToken>,
}

impl UnnamedAuthorities {
    /// New authorities of shelves, of seats, of passes and of checkpoints, without a name. It fails
    /// only when out of memory.
    pub fn new(alloc: Global) -> Result<Self, AllocError> {
        let parts = UnnamedAuthority::new(alloc)?;
        let seats = UnnamedAuthority::new(alloc)?;
        let passes = UnnamedAuthority::new(alloc)?;
        let checkpoints = UnnamedAuthority::new(alloc)?;
        Ok(UnnamedAuthorities {
            parts,
            seats,
            passes,
            checkpoints,
        })
    }
}

/// Room for a runtime under the name `B`: lists for its shelves and for their locks, and the empty
/// shelves for its close. A runtime opens in it without memory. So if the room is made before the
/// store, memory can't be lacking once the store is written. A contract sees nothing of it.
#[derive(Drop)]
pub struct RuntimeRoom<C: Chare, B: RuntimeName> {
    locks: LockRoom<ProcessorState<C, B>, ByProcessor>,
    spare: Spare<C, B>,
}

impl<C: Chare, B: RuntimeName> Model for RuntimeRoom<C, B> {
    ghost use Rattle.std.specs.Prelude.{◌≡◌};
    ghost use Rattle.charmlet_locks.specs.Locks.{shown};

    ghost Value = { Unit {0} };

    ghost view = { λ _. tt };

    ghost invariant = { λ r. r.locks ≡ shown B.processors 0 };
}

impl<C: Chare, B: RuntimeName> RuntimeRoom<C, B> {
    /// Room for a runtime on as many processors as the name says. It fails only when out of memory.
    pub fn new(alloc: Global, processors: u16) -> Result<Self, AllocError>
        requires { processors ≡ B.processors }
    {
        let count = usize::from(processors);
        let locks = LockRoom::new(alloc, count)?;
        let shelves = Vec::with_capacity(alloc, count)?;
        let empty = empty_shelves(alloc, processors)?;
        Ok(RuntimeRoom {
            locks,
            spare: Spare { shelves, empty },
        })
    }
}

/// A store that wasn't opened for threads, for lack of memory, and its halves, both unchanged.
#[derive(Drop)]
pub struct NotOpened<D: Disk, C: Chare> {
    pub store: Store<C>,
    pub halves: Halves<D>,
}

impl<D: Disk, C: Chare, B: RuntimeName> Runtime<D, C, B> {
    /// Opens a runtime over a store in which nothing has happened since it opened, and the halves
    /// of its disk, under the name `B` of the store and of these authorities. It makes no call of
    /// the disk. It fails only when out of memory. [`Runtime::open_in`] never fails.
    ///
    /// The call that makes the authorities picks the name: it passes `Brand` to a function that is
    /// generic in it, so that nothing that bears the name can leave that function.
    pub fn open(
        store: Store<C>,
        halves: Halves<D>,
        authorities: UnnamedAuthorities,
    ) -> Result<Self, NotOpened<D, C>>
        requires ready { IsReady store halves }
        requires named { IsOf B.opening B.before B.processors (core_in store.history) }
        requires generation { B.generation ≡ (core_in store.history).generation }
        requires parts { table_of authorities.parts ≡ B.table }
        requires seats { table_of authorities.seats ≡ B.seats }
        requires passes { table_of authorities.passes ≡ B.passes }
        requires checkpoints { table_of authorities.checkpoints ≡ B.checkpoints }
        requires honest { B.honest → D.honest (disk_of halves) }
        ensures shown { IfOk result (λ runtime. runtime ≡ shown_of (core_in store.history)) }
        ensures back { IfErr result (λ back. (back.store ≡ store) × (back.halves ≡ halves)) }
    {
        store.history.facts();
        let count = store.shelves.len();
        match RuntimeRoom::new(store.alloc, count as u16) {
            Ok(room) => Ok(Runtime::open_in(store, halves, authorities, room)),
            Err(_) => Err(NotOpened { store, halves }),
        }
    }

    /// Opens the runtime as [`Runtime::open`] does, in a room that was made before. It never fails,
    /// and takes no memory.
    pub fn open_in(
        store: Store<C>,
        halves: Halves<D>,
        authorities: UnnamedAuthorities,
        room: RuntimeRoom<C, B>,
    ) -> Self
        requires ready { IsReady store halves }
        requires named { IsOf B.opening B.before B.processors (core_in store.history) }
        requires generation { B.generation ≡ (core_in store.history).generation }
        requires parts { table_of authorities.parts ≡ B.table }
        requires seats { table_of authorities.seats ≡ B.seats }
        requires passes { table_of authorities.passes ≡ B.passes }
        requires checkpoints { table_of authorities.checkpoints ≡ B.checkpoints }
        requires honest { B.honest → D.honest (disk_of halves) }
        ensures { result ≡ shown_of (core_in store.history) }
    {
        let alloc = store.alloc;
        let UnnamedAuthorities {
            parts,
            seats,
            passes,
            checkpoints,
        } = authorities;
        let RuntimeRoom { locks, spare } = room;
        let Spare { shelves, empty } = spare;
        let Opened { sequencer, shelves } = open_store(store, halves, parts.named::<B>(), shelves);
        sequencer.facts();
        let processors = shelves.len() as u16;
        let hub = Hub::new(
            alloc,
            sequencer,
            processors,
            seats.named(),
            passes.named(),
            checkpoints.named(),
        );
        lock_all(shelves, locks, hub, empty)
    }
}

/// Puts each shelf and the hub under its lock. The shelves are handed in by rising number. The
/// empty ones are for the runtime's end.
pub(crate) fn lock_all<D: Disk, C: Chare, B: RuntimeName>(
    shelves: Vec<ProcessorState<C, B>>,
    locks: LockRoom<ProcessorState<C, B>, ByProcessor>,
    hub: Hub<D, C, B>,
    empty: Vec<Shelf<C>>,
) -> Runtime<D, C, B>
    requires shelves { AreInOrder (λ (shelf : View). shelf.number) B.processors shelves.items }
    requires room { locks ≡ shown B.processors 0 }
    requires empty { AreEmpty B.processors empty.items }
    ensures { result ≡ named B.opening B.before B.processors B.generation }
{
    let mut shelves = shelves;
    let mut locks = locks;
    while !shelves.is_empty() {
        locks.put(shelves.remove(0));
    }
    Runtime {
        shelves: locks.into_locks(),
        hub: Mutex::new(hub),
        spare: Mutex::new(Spare { shelves, empty }),
    }
}
