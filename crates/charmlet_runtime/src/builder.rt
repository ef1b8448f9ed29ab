//! Runtimes that have no name yet.

ghost use Rattle.std.specs.Prelude.{◌≡◌};
ghost use Rattle.charmlet_locks.specs.GhostAuth.Naming.{table_of};
ghost use Rattle.charmlet_sequencer.specs.Sequencer.{IsOf};
ghost use Rattle.charmlet_workers.specs.Runtime.{shown_of};
ghost use Rattle.charmlet_engine.specs.Engine.{core_of};

use charmlet_chare::Chare;
use charmlet_disk::Disk;
use charmlet_engine::Engine;
use charmlet_sequencer::RuntimeName;
use charmlet_workers::{Runtime, RuntimeRoom, UnnamedAuthorities};
use std::marker::Model;

/// A new runtime with threads that has no name yet: an engine in which nothing has happened since
/// it was made. A contract sees the engine. [`open_reopened`](crate::open_reopened) opens a
/// restored store instead.
///
/// The call that makes a runtime's authorities picks its name: for a new store before the store is
/// made, and for a restored one after it was read and before anything is written.
#[derive(Drop)]
pub struct RuntimeBuilder<D: Disk, C: Chare> {
    pub(crate) engine: Engine<D, C>,
}

impl<D: Disk, C: Chare> Model for RuntimeBuilder<D, C> {
    ghost use Rattle.std.specs.Prelude.{◌≡◌, []};
    ghost use Rattle.charmlet_engine.specs.Engine.{EngineShown, core_of};

    ghost Value = { EngineShown D };

    ghost view = { λ r. r.engine };

    ghost invariant = { λ r. ((core_of r.engine).history ≡ [])
        × ((core_of r.engine).assigned ≡ []) };
}

impl<D: Disk, C: Chare> RuntimeBuilder<D, C> {
    /// The generation at which the runtime opens, from 1 on.
    pub fn generation(&self) -> u64
        ensures { result ≡ (core_of self.now).generation }
    {
        self.engine.generation()
    }

    /// How many events there were before the runtime opens.
    pub fn event_count(&self) -> u64
        ensures { result ≡ (core_of self.now).before }
    {
        self.engine.event_count()
    }

    /// Opens the runtime under the name `B`, which its caller has picked for it and for these
    /// authorities, in a room that was made before. It opens with the engine's world, after as many
    /// events and on as many processors, and makes no call of the disk. It never fails, and takes
    /// no memory. So if the room is made first, a creation and its opening run out of memory before
    /// anything is written, or not at all.
    ///
    /// As with [`Runtime::open_in`], nothing that bears the name can leave the function that is
    /// generic in it.
    pub fn open_in<B: RuntimeName>(
        self,
        authorities: UnnamedAuthorities,
        room: RuntimeRoom<C, B>,
    ) -> Runtime<D, C, B>
        requires named { IsOf B.opening B.before B.processors (core_of self) }
        requires generation { B.generation ≡ (core_of self).generation }
        requires parts { table_of authorities.parts ≡ B.table }
        requires seats { table_of authorities.seats ≡ B.seats }
        requires passes { table_of authorities.passes ≡ B.passes }
        requires checkpoints { table_of authorities.checkpoints ≡ B.checkpoints }
        requires honest { B.honest → D.honest self.disk }
        ensures { result ≡ shown_of (core_of self) }
    {
        let (store, halves) = self.engine.into_parts();
        Runtime::open_in(store, halves, authorities, room)
    }
}
