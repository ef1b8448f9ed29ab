//! A store on the two files of a disk.

ghost use Rattle.std.specs.Prelude.{◌≡◌, false};
ghost use Rattle.charmlet_model.specs.Sound.{IsSound};
ghost use Rattle.charmlet_disk.specs.File.{MayLeave, CrashBytes};
ghost use Rattle.charmlet_stock.specs.ByKind.{for_all};
ghost use Rattle.charmlet_engine.specs.Advances.{Advances};
ghost use Rattle.charmlet_engine.specs.Engine.{core_of};
ghost use Rattle.charmlet_engine.specs.Outcomes.{is_lawful_now};
ghost use Rattle.charmlet_engine.specs.Together.{AreTied, shown_by};

use charmlet_chare::Chare;
use charmlet_disk::Disk;
use charmlet_halves::Halves;
use charmlet_store::Store;
use std::marker::Model;

/// A store and the two halves of its disk. Its shelves show the world after the whole history. On
/// an honest disk a crash at any moment leaves files that recover to the world after some of the
/// history, including all durable events.
///
/// If the device fails, the engine is halted: each later step is refused as `Halted`, and it makes
/// no call of the disk any more. Durable events stay durable.
pub struct Engine<D: Disk, C: Chare> {
    pub(crate) store: Store<C>,
    pub(crate) halves: Halves<D>,
}

impl<D: Disk, C: Chare> Model for Engine<D, C> {
    ghost use Rattle.charmlet_engine.specs.Engine.{EngineShown};
    ghost use Rattle.charmlet_engine.specs.Together.{AreTied, shown_by};

    ghost Value = { EngineShown D };

    ghost view = { λ e. shown_by e.store e.halves };

    ghost invariant = { λ e. AreTied e.store e.halves };
}

// Written by hand, so that dropping all its fields is proved here, and not in each crate that drops
// an engine.
impl<D: Disk, C: Chare> Drop for Engine<D, C> {
    fn drop(self) {
        let Engine { store, halves } = self;
        drop(store);
        drop(halves);
    }
}

impl<D: Disk, C: Chare> Engine<D, C> {
    /// The parts of the engine: its store, and the halves of its disk.
    pub fn into_parts(self) -> (Store<C>, Halves<D>)
        ensures shown { shown_by result.0 result.1 ≡ self }
        ensures tied { AreTied result.0 result.1 }
    {
        let Engine { store, halves } = self;
        (store, halves)
    }

    /// States the facts that hold of every engine. Its history was made by events, each in its
    /// turn; its stock drops retired objects. On an honest disk a crash now leaves the world after
    /// some of the history, including all durable events. Doing nothing counts as a step that
    /// changes nothing.
    pub fn facts(&self)
        ensures sound { IsSound (core_of self.now) }
        ensures dropping { self.now.store.keeping ≡ for_all false }
        ensures lawful { D.honest self.now.disk → (outcome : CrashBytes) →
            MayLeave (D.file self.now.disk) outcome → is_lawful_now (core_of self.now) outcome }
        ensures still { Advances D.Disk self.now self.now }
    {
        self.store.history.facts();
        let _ = &self.halves;
    }
}
