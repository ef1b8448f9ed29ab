//! Stores on the probes' disk, with the probes' objects.

ghost use Rattle.std.specs.Prelude.{◌≡◌, []};
ghost use Rattle.charmlet_model.specs.KindVersion.{AreNewest};
ghost use Rattle.charmlet_history.specs.Kept.{core_in};
ghost use Rattle.charmlet_engine.specs.Together.{AreTied};

use crate::disk::ProbeDisk;
use crate::objects::Object;
use crate::store::blanks::Blanks;
use charmlet_engine::{Engine, NotRestarted};
use charmlet_halves::{Halves, Refused};
use charmlet_model::{Manifest, Refusal};
use charmlet_store::Store;
use std::alloc::Global;
use std::marker::Model;
use std::thread::Threads;

/// A store on a disk that fails as told, with objects that count their calls. It was just made or
/// restarted, and nothing has happened since.
pub struct ProbeStore {
    engine: Engine<ProbeDisk, Object>,
    processors: u16,
}

impl Model for ProbeStore {
    ghost use Rattle.std.specs.Prelude.{◌≡◌, []};
    ghost use Rattle.charmlet_model.specs.Core.{Core};
    ghost use Rattle.charmlet_engine.specs.Engine.{core_of};

    ghost Value = { Core };

    ghost view = { λ store. core_of store.engine };

    ghost invariant = { λ store. ((core_of store.engine).history ≡ [])
        × ((core_of store.engine).assigned ≡ [])
        × ((core_of store.engine).processors ≡ store.processors) };
}

/// Why no store was restarted, with the disk and all blanks.
#[derive(Drop)]
pub struct NotBack {
    pub refusal: Refusal,
    pub disk: ProbeDisk,
    pub blanks: Blanks,
}

// Written by hand, so that dropping an engine is proved here, and not in each crate that drops a
// store of probes.
impl Drop for ProbeStore {
    fn drop(self) {
        let ProbeStore {
            engine,
            processors: _,
        } = self;
        drop(engine);
    }
}

impl ProbeStore {
    /// Makes a store on a disk, with these arrays, or returns the refusal and the disk.
    pub fn create(
        alloc: Global,
        disk: ProbeDisk,
        manifest: Manifest,
        processors: u16,
    ) -> Result<ProbeStore, Refused<ProbeDisk>>
        requires { AreNewest manifest }
    {
        match Engine::create(alloc, disk, manifest, processors) {
            Ok(engine) => Ok(ProbeStore { engine, processors }),
            Err(refused) => Err(refused),
        }
    }

    /// Restarts the store of a disk, with objects made of these blanks.
    pub fn restart<R: Threads + Sync>(
        rt: &R,
        alloc: Global,
        disk: ProbeDisk,
        blanks: Blanks,
        processors: u16,
    ) -> Result<ProbeStore, NotBack> {
        match Engine::restart(rt, alloc, disk, blanks.into_stock(), processors) {
            Ok(engine) => Ok(ProbeStore { engine, processors }),
            Err(
                NotRestarted {
                    refusal,
                    disk,
                    blanks,
                },
            ) => Err(NotBack {
                refusal,
                disk,
                blanks: Blanks::of_stock(blanks),
            }),
        }
    }

    /// The generation of the store's image.
    pub fn generation(&self) -> u64 {
        self.engine.generation()
    }

    /// How many events are durable.
    pub fn durable(&self) -> u64 {
        self.engine.durable()
    }

    /// How many processors the store has.
    pub fn processors(&self) -> u16
        ensures { result ≡ self.now.processors }
    {
        self.processors
    }

    /// The engine of the store.
    pub(crate) fn into_engine(self) -> Engine<ProbeDisk, Object> {
        let ProbeStore {
            engine,
            processors: _,
        } = self;
        engine
    }

    /// The parts of the store.
    pub fn into_parts(self) -> (Store<Object>, Halves<ProbeDisk>)
        ensures shown { core_in result.0.history ≡ self }
        ensures history { (core_in result.0.history).history ≡ [] }
        ensures assigned { (core_in result.0.history).assigned ≡ [] }
        ensures tied { AreTied result.0 result.1 }
    {
        let ProbeStore {
            engine,
            processors: _,
        } = self;
        engine.into_parts()
    }
}
