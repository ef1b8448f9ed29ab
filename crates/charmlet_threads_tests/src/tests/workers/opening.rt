//! Stores over which a runtime opens: new ones, and a restored one.

ghost use Rattle.std.specs.Prelude.{◌≡◌};
ghost use Rattle.charmlet_model.specs.KindVersion.{AreNewest};
ghost use Rattle.charmlet_engine.specs.Engine.{core_of};
ghost use Rattle.charmlet_workers.specs.Runtime.{IsReady};

use charmlet_halves::Halves;
use charmlet_model::{Kind, Manifest};
use charmlet_persist::{Created, create};
use charmlet_recover::stock_from_objects;
use charmlet_runtime::{Reopened, RuntimeBuilder};
use charmlet_store::{Store, empty_shelves};
use charmlet_testing::{
    Blanks, EngineMachine, Object, ProbeDisk, ProbeStore, Switches, Tally, blanks, wanted_objects,
};
use charmlet_workers::UnnamedAuthorities;
use std::alloc::{AllocGlobal, Global};
use std::process::Abort;
use std::sync::Arc;
use std::thread::Threads;

// An array of counters.
pub(super) fn counters(rt: &impl Abort, alloc: Global) -> Manifest
    ensures { AreNewest result }
{
    let arrays = [(0, Kind::Counter.number())];
    Manifest::of(alloc, &arrays)
        .expect(rt, "memory")
        .expect(rt, "one array")
}

// A store with these arrays on this many processors, whose events are noted.
pub(super) fn new_store(
    rt: &impl Abort,
    alloc: Global,
    disk: ProbeDisk,
    manifest: Manifest,
    processors: u16,
) -> (Store<Object>, Halves<ProbeDisk>)
    requires newest { AreNewest manifest }
    ensures { IsReady result.0 result.1 }
{
    let shelves = empty_shelves(alloc, processors).expect(rt, "memory");
    match create(alloc, disk, manifest, processors) {
        Ok(created) => {
            let Created {
                mut history,
                halves,
            } = created;
            history.note_events();
            (Store::new(alloc, history, shelves), halves)
        }
        Err(_) => panic!(rt; "no store is there"),
    }
}

// What two workers on two processors begin with: a new store, the switches of its disk, and two
// blank counters.
#[derive(Drop)]
pub(super) struct Start {
    pub(super) store: Store<Object>,
    pub(super) halves: Halves<ProbeDisk>,
    pub(super) authorities: UnnamedAuthorities,
    pub(super) switches: Arc<Switches>,
    pub(super) blanks: Vec<Object>,
}

impl Start {
    pub(super) fn new(rt: &impl Abort, alloc: Global, tally: &Arc<Tally>) -> Start
        ensures { IsReady result.store result.halves }
    {
        let disk = ProbeDisk::new(alloc).expect(rt, "memory");
        let switches = disk.switches().expect(rt, "memory");
        let (store, halves) = new_store(rt, alloc, disk, counters(rt, alloc), 2);
        Start {
            store,
            halves,
            authorities: UnnamedAuthorities::new(alloc).expect(rt, "memory"),
            switches,
            blanks: blanks(alloc, tally, &[(Kind::Counter, 2)]).expect(rt, "memory"),
        }
    }
}

// This many of the two counters of a closed store are on its shelves, and the others in its stock.
pub(super) fn has_counters(rt: &impl Abort, store: &Store<Object>, on_shelves: u64) {
    let census = store.census(Kind::Counter);
    assert_eq!(rt;
        [census.supplied, census.on_shelves, census.retired],
        [2, on_shelves, 0]
    );
    assert_eq!(rt; census.on_shelves + census.in_stock, 2);
}

// A new runtime on two processors, with an array of counters.
pub(super) fn create_on(
    rt: &(impl AllocGlobal + Abort),
    disk: ProbeDisk,
) -> RuntimeBuilder<ProbeDisk, Object>
    ensures { (core_of result).processors ≡ 2 }
{
    let manifest = counters(rt, rt.alloc());
    match RuntimeBuilder::create(rt.alloc(), disk, manifest, 2) {
        Ok(begun) => begun,
        Err(_) => panic!(rt; "no store is there"),
    }
}

// The restored store on two processors, with the objects that it wants, which doesn't go on yet.
pub(super) fn reopen_on<R: Threads + Sync + AllocGlobal + Abort>(
    rt: &R,
    disk: ProbeDisk,
    tally: &Arc<Tally>,
) -> Reopened<ProbeDisk, Object> {
    let mut disk = disk;
    let objects = wanted_objects(rt.alloc(), tally, &mut disk).expect(rt, "memory");
    let Ok(blanks) = stock_from_objects(rt.alloc(), objects) else {
        panic!(rt; "memory")
    };
    match Reopened::from_disk(rt, rt.alloc(), disk, blanks, 2) {
        Ok(reopened) => reopened,
        Err(_) => panic!(rt; "a store is there"),
    }
}

// The restarted store of a disk, on this many processors, with the objects that it wants.
pub(super) fn come_back<R: Threads + Sync + AllocGlobal + Abort>(
    rt: &R,
    disk: ProbeDisk,
    tally: &Arc<Tally>,
    processors: u16,
) -> EngineMachine {
    let mut disk = disk;
    let objects = wanted_objects(rt.alloc(), tally, &mut disk).expect(rt, "memory");
    let Ok(blanks) = Blanks::of(rt.alloc(), objects) else {
        panic!(rt; "memory")
    };
    match ProbeStore::restart(rt, rt.alloc(), disk, blanks, processors) {
        Ok(store) => EngineMachine::new(rt.alloc(), store),
        Err(_) => panic!(rt; "a store stands there"),
    }
}
