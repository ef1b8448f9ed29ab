//! Two movers whose elements go opposite ways between two processors, while four workers deliver.

ghost use Rattle.std.specs.Prelude.{◌≡◌};
ghost use Rattle.charmlet_locks.specs.GhostAuth.Naming.{table_of};
ghost use Rattle.charmlet_history.specs.Kept.{core_in};
ghost use Rattle.charmlet_model.specs.KindVersion.{AreNewest};
ghost use Rattle.charmlet_sequencer.specs.Sequencer.{IsOf};
ghost use Rattle.charmlet_workers.specs.Runtime.{IsReady};

use super::opening::new_store;
use super::watching::Watch;
use charmlet_halves::Halves;
use charmlet_history::Request;
use charmlet_hub::{Closed, PassesOf, SeatsOf};
use charmlet_leases::{ClientPass, Seat};
use charmlet_model::{CONSTRUCT, Elem, Event, Kind, Manifest};
use charmlet_sequencer::RuntimeName;
use charmlet_store::Store;
use charmlet_testing::{Object, ProbeDisk, Tally, blanks};
use charmlet_workers::{OpenGate, Runtime, UnnamedAuthorities};
use std::alloc::{AllocGlobal, Global};
use std::marker::Brand;
use std::process::Abort;
use std::sync::{Arc, Wait};
use std::thread;
use std::thread::Threads;
use std::time::Clock;

// A worker on each of these processors.
const PROCESSORS: u16 = 4;

// How often each of the two elements moves, which is an even number.
const MOVES: u16 = 200;

// How often the token is handed on.
const HOPS: u64 = 400;

// How many turns each worker has while elements move.
const TURNS: u64 = 4_000;

const CLIENT: u32 = 7;

// The two counters that move, each on its home at first.
const COUNTERS: u16 = 0;

// The ring that hands a token on, an element on each processor.
const RINGS: u16 = 1;

fn element(array: u16, index: u64) -> Elem {
    Elem { array, index }
}

fn arrays(rt: &impl Abort, alloc: Global) -> Manifest
    ensures { AreNewest result }
{
    let arrays = [
        (COUNTERS, Kind::Counter.number()),
        (RINGS, Kind::Ring.number()),
    ];
    Manifest::of(alloc, &arrays)
        .expect(rt, "memory")
        .expect(rt, "two arrays")
}

// What one thread does: a worker's turns, or the moves of an element between processors 0 and 1; or
// it watches that the others come to an end.
#[derive(Drop)]
enum Hand<B: RuntimeName> {
    Worker(Seat<SeatsOf<B>>),
    Mover(u16),
    Watcher,
}

// Supplies blanks for everything that is made.
fn supply<B: RuntimeName, R: Wait + AllocGlobal + Abort>(
    rt: &R,
    runtime: &Runtime<ProbeDisk, Object, B>,
    tally: &Arc<Tally>,
    kind: Kind,
    count: u64,
) {
    let objects = blanks(rt.alloc(), tally, &[(kind, count)]).expect(rt, "memory");
    assert!(rt; runtime.supply(rt, objects).is_ok());
}

// The client asks something of an element.
fn ask<B: RuntimeName, R: Wait + Abort>(
    rt: &R,
    runtime: &Runtime<ProbeDisk, Object, B>,
    pass: &mut ClientPass<PassesOf<B>>,
    to: Elem,
    entry: u16,
    word: u64,
) {
    let request = Request {
        number: pass.last().saturating_add(1),
        to,
        entry,
        words: &[word],
    };
    assert!(rt; runtime.request(rt, pass, &request).is_ok());
}

// All seats take turns until nothing can be delivered.
fn drain<B: RuntimeName, R: Wait + Abort>(
    rt: &R,
    runtime: &Runtime<ProbeDisk, Object, B>,
    seats: &mut [Seat<SeatsOf<B>>],
) {
    for _ in 0..HOPS {
        if runtime.quiet(rt) {
            return;
        }
        for seat in seats.iter_mut() {
            assert_eq!(rt; runtime.work(rt, seat, &OpenGate, 2).refusal, None);
        }
    }
}

// An element moves to the other of two processors and back, again and again. Each move is made.
fn go<B: RuntimeName, R: Wait + AllocGlobal + Abort>(
    rt: &R,
    runtime: &Runtime<ProbeDisk, Object, B>,
    tally: &Arc<Tally>,
    home: u16,
) {
    let elem = element(COUNTERS, u64::from(home));
    for number in 0..MOVES {
        supply(rt, runtime, tally, Kind::Counter, 1);
        let away = number % 2 == 0;
        let processor = if away { 1 - home % 2 } else { home };
        assert_eq!(rt; runtime.move_to(rt, elem, processor), Ok(()));
    }
}

// What each thread does, which is noted once it has done it.
fn act<B: RuntimeName, R: Wait + AllocGlobal + Abort + Clock>(
    rt: &R,
    runtime: &Runtime<ProbeDisk, Object, B>,
    tally: &Arc<Tally>,
    watch: &Watch,
    hand: &mut Hand<B>,
) {
    match hand {
        Hand::Worker(seat) => {
            assert_eq!(rt; runtime.work(rt, seat, &OpenGate, TURNS).refusal, None);
            watch.note();
        }
        Hand::Mover(home) => {
            go(rt, runtime, tally, *home);
            watch.note();
        }
        Hand::Watcher => watch.wait_for(rt, u64::from(PROCESSORS) + 2),
    }
}

// The seats of workers.
fn seats_of<B: RuntimeName>(
    rt: &(impl AllocGlobal + Abort),
    hands: Vec<Hand<B>>,
) -> Vec<Seat<SeatsOf<B>>> {
    let mut seats = Vec::new(rt.alloc());
    for hand in hands {
        if let Hand::Worker(seat) = hand {
            seats.push(seat).expect(rt, "memory");
        }
    }
    seats
}

// Four workers and two movers, each in a thread of its own, and one that watches them.
fn cross<B: RuntimeName + Send + Sync, R: Threads + Wait + Sync + AllocGlobal + Abort + Clock>(
    rt: &R,
    runtime: &Runtime<ProbeDisk, Object, B>,
    tally: &Arc<Tally>,
    seats: Vec<Seat<SeatsOf<B>>>,
) -> Vec<Seat<SeatsOf<B>>> {
    let watch = Watch::new();
    let mut hands = Vec::new(rt.alloc());
    for home in 0..2 {
        hands.push(Hand::Mover(home)).expect(rt, "memory");
    }
    for seat in seats {
        hands.push(Hand::Worker(seat)).expect(rt, "memory");
    }
    hands.push(Hand::Watcher).expect(rt, "memory");
    let count = hands.len();
    thread::for_each_mut(
        rt,
        hands.as_mut_slice(),
        count,
        &|_place: usize, hand: &mut Hand<B>| act(rt, runtime, tally, &watch, hand),
    );
    seats_of(rt, hands)
}

// Each counter stands on its home again, as it was made, and no object is lost.
fn has_all<B: RuntimeName, R: Wait + Abort>(rt: &R, runtime: &Runtime<ProbeDisk, Object, B>) {
    for home in 0..2 {
        let elem = element(COUNTERS, u64::from(home));
        let look = runtime.look(rt, elem).expect(rt, "memory");
        let standing = look.standing.as_ref().expect(rt, "it is there");
        assert_eq!(rt; standing.processor, home);
        assert_eq!(rt; [look.sent, look.received], [0, 1]);
    }
    let census = runtime.census(rt);
    let moves = 2 * u64::from(MOVES);
    let counters = census.counters;
    assert_eq!(rt;
        [counters.supplied, counters.in_stock, counters.retired],
        [moves + 2, 0, moves]
    );
    let rings = census.rings;
    assert_eq!(rt; [rings.supplied, rings.in_stock, rings.retired], [4, 0, 0]);
}

// The runtime is closed. Each delivery stands once with its worker, or in the hub's own list.
fn end<B: RuntimeName>(
    rt: &impl Abort,
    runtime: Runtime<ProbeDisk, Object, B>,
    seats: Vec<Seat<SeatsOf<B>>>,
    passes: Vec<ClientPass<PassesOf<B>>>,
) {
    let mut held = 0;
    for seat in &seats {
        held += seat.ids().len();
    }
    let Ok(Closed { store, own, .. }) = runtime.close(seats, passes) else {
        panic!(rt; "all seats and passes are in")
    };
    let events = store.history.events().expect(rt, "they were noted");
    let deliveries = events
        .iter()
        .filter(|e| matches!(e, Event::Deliver(_)))
        .count();
    assert_eq!(rt; deliveries as u64, 6 + HOPS + 1);
    assert_eq!(rt; held + own.as_slice().len(), deliveries);
}

// Two counters and four elements of a ring are made, and a token goes round while the counters
// move.
fn live<B: RuntimeName + Send + Sync, R: Threads + Wait + Sync + AllocGlobal + Abort + Clock>(
    rt: &R,
    runtime: Runtime<ProbeDisk, Object, B>,
    tally: &Arc<Tally>,
) {
    supply(rt, &runtime, tally, Kind::Counter, 2);
    supply(rt, &runtime, tally, Kind::Ring, 4);
    let mut pass = runtime.client(rt, CLIENT).expect(rt, "it isn't out");
    let mut seats = Vec::new(rt.alloc());
    for place in 0..PROCESSORS {
        let seat = runtime.seat(rt, place).expect(rt, "it isn't out");
        seats.push(seat).expect(rt, "memory");
        let next = u64::from((place + 1) % PROCESSORS);
        let ring = element(RINGS, u64::from(place));
        ask(rt, &runtime, &mut pass, ring, CONSTRUCT, next);
    }
    for index in 0..2 {
        ask(
            rt,
            &runtime,
            &mut pass,
            element(COUNTERS, index),
            CONSTRUCT,
            5,
        );
    }
    drain(rt, &runtime, seats.as_mut_slice());
    ask(rt, &runtime, &mut pass, element(RINGS, 0), 0, HOPS);
    let mut seats = cross(rt, &runtime, tally, seats);
    drain(rt, &runtime, seats.as_mut_slice());
    has_all(rt, &runtime);
    let mut passes = Vec::new(rt.alloc());
    passes.push(pass).expect(rt, "memory");
    end(rt, runtime, seats, passes);
}

// A store, and the authorities of its runtime.
#[derive(Drop)]
struct Start {
    store: Store<Object>,
    halves: Halves<ProbeDisk>,
    authorities: UnnamedAuthorities,
}

impl Start {
    fn new(rt: &(impl AllocGlobal + Abort)) -> Start
        ensures { IsReady result.store result.halves }
    {
        let disk = ProbeDisk::new(rt.alloc()).expect(rt, "memory");
        let (store, halves) = new_store(rt, rt.alloc(), disk, arrays(rt, rt.alloc()), PROCESSORS);
        Start {
            store,
            halves,
            authorities: UnnamedAuthorities::new(rt.alloc()).expect(rt, "memory"),
        }
    }
}

// The two movers' life under the name `B`.
fn live_named<B: RuntimeName + Send + Sync, R: Threads + Wait + Sync + AllocGlobal + Abort + Clock>(
    rt: &R,
    start: Start,
    tally: &Arc<Tally>,
)
    requires ready { IsReady start.store start.halves }
    requires named { IsOf B.opening B.before B.processors (core_in start.store.history) }
    requires generation { B.generation ≡ (core_in start.store.history).generation }
    requires parts { table_of start.authorities.parts ≡ B.table }
    requires seats { table_of start.authorities.seats ≡ B.seats }
    requires passes { table_of start.authorities.passes ≡ B.passes }
    requires checkpoints { table_of start.authorities.checkpoints ≡ B.checkpoints }
    requires honest { B.honest → ⊥ }
{
    let Start {
        store,
        halves,
        authorities,
    } = start;
    match Runtime::<ProbeDisk, Object, B>::open(store, halves, authorities) {
        Ok(runtime) => live(rt, runtime, tally),
        Err(_) => panic!(rt; "memory"),
    }
}

// The two movers' life, under a name of its own.
fn live_once<R: Threads + Wait + Sync + AllocGlobal + Abort + Clock>(
    rt: &R,
    start: Start,
    tally: &Arc<Tally>,
)
    requires { IsReady start.store start.halves }
{
    live_named::<Brand, R>(rt, start, tally)
}

#[test]
fn moves_go_both_ways_beside_workers(rt: HostRuntime) {
    let tally = Arc::new(rt.alloc(), Tally::new()).expect(&rt, "memory");
    live_once(&rt, Start::new(&rt), &tally);
}
