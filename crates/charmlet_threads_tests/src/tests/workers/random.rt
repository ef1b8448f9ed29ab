//! Random stores whose checkpoints run while clients ask and workers deliver. Each crashes and
//! restarts, and is compared with the world after the durable events.

ghost use Rattle.std.specs.Prelude.{◌<◌, ◌≡◌, ◌≤◌};
ghost use Rattle.charmlet_locks.specs.GhostAuth.Naming.{table_of};
ghost use Rattle.charmlet_history.specs.Kept.{core_in};
ghost use Rattle.charmlet_model.specs.KindVersion.{AreNewest};
ghost use Rattle.charmlet_sequencer.specs.Sequencer.{IsOf};
ghost use Rattle.charmlet_workers.specs.Runtime.{IsReady};

use super::opening::{come_back, new_store};
use charmlet_disk::CrashChoice;
use charmlet_halves::Halves;
use charmlet_history::Request;
use charmlet_hub::{Closed, PassesOf, SeatsOf};
use charmlet_leases::{ClientPass, Seat};
use charmlet_model::{CONSTRUCT, Elem, Event, Half, Kind, Manifest, Refusal};
use charmlet_reference::{PlainWorld, Recovered, recover};
use charmlet_sequencer::RuntimeName;
use charmlet_store::Store;
use charmlet_testing::{Machine, Object, ProbeDisk, Tally, blanks};
use charmlet_workers::{
    OpenGate, Pause, Runtime, UnnamedAuthorities, Worked, WorkerSlot, work_all,
};
use rand_core::utils::NextWord;
use rand_pcg::Pcg32;
use std::alloc::{AllocError, AllocGlobal, Global};
use std::marker::Brand;
use std::process::Abort;
use std::sync::{Arc, Mutex, Wait};
use std::thread::{Threads, join};

const STORES: u64 = 1_000;

const CLIENTS: u32 = 3;

// How many things are done before the first checkpoint.
const FIRST: u32 = 24;

// How many turns each worker has in a thread of its own.
const TURNS: u64 = 12;

// An array of each kind. Those of trees have the most to do, since a tree's elements come and go.
const ARRAYS: [(u16, u16); 6] = [(0, 1), (1, 2), (2, 3), (3, 4), (4, 5), (5, 6)];

const TREES: u16 = 4;

// Blanks for everything that is made, and for the moves.
const SUPPLY: [(Kind, u64); 6] = [
    (Kind::Counter, 60),
    (Kind::Ring, 60),
    (Kind::Account, 60),
    (Kind::Sum, 60),
    (Kind::Tree, 200),
    (Kind::Tape, 60),
];

// The gate of an open half.
const OPEN: u8 = 1;

fn some(rng: &mut Pcg32, below: u32) -> u32
    requires { 1 ≤ below }
    ensures { result < below }
{
    rng.next_word() % below
}

// The passes of clients and the seats of workers, and how many deliveries were made while a
// checkpoint ran.
#[derive(Drop)]
struct Hands<B: RuntimeName> {
    rng: Pcg32,
    seats: Vec<Seat<SeatsOf<B>>>,
    passes: Vec<ClientPass<PassesOf<B>>>,
    meanwhile: u64,
}

fn some_elem(rng: &mut Pcg32) -> Elem {
    let array = some(rng, 8) as u16;
    Elem {
        array: if array < 6 { array } else { TREES },
        index: u64::from(some(rng, 4)),
    }
}

impl<B: RuntimeName> Hands<B> {
    // Everything that a runtime lends.
    fn of<R: Wait + AllocGlobal + Abort>(
        rt: &R,
        runtime: &Runtime<ProbeDisk, Object, B>,
        rng: Pcg32,
        processors: u16,
    ) -> Hands<B> {
        let mut seats = Vec::new(rt.alloc());
        let mut passes = Vec::new(rt.alloc());
        for processor in 0..processors {
            let seat = runtime.seat(rt, processor).expect(rt, "it isn't out");
            seats.push(seat).expect(rt, "memory");
        }
        for client in 0..CLIENTS {
            let pass = runtime.client(rt, client).expect(rt, "it isn't out");
            passes.push(pass).expect(rt, "memory");
        }
        Hands {
            rng,
            seats,
            passes,
            meanwhile: 0,
        }
    }

    // A client constructs an absent element, or mostly makes another request to a present one. Its
    // window may be full.
    fn ask<R: Wait + Abort>(&mut self, rt: &R, runtime: &Runtime<ProbeDisk, Object, B>) {
        let to = some_elem(&mut self.rng);
        let look = runtime.look(rt, to).expect(rt, "memory");
        let is_new = look.standing.is_none() || some(&mut self.rng, 8) == 0;
        let entry = some(&mut self.rng, 3) as u16;
        let words = [some(&mut self.rng, 3), some(&mut self.rng, 4)];
        let place = some(&mut self.rng, CLIENTS) as usize;
        let pass = self.passes.get_mut(place).expect(rt, "a pass");
        let request = Request {
            number: pass.last().saturating_add(1),
            to,
            entry: if is_new { CONSTRUCT } else { entry },
            words: &[u64::from(words[0]), u64::from(words[1])],
        };
        let told = runtime.request(rt, pass, &request);
        assert!(rt; matches!(told, Ok(_) | Err(Refusal::Waiting)));
    }

    // A worker takes some turns, if the seats are here.
    fn work<R: Wait + Abort>(
        &mut self,
        rt: &R,
        runtime: &Runtime<ProbeDisk, Object, B>,
        is_sealing: bool,
    ) {
        let turns = u64::from(some(&mut self.rng, 3)) + 1;
        let place = some(&mut self.rng, 64) as usize;
        if self.seats.is_empty() {
            return;
        }
        let place = place % self.seats.len();
        let seat = self.seats.get_mut(place).expect(rt, "a seat");
        let worked = runtime.work(rt, seat, &OpenGate, turns);
        assert_eq!(rt; worked.refusal, None);
        if is_sealing {
            self.meanwhile = self.meanwhile.saturating_add(worked.count);
        }
    }

    // An element is to go to another processor, or to stay. While a checkpoint runs it can't.
    fn go<R: Wait + Abort>(
        &mut self,
        rt: &R,
        runtime: &Runtime<ProbeDisk, Object, B>,
        is_sealing: bool,
    ) {
        let elem = some_elem(&mut self.rng);
        let moved = runtime.move_to(rt, elem, some(&mut self.rng, 2) as u16);
        let is_refused = matches!(moved, Err(Refusal::Checkpointing));
        assert_eq!(rt; is_refused, is_sealing);
    }

    // One thing that a client or a worker does.
    fn act<R: Wait + Abort>(
        &mut self,
        rt: &R,
        runtime: &Runtime<ProbeDisk, Object, B>,
        is_sealing: bool,
    ) {
        match some(&mut self.rng, 8) {
            0 | 1 | 2 => self.ask(rt, runtime),
            3 | 4 | 5 => self.work(rt, runtime, is_sealing),
            6 => {
                let flushed = runtime.flush(rt, self.passes.as_mut_slice());
                assert!(rt; flushed.is_ok());
            }
            _ => self.go(rt, runtime, is_sealing),
        }
    }

    // This many things, one after another.
    fn act_often<R: Wait + Abort>(
        &mut self,
        rt: &R,
        runtime: &Runtime<ProbeDisk, Object, B>,
        count: u32,
        is_sealing: bool,
    ) {
        for _ in 0..count {
            self.act(rt, runtime, is_sealing);
        }
    }
}

// A checkpoint's pause: others go on after each of its shelves.
#[derive(Drop)]
struct Meanwhile<'a, B: RuntimeName, R: Wait> {
    rt: &'a R,
    runtime: &'a Runtime<ProbeDisk, Object, B>,
    hands: Mutex<Hands<B>>,
}

impl<B: RuntimeName + Send + Sync, R: Wait + Sync + Abort> Pause for Meanwhile<'_, B, R> {
    fn imaged(&self, _processor: u16) {
        let mut hands = self.hands.lock(self.rt);
        let count = some(&mut hands.rng, 9);
        hands.act_often(self.rt, self.runtime, count, true);
    }
}

// A checkpoint during which one thread asks and works.
fn seal<B: RuntimeName + Send + Sync, R: Wait + Sync + Abort>(
    rt: &R,
    runtime: &Runtime<ProbeDisk, Object, B>,
    hands: Hands<B>,
    generation: u64,
) -> Hands<B> {
    let meanwhile = Meanwhile {
        rt,
        runtime,
        hands: Mutex::new(hands),
    };
    assert_eq!(rt; runtime.checkpoint_with(rt, &meanwhile), Ok(generation));
    let Meanwhile {
        rt: _,
        runtime: _,
        hands,
    } = meanwhile;
    hands.into_inner()
}

// The seats, each with a worker that has done nothing.
fn slots<B: RuntimeName>(
    rt: &(impl AllocGlobal + Abort),
    seats: Vec<Seat<SeatsOf<B>>>,
) -> Vec<WorkerSlot<B>> {
    let mut slots = Vec::new(rt.alloc());
    for seat in seats {
        let worked = Worked {
            count: 0,
            refusal: None,
        };
        slots.push(WorkerSlot { seat, worked }).expect(rt, "memory");
    }
    slots
}

// A checkpoint during which one thread asks and each seat works in a thread of its own.
fn seal_beside_workers<
    B: RuntimeName + Send + Sync,
    R: Threads + Wait + Sync + AllocGlobal + Abort,
>(rt: &R, runtime: &Runtime<ProbeDisk, Object, B>, hands: Hands<B>, generation: u64) -> Hands<B> {
    let Hands {
        rng,
        seats,
        passes,
        meanwhile,
    } = hands;
    let mut slots = slots(rt, seats);
    let asking = Hands {
        rng,
        seats: Vec::new(rt.alloc()),
        passes,
        meanwhile,
    };
    let (asked, _) = join(
        rt,
        || seal(rt, runtime, asking, generation),
        || work_all(rt, runtime, slots.as_mut_slice(), &OpenGate, TURNS),
    );
    let mut hands = asked;
    for slot in slots {
        let WorkerSlot { seat, worked } = slot;
        assert_eq!(rt; worked.refusal, None);
        hands.meanwhile = hands.meanwhile.saturating_add(worked.count);
        hands.seats.push(seat).expect(rt, "memory");
    }
    hands
}

// What a runtime leaves: its store, whose events were noted, and its disk; and how many deliveries
// were made while a checkpoint ran.
#[derive(Drop)]
struct Left {
    store: Store<Object>,
    disk: ProbeDisk,
    meanwhile: u64,
}

// A runtime's life, with one or two checkpoints, with workers in threads or without.
fn live<B: RuntimeName + Send + Sync, R: Threads + Wait + Sync + AllocGlobal + Abort>(
    rt: &R,
    runtime: Runtime<ProbeDisk, Object, B>,
    tally: &Arc<Tally>,
    rng: Pcg32,
    processors: u16,
) -> Left {
    let supply = blanks(rt.alloc(), tally, &SUPPLY).expect(rt, "memory");
    assert!(rt; runtime.supply(rt, supply).is_ok());
    let mut hands = Hands::of(rt, &runtime, rng, processors);
    hands.act_often(rt, &runtime, FIRST, false);
    let checkpoints = u64::from(some(&mut hands.rng, 2)) + 1;
    for generation in 2..2 + checkpoints {
        hands = if some(&mut hands.rng, 2) == 0 {
            seal(rt, &runtime, hands, generation)
        } else {
            seal_beside_workers(rt, &runtime, hands, generation)
        };
        let count = some(&mut hands.rng, 12);
        hands.act_often(rt, &runtime, count, false);
    }
    let Hands {
        rng: _,
        seats,
        passes,
        meanwhile,
    } = hands;
    match runtime.close(seats, passes) {
        Ok(
            Closed {
                store,
                halves,
                own: _,
            },
        ) => Left {
            store,
            disk: halves.into_disk(),
            meanwhile,
        },
        Err(_) => panic!(rt; "all seats and passes are in"),
    }
}

// The beginning of a life.
#[derive(Drop)]
struct Start {
    store: Store<Object>,
    halves: Halves<ProbeDisk>,
    authorities: UnnamedAuthorities,
    rng: Pcg32,
    processors: u16,
}

// A life over a store, with authorities that `B` names.
fn live_named<B: RuntimeName + Send + Sync, R: Threads + Wait + Sync + AllocGlobal + Abort>(
    rt: &R,
    start: Start,
    tally: &Arc<Tally>,
) -> Left
    requires ready { IsReady start.store start.halves }
    requires named { IsOf B.opening B.before B.processors (core_in start.store.history) }
    requires generation { B.generation ≡ (core_in start.store.history).generation }
    requires parts { table_of start.authorities.parts ≡ B.table }
    requires seats { table_of start.authorities.seats ≡ B.seats }
    requires passes { table_of start.authorities.passes ≡ B.passes }
    requires checkpoints { table_of start.authorities.checkpoints ≡ B.checkpoints }
    requires honest { B.honest → ⊥ }
{
    let Start {
        store,
        halves,
        authorities,
        rng,
        processors,
    } = start;
    match Runtime::<ProbeDisk, Object, B>::open(store, halves, authorities) {
        Ok(runtime) => live(rt, runtime, tally, rng, processors),
        Err(_) => panic!(rt; "memory"),
    }
}

// A life over a store, under a name of its own.
fn live_once<R: Threads + Wait + Sync + AllocGlobal + Abort>(
    rt: &R,
    start: Start,
    tally: &Arc<Tally>,
) -> Left
    requires { IsReady start.store start.halves }
{
    live_named::<Brand, R>(rt, start, tally)
}

// ---- what comes back

fn manifest(rt: &impl Abort, alloc: Global) -> Manifest
    ensures { AreNewest result }
{
    Manifest::of(alloc, &ARRAYS)
        .expect(rt, "memory")
        .expect(rt, "six arrays")
}

// The world after these events, as a text.
fn world_after(alloc: Global, manifest: Manifest, events: &[Event]) -> Result<String, AllocError> {
    let mut world = PlainWorld::new(alloc, manifest);
    for event in events {
        world.after(event)?;
    }
    format!(in alloc; "{world:?}")
}

// The world to which two halves recover by the plain program, as a text.
fn found(rt: &(impl AllocGlobal + Abort), zero: &[u8], one: &[u8], wanted: u64) -> String {
    match recover(rt.alloc(), zero, one).expect(rt, "memory") {
        Recovered::Found {
            world,
            events,
            generation: _,
        } => {
            assert_eq!(rt; events, wanted);
            let text = format!(in rt.alloc(); "{world:?}");
            text.expect(rt, "memory")
        }
        _ => panic!(rt; "a store stands there"),
    }
}

// The world of a product's restart, by the image that it would write, as a text.
fn restarted<R: Threads + Sync + AllocGlobal + Abort>(
    rt: &R,
    disk: ProbeDisk,
    tally: &Arc<Tally>,
    processors: u16,
    wanted: u64,
) -> String {
    let mut machine = come_back(rt, disk, tally, processors);
    let Ok(image) = machine.image() else {
        panic!(rt; "memory")
    };
    let mut half = Vec::new(rt.alloc());
    half.push(OPEN).expect(rt, "memory");
    half.extend_from_slice(&image).expect(rt, "memory");
    found(rt, &half, &[], wanted)
}

// The disk that a crash leaves has the world after the durable events: for the plain program, and
// for a restart.
fn comes_back<R: Threads + Sync + AllocGlobal + Abort>(
    rt: &R,
    left: Left,
    tally: &Arc<Tally>,
    rng: &mut Pcg32,
) -> u64 {
    let Left {
        store,
        disk,
        meanwhile,
    } = left;
    let durable = store.history.durable_count();
    let events = store.history.events().expect(rt, "they were noted");
    assert!(rt; durable <= events.len() as u64);
    let first = &events[..durable as usize];
    let wanted = world_after(rt.alloc(), manifest(rt, rt.alloc()), first).expect(rt, "memory");
    let choice = CrashChoice::ALL[some(rng, 6) as usize];
    let mut disk = disk.crash(choice);
    let zero = disk.bytes(rt.alloc(), Half::Zero).expect(rt, "memory");
    let one = disk.bytes(rt.alloc(), Half::One).expect(rt, "memory");
    let plain = found(rt, &zero, &one, durable);
    assert_eq!(rt; plain.as_str(), wanted.as_str());
    let processors = some(rng, 4) as u16 + 1;
    let back = restarted(rt, disk, tally, processors, durable);
    assert_eq!(rt; back.as_str(), wanted.as_str());
    meanwhile
}

// A store of this seed lives, crashes and restarts. It answers how many deliveries were made while
// a checkpoint ran.
fn store_of<R: Threads + Wait + Sync + AllocGlobal + Abort>(rt: &R, seed: u64) -> u64 {
    let mut rng = Pcg32::new(seed, 60);
    let tally = Arc::new(rt.alloc(), Tally::new()).expect(rt, "memory");
    let disk = ProbeDisk::new(rt.alloc()).expect(rt, "memory");
    let processors = some(&mut rng, 3) as u16 + 2;
    let arrays = manifest(rt, rt.alloc());
    let (store, halves) = new_store(rt, rt.alloc(), disk, arrays, processors);
    let start = Start {
        store,
        halves,
        authorities: UnnamedAuthorities::new(rt.alloc()).expect(rt, "memory"),
        rng: Pcg32::new(seed, 61),
        processors,
    };
    let left = live_once(rt, start, &tally);
    comes_back(rt, left, &tally, &mut rng)
}

#[test]
fn a_thousand_random_stores_come_back(rt: HostRuntime) {
    let mut meanwhile: u64 = 0;
    for seed in 0..STORES {
        meanwhile = meanwhile.saturating_add(store_of(&rt, seed));
    }
    assert!(&rt; meanwhile > 2_000, "{meanwhile}");
}
