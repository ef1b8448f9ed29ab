//! Two workers whose commits cross at a gate, and then a flush that fails, at each of its calls.

ghost use Rattle.std.specs.Prelude.{◌≡◌};
ghost use Rattle.charmlet_locks.specs.GhostAuth.Naming.{table_of};
ghost use Rattle.charmlet_history.specs.Kept.{core_in};
ghost use Rattle.charmlet_sequencer.specs.Sequencer.{IsOf};
ghost use Rattle.charmlet_workers.specs.Runtime.{IsReady};

use super::opening::{Start, has_counters};
use charmlet_disk::CrashChoice;
use charmlet_history::Request;
use charmlet_hub::{Closed, PassesOf, SeatsOf};
use charmlet_leases::{ClientPass, Seat};
use charmlet_model::{CONSTRUCT, Elem, Event, MsgId, Origin, Refusal, Told};
use charmlet_sequencer::RuntimeName;
use charmlet_testing::{Blanks, Object, ProbeDisk, ProbeStore, Switches, Tally, wanted_objects};
use charmlet_workers::{Gate, MOST_ASKS, Runtime, Worked, WorkerSlot, work_all};
use std::alloc::AllocGlobal;
use std::marker::Brand;
use std::process::Abort;
use std::sync::atomic::{AtomicU64, Ordering};
use std::sync::{Arc, Wait};
use std::thread::Threads;

// The calls of the disk that a flush makes: a batch and its sync, a gate and its sync.
const FLUSH: u64 = 4;

// Processor 1 may go on once processor 0 has asked, and 0 once 1 has committed. Each has one
// message, of client 7 or 8.
#[derive(Drop)]
struct Crossing {
    asks_of_zero: AtomicU64,
    commits_of_zero: AtomicU64,
    commits_of_one: AtomicU64,
    /// How often it was asked or told of another message.
    others: AtomicU64,
}

impl Crossing {
    fn new() -> Self {
        Crossing {
            asks_of_zero: AtomicU64::new(0),
            commits_of_zero: AtomicU64::new(0),
            commits_of_one: AtomicU64::new(0),
            others: AtomicU64::new(0),
        }
    }

    fn note(&self, processor: u16, id: &MsgId) {
        if *id != first_of(7 + u32::from(processor)) {
            self.others.fetch_add(1, Ordering::SeqCst);
        }
    }
}

impl Gate for Crossing {
    fn open(&self, processor: u16, id: &MsgId) -> bool {
        self.note(processor, id);
        if processor == 0 {
            self.asks_of_zero.fetch_add(1, Ordering::SeqCst);
            self.commits_of_one.load(Ordering::SeqCst) > 0
        } else {
            self.asks_of_zero.load(Ordering::SeqCst) > 0
        }
    }

    fn committed(&self, processor: u16, id: &MsgId) {
        self.note(processor, id);
        if processor == 0 {
            self.commits_of_zero.fetch_add(1, Ordering::SeqCst);
        } else {
            self.commits_of_one.fetch_add(1, Ordering::SeqCst);
        }
    }
}

// The id of a client's first request.
fn first_of(client: u32) -> MsgId {
    MsgId {
        origin: Origin::Client(client),
        number: 1,
    }
}

// Client 7 asks for a counter on processor 0, or client 8 for one on processor 1. A second pass of
// either is refused.
fn ask<B: RuntimeName, R: Wait + Abort>(
    rt: &R,
    runtime: &Runtime<ProbeDisk, Object, B>,
    client: u32,
    index: u64,
) -> ClientPass<PassesOf<B>> {
    let mut pass = runtime.client(rt, client).expect(rt, "it isn't out");
    assert_eq!(rt; runtime.client(rt, client).err(), Some(Refusal::PassOut));
    let request = Request {
        number: 1,
        to: Elem { array: 0, index },
        entry: CONSTRUCT,
        words: &[5],
    };
    assert!(rt; matches!(runtime.request(rt, &mut pass, &request), Ok(Told::Unknown)));
    pass
}

// A processor's seat, whose worker has done nothing. A second one is refused.
fn sit<B: RuntimeName, R: Wait + Abort>(
    rt: &R,
    runtime: &Runtime<ProbeDisk, Object, B>,
    processor: u16,
) -> WorkerSlot<B> {
    let seat = runtime.seat(rt, processor).expect(rt, "it isn't out");
    assert_eq!(rt; runtime.seat(rt, processor).err(), Some(Refusal::PassOut));
    let worked = Worked {
        count: 0,
        refusal: None,
    };
    WorkerSlot { seat, worked }
}

// Each worker has committed its one message.
fn has_worked<B: RuntimeName>(rt: &impl Abort, slot: &WorkerSlot<B>, client: u32) {
    assert_eq!(rt; slot.worked.count, 1);
    assert_eq!(rt; slot.worked.refusal, None);
    assert_eq!(rt; slot.seat.ids(), [first_of(client)].as_slice());
}

// A flush fails at this call of the disk, whose later calls would all pass. Then everything is
// refused.
fn fail<B: RuntimeName, R: Wait + Abort>(
    rt: &R,
    runtime: &Runtime<ProbeDisk, Object, B>,
    passes: &mut [ClientPass<PassesOf<B>>],
    switches: &Switches,
    call: u64,
) {
    let [lengths, reads, writes, syncs, failed] = switches.counts();
    switches.once.store(call, Ordering::SeqCst);
    assert_eq!(rt; runtime.flush(rt, passes).err(), Some(Refusal::Device));
    let written = writes.saturating_add(call.div_ceil(2));
    let synced = syncs.saturating_add(call / 2);
    assert_eq!(rt;
        switches.counts(),
        [lengths, reads, written, synced, failed.saturating_add(1)]
    );
    assert_eq!(rt; runtime.flush(rt, passes).err(), Some(Refusal::Halted));
    assert!(rt; runtime.is_halted(rt));
    let request = Request {
        number: 2,
        to: Elem { array: 0, index: 0 },
        entry: 0,
        words: &[1],
    };
    for pass in passes.iter_mut() {
        assert_eq!(rt;
            runtime.request(rt, pass, &request).err(),
            Some(Refusal::Halted)
        );
        assert_eq!(rt; runtime.status(rt, pass, 1).err(), Some(Refusal::Halted));
    }
}

// The runtime is closed. Its history has both deliveries, processor 1's first, and no other; and
// both counters are on its shelves.
fn end<B: RuntimeName>(
    rt: &impl Abort,
    runtime: Runtime<ProbeDisk, Object, B>,
    seats: Vec<Seat<SeatsOf<B>>>,
    passes: Vec<ClientPass<PassesOf<B>>>,
) -> ProbeDisk {
    let Closed { store, halves, own } = match runtime.close(seats, passes) {
        Ok(closed) => closed,
        Err(_) => panic!(rt; "all seats and passes are in"),
    };
    assert_eq!(rt; own.as_slice().len(), 0);
    let events = store.history.events().expect(rt, "they were noted");
    assert_eq!(rt; events.len(), 4);
    assert!(rt; matches!(&events[2], Event::Deliver(id) if *id == first_of(8)));
    assert!(rt; matches!(&events[3], Event::Deliver(id) if *id == first_of(7)));
    has_counters(rt, &store, 2);
    halves.into_disk()
}

// Both workers deliver, each in a thread; then a flush fails at this call, which is the last one of
// the disk, and the runtime is closed.
fn cross<B: RuntimeName + Send + Sync, R: Threads + Wait + Sync + AllocGlobal + Abort>(
    rt: &R,
    runtime: Runtime<ProbeDisk, Object, B>,
    gate: &Crossing,
    switches: &Switches,
    blanks: Vec<Object>,
    call: u64,
) -> ProbeDisk {
    assert!(rt; runtime.supply(rt, blanks).is_ok());
    let mut passes = Vec::new(rt.alloc());
    let mut slots = Vec::new(rt.alloc());
    for place in 0..2 {
        let pass = ask(rt, &runtime, 7 + place, u64::from(place));
        passes.push(pass).expect(rt, "memory");
        let slot = sit(rt, &runtime, place as u16);
        slots.push(slot).expect(rt, "memory");
    }
    assert_eq!(rt; runtime.seat(rt, 2).err(), Some(Refusal::BadPes));
    work_all(rt, &runtime, slots.as_mut_slice(), gate, 3);
    fail(rt, &runtime, passes.as_mut_slice(), switches, call);
    let counts = switches.counts();
    let disk = end(rt, runtime, stand(rt, slots), passes);
    assert_eq!(rt; switches.counts(), counts);
    disk
}

// Each worker has committed its one message. Their seats.
fn stand<B: RuntimeName>(
    rt: &(impl AllocGlobal + Abort),
    slots: Vec<WorkerSlot<B>>,
) -> Vec<Seat<SeatsOf<B>>> {
    let mut seats = Vec::new(rt.alloc());
    for (client, slot) in (7..).zip(slots) {
        has_worked(rt, &slot, client);
        let WorkerSlot { seat, worked: _ } = slot;
        seats.push(seat).expect(rt, "memory");
    }
    seats
}

// Crosses over a store, with authorities that `B` names.
fn cross_named<B: RuntimeName + Send + Sync, R: Threads + Wait + Sync + AllocGlobal + Abort>(
    rt: &R,
    start: Start,
    gate: &Crossing,
    call: u64,
) -> ProbeDisk
    requires ready { IsReady start.store start.halves }
    requires named { IsOf B.opening B.before B.processors (core_in start.store.history) }
    requires generation { B.generation ≡ (core_in start.store.history).generation }
    requires parts { table_of start.authorities.parts ≡ B.table }
    requires seats { table_of start.authorities.seats ≡ B.seats }
    requires passes { table_of start.authorities.passes ≡ B.passes }
    requires checkpoints { table_of start.authorities.checkpoints ≡ B.checkpoints }
    requires honest { B.honest → ⊥ }
{
    let Start {
        store,
        halves,
        authorities,
        switches,
        blanks,
    } = start;
    match Runtime::<ProbeDisk, Object, B>::open(store, halves, authorities) {
        Ok(runtime) => cross(rt, runtime, gate, &switches, blanks, call),
        Err(_) => panic!(rt; "memory"),
    }
}

// Crosses over a store, under a name of its own.
fn cross_once<R: Threads + Wait + Sync + AllocGlobal + Abort>(
    rt: &R,
    start: Start,
    gate: &Crossing,
    call: u64,
) -> ProbeDisk
    requires { IsReady start.store start.halves }
{
    cross_named::<Brand, R>(rt, start, gate, call)
}

// The disk that a crash leaves restarts, with this many events.
fn restarts<R: Threads + Sync + AllocGlobal + Abort>(
    rt: &R,
    tally: &Arc<Tally>,
    disk: ProbeDisk,
    choice: CrashChoice,
    events: u64,
) {
    let mut disk = disk.crash(choice);
    let objects = wanted_objects(rt.alloc(), tally, &mut disk).expect(rt, "memory");
    let Ok(blanks) = Blanks::of(rt.alloc(), objects) else {
        panic!(rt; "memory")
    };
    match ProbeStore::restart(rt, rt.alloc(), disk, blanks, 1) {
        Ok(store) => assert_eq!(rt; store.durable(), events),
        Err(_) => panic!(rt; "a store stands there"),
    }
}

// The commits cross, and a flush fails at this call. The events are there after a crash if it was
// the sync of the gate, and the crash leaves the gate as it was written, or as ones.
fn crosses_and_fails<R: Threads + Wait + Sync + AllocGlobal + Abort>(
    rt: &R,
    tally: &Arc<Tally>,
    call: u64,
    choice: CrashChoice,
) {
    let gate = Crossing::new();
    let disk = cross_once(rt, Start::new(rt, rt.alloc(), tally), &gate, call);
    assert!(rt; gate.asks_of_zero.load(Ordering::SeqCst) < u64::from(MOST_ASKS));
    // It was told of each commit once, and of no other message.
    assert_eq!(rt; gate.commits_of_zero.load(Ordering::SeqCst), 1);
    assert_eq!(rt; gate.commits_of_one.load(Ordering::SeqCst), 1);
    assert_eq!(rt; gate.others.load(Ordering::SeqCst), 0);
    let is_there = matches!(choice, CrashChoice::New | CrashChoice::Ones);
    let events = if call == FLUSH - 1 && is_there { 4 } else { 0 };
    restarts(rt, tally, disk, choice, events);
}

#[test]
fn commits_cross_and_a_flush_fails(rt: HostRuntime) {
    let tally = Arc::new(rt.alloc(), Tally::new()).expect(&rt, "memory");
    for call in 0..FLUSH {
        for choice in &CrashChoice::ALL {
            crosses_and_fails(&rt, &tally, call, *choice);
        }
    }
}
