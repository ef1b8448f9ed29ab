//! A worker that finds nothing for a while, and then what others send it: a request for an element
//! on its processor, and a message without a ticket that comes with an element that moves there.

ghost use Rattle.std.specs.Prelude.{◌≡◌};
ghost use Rattle.charmlet_locks.specs.GhostAuth.Naming.{table_of};
ghost use Rattle.charmlet_history.specs.Kept.{core_in};
ghost use Rattle.charmlet_sequencer.specs.Sequencer.{IsOf};
ghost use Rattle.charmlet_workers.specs.Runtime.{IsReady};

use super::opening::Start;
use super::watching::Watch;
use charmlet_history::Request;
use charmlet_hub::{Closed, PassesOf, SeatsOf};
use charmlet_leases::{ClientPass, Seat};
use charmlet_model::{CONSTRUCT, Elem, Kind, MsgId, Origin, Refusal};
use charmlet_sequencer::RuntimeName;
use charmlet_testing::{Object, ProbeDisk, Switches, Tally, blanks};
use charmlet_workers::{Gate, OpenGate, Runtime, Worked};
use std::alloc::AllocGlobal;
use std::marker::Brand;
use std::process::Abort;
use std::sync::atomic::{AtomicBool, Ordering};
use std::sync::{Arc, Wait};
use std::thread;
use std::thread::Threads;
use std::time::Clock;

const CLIENT: u32 = 7;

// How many turns the worker has: more than it takes before its store is halted.
const TURNS: u64 = 1 << 40;

// The number of the request at which the gate waits for the store to be halted.
const LAST: u64 = 5;

// How often the client lets the worker go on before it asks for more.
const YIELDS: u32 = 2_000;

// The counter on each of the two processors.
const fn counter(index: u64) -> Elem {
    Elem { array: 0, index }
}

// Tells what the worker of processor 1 has committed, and holds it at the last request until the
// store is halted.
#[derive(Drop)]
struct Meeting {
    commits: Watch,
    asked: Watch,
    is_halted: AtomicBool,
}

impl Gate for Meeting {
    fn open(&self, _processor: u16, id: &MsgId) -> bool {
        if id.number != LAST {
            return true;
        }
        if self.asked.count() == 0 {
            self.asked.note();
        }
        thread::yield_now();
        self.is_halted.load(Ordering::SeqCst)
    }

    fn committed(&self, _processor: u16, _id: &MsgId) {
        self.commits.note();
    }
}

// What each of two threads has: the worker its seat, and the client its pass.
#[derive(Drop)]
enum Side<B: RuntimeName> {
    Worker(Seat<SeatsOf<B>>, Worked),
    Client(ClientPass<PassesOf<B>>),
}

// The client asks for one more.
fn ask<B: RuntimeName, R: Wait + Abort>(
    rt: &R,
    runtime: &Runtime<ProbeDisk, Object, B>,
    pass: &mut ClientPass<PassesOf<B>>,
    to: Elem,
    entry: u16,
) {
    let request = Request {
        number: pass.last().saturating_add(1),
        to,
        entry,
        words: &[5],
    };
    assert!(rt; runtime.request(rt, pass, &request).is_ok());
}

// The worker goes on without finding anything.
fn idle() {
    for _ in 0..YIELDS {
        thread::yield_now();
    }
}

// The client's side: the worker commits the requests, one after another, and the store is halted
// once it has the last one.
fn send<B: RuntimeName, R: Wait + AllocGlobal + Abort + Clock>(
    rt: &R,
    runtime: &Runtime<ProbeDisk, Object, B>,
    tally: &Arc<Tally>,
    switches: &Switches,
    meeting: &Meeting,
    pass: &mut ClientPass<PassesOf<B>>,
) {
    meeting.commits.wait_for(rt, 1);
    idle();
    // A request for the element that is there.
    ask(rt, runtime, pass, counter(1), 0);
    meeting.commits.wait_for(rt, 2);
    idle();
    // A request for an element elsewhere, which then comes, without a ticket.
    ask(rt, runtime, pass, counter(0), 0);
    idle();
    assert_eq!(rt; meeting.commits.count(), 2);
    let blank = blanks(rt.alloc(), tally, &[(Kind::Counter, 1)]).expect(rt, "memory");
    assert!(rt; runtime.supply(rt, blank).is_ok());
    assert_eq!(rt; runtime.move_to(rt, counter(0), 1), Ok(()));
    meeting.commits.wait_for(rt, 3);
    // The last one.
    ask(rt, runtime, pass, counter(1), 0);
    meeting.asked.wait_for(rt, 1);
    switches.once.store(0, Ordering::SeqCst);
    let mut none = Vec::new(rt.alloc());
    let flushed = runtime.flush(rt, none.as_mut_slice());
    assert_eq!(rt; flushed.err(), Some(Refusal::Device));
    meeting.is_halted.store(true, Ordering::SeqCst);
}

// What each of the two threads does.
fn act<B: RuntimeName, R: Wait + AllocGlobal + Abort + Clock>(
    rt: &R,
    runtime: &Runtime<ProbeDisk, Object, B>,
    tally: &Arc<Tally>,
    switches: &Switches,
    meeting: &Meeting,
    side: &mut Side<B>,
) {
    match side {
        Side::Worker(seat, worked) => *worked = runtime.work(rt, seat, meeting, TURNS),
        Side::Client(pass) => send(rt, runtime, tally, switches, meeting, pass),
    }
}

// The runtime is closed. The worker's three deliveries are in its seat, and the one that the halted
// store refused is in the hub's own list.
fn end<B: RuntimeName>(
    rt: &(impl AllocGlobal + Abort),
    runtime: Runtime<ProbeDisk, Object, B>,
    first: Seat<SeatsOf<B>>,
    sides: Vec<Side<B>>,
) {
    let mut seats = Vec::new(rt.alloc());
    let mut passes = Vec::new(rt.alloc());
    seats.push(first).expect(rt, "memory");
    for side in sides {
        match side {
            Side::Worker(seat, worked) => {
                assert_eq!(rt; worked.count, 3);
                assert_eq!(rt; worked.refusal, Some(Refusal::Halted));
                assert_eq!(rt; seat.ids().len(), 3);
                seats.push(seat).expect(rt, "memory");
            }
            Side::Client(pass) => passes.push(pass).expect(rt, "memory"),
        }
    }
    let Ok(Closed { own, .. }) = runtime.close(seats, passes) else {
        panic!(rt; "all seats and passes are in")
    };
    let last = MsgId {
        origin: Origin::Client(CLIENT),
        number: LAST,
    };
    assert_eq!(rt; own.as_slice(), [last].as_slice());
}

// A counter is made on processor 0. The one on processor 1 is the first that its worker makes.
fn meet<B: RuntimeName + Send + Sync, R: Threads + Wait + Sync + AllocGlobal + Abort + Clock>(
    rt: &R,
    runtime: Runtime<ProbeDisk, Object, B>,
    tally: &Arc<Tally>,
    switches: &Switches,
    blanks: Vec<Object>,
) {
    assert!(rt; runtime.supply(rt, blanks).is_ok());
    let mut pass = runtime.client(rt, CLIENT).expect(rt, "it isn't out");
    let mut first = runtime.seat(rt, 0).expect(rt, "it isn't out");
    let second = runtime.seat(rt, 1).expect(rt, "it isn't out");
    ask(rt, &runtime, &mut pass, counter(0), CONSTRUCT);
    assert_eq!(rt; runtime.work(rt, &mut first, &OpenGate, 1).count, 1);
    ask(rt, &runtime, &mut pass, counter(1), CONSTRUCT);
    let worked = Worked {
        count: 0,
        refusal: None,
    };
    let mut sides = Vec::new(rt.alloc());
    sides
        .push(Side::Worker(second, worked))
        .expect(rt, "memory");
    sides.push(Side::Client(pass)).expect(rt, "memory");
    let meeting = Meeting {
        commits: Watch::new(),
        asked: Watch::new(),
        is_halted: AtomicBool::new(false),
    };
    let shared = &runtime;
    thread::for_each_mut(
        rt,
        sides.as_mut_slice(),
        2,
        &|_place: usize, side: &mut Side<B>| act(rt, shared, tally, switches, &meeting, side),
    );
    end(rt, runtime, first, sides);
}

// The worker and the client meet under the name `B`.
fn meet_named<B: RuntimeName + Send + Sync, R: Threads + Wait + Sync + AllocGlobal + Abort + Clock>(
    rt: &R,
    start: Start,
    tally: &Arc<Tally>,
)
    requires ready { IsReady start.store start.halves }
    requires named { IsOf B.opening B.before B.processors (core_in start.store.history) }
    requires generation { B.generation ≡ (core_in start.store.history).generation }
    requires parts { table_of start.authorities.parts ≡ B.table }
    requires seats { table_of start.authorities.seats ≡ B.seats }
    requires passes { table_of start.authorities.passes ≡ B.passes }
    requires checkpoints { table_of start.authorities.checkpoints ≡ B.checkpoints }
    requires honest { B.honest → ⊥ }
{
    let Start {
        store,
        halves,
        authorities,
        switches,
        blanks,
    } = start;
    match Runtime::<ProbeDisk, Object, B>::open(store, halves, authorities) {
        Ok(runtime) => meet(rt, runtime, tally, &switches, blanks),
        Err(_) => panic!(rt; "memory"),
    }
}

// The worker and the client meet under a name of its own.
fn meet_once<R: Threads + Wait + Sync + AllocGlobal + Abort + Clock>(
    rt: &R,
    start: Start,
    tally: &Arc<Tally>,
)
    requires { IsReady start.store start.halves }
{
    meet_named::<Brand, R>(rt, start, tally)
}

#[test]
fn an_idle_worker_finds_what_comes_later(rt: HostRuntime) {
    let tally = Arc::new(rt.alloc(), Tally::new()).expect(&rt, "memory");
    meet_once(&rt, Start::new(&rt, rt.alloc(), &tally), &tally);
}
