//! A store that is halted while a delivery goes on, and the close that commits it; closes without
//! each seat and each pass; and the close of a store that isn't halted, which writes nothing.

ghost use Rattle.std.specs.Prelude.{◌≡◌};
ghost use Rattle.charmlet_locks.specs.GhostAuth.Naming.{table_of};
ghost use Rattle.charmlet_history.specs.Kept.{core_in};
ghost use Rattle.charmlet_sequencer.specs.Sequencer.{IsOf};
ghost use Rattle.charmlet_workers.specs.Runtime.{IsReady};

use super::opening::{Start, has_counters};
use charmlet_history::Request;
use charmlet_hub::{Closed, PassesOf, SeatsOf};
use charmlet_leases::{ClientPass, Seat};
use charmlet_model::{CONSTRUCT, Elem, Event, MsgId, Origin, Refusal, Told};
use charmlet_sequencer::RuntimeName;
use charmlet_testing::{Object, ProbeDisk, Switches, Tally};
use charmlet_workers::{Gate, NotClosed, Runtime};
use std::alloc::AllocGlobal;
use std::marker::Brand;
use std::process::Abort;
use std::sync::atomic::Ordering;
use std::sync::{Arc, Wait};

const ELEM: Elem = Elem { array: 0, index: 0 };

// The first request of client 7, which makes the counter.
const ID: MsgId = MsgId {
    origin: Origin::Client(7),
    number: 1,
};

// The device fails while the receiver is to react.
#[derive(Drop)]
struct Failing<'a, B: RuntimeName, R: Wait + AllocGlobal + Abort + Sync> {
    rt: &'a R,
    runtime: &'a Runtime<ProbeDisk, Object, B>,
    switches: &'a Switches,
}

impl<B: RuntimeName + Send + Sync, R: Wait + AllocGlobal + Abort + Sync> Gate
    for Failing<'_, B, R> {
    fn open(&self, _processor: u16, _id: &MsgId) -> bool {
        let rt = self.rt;
        let mut none = Vec::new(rt.alloc());
        self.switches.once.store(0, Ordering::SeqCst);
        let flushed = self.runtime.flush(rt, none.as_mut_slice());
        assert_eq!(rt; flushed.err(), Some(Refusal::Device));
        true
    }

    fn committed(&self, _processor: u16, _id: &MsgId) {
        panic!(self.rt; "the store is halted")
    }
}

// A runtime, and all seats and passes that are out of it.
#[derive(Drop)]
struct Open<B: RuntimeName> {
    runtime: Runtime<ProbeDisk, Object, B>,
    seats: Vec<Seat<SeatsOf<B>>>,
    passes: Vec<ClientPass<PassesOf<B>>>,
}

impl<B: RuntimeName> Open<B> {
    // The seats of both processors are lent, and passes to the clients 7 and 8.
    fn lend<R: Wait + AllocGlobal + Abort>(rt: &R, runtime: Runtime<ProbeDisk, Object, B>) -> Self {
        let mut seats = Vec::new(rt.alloc());
        let mut passes = Vec::new(rt.alloc());
        for place in 0..2 {
            let seat = runtime.seat(rt, place).expect(rt, "it isn't out");
            seats.push(seat).expect(rt, "memory");
            let pass = runtime
                .client(rt, 7 + u32::from(place))
                .expect(rt, "it isn't out");
            passes.push(pass).expect(rt, "memory");
        }
        Open {
            runtime,
            seats,
            passes,
        }
    }

    // A close is refused, since not everything that is out is handed in, and everything comes back.
    fn stay(self, rt: &impl Abort) -> Self {
        let Open {
            runtime,
            seats,
            passes,
        } = self;
        let counts = [seats.len(), passes.len()];
        match runtime.close(seats, passes) {
            Ok(_) => panic!(rt; "not all is in"),
            Err(
                NotClosed {
                    refusal,
                    runtime,
                    seats,
                    passes,
                },
            ) => {
                assert_eq!(rt; refusal, Refusal::PassOut);
                assert_eq!(rt; [seats.len(), passes.len()], counts);
                Open {
                    runtime,
                    seats,
                    passes,
                }
            }
        }
    }

    // Closes are refused without each of the seats, and without each of the passes.
    fn stay_without_each(self, rt: &impl Abort) -> Self {
        let mut open = self;
        for _ in 0..2 {
            assert!(rt; !open.seats.is_empty());
            let seat = open.seats.remove(0);
            open = open.stay(rt);
            open.seats.push(seat).expect(rt, "memory");
            assert!(rt; !open.passes.is_empty());
            let pass = open.passes.remove(0);
            open = open.stay(rt);
            open.passes.push(pass).expect(rt, "memory");
        }
        open
    }
}

// The client asks for the counter. While it is made the store is halted, so that its delivery isn't
// committed, and stays on its shelf.
fn halt<B: RuntimeName + Send + Sync, R: Wait + AllocGlobal + Abort + Sync>(
    rt: &R,
    runtime: &Runtime<ProbeDisk, Object, B>,
    switches: &Switches,
    seat: &mut Seat<SeatsOf<B>>,
    pass: &mut ClientPass<PassesOf<B>>,
) {
    let request = Request {
        number: 1,
        to: ELEM,
        entry: CONSTRUCT,
        words: &[5],
    };
    assert!(rt; matches!(runtime.request(rt, pass, &request), Ok(Told::Unknown)));
    let gate = Failing {
        rt,
        runtime,
        switches,
    };
    // The second time there is a delivery on the shelf already, and no gate is asked.
    for _ in 0..2 {
        let worked = runtime.work(rt, seat, &gate, 2);
        assert_eq!(rt; [worked.count, runtime.event_count(rt)], [0, 1]);
        assert_eq!(rt; worked.refusal, Some(Refusal::Halted));
        assert_eq!(rt; seat.ids().len(), 0);
    }
}

// The runtime is closed. The delivery that was left on its shelf is once in its history, without a
// seat, and the counter is there. No blank is lost.
fn end<B: RuntimeName>(rt: &impl Abort, open: Open<B>) {
    let Open {
        runtime,
        seats,
        passes,
    } = open;
    let Closed {
        mut store,
        halves: _,
        own,
    } = match runtime.close(seats, passes) {
        Ok(closed) => closed,
        Err(_) => panic!(rt; "all seats and passes are in"),
    };
    assert_eq!(rt; own.as_slice(), [ID].as_slice());
    let events = store.history.events().expect(rt, "they were noted");
    assert_eq!(rt; events.len(), 2);
    assert!(rt; matches!(&events[1], Event::Deliver(id) if *id == ID));
    let look = store.look(ELEM).expect(rt, "memory");
    assert!(rt; look.standing.is_some());
    assert_eq!(rt; look.received, 1);
    has_counters(rt, &store, 1);
}

// A store is halted while a counter is made, and closed. Each seat and each pass is missing in a
// close before.
fn close<B: RuntimeName + Send + Sync, R: Wait + AllocGlobal + Abort + Sync>(
    rt: &R,
    runtime: Runtime<ProbeDisk, Object, B>,
    switches: &Switches,
    blanks: Vec<Object>,
) {
    assert!(rt; runtime.supply(rt, blanks).is_ok());
    let mut open = Open::lend(rt, runtime).stay_without_each(rt);
    let seat = open.seats.get_mut(0).expect(rt, "a seat");
    let pass = open.passes.get_mut(0).expect(rt, "a pass");
    halt(rt, &open.runtime, switches, seat, pass);
    let counts = switches.counts();
    end(rt, open.stay_without_each(rt));
    assert_eq!(rt; switches.counts(), counts);
}

// A request is accepted and isn't durable. No seat was lent. Without the client's pass a close is
// refused; with it no call of the disk is made, and the request stays as it was.
fn close_quietly<B: RuntimeName, R: Wait + AllocGlobal + Abort>(
    rt: &R,
    runtime: Runtime<ProbeDisk, Object, B>,
    switches: &Switches,
) {
    let mut pass = runtime.client(rt, 7).expect(rt, "it isn't out");
    let request = Request {
        number: 1,
        to: ELEM,
        entry: CONSTRUCT,
        words: &[5],
    };
    assert!(rt; matches!(runtime.request(rt, &mut pass, &request), Ok(Told::Unknown)));
    let mut passes = Vec::new(rt.alloc());
    passes.push(pass).expect(rt, "memory");
    let mut open = Open {
        runtime,
        seats: Vec::new(rt.alloc()),
        passes,
    };
    let counts = switches.counts();
    let pass = open.passes.remove(0);
    open = open.stay(rt);
    open.passes.push(pass).expect(rt, "memory");
    let Open {
        runtime,
        seats,
        passes,
    } = open;
    let Ok(Closed { store, .. }) = runtime.close(seats, passes) else {
        panic!(rt; "no seat is out")
    };
    assert_eq!(rt; switches.counts(), counts);
    let history = &store.history;
    assert_eq!(rt; [history.durable_count(), history.event_count()], [0, 1]);
    assert!(rt; !history.is_halted());
}

// Closes under the name `B` a store that is halted or not.
fn close_named<B: RuntimeName + Send + Sync, R: Wait + AllocGlobal + Abort + Sync>(
    rt: &R,
    start: Start,
    halts: bool,
)
    requires ready { IsReady start.store start.halves }
    requires named { IsOf B.opening B.before B.processors (core_in start.store.history) }
    requires generation { B.generation ≡ (core_in start.store.history).generation }
    requires parts { table_of start.authorities.parts ≡ B.table }
    requires seats { table_of start.authorities.seats ≡ B.seats }
    requires passes { table_of start.authorities.passes ≡ B.passes }
    requires checkpoints { table_of start.authorities.checkpoints ≡ B.checkpoints }
    requires honest { B.honest → ⊥ }
{
    let Start {
        store,
        halves,
        authorities,
        switches,
        blanks,
    } = start;
    match Runtime::<ProbeDisk, Object, B>::open(store, halves, authorities) {
        Ok(runtime) if halts => close(rt, runtime, &switches, blanks),
        Ok(runtime) => close_quietly(rt, runtime, &switches),
        Err(_) => panic!(rt; "memory"),
    }
}

// Closes such a store under a name of its own.
fn close_once<R: Wait + AllocGlobal + Abort + Sync>(rt: &R, start: Start, halts: bool)
    requires { IsReady start.store start.halves }
{
    close_named::<Brand, R>(rt, start, halts)
}

#[test]
fn a_close_commits_what_a_halted_worker_left(rt: HostRuntime) {
    let tally = Arc::new(rt.alloc(), Tally::new()).expect(&rt, "memory");
    close_once(&rt, Start::new(&rt, rt.alloc(), &tally), true);
}

#[test]
fn a_close_writes_nothing(rt: HostRuntime) {
    let tally = Arc::new(rt.alloc(), Tally::new()).expect(&rt, "memory");
    close_once(&rt, Start::new(&rt, rt.alloc(), &tally), false);
}
