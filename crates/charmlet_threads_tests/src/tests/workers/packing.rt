//! A checkpoint in the middle of one shelf, while the worker of another one delivers: a packed
//! object waits until the other one's delivery is committed, or long enough.

ghost use Rattle.std.specs.Prelude.{◌≡◌};
ghost use Rattle.charmlet_locks.specs.GhostAuth.Naming.{table_of};
ghost use Rattle.charmlet_sequencer.specs.Sequencer.{IsOf};
ghost use Rattle.charmlet_engine.specs.Engine.{core_of};

use super::opening::counters;
use charmlet_chare::{Chare, Outbox};
use charmlet_history::Request;
use charmlet_hub::{PassesOf, SeatsOf};
use charmlet_kinds::Counter;
use charmlet_leases::{ClientPass, Seat};
use charmlet_model::{CONSTRUCT, Elem, MsgId, Told};
use charmlet_pup::PupFault;
use charmlet_runtime::RuntimeBuilder;
use charmlet_sequencer::RuntimeName;
use charmlet_testing::ProbeDisk;
use charmlet_workers::{Gate, OpenGate, Runtime, RuntimeRoom, UnnamedAuthorities};
use std::alloc::{AllocError, AllocGlobal};
use std::marker::Brand;
use std::process::Abort;
use std::sync::atomic::{AtomicBool, AtomicU64, Ordering};
use std::sync::{Arc, Wait};
use std::thread::{Threads, join};

// How many turns a packed object waits at most.
const TURNS: u64 = 100_000_000;

// Whether an object is being packed, or was; whether a delivery was committed after that; and how
// often an object saw that while it was packed, and how often it didn't.
#[derive(Drop)]
struct Meeting {
    is_packed: AtomicBool,
    is_committed: AtomicBool,
    met: AtomicU64,
    missed: AtomicU64,
}

impl Meeting {
    fn new() -> Meeting {
        Meeting {
            is_packed: AtomicBool::new(false),
            is_committed: AtomicBool::new(false),
            met: AtomicU64::new(0),
            missed: AtomicU64::new(0),
        }
    }

    // An object is packed, and waits for the other one's delivery.
    fn wait(&self) {
        self.is_packed.store(true, Ordering::SeqCst);
        for _ in 0..TURNS {
            if self.is_committed.load(Ordering::SeqCst) {
                self.met.fetch_add(1, Ordering::SeqCst);
                return;
            }
        }
        self.missed.fetch_add(1, Ordering::SeqCst);
    }

    // How often the delivery was met, and missed.
    fn counts(&self) -> [u64; 2] {
        [
            self.met.load(Ordering::SeqCst),
            self.missed.load(Ordering::SeqCst),
        ]
    }
}

// The receiver may react once an object is being packed.
impl Gate for Meeting {
    fn open(&self, _processor: u16, _id: &MsgId) -> bool {
        self.is_packed.load(Ordering::SeqCst)
    }

    fn committed(&self, _processor: u16, _id: &MsgId) {
        if self.is_packed.load(Ordering::SeqCst) {
            self.is_committed.store(true, Ordering::SeqCst);
        }
    }
}

// An object that is packed as another one is, once it has waited.
#[derive(Drop)]
struct Slow<C: Chare> {
    object: C,
    meeting: Arc<Meeting>,
}

impl<C: Chare> Chare for Slow<C> {
    ghost state = { λ slow. C.state slow.object };

    fn kind(&self) -> u16 {
        self.object.kind()
    }

    fn version(&self) -> u16 {
        self.object.version()
    }

    fn newest(&self) -> u16 {
        self.object.newest()
    }

    fn retro(&mut self, version: u16) {
        self.object.retro(version)
    }

    fn upgrade(&mut self) {
        self.object.upgrade()
    }

    fn size(&mut self) -> usize {
        self.object.size()
    }

    fn pack(&mut self, into: &mut Vec<u8>) -> Result<(), AllocError> {
        self.meeting.wait();
        self.object.pack(into)
    }

    fn unpack(&mut self, bytes: &[u8]) -> Result<(), PupFault> {
        self.object.unpack(bytes)
    }

    fn enter(
        &mut self,
        me: Elem,
        entry: u16,
        payload: &[u64],
        out: &mut Outbox,
    ) -> Result<(), AllocError> {
        self.object.enter(me, entry, payload, out)
    }
}

// Two blank counters that are slow.
fn two_slow(rt: &(impl AllocGlobal + Abort), meeting: &Arc<Meeting>) -> Vec<Slow<Counter>> {
    let mut objects = Vec::new(rt.alloc());
    for _ in 0..2 {
        let slow = Slow {
            object: Counter::blank(),
            meeting: meeting.clone().expect(rt, "memory"),
        };
        objects.push(slow).expect(rt, "memory");
    }
    objects
}

// The client asks something of the counter on this processor.
fn ask<B: RuntimeName, R: Wait + Abort>(
    rt: &R,
    runtime: &Runtime<ProbeDisk, Slow<Counter>, B>,
    pass: &mut ClientPass<PassesOf<B>>,
    processor: u16,
    entry: u16,
) {
    let request = Request {
        number: pass.last().saturating_add(1),
        to: Elem {
            array: 0,
            index: u64::from(processor),
        },
        entry,
        words: &[5],
    };
    assert!(rt; matches!(runtime.request(rt, pass, &request), Ok(Told::Unknown)));
}

// The worker of this processor makes one delivery.
fn work<B: RuntimeName, R: Wait + Abort, G: Gate>(
    rt: &R,
    runtime: &Runtime<ProbeDisk, Slow<Counter>, B>,
    seat: &mut Seat<SeatsOf<B>>,
    gate: &G,
) {
    let worked = runtime.work(rt, seat, gate, 1);
    assert_eq!(rt; worked.count, 1);
    assert_eq!(rt; worked.refusal, None);
}

// The worker makes one delivery, once an object is being packed.
fn work_meanwhile<B: RuntimeName, R: Wait + Abort>(
    rt: &R,
    runtime: &Runtime<ProbeDisk, Slow<Counter>, B>,
    seat: &mut Seat<SeatsOf<B>>,
    meeting: &Meeting,
) {
    work(rt, runtime, seat, meeting);
}

// Both counters are made. While the first one is packed for a checkpoint, the second one gets its
// next message, and then it is packed as it is after that.
fn meet<B: RuntimeName + Send + Sync, R: Threads + Wait + Sync + AllocGlobal + Abort>(
    rt: &R,
    runtime: Runtime<ProbeDisk, Slow<Counter>, B>,
    meeting: &Arc<Meeting>,
) {
    assert!(rt; runtime.supply(rt, two_slow(rt, meeting)).is_ok());
    let mut pass = runtime.client(rt, 7).expect(rt, "it isn't out");
    let mut first = runtime.seat(rt, 0).expect(rt, "it isn't out");
    let mut second = runtime.seat(rt, 1).expect(rt, "it isn't out");
    ask(rt, &runtime, &mut pass, 0, CONSTRUCT);
    work(rt, &runtime, &mut first, &OpenGate);
    ask(rt, &runtime, &mut pass, 1, CONSTRUCT);
    work(rt, &runtime, &mut second, &OpenGate);
    ask(rt, &runtime, &mut pass, 1, 0);
    assert_eq!(rt; meeting.counts(), [0, 0]);
    let runtime = &runtime;
    let (sealed, _) = join(
        rt,
        || runtime.checkpoint(rt),
        || work_meanwhile(rt, runtime, &mut second, meeting),
    );
    assert_eq!(rt; sealed, Ok(2));
    assert_eq!(rt; meeting.counts(), [2, 0]);
    assert_eq!(rt; [runtime.durable(rt), runtime.event_count(rt)], [6, 6]);
}

// Both counters meet under the name `B`.
fn meet_named<B: RuntimeName + Send + Sync, R: Threads + Wait + Sync + AllocGlobal + Abort>(
    rt: &R,
    begun: RuntimeBuilder<ProbeDisk, Slow<Counter>>,
    authorities: UnnamedAuthorities,
    meeting: &Arc<Meeting>,
)
    requires named { IsOf B.opening B.before B.processors (core_of begun) }
    requires generation { B.generation ≡ (core_of begun).generation }
    requires two { B.processors ≡ 2 }
    requires parts { table_of authorities.parts ≡ B.table }
    requires seats { table_of authorities.seats ≡ B.seats }
    requires passes { table_of authorities.passes ≡ B.passes }
    requires checkpoints { table_of authorities.checkpoints ≡ B.checkpoints }
    requires honest { B.honest → ⊥ }
{
    let room = RuntimeRoom::new(rt.alloc(), 2).expect(rt, "memory");
    meet(rt, begun.open_in::<B>(authorities, room), meeting)
}

// Both counters meet under a name of its own.
fn meet_once<R: Threads + Wait + Sync + AllocGlobal + Abort>(
    rt: &R,
    begun: RuntimeBuilder<ProbeDisk, Slow<Counter>>,
    meeting: &Arc<Meeting>,
)
    requires { (core_of begun).processors ≡ 2 }
{
    let authorities = UnnamedAuthorities::new(rt.alloc()).expect(rt, "memory");
    meet_named::<Brand, R>(rt, begun, authorities, meeting)
}

#[test]
fn others_deliver_while_a_shelf_is_packed(rt: HostRuntime) {
    let alloc = rt.alloc();
    let meeting = Arc::new(alloc, Meeting::new()).expect(&rt, "memory");
    let disk = ProbeDisk::new(alloc).expect(&rt, "memory");
    match RuntimeBuilder::create(alloc, disk, counters(&rt, alloc), 2) {
        Ok(begun) => meet_once(&rt, begun, &meeting),
        Err(_) => panic!(&rt; "no store is there"),
    }
}
