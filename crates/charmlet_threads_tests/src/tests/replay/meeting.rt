// Two objects on two processors, each of which waits in its entry until the other one is in its
// own. In one thread neither could go on; so each waits at most a number of turns.

ghost use Rattle.charmlet_replay.specs.Unused.{IsUnused};

use super::answers::{Files, disk_of};
use super::counters::logged;
use charmlet_chare::{Chare, Outbox};
use charmlet_kinds::Counter;
use charmlet_model::Elem;
use charmlet_pup::PupFault;
use charmlet_recover::{restart_by, stock_from_objects};
use charmlet_stock::Stock;
use charmlet_testing::ProbeDisk;
use std::alloc::{AllocError, AllocGlobal};
use std::process::Abort;
use std::sync::Arc;
use std::sync::atomic::{AtomicBool, Ordering};
use std::thread::Threads;

// How many turns an object waits at most, if the other one is to come.
const TURNS: u64 = 100_000_000;

// How many turns an object waits if the other one can't come.
const FEW_TURNS: u64 = 1_000;

// Whether an object is in its entry, or was; and whether it has seen the other one there.
#[derive(Drop)]
struct Flag {
    is_up: AtomicBool,
    has_seen: AtomicBool,
}

impl Flag {
    fn new() -> Flag {
        Flag {
            is_up: AtomicBool::new(false),
            has_seen: AtomicBool::new(false),
        }
    }

    // Raises this flag, and waits for the other one.
    fn wait_for(&self, other: &Flag, turns: u64) {
        self.is_up.store(true, Ordering::SeqCst);
        for _ in 0..turns {
            if other.is_up.load(Ordering::SeqCst) {
                self.has_seen.store(true, Ordering::SeqCst);
                return;
            }
        }
    }
}

// The flags of two objects, and how many turns each waits.
#[derive(Drop)]
struct Flags {
    even: Flag,
    odd: Flag,
    turns: u64,
}

impl Flags {
    fn new(turns: u64) -> Flags {
        Flags {
            even: Flag::new(),
            odd: Flag::new(),
            turns,
        }
    }

    // The element is in its entry.
    fn meet(&self, me: Elem) {
        if me.index % 2 == 0 {
            self.even.wait_for(&self.odd, self.turns);
        } else {
            self.odd.wait_for(&self.even, self.turns);
        }
    }

    // Whether each of them has seen the other one.
    fn have_met(&self) -> bool {
        self.even.has_seen.load(Ordering::SeqCst) && self.odd.has_seen.load(Ordering::SeqCst)
    }
}

// An object that reacts as another one does, once it has met its peer or waited long enough.
#[derive(Drop)]
struct Meeting<C: Chare> {
    object: C,
    flags: Arc<Flags>,
}

impl<C: Chare> Chare for Meeting<C> {
    ghost state = { λ meeting. C.state meeting.object };

    fn kind(&self) -> u16 {
        self.object.kind()
    }

    fn version(&self) -> u16 {
        self.object.version()
    }

    fn newest(&self) -> u16 {
        self.object.newest()
    }

    fn retro(&mut self, version: u16) {
        self.object.retro(version)
    }

    fn upgrade(&mut self) {
        self.object.upgrade()
    }

    fn size(&mut self) -> usize {
        self.object.size()
    }

    fn pack(&mut self, into: &mut Vec<u8>) -> Result<(), AllocError> {
        self.object.pack(into)
    }

    fn unpack(&mut self, bytes: &[u8]) -> Result<(), PupFault> {
        self.object.unpack(bytes)
    }

    fn enter(
        &mut self,
        me: Elem,
        entry: u16,
        payload: &[u64],
        out: &mut Outbox,
    ) -> Result<(), AllocError> {
        self.flags.meet(me);
        self.object.enter(me, entry, payload, out)
    }
}

// A stock of two counters that meet.
fn two_that_meet(rt: &(impl AllocGlobal + Abort), flags: &Arc<Flags>) -> Stock<Meeting<Counter>>
    ensures { IsUnused result }
{
    let mut objects = Vec::new(rt.alloc());
    for _ in 0..2 {
        let meeting = Meeting {
            object: Counter::blank(),
            flags: flags.clone().expect(rt, "memory"),
        };
        objects.push(meeting).expect(rt, "memory");
    }
    match stock_from_objects(rt.alloc(), objects) {
        Ok(stock) => stock,
        Err(_) => panic!(rt; "memory"),
    }
}

// Whether two objects meet, each of which waits this many turns, as the store on this disk is
// replayed on two processors by this many workers.
fn meet<R: Threads + Sync + AllocGlobal + Abort>(
    rt: &R,
    disk: ProbeDisk,
    workers: u16,
    turns: u64,
) -> bool {
    let flags = Arc::new(rt.alloc(), Flags::new(turns)).expect(rt, "memory");
    let stock = two_that_meet(rt, &flags);
    assert!(rt; restart_by(rt, rt.alloc(), disk, stock, 2, workers).is_ok());
    flags.have_met()
}

// The events of a log happen again by both workers at once.
#[test]
fn objects_meet_in_a_log(rt: HostRuntime) {
    assert!(rt; meet(&rt, logged(&rt, false), 2, TURNS));
    assert!(rt; !meet(&rt, logged(&rt, false), 1, FEW_TURNS));
}

// An image of two counters with 5, and a delivery to each that was made after it was read.
const CAUGHT_UP: [u8; 300] = [
    1, 67, 75, 80, 51, 2, 0, 0, 0, 0, 0, 0, 0, 8, 0, 0, 0, 0, 0, 0, 0, 18, 1, 0, 0, 1, 0, 0, 0, 0,
    0, 1, 0, 2, 0, 2, 0, 0, 0, 7, 0, 0, 0, 2, 0, 0, 0, 0, 0, 0, 0, 2, 1, 0, 0, 0, 0, 1, 1, 0, 0, 0,
    8, 0, 0, 0, 0, 0, 0, 0, 8, 0, 0, 0, 2, 0, 0, 0, 0, 0, 0, 0, 2, 1, 0, 0, 0, 0, 1, 1, 0, 0, 0, 6,
    0, 0, 0, 0, 0, 0, 0, 0, 0, 0, 0, 2, 0, 0, 0, 0, 0, 0, 0, 0, 0, 0, 0, 0, 0, 0, 0, 0, 0, 0, 0, 0,
    0, 1, 0, 0, 0, 0, 0, 0, 0, 1, 16, 0, 0, 0, 5, 0, 0, 0, 0, 0, 0, 0, 5, 0, 0, 0, 0, 0, 0, 0, 0,
    0, 1, 0, 0, 0, 0, 0, 0, 0, 0, 0, 0, 0, 0, 0, 0, 0, 1, 0, 0, 0, 0, 0, 0, 0, 1, 16, 0, 0, 0, 5,
    0, 0, 0, 0, 0, 0, 0, 5, 0, 0, 0, 0, 0, 0, 0, 2, 0, 0, 0, 0, 7, 0, 0, 0, 2, 0, 0, 0, 0, 0, 0, 0,
    0, 0, 0, 0, 0, 0, 0, 0, 0, 0, 0, 0, 1, 0, 0, 0, 3, 0, 0, 0, 0, 0, 0, 0, 2, 0, 0, 0, 0, 0, 0, 0,
    0, 0, 8, 0, 0, 0, 2, 0, 0, 0, 0, 0, 0, 0, 0, 0, 1, 0, 0, 0, 0, 0, 0, 0, 0, 0, 1, 0, 0, 0, 1, 0,
    0, 0, 0, 0, 0, 0, 2, 0, 0, 0, 0, 0, 0, 0, 0, 0,
];

// The deliveries of a catch-up list are repeated by both workers at once, too.
#[test]
fn objects_meet_in_a_catch_up_list(rt: HostRuntime) {
    let files = Files {
        zero: &[],
        one: &CAUGHT_UP,
    };
    assert!(rt; meet(&rt, disk_of(&rt, files), 2, TURNS));
    assert!(rt; !meet(&rt, disk_of(&rt, files), 1, FEW_TURNS));
}
