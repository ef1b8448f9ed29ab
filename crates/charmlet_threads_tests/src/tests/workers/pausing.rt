//! A checkpoint during which clients ask, workers deliver and a flush makes everything durable; its
//! bytes, and the restart from them.

ghost use Rattle.std.specs.Prelude.{◌≡◌};
ghost use Rattle.charmlet_locks.specs.GhostAuth.Naming.{table_of};
ghost use Rattle.charmlet_sequencer.specs.Sequencer.{IsOf};
ghost use Rattle.charmlet_engine.specs.Engine.{core_of};

use super::opening::{come_back, create_on};
use charmlet_disk::CrashChoice;
use charmlet_history::Request;
use charmlet_hub::{Closed, PassesOf, SeatsOf};
use charmlet_leases::{ClientPass, Seat};
use charmlet_model::{CONSTRUCT, Elem, Half, Kind, Refusal, Told};
use charmlet_runtime::RuntimeBuilder;
use charmlet_sequencer::RuntimeName;
use charmlet_testing::{Machine, Object, ProbeDisk, Tally, blanks};
use charmlet_workers::{OpenGate, Pause, Runtime, RuntimeRoom, UnnamedAuthorities};
use std::alloc::AllocGlobal;
use std::marker::Brand;
use std::process::Abort;
use std::sync::atomic::{AtomicU64, Ordering};
use std::sync::{Arc, Mutex, Wait};
use std::thread::Threads;

// The clients, each of which asks one counter.
const CLIENTS: [u32; 2] = [7, 8];

// The half that the checkpoint leaves: element 0 as it was before 3 was added, element 1 as it was
// after 1 was, and both deliveries in the catch-up list.
const IMAGED: [u8; 300] = [
    1, 67, 75, 80, 51, 2, 0, 0, 0, 0, 0, 0, 0, 8, 0, 0, 0, 0, 0, 0, 0, 18, 1, 0, 0, 1, 0, 0, 0, 0,
    0, 1, 0, 2, 0, 2, 0, 0, 0, 7, 0, 0, 0, 2, 0, 0, 0, 0, 0, 0, 0, 2, 1, 0, 0, 0, 0, 1, 1, 0, 0, 0,
    8, 0, 0, 0, 0, 0, 0, 0, 8, 0, 0, 0, 2, 0, 0, 0, 0, 0, 0, 0, 2, 1, 0, 0, 0, 0, 1, 1, 0, 0, 0, 6,
    0, 0, 0, 0, 0, 0, 0, 0, 0, 0, 0, 2, 0, 0, 0, 0, 0, 0, 0, 0, 0, 0, 0, 0, 0, 0, 0, 0, 0, 0, 0, 0,
    0, 1, 0, 0, 0, 0, 0, 0, 0, 1, 16, 0, 0, 0, 5, 0, 0, 0, 0, 0, 0, 0, 5, 0, 0, 0, 0, 0, 0, 0, 0,
    0, 1, 0, 0, 0, 0, 0, 0, 0, 0, 0, 0, 0, 0, 0, 0, 0, 2, 0, 0, 0, 0, 0, 0, 0, 1, 16, 0, 0, 0, 6,
    0, 0, 0, 0, 0, 0, 0, 6, 0, 0, 0, 0, 0, 0, 0, 2, 0, 0, 0, 0, 7, 0, 0, 0, 2, 0, 0, 0, 0, 0, 0, 0,
    0, 0, 0, 0, 0, 0, 0, 0, 0, 0, 0, 0, 1, 0, 0, 0, 3, 0, 0, 0, 0, 0, 0, 0, 2, 0, 0, 0, 0, 0, 0, 0,
    0, 0, 8, 0, 0, 0, 2, 0, 0, 0, 0, 0, 0, 0, 0, 0, 1, 0, 0, 0, 0, 0, 0, 0, 0, 0, 1, 0, 0, 0, 1, 0,
    0, 0, 0, 0, 0, 0, 2, 0, 0, 0, 0, 0, 0, 0, 0, 0,
];

// The seats of both processors, and the passes of both clients.
#[derive(Drop)]
struct Hands<B: RuntimeName> {
    seats: Vec<Seat<SeatsOf<B>>>,
    passes: Vec<ClientPass<PassesOf<B>>>,
}

// The counter with this index, which stands on the processor of this number.
fn counter(index: u64) -> Elem {
    Elem { array: 0, index }
}

impl<B: RuntimeName> Hands<B> {
    // Everything that a runtime lends.
    fn of<R: Wait + AllocGlobal + Abort>(
        rt: &R,
        runtime: &Runtime<ProbeDisk, Object, B>,
    ) -> Hands<B> {
        let mut seats = Vec::new(rt.alloc());
        let mut passes = Vec::new(rt.alloc());
        for processor in 0..2 {
            let seat = runtime.seat(rt, processor).expect(rt, "it isn't out");
            seats.push(seat).expect(rt, "memory");
        }
        for client in CLIENTS {
            let pass = runtime.client(rt, client).expect(rt, "it isn't out");
            passes.push(pass).expect(rt, "memory");
        }
        Hands { seats, passes }
    }

    // A client asks something of its counter, and the processor where that stands delivers it.
    fn ask<R: Wait + Abort>(
        &mut self,
        rt: &R,
        runtime: &Runtime<ProbeDisk, Object, B>,
        place: usize,
        entry: u16,
        word: u64,
    ) {
        let pass = self.passes.get_mut(place).expect(rt, "a pass");
        let request = Request {
            number: pass.last().saturating_add(1),
            to: counter(place as u64),
            entry,
            words: &[word],
        };
        assert!(rt; matches!(runtime.request(rt, pass, &request), Ok(Told::Unknown)));
        let seat = self.seats.get_mut(place).expect(rt, "a seat");
        let worked = runtime.work(rt, seat, &OpenGate, 1);
        assert_eq!(rt; worked.count, 1);
        assert_eq!(rt; worked.refusal, None);
    }

    // A client is told this reply to its second request.
    fn is_told<R: Wait + Abort>(
        &mut self,
        rt: &R,
        runtime: &Runtime<ProbeDisk, Object, B>,
        place: usize,
        reply: u64,
    ) {
        let pass = self.passes.get_mut(place).expect(rt, "a pass");
        let told = runtime.status(rt, pass, 2);
        assert!(rt;
            matches!(&told, Ok(Told::Replied(words)) if words.as_slice() == [reply].as_slice())
        );
    }

    // The work after the first shelf: element 0 is imaged already, and element 1 isn't.
    fn go_on<R: Wait + Abort>(&mut self, rt: &R, runtime: &Runtime<ProbeDisk, Object, B>) {
        self.ask(rt, runtime, 0, 0, 3);
        self.ask(rt, runtime, 1, 0, 1);
        let refused = Some(Refusal::Checkpointing);
        assert_eq!(rt; runtime.move_to(rt, counter(0), 1).err(), refused);
        assert_eq!(rt; runtime.checkpoint(rt).err(), refused);
        assert_eq!(rt; runtime.flush(rt, self.passes.as_mut_slice()), Ok(8));
        self.is_told(rt, runtime, 0, 8);
        self.is_told(rt, runtime, 1, 6);
    }
}

// A checkpoint's pause: others go on after its first shelf.
#[derive(Drop)]
struct Meanwhile<'a, B: RuntimeName, R: Wait> {
    rt: &'a R,
    runtime: &'a Runtime<ProbeDisk, Object, B>,
    hands: Mutex<Hands<B>>,
    imaged: AtomicU64,
}

impl<B: RuntimeName + Send + Sync, R: Wait + Sync + Abort> Pause for Meanwhile<'_, B, R> {
    fn imaged(&self, processor: u16) {
        let before = self.imaged.fetch_add(1, Ordering::SeqCst);
        assert_eq!(self.rt; before, u64::from(processor));
        if processor == 0 {
            let mut hands = self.hands.lock(self.rt);
            hands.go_on(self.rt, self.runtime);
        }
    }
}

// One more blank counter is there.
fn give<B: RuntimeName, R: Wait + AllocGlobal + Abort>(
    rt: &R,
    runtime: &Runtime<ProbeDisk, Object, B>,
    tally: &Arc<Tally>,
) {
    let counter = blanks(rt.alloc(), tally, &[(Kind::Counter, 1)]).expect(rt, "memory");
    assert!(rt; runtime.supply(rt, counter).is_ok());
}

// Both counters are made, a checkpoint runs while both are added to, and then element 0 moves.
fn pause<B: RuntimeName + Send + Sync, R: Wait + Sync + AllocGlobal + Abort>(
    rt: &R,
    runtime: Runtime<ProbeDisk, Object, B>,
    tally: &Arc<Tally>,
) -> ProbeDisk {
    let mut hands = Hands::of(rt, &runtime);
    for place in 0..2 {
        give(rt, &runtime, tally);
        hands.ask(rt, &runtime, place, CONSTRUCT, 5);
    }
    let meanwhile = Meanwhile {
        rt,
        runtime: &runtime,
        hands: Mutex::new(hands),
        imaged: AtomicU64::new(0),
    };
    assert_eq!(rt; runtime.checkpoint_with(rt, &meanwhile), Ok(2));
    let Meanwhile {
        rt: _,
        runtime: _,
        hands,
        imaged,
    } = meanwhile;
    assert_eq!(rt; imaged.load(Ordering::SeqCst), 2);
    let Hands { seats, passes } = hands.into_inner();
    assert_eq!(rt; runtime.generation(rt), 2);
    assert_eq!(rt; [runtime.durable(rt), runtime.event_count(rt)], [8, 8]);
    give(rt, &runtime, tally);
    assert_eq!(rt; runtime.move_to(rt, counter(0), 1), Ok(()));
    match runtime.close(seats, passes) {
        Ok(
            Closed {
                store: _,
                halves,
                own: _,
            },
        ) => halves.into_disk(),
        Err(_) => panic!(rt; "all seats and passes are in"),
    }
}

// The pause under the name `B`.
fn pause_named<B: RuntimeName + Send + Sync, R: Wait + Sync + AllocGlobal + Abort>(
    rt: &R,
    begun: RuntimeBuilder<ProbeDisk, Object>,
    authorities: UnnamedAuthorities,
    tally: &Arc<Tally>,
) -> ProbeDisk
    requires named { IsOf B.opening B.before B.processors (core_of begun) }
    requires generation { B.generation ≡ (core_of begun).generation }
    requires two { B.processors ≡ 2 }
    requires parts { table_of authorities.parts ≡ B.table }
    requires seats { table_of authorities.seats ≡ B.seats }
    requires passes { table_of authorities.passes ≡ B.passes }
    requires checkpoints { table_of authorities.checkpoints ≡ B.checkpoints }
    requires honest { B.honest → ⊥ }
{
    let room = RuntimeRoom::new(rt.alloc(), 2).expect(rt, "memory");
    pause(rt, begun.open_in::<B>(authorities, room), tally)
}

// The pause, under a name of its own.
fn pause_once<R: Wait + Sync + AllocGlobal + Abort>(
    rt: &R,
    begun: RuntimeBuilder<ProbeDisk, Object>,
    tally: &Arc<Tally>,
) -> ProbeDisk
    requires { (core_of begun).processors ≡ 2 }
{
    let authorities = UnnamedAuthorities::new(rt.alloc()).expect(rt, "memory");
    pause_named::<Brand, R>(rt, begun, authorities, tally)
}

// The counter with this index stands on its home, has this count, which is its peak, and received
// two messages.
fn is_back<M: Machine>(rt: &impl Abort, machine: &mut M, index: u64, count: u8) {
    let Ok(look) = machine.look(counter(index)) else {
        panic!(rt; "memory")
    };
    let standing = look.standing.expect(rt, "it is there");
    assert_eq!(rt; u64::from(standing.processor), index);
    let packed = [count, 0, 0, 0, 0, 0, 0, 0, count, 0, 0, 0, 0, 0, 0, 0];
    assert_eq!(rt; standing.packed.as_slice(), packed.as_slice());
    assert_eq!(rt; [look.sent, look.received], [0, 2]);
}

// The disk that a crash leaves restarts from the image.
fn restarts<R: Threads + Sync + AllocGlobal + Abort>(
    rt: &R,
    disk: ProbeDisk,
    choice: CrashChoice,
    tally: &Arc<Tally>,
) -> ProbeDisk {
    let mut machine = come_back(rt, disk.crash(choice), tally, 2);
    let counts = machine.counts();
    assert_eq!(rt;
        [counts.generation, counts.events, counts.pending],
        [2, 8, 0]
    );
    is_back(rt, &mut machine, 0, 8);
    is_back(rt, &mut machine, 1, 6);
    machine.into_disk().expect(rt, "memory")
}

#[test]
fn others_go_on_while_a_checkpoint_runs(rt: HostRuntime) {
    let alloc = rt.alloc();
    let tally = Arc::new(alloc, Tally::new()).expect(&rt, "memory");
    let disk = ProbeDisk::new(alloc).expect(&rt, "memory");
    let mut disk = pause_once(&rt, create_on(&rt, disk), &tally);
    let bytes = disk.bytes(alloc, Half::One).expect(&rt, "memory");
    assert_eq!(rt; bytes.as_slice(), IMAGED.as_slice());
    for choice in CrashChoice::ALL {
        disk = restarts(&rt, disk, choice, &tally);
    }
}
