//! An element that moves while a runtime goes on, a checkpoint, one that fails, and the restart
//! after a crash.

ghost use Rattle.std.specs.Prelude.{◌≡◌};
ghost use Rattle.charmlet_locks.specs.GhostAuth.Naming.{table_of};
ghost use Rattle.charmlet_sequencer.specs.Sequencer.{IsOf};
ghost use Rattle.charmlet_engine.specs.Engine.{core_of};
ghost use Rattle.charmlet_engine.specs.Reopened.{core_to_be};

use super::opening::{create_on, reopen_on};
use charmlet_disk::CrashChoice;
use charmlet_history::Request;
use charmlet_hub::{Closed, PassesOf, SeatsOf};
use charmlet_leases::{ClientPass, Seat};
use charmlet_model::{CONSTRUCT, Elem, Kind, MsgId, Origin, Refusal, Told};
use charmlet_runtime::{Reopened, RuntimeBuilder, open_reopened};
use charmlet_sequencer::RuntimeName;
use charmlet_store::Look;
use charmlet_testing::{Object, ProbeDisk, Switches, Tally, blanks};
use charmlet_workers::{NotClosed, OpenGate, Runtime, RuntimeRoom, UnnamedAuthorities};
use std::alloc::AllocGlobal;
use std::marker::Brand;
use std::process::Abort;
use std::sync::atomic::Ordering;
use std::sync::{Arc, Wait};

const CLIENT: u32 = 7;

const ELEM: Elem = Elem { array: 0, index: 0 };

// A counter that has 9, and never had more.
const NINE: [u8; 16] = [9, 0, 0, 0, 0, 0, 0, 0, 9, 0, 0, 0, 0, 0, 0, 0];

// One more blank counter is there. It counts for itself what is done with it.
fn give<B: RuntimeName, R: Wait + AllocGlobal + Abort>(
    rt: &R,
    runtime: &Runtime<ProbeDisk, Object, B>,
) -> Arc<Tally> {
    let tally = Arc::new(rt.alloc(), Tally::new()).expect(rt, "memory");
    let counter = blanks(rt.alloc(), &tally, &[(Kind::Counter, 1)]).expect(rt, "memory");
    assert!(rt; runtime.supply(rt, counter).is_ok());
    tally
}

// One object was packed and is gone, and the other one was unpacked and stands in its place, and
// has been entered this many times.
fn has_followed(rt: &impl Abort, before: &Tally, after: &Tally, entries: u64) {
    let [_, packs, _, drops] = before.counts();
    assert_eq!(rt; [packs, drops], [1, 1]);
    assert_eq!(rt; after.counts(), [entries, 0, 1, 0]);
}

// The client makes a request to the counter, whose message is then the only one.
fn ask<B: RuntimeName, R: Wait + AllocGlobal + Abort>(
    rt: &R,
    runtime: &Runtime<ProbeDisk, Object, B>,
    pass: &mut ClientPass<PassesOf<B>>,
    number: u64,
    entry: u16,
    word: u64,
) {
    let request = Request {
        number,
        to: ELEM,
        entry,
        words: &[word],
    };
    assert!(rt; matches!(runtime.request(rt, pass, &request), Ok(Told::Unknown)));
    let ids = runtime.pending(rt, rt.alloc()).expect(rt, "memory");
    let id = MsgId {
        origin: Origin::Client(CLIENT),
        number,
    };
    assert_eq!(rt; ids.as_slice(), [id].as_slice());
    assert_eq!(rt; runtime.pending_count(rt), 1);
    // Only a construction wants a blank, since the counter is there from then on.
    let wanted = usize::from(entry == CONSTRUCT);
    assert_eq!(rt; runtime.wanted_blanks(rt, Kind::Counter), wanted);
    assert_eq!(rt; runtime.wanted_blanks(rt, Kind::Ring), 0);
}

// Only the worker of this processor has something to deliver.
fn work<B: RuntimeName, R: Wait + Abort>(
    rt: &R,
    runtime: &Runtime<ProbeDisk, Object, B>,
    seats: &mut [Seat<SeatsOf<B>>],
    processor: u16,
) {
    assert!(rt; !runtime.quiet(rt));
    for seat in seats.iter_mut() {
        let is_here = seat.processor() == processor;
        let worked = runtime.work(rt, seat, &OpenGate, 2);
        assert_eq!(rt; worked.count, u64::from(is_here));
        assert_eq!(rt; worked.refusal, None);
        // There was a ticket for it, which the worker didn't need.
        assert_eq!(rt; seat.next_ticket().is_some(), is_here);
    }
    assert!(rt; runtime.quiet(rt));
}

// The counter is to go to this processor.
fn go<B: RuntimeName, R: Wait + Abort>(
    rt: &R,
    runtime: &Runtime<ProbeDisk, Object, B>,
    processor: u16,
    refusal: Option<Refusal>,
) {
    assert_eq!(rt; runtime.move_to(rt, ELEM, processor).err(), refusal);
}

// A flush needs no pass.
fn flush<B: RuntimeName, R: Wait + AllocGlobal + Abort>(
    rt: &R,
    runtime: &Runtime<ProbeDisk, Object, B>,
) {
    let mut none = Vec::new(rt.alloc());
    assert_eq!(rt; runtime.flush(rt, none.as_mut_slice()), Ok(2));
}

// The counter is made on processor 0, and goes to 1, back to 0, and to 1 again. Its requests are
// delivered where it stands, to the object that was its last blank.
fn roam<B: RuntimeName, R: Wait + AllocGlobal + Abort>(
    rt: &R,
    runtime: &Runtime<ProbeDisk, Object, B>,
    pass: &mut ClientPass<PassesOf<B>>,
    seats: &mut [Seat<SeatsOf<B>>],
) {
    assert!(rt; matches!(runtime.look(rt, ELEM), Ok(look) if look.standing.is_none()));
    go(rt, runtime, 1, Some(Refusal::Absent));
    go(rt, runtime, 2, Some(Refusal::BadPes));
    let mut standing = give(rt, runtime);
    ask(rt, runtime, pass, 1, CONSTRUCT, 5);
    work(rt, runtime, seats, 0);
    assert_eq!(rt; standing.counts(), [1, 0, 0, 0]);
    flush(rt, runtime);
    go(rt, runtime, 0, None);
    go(rt, runtime, 1, Some(Refusal::NoBlank(Kind::Counter)));
    for (number, word, processor) in &[(2, 3, 1), (3, 1, 0)] {
        let blank = give(rt, runtime);
        go(rt, runtime, *processor, None);
        ask(rt, runtime, pass, *number, 0, *word);
        work(rt, runtime, seats, *processor);
        has_followed(rt, &standing, &blank, 1);
        standing = blank;
    }
    let blank = give(rt, runtime);
    go(rt, runtime, 1, None);
    has_followed(rt, &standing, &blank, 0);
    let counters = runtime.census(rt).counters;
    assert_eq!(rt;
        [counters.supplied, counters.in_stock, counters.retired],
        [4, 0, 3]
    );
}

// All six events are durable, in an image of generation 2.
fn is_durable<B: RuntimeName, R: Wait + Abort>(
    rt: &R,
    runtime: &Runtime<ProbeDisk, Object, B>,
    pass: &mut ClientPass<PassesOf<B>>,
) {
    assert_eq!(rt; runtime.generation(rt), 2);
    assert_eq!(rt; [runtime.durable(rt), runtime.event_count(rt)], [6, 6]);
    let told = runtime.status(rt, pass, 3);
    assert!(rt; matches!(&told, Ok(Told::Replied(words)) if words.as_slice() == [9].as_slice()));
}

// Each of the three requests is in the client's window: repeated, it adds nothing, and is told as
// replied.
fn repeat<B: RuntimeName, R: Wait + AllocGlobal + Abort>(
    rt: &R,
    runtime: &Runtime<ProbeDisk, Object, B>,
    pass: &mut ClientPass<PassesOf<B>>,
) {
    for number in 1..4u64 {
        let request = Request {
            number,
            to: ELEM,
            entry: 0,
            words: &[1],
        };
        let told = runtime.request(rt, pass, &request);
        assert!(rt; matches!(&told, Ok(Told::Replied(_))), "request {number}");
    }
    assert_eq!(rt;
        [runtime.pending_count(rt) as u64, runtime.event_count(rt)],
        [0, 6]
    );
}

// A checkpoint makes everything durable. At the next one the device fails, and then everything is
// refused.
fn seal<B: RuntimeName, R: Wait + AllocGlobal + Abort>(
    rt: &R,
    runtime: &Runtime<ProbeDisk, Object, B>,
    switches: &Switches,
    pass: &mut ClientPass<PassesOf<B>>,
) {
    assert_eq!(rt; runtime.durable(rt), 2);
    assert_eq!(rt; runtime.checkpoint(rt), Ok(2));
    is_durable(rt, runtime, pass);
    repeat(rt, runtime, pass);
    switches.fuse.store(0, Ordering::SeqCst);
    assert_eq!(rt; runtime.checkpoint(rt), Err(Refusal::Device));
    assert_eq!(rt; runtime.checkpoint(rt), Err(Refusal::Halted));
    go(rt, runtime, 0, Some(Refusal::Halted));
}

// Whether the counter stands on the processor, with all three messages received.
fn stands(look: &Look, processor: u16) -> bool {
    let Some(standing) = &look.standing else {
        return false;
    };
    standing.processor == processor
        && standing.packed.as_slice() == NINE.as_slice()
        && look.sent == 0
        && look.received == 3
}

// The counter is seen on the processor.
fn is_seen<B: RuntimeName, R: Wait + Abort>(
    rt: &R,
    runtime: &Runtime<ProbeDisk, Object, B>,
    processor: u16,
) {
    let look = runtime.look(rt, ELEM).expect(rt, "memory");
    assert!(rt; stands(&look, processor));
}

// A close without the pass that is out is refused, and everything comes back.
fn stay_open<B: RuntimeName>(
    rt: &(impl AllocGlobal + Abort),
    runtime: Runtime<ProbeDisk, Object, B>,
    seats: Vec<Seat<SeatsOf<B>>>,
) -> (Runtime<ProbeDisk, Object, B>, Vec<Seat<SeatsOf<B>>>) {
    match runtime.close(seats, Vec::new(rt.alloc())) {
        Ok(_) => panic!(rt; "a pass is out"),
        Err(
            NotClosed {
                refusal,
                runtime,
                seats,
                passes,
            },
        ) => {
            assert_eq!(rt; refusal, Refusal::PassOut);
            assert_eq!(rt; [seats.len(), passes.len()], [2, 0]);
            (runtime, seats)
        }
    }
}

// The runtime is closed, and the counter's object stands on the processor.
fn end<B: RuntimeName>(
    rt: &(impl AllocGlobal + Abort),
    runtime: Runtime<ProbeDisk, Object, B>,
    seats: Vec<Seat<SeatsOf<B>>>,
    passes: Vec<ClientPass<PassesOf<B>>>,
    processor: u16,
) -> ProbeDisk {
    let (runtime, seats) = stay_open(rt, runtime, seats);
    let Closed {
        mut store,
        halves,
        own: _,
    } = match runtime.close(seats, passes) {
        Ok(closed) => closed,
        Err(_) => panic!(rt; "all seats and passes are in"),
    };
    let look = store.look(ELEM).expect(rt, "memory");
    assert!(rt; stands(&look, processor));
    halves.into_disk()
}

// A runtime's first life, in which the counter moves, or its second one, in which it is on its home
// again.
fn live<B: RuntimeName, R: Wait + AllocGlobal + Abort>(
    rt: &R,
    runtime: Runtime<ProbeDisk, Object, B>,
    first: Option<&Switches>,
) -> ProbeDisk {
    let mut pass = runtime.client(rt, CLIENT).expect(rt, "it isn't out");
    let mut seats = Vec::new(rt.alloc());
    for processor in 0..2 {
        let seat = runtime.seat(rt, processor).expect(rt, "it isn't out");
        seats.push(seat).expect(rt, "memory");
    }
    if let Some(switches) = first {
        roam(rt, &runtime, &mut pass, seats.as_mut_slice());
        seal(rt, &runtime, switches, &mut pass);
    } else {
        is_durable(rt, &runtime, &mut pass);
    }
    let processor = u16::from(first.is_some());
    is_seen(rt, &runtime, processor);
    let mut passes = Vec::new(rt.alloc());
    passes.push(pass).expect(rt, "memory");
    end(rt, runtime, seats, passes, processor)
}

// The first life under the name `B`.
fn live_named<B: RuntimeName, R: Wait + AllocGlobal + Abort>(
    rt: &R,
    begun: RuntimeBuilder<ProbeDisk, Object>,
    authorities: UnnamedAuthorities,
    switches: &Switches,
) -> ProbeDisk
    requires named { IsOf B.opening B.before B.processors (core_of begun) }
    requires generation { B.generation ≡ (core_of begun).generation }
    requires two { B.processors ≡ 2 }
    requires parts { table_of authorities.parts ≡ B.table }
    requires seats { table_of authorities.seats ≡ B.seats }
    requires passes { table_of authorities.passes ≡ B.passes }
    requires checkpoints { table_of authorities.checkpoints ≡ B.checkpoints }
    requires honest { B.honest → ⊥ }
{
    let room = RuntimeRoom::new(rt.alloc(), 2).expect(rt, "memory");
    live(rt, begun.open_in::<B>(authorities, room), Some(switches))
}

// The first life, under a name of its own.
fn live_once<R: Wait + AllocGlobal + Abort>(
    rt: &R,
    begun: RuntimeBuilder<ProbeDisk, Object>,
    switches: &Switches,
) -> ProbeDisk
    requires { (core_of begun).processors ≡ 2 }
{
    let authorities = UnnamedAuthorities::new(rt.alloc()).expect(rt, "memory");
    live_named::<Brand, R>(rt, begun, authorities, switches)
}

// The second life under the name `B`.
fn live_again_named<B: RuntimeName, R: Wait + AllocGlobal + Abort>(
    rt: &R,
    reopened: Reopened<ProbeDisk, Object>,
    authorities: UnnamedAuthorities,
) -> ProbeDisk
    requires named { IsOf B.opening B.before B.processors (core_to_be reopened) }
    requires generation { B.generation ≡ (core_to_be reopened).generation }
    requires parts { table_of authorities.parts ≡ B.table }
    requires seats { table_of authorities.seats ≡ B.seats }
    requires passes { table_of authorities.passes ≡ B.passes }
    requires checkpoints { table_of authorities.checkpoints ≡ B.checkpoints }
    requires honest { B.honest → ⊥ }
{
    match open_reopened::<ProbeDisk, Object, B>(rt.alloc(), reopened, authorities) {
        Ok(runtime) => live(rt, runtime, None),
        Err(_) => panic!(rt; "memory"),
    }
}

// The second life, under a name of its own.
fn live_again<R: Wait + AllocGlobal + Abort>(
    rt: &R,
    reopened: Reopened<ProbeDisk, Object>,
) -> ProbeDisk {
    let authorities = UnnamedAuthorities::new(rt.alloc()).expect(rt, "memory");
    live_again_named::<Brand, R>(rt, reopened, authorities)
}

#[test]
fn a_counter_moves_and_comes_back(rt: HostRuntime) {
    let alloc = rt.alloc();
    let tally = Arc::new(alloc, Tally::new()).expect(&rt, "memory");
    let disk = ProbeDisk::new(alloc).expect(&rt, "memory");
    let switches = disk.switches().expect(&rt, "memory");
    let disk = live_once(&rt, create_on(&rt, disk), &switches);
    let disk = disk.crash(CrashChoice::New);
    let _disk = live_again(&rt, reopen_on(&rt, disk, &tally));
}
