// A store of counters on two processors, of which each gets one.

ghost use Rattle.charmlet_model.specs.KindVersion.{AreNewest};

use charmlet_engine::Engine;
use charmlet_kinds::Counter;
use charmlet_model::{Answer, CONSTRUCT, Elem, Kind, Manifest, MsgId, Origin, Step, Words};
use charmlet_testing::ProbeDisk;
use std::alloc::{AllocError, AllocGlobal, Global};
use std::process::Abort;

// An array of counters.
fn counters(rt: &(impl AllocGlobal + Abort)) -> Manifest
    ensures { AreNewest result }
{
    Manifest::of(rt.alloc(), &[(0, Kind::Counter.number())])
        .expect(rt, "memory")
        .expect(rt, "an array")
}

// A new store of counters on two processors, with two blanks.
pub fn new_engine(rt: &(impl AllocGlobal + Abort)) -> Engine<ProbeDisk, Counter> {
    let disk = ProbeDisk::new(rt.alloc()).expect(rt, "memory");
    let mut engine = match Engine::create(rt.alloc(), disk, counters(rt), 2) {
        Ok(engine) => engine,
        Err(_) => panic!(rt; "no store is there"),
    };
    let mut objects = Vec::new(rt.alloc());
    for _ in 0..2 {
        objects.push(Counter::blank()).expect(rt, "memory");
    }
    assert!(rt; engine.supply(objects).is_ok());
    engine
}

// A client's request to the counter of an index.
fn request(
    alloc: Global,
    client: u32,
    number: u64,
    index: u64,
    entry: u16,
    word: u64,
) -> Result<Step, AllocError> {
    Ok(Step::Request {
        client,
        number,
        to: Elem { array: 0, index },
        entry,
        words: Words::from_slice(alloc, &[word])?,
    })
}

// The delivery of that request.
fn delivery(client: u32, number: u64, processor: u16) -> Step {
    Step::Deliver {
        processor,
        id: MsgId {
            origin: Origin::Client(client),
            number,
        },
    }
}

// The step goes well.
fn take(rt: &impl Abort, engine: &mut Engine<ProbeDisk, Counter>, step: &Step) {
    assert!(rt; !matches!(engine.step(step), Answer::Refused(_)));
}

// A client's first request, to the counter of an index, with the word 0.
pub fn ask(
    rt: &(impl AllocGlobal + Abort),
    engine: &mut Engine<ProbeDisk, Counter>,
    client: u32,
    index: u64,
    entry: u16,
) {
    let asked = request(rt.alloc(), client, 1, index, entry, 0).expect(rt, "memory");
    take(rt, engine, &asked);
}

// Clients 1 and 2 each ask the counter of their processor for this entry, and then both messages
// are delivered.
fn ask_both(
    rt: &(impl AllocGlobal + Abort),
    engine: &mut Engine<ProbeDisk, Counter>,
    number: u64,
    entry: u16,
    word: u64,
) {
    for place in 0..2u16 {
        let client = 1 + u32::from(place);
        let index = u64::from(place);
        let asked = request(rt.alloc(), client, number, index, entry, word).expect(rt, "memory");
        take(rt, engine, &asked);
    }
    for place in 0..2u16 {
        take(rt, engine, &delivery(1 + u32::from(place), number, place));
    }
}

// A disk whose log makes a counter with 5 on each of two processors, and then, if asked, adds 1 to
// each.
pub fn logged(rt: &(impl AllocGlobal + Abort), adds: bool) -> ProbeDisk {
    let mut engine = new_engine(rt);
    ask_both(rt, &mut engine, 1, CONSTRUCT, 5);
    if adds {
        ask_both(rt, &mut engine, 2, 0, 1);
    }
    take(rt, &mut engine, &Step::Flush);
    engine.into_disk()
}

// A disk whose log makes these counters, and then has this many batches, each of which adds 1 to
// each counter this many times.
pub fn logged_often(rt: &(impl AllocGlobal + Abort), batches: u64, times: u64) -> ProbeDisk {
    let mut engine = new_engine(rt);
    ask_both(rt, &mut engine, 1, CONSTRUCT, 5);
    let mut number = 1u64;
    for _ in 0..batches {
        for _ in 0..times {
            number = number.saturating_add(1);
            ask_both(rt, &mut engine, number, 0, 1);
        }
        take(rt, &mut engine, &Step::Flush);
    }
    engine.into_disk()
}
