// Random stores are restored by several workers as by the plain replay: as their runs left them,
// with gates that are closed, and with other bytes.

ghost use Rattle.charmlet_model.specs.KindVersion.{AreNewest};

use super::answers::{Files, by_many, by_one, by_restart, is_read, plainly};
use charmlet_engine::Engine;
use charmlet_model::{Answer, CONSTRUCT, Elem, Half, Kind, Manifest, Step, Words};
use charmlet_testing::{Object, ProbeDisk, Tally, blanks};
use rand_core::utils::NextWord;
use rand_pcg::Pcg32;
use std::alloc::{AllocError, AllocGlobal, Global};
use std::process::Abort;
use std::sync::Arc;
use std::thread::Threads;

// The numbers of processors on which stores are restored, and of workers.
const NUMBERS: [u16; 4] = [1, 2, 3, 64];

// Where the length of an image stands in a half, and where its bytes begin.
const LENGTH_PLACE: usize = 21;

const IMAGE_PLACE: usize = 25;

// Many blanks of each kind.
const BLANKS: [(Kind, u64); 6] = [
    (Kind::Counter, 99),
    (Kind::Ring, 99),
    (Kind::Account, 99),
    (Kind::Sum, 99),
    (Kind::Tree, 99),
    (Kind::Tape, 99),
];

// A store to which something happens, and the last request of each client.
#[derive(Drop)]
struct Life {
    engine: Engine<ProbeDisk, Object>,
    last: Vec<u64>,
}

// An array of each kind.
fn arrays(rt: &(impl AllocGlobal + Abort)) -> Manifest
    ensures { AreNewest result }
{
    let pairs = [(0, 1), (1, 2), (2, 3), (3, 4), (4, 5), (5, 6)];
    Manifest::of(rt.alloc(), &pairs)
        .expect(rt, "memory")
        .expect(rt, "arrays")
}

// A store with these on three processors, in which nothing has happened.
fn new_engine(rt: &(impl AllocGlobal + Abort)) -> Engine<ProbeDisk, Object> {
    let disk = ProbeDisk::new(rt.alloc()).expect(rt, "memory");
    match Engine::create(rt.alloc(), disk, arrays(rt), 3) {
        Ok(engine) => engine,
        Err(_) => panic!(rt; "no store is there"),
    }
}

// Such a store with many blanks, whose three clients never asked for anything.
fn new_life(rt: &(impl AllocGlobal + Abort)) -> Life {
    let tally = Arc::new(rt.alloc(), Tally::new()).expect(rt, "memory");
    let mut engine = new_engine(rt);
    let objects = blanks(rt.alloc(), &tally, &BLANKS).expect(rt, "memory");
    assert!(rt; engine.supply(objects).is_ok());
    let mut last = Vec::new(rt.alloc());
    for _ in 0..3 {
        last.push(0).expect(rt, "memory");
    }
    Life { engine, last }
}

// A construction, or one of three entries.
fn some_entry(rng: &mut Pcg32) -> u16 {
    if rng.next_word() % 2 == 0 {
        CONSTRUCT
    } else {
        (rng.next_word() % 3) as u16
    }
}

// The next request of this client, to one of four elements of some array.
fn some_request(
    alloc: Global,
    rng: &mut Pcg32,
    client: u32,
    number: u64,
) -> Result<Step, AllocError> {
    let array = (rng.next_word() % 6) as u16;
    let index = u64::from(rng.next_word() % 4);
    let entry = some_entry(rng);
    let word = u64::from(rng.next_word() % 3);
    Ok(Step::Request {
        client,
        number,
        to: Elem { array, index },
        entry,
        words: Words::from_slice(alloc, &[word, word])?,
    })
}

// A client asks for something.
fn ask(rt: &(impl AllocGlobal + Abort), rng: &mut Pcg32, life: &mut Life) {
    let client = rng.next_word() % 3;
    let Some(last) = life.last.get_mut(client as usize) else {
        return;
    };
    let number = last.saturating_add(1);
    let step = some_request(rt.alloc(), rng, client, number).expect(rt, "memory");
    if matches!(life.engine.step(&step), Answer::Told(_)) {
        *last = number;
    }
}

// Some pending message is delivered, if it can be, on whichever processor its receiver stands.
fn deliver(rt: &(impl AllocGlobal + Abort), rng: &mut Pcg32, life: &mut Life) {
    let pending = life.engine.pending().expect(rt, "memory");
    let place = rng.next_word() as usize;
    if pending.is_empty() {
        return;
    }
    let id = pending[place % pending.len()];
    for processor in 0..3 {
        let _answer = life.engine.step(&Step::Deliver { processor, id });
    }
}

// An element goes to another processor.
fn relocate(rng: &mut Pcg32, life: &mut Life) {
    let elem = Elem {
        array: (rng.next_word() % 6) as u16,
        index: u64::from(rng.next_word() % 4),
    };
    let processor = (rng.next_word() % 3) as u16;
    let _answer = life.engine.step(&Step::Move { elem, processor });
}

// Something happens: mostly a delivery, and otherwise a request, a move, a flush or an image.
fn go_on(rt: &(impl AllocGlobal + Abort), rng: &mut Pcg32, life: &mut Life) {
    let choice = rng.next_word() % 60;
    if choice < 20 {
        ask(rt, rng, life);
    } else if choice < 52 {
        deliver(rt, rng, life);
    } else if choice < 54 {
        relocate(rng, life);
    } else if choice < 59 {
        let _answer = life.engine.step(&Step::Flush);
    } else {
        let _answer = life.engine.step(&Step::Checkpoint);
    }
}

// Both halves of a store to which this many things have happened, all of them durable.
fn some_halves(
    rt: &(impl AllocGlobal + Abort),
    rng: &mut Pcg32,
    steps: usize,
) -> (Vec<u8>, Vec<u8>) {
    let mut life = new_life(rt);
    for _ in 0..steps {
        go_on(rt, rng, &mut life);
    }
    assert!(rt; matches!(life.engine.step(&Step::Flush), Answer::Flushed(_)));
    let mut disk = life.engine.into_disk();
    let zero = disk.bytes(rt.alloc(), Half::Zero).expect(rt, "memory");
    let one = disk.bytes(rt.alloc(), Half::One).expect(rt, "memory");
    (zero, one)
}

// How many stores were restored, and how many were refused for their records.
#[derive(Drop)]
struct Counts {
    whole: u64,
    faulty: u64,
}

// The files have the same result, whichever replay restores them, and by however many workers; and
// the plain program of recovery agrees. The results are counted.
fn assert_same<R: Threads + Sync + AllocGlobal + Abort>(
    rt: &R,
    files: Files<'_>,
    processors: u16,
    counts: &mut Counts,
) {
    let wanted = by_one(rt, files, processors);
    let plain = plainly(rt.alloc(), files).expect(rt, "memory");
    assert!(rt;
        wanted.starts_with(plain.as_str()),
        "{wanted} isn't {plain}"
    );
    for workers in NUMBERS {
        let found = by_many(rt, files, processors, workers);
        assert_eq!(rt; found.as_str(), wanted.as_str(), "by {workers} workers");
    }
    let found = by_restart(rt, files, processors, 3);
    assert_eq!(rt; found.as_str(), wanted.as_str(), "by a restart");
    if wanted.starts_with("events") {
        counts.whole = counts.whole.saturating_add(1);
    } else if is_read(rt, files) {
        counts.faulty = counts.faulty.saturating_add(1);
    }
}

// The number that stands at this place of a half.
fn number_at(bytes: &[u8], place: usize) -> usize {
    let mut number = 0usize;
    for offset in 0..4 {
        let byte = bytes.get(place.saturating_add(3).saturating_sub(offset));
        number = number
            .saturating_mul(256)
            .saturating_add(usize::from(*byte.unwrap_or(&0)));
    }
    number
}

// The places of the open gates of a half's log.
fn gates_of(alloc: Global, bytes: &[u8]) -> Result<Vec<usize>, AllocError> {
    let mut gates = Vec::new(alloc);
    let mut gate = IMAGE_PLACE.saturating_add(number_at(bytes, LENGTH_PLACE));
    for _ in 0..bytes.len() {
        if bytes.get(gate) != Some(&1) {
            break;
        }
        gates.push(gate)?;
        let length = number_at(bytes, gate.saturating_add(1));
        gate = gate.saturating_add(9).saturating_add(length);
    }
    Ok(gates)
}

// The bytes with another byte at this place.
fn changed(alloc: Global, bytes: &[u8], at: usize, byte: u8) -> Result<Vec<u8>, AllocError> {
    let mut copy = bytes.to_vec(alloc)?;
    if let Some(place) = copy.get_mut(at) {
        *place = byte;
    }
    Ok(copy)
}

// The bytes with up to three other bytes.
fn some_change(alloc: Global, rng: &mut Pcg32, bytes: &[u8]) -> Result<Vec<u8>, AllocError> {
    let mut copy = bytes.to_vec(alloc)?;
    for _ in 0..=rng.next_word() % 3 {
        let at = rng.next_word() as usize;
        let byte = (rng.next_word() % 4) as u8;
        if !bytes.is_empty() {
            copy = changed(alloc, copy.as_slice(), at % bytes.len(), byte)?;
        }
    }
    Ok(copy)
}

// The files have the same result if each gate of the log is closed, so that the log ends there.
fn assert_gates<R: Threads + Sync + AllocGlobal + Abort>(
    rt: &R,
    zero: &[u8],
    one: &[u8],
    processors: u16,
    counts: &mut Counts,
) {
    for gate in gates_of(rt.alloc(), zero).expect(rt, "memory") {
        let zero = changed(rt.alloc(), zero, gate, 0).expect(rt, "memory");
        let files = Files { zero: &zero, one };
        assert_same(rt, files, processors, counts);
    }
    for gate in gates_of(rt.alloc(), one).expect(rt, "memory") {
        let one = changed(rt.alloc(), one, gate, 0).expect(rt, "memory");
        let files = Files { zero, one: &one };
        assert_same(rt, files, processors, counts);
    }
}

// The files have the same result if both halves have other bytes.
fn assert_changes<R: Threads + Sync + AllocGlobal + Abort>(
    rt: &R,
    rng: &mut Pcg32,
    zero: &[u8],
    one: &[u8],
    processors: u16,
    counts: &mut Counts,
) {
    for _ in 0..12 {
        let zero = some_change(rt.alloc(), rng, zero).expect(rt, "memory");
        let one = some_change(rt.alloc(), rng, one).expect(rt, "memory");
        let files = Files {
            zero: &zero,
            one: &one,
        };
        assert_same(rt, files, processors, counts);
    }
}

#[test]
fn random_stores_come_back_the_same(rt: HostRuntime) {
    let mut rng = Pcg32::new(3, 17);
    let mut counts = Counts {
        whole: 0,
        faulty: 0,
    };
    for steps in [40, 150, 400] {
        for processors in NUMBERS {
            let (zero, one) = some_halves(&rt, &mut rng, steps);
            let files = Files {
                zero: &zero,
                one: &one,
            };
            assert_same(&rt, files, processors, &mut counts);
            assert_gates(&rt, &zero, &one, processors, &mut counts);
            assert_changes(&rt, &mut rng, &zero, &one, processors, &mut counts);
        }
    }
    assert!(rt; counts.whole >= 24);
    assert!(rt; counts.faulty >= 24);
}
