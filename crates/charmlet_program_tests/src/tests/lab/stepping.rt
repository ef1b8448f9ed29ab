//! Runs of an engine with two images among their steps, in which the disk fails at each call, and
//! crashes.

ghost use Rattle.std.specs.Prelude.{◌≡◌};
ghost use Rattle.charmlet_model.specs.KindVersion.{AreNewest};

use super::counters::blank_counters;
use charmlet_disk::{AnyDisk, CrashChoice};
use charmlet_engine::Engine;
use charmlet_kinds::Counter;
use charmlet_model::{
    Answer, CONSTRUCT, Elem, Kind, Manifest, MsgId, Origin, Refusal, Step, Told, Words,
};
use charmlet_recover::stock_from_objects;
use std::alloc::{AllocError, AllocGlobal, Global};
use std::process::Abort;
use std::test::Fail;
use std::thread::Threads;

// How many writes and syncs a creation makes, and how many an image.
const CALLS: u64 = 6;

// A request of client 7 to the counter.
fn request(alloc: Global, number: u64, entry: u16, word: u64) -> Result<Step, AllocError> {
    Ok(Step::Request {
        client: 7,
        number,
        to: Elem { array: 0, index: 0 },
        entry,
        words: Words::from_slice(alloc, &[word])?,
    })
}

// Its delivery.
fn delivery(number: u64) -> Step {
    let origin = Origin::Client(7);
    Step::Deliver {
        processor: 0,
        id: MsgId { origin, number },
    }
}

// A counter is made and imaged, and so again once it is added to.
fn steps(alloc: Global) -> Result<Vec<Step>, AllocError> {
    let mut steps = Vec::new(alloc);
    steps.push(request(alloc, 1, CONSTRUCT, 5)?)?;
    steps.push(delivery(1))?;
    steps.push(Step::Checkpoint)?;
    steps.push(request(alloc, 2, 0, 3)?)?;
    steps.push(delivery(2))?;
    steps.push(Step::Checkpoint)?;
    Ok(steps)
}

// An array of counters.
fn counters(rt: &(impl AllocGlobal + Abort)) -> Manifest
    ensures { AreNewest result }
{
    let arrays = [(0, Kind::Counter.number())];
    Manifest::of(rt.alloc(), &arrays)
        .expect(rt, "memory")
        .expect(rt, "one array")
}

// The steps are answered as ever up to the image in this place, at which the disk failed, and then
// refused.
fn are_answered(rt: &impl Abort, answers: &[Answer], failed: usize) {
    assert_eq!(rt; answers.len(), 6);
    for (place, answer) in answers.iter().enumerate() {
        let is_so = match answer {
            Answer::Refused(Refusal::Halted) => place > failed,
            Answer::Refused(Refusal::Device) => place == failed,
            Answer::Checkpointed(2) => place == 2 && place < failed,
            Answer::Checkpointed(3) => place == 5 && place < failed,
            Answer::Told(Told::Unknown) | Answer::Delivered(_) => place < failed,
            _ => false,
        };
        assert!(rt; is_so, "{answer} at {place}");
    }
}

// What a crash leaves of a run whose disk failed after this many calls, in the middle of the image
// in this place.
fn left_by(
    rt: &(impl AllocGlobal + Abort),
    calls: u64,
    failed: usize,
    choice: CrashChoice,
) -> Result<AnyDisk, Fail> {
    let alloc = rt.alloc();
    let disk = AnyDisk::failing(alloc, calls);
    let Ok(mut engine) = Engine::<AnyDisk, Counter>::create(alloc, disk, counters(rt), 1) else {
        panic!(rt; "no store is made")
    };
    assert!(rt; engine.supply(blank_counters(alloc, 1)?).is_ok());
    let answers = engine.run(&steps(alloc)?)?;
    are_answered(rt, &answers, failed);
    Ok(engine.into_disk().crash(choice))
}

// The store that a crash leaves has this generation, and this many events, of which every other one
// is a delivery to the counter.
fn comes_back<R: Threads + Sync + AllocGlobal + Abort>(
    rt: &R,
    disk: AnyDisk,
    generation: u64,
    events: u64,
) -> Result<(), Fail> {
    let Ok(blanks) = stock_from_objects(rt.alloc(), blank_counters(rt.alloc(), 1)?) else {
        panic!(rt; "memory")
    };
    let Ok(mut engine) = Engine::restart(rt, rt.alloc(), disk, blanks, 1) else {
        panic!(rt; "no store comes back")
    };
    assert_eq!(rt; engine.generation(), generation);
    assert_eq!(rt; [engine.durable(), engine.event_count()], [events, events]);
    let look = engine.look(Elem { array: 0, index: 0 })?;
    assert_eq!(rt; look.received, events / 2);
    assert_eq!(rt; look.standing.is_some(), events > 0);
    Ok(())
}

// The disk fails after this many calls, in the middle of the image in this place, and crashes in
// each way. Until the gate of the image is written the store is the one before it, of this
// generation and with this many events. If the gate wasn't synced, it is that store or the image,
// by what the crash makes of the gate.
fn leaves<R: Threads + Sync + AllocGlobal + Abort>(
    rt: &R,
    calls: u64,
    failed: usize,
    generation: u64,
    events: u64,
) -> Result<(), Fail> {
    for choice in CrashChoice::ALL {
        let disk = left_by(rt, calls, failed, choice)?;
        if calls % CALLS == CALLS - 1 && matches!(choice, CrashChoice::New | CrashChoice::Ones) {
            comes_back(
                rt,
                disk,
                generation.saturating_add(1),
                events.saturating_add(2),
            )?;
        } else {
            comes_back(rt, disk, generation, events)?;
        }
    }
    Ok(())
}

#[test]
fn a_run_leaves_the_old_store_or_the_image(rt: HostRuntime) -> Result<(), Fail> {
    let rt = &rt;
    for calls in CALLS..2 * CALLS {
        leaves(rt, calls, 2, 1, 0)?;
    }
    for calls in 2 * CALLS..3 * CALLS {
        leaves(rt, calls, 5, 2, 2)?;
    }
    // None fails.
    leaves(rt, 3 * CALLS, 6, 3, 4)
}
