// A log of more events than are dispatched to several workers at a time is replayed by them as by
// one, even if an event is faulty that is dispatched later.

use super::answers::{Files, by_many, by_one, by_restart};
use super::counters::logged_often;
use charmlet_model::Half;
use std::alloc::{AllocError, AllocGlobal, Global};
use std::process::Abort;
use std::thread::Threads;

// Every sixth of this many last bytes of the log is changed, one at a time.
const CHANGES: usize = 48;

// The bytes with another byte this far from their end.
fn changed(alloc: Global, bytes: &[u8], from_end: usize) -> Result<Vec<u8>, AllocError> {
    let mut copy = bytes.to_vec(alloc)?;
    let at = bytes.len().saturating_sub(from_end);
    if let Some(place) = copy.get_mut(at) {
        *place = place.wrapping_add(1);
    }
    Ok(copy)
}

// The files have the same result by one worker and by three.
fn assert_same<R: Threads + Sync + AllocGlobal + Abort>(rt: &R, files: Files<'_>) -> String {
    let wanted = by_one(rt, files, 2);
    let found = by_many(rt, files, 2, 3);
    assert_eq!(rt; found.as_str(), wanted.as_str());
    wanted
}

#[test]
fn long_logs_come_back_the_same(rt: HostRuntime) {
    let mut disk = logged_often(&rt, 3, 1100);
    let zero = disk.bytes(rt.alloc(), Half::Zero).expect(&rt, "memory");
    let one = disk.bytes(rt.alloc(), Half::One).expect(&rt, "memory");
    let files = Files {
        zero: &zero,
        one: &one,
    };
    let whole = assert_same(&rt, files);
    assert!(rt; whole.starts_with("events 13204"));
    let by_two = by_many(&rt, files, 2, 2);
    assert_eq!(rt; by_two.as_str(), whole.as_str(), "by two workers");
    let restarted = by_restart(&rt, files, 2, 2);
    assert_eq!(rt; restarted.as_str(), whole.as_str(), "by a restart");
    let mut faulty = 0u64;
    for from_end in (2..CHANGES).step_by(6) {
        let other = changed(rt.alloc(), &zero, from_end).expect(&rt, "memory");
        let files = Files {
            zero: &other,
            one: &one,
        };
        if !assert_same(&rt, files).starts_with("events") {
            faulty = faulty.saturating_add(1);
        }
    }
    assert!(rt; faulty >= 3);
}
