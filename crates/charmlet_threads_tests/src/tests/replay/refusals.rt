// Refusals of a restart by several workers.

ghost use Rattle.charmlet_replay.specs.Unused.{IsUnused};

use super::answers::{Files, by_restart, disk_of};
use super::counters::logged;
use charmlet_model::{Half, Kind, Refusal};
use charmlet_recover::{NotRestarted, restart_by, stock_from_objects};
use charmlet_stock::Stock;
use charmlet_testing::{Object, Tally, blanks};
use std::alloc::{AllocError, AllocGlobal, Global};
use std::process::Abort;
use std::sync::Arc;
use std::thread::Threads;

// Two blank counters.
fn two_blanks(rt: &(impl AllocGlobal + Abort)) -> Stock<Object>
    ensures { IsUnused result }
{
    let tally = Arc::new(rt.alloc(), Tally::new()).expect(rt, "memory");
    let objects = blanks(rt.alloc(), &tally, &[(Kind::Counter, 2)]).expect(rt, "memory");
    match stock_from_objects(rt.alloc(), objects) {
        Ok(stock) => stock,
        Err(_) => panic!(rt; "memory"),
    }
}

// There can't be this many processors and workers: nothing is read or synced, and both blanks come
// back.
fn assert_bad<R: Threads + Sync + AllocGlobal + Abort>(
    rt: &R,
    half: &[u8],
    processors: u16,
    workers: u16,
) {
    let files = Files {
        zero: half,
        one: &[],
    };
    let disk = disk_of(rt, files);
    let switches = disk.switches().expect(rt, "memory");
    match restart_by(rt, rt.alloc(), disk, two_blanks(rt), processors, workers) {
        Ok(_) => panic!(rt; "{processors} processors and {workers} workers were taken"),
        Err(
            NotRestarted {
                refusal,
                disk: _,
                blanks,
            },
        ) => {
            assert_eq!(rt; refusal, Refusal::BadPes);
            assert_eq!(rt; blanks.census().get(Kind::Counter).in_stock, 2);
        }
    }
    assert_eq!(rt; switches.counts(), [0; 5]);
}

#[test]
fn numbers_of_workers_are_tested(rt: HostRuntime) {
    let mut disk = logged(&rt, false);
    let half = disk.bytes(rt.alloc(), Half::Zero).expect(&rt, "memory");
    for (processors, workers) in [(2, 0), (2, 65), (0, 2), (65, 2), (0, 0), (64, 65535)] {
        assert_bad(&rt, &half, processors, workers);
    }
}

// The half with each of these bytes at its place.
fn altered(alloc: Global, half: &[u8], changes: &[(usize, u8)]) -> Result<Vec<u8>, AllocError> {
    let mut copy = half.to_vec(alloc)?;
    for (at, byte) in changes {
        if let Some(place) = copy.get_mut(*at) {
            *place = *byte;
        }
    }
    Ok(copy)
}

// By each number of workers the half with these bytes is answered so.
fn assert_answered<R: Threads + Sync + AllocGlobal + Abort>(
    rt: &R,
    half: &[u8],
    changes: &[(usize, u8)],
    wanted: &str,
) {
    let half = altered(rt.alloc(), half, changes).expect(rt, "memory");
    let files = Files {
        zero: &half,
        one: &[],
    };
    for workers in [1, 2, 64] {
        let text = by_restart(rt, files, 2, workers);
        assert!(rt; text.starts_with(wanted), "{text} by {workers} workers");
    }
}

// How the refusal of the record at offset 262 begins, and at 289: no object is dropped, and three
// counters come back, one of which was to spare.
const FIRST: &str =
    "refused 14 Damaged 0 262\ndrops 0\n1 Tally { supplied: 3, in_stock: 3, retired: 0 }\n";

const SECOND: &str =
    "refused 14 Damaged 0 289\ndrops 0\n1 Tally { supplied: 3, in_stock: 3, retired: 0 }\n";

// The log says that each counter, one on each processor, is destroyed as it is added to. The answer
// is the fault that stands first, whichever worker finds its own sooner.
#[test]
fn first_of_two_faults_is_answered(rt: HostRuntime) {
    let mut disk = logged(&rt, true);
    let half = disk.bytes(rt.alloc(), Half::Zero).expect(&rt, "memory");
    assert_eq!(rt; half.len(), 317);
    assert_answered(&rt, &half, &[(284, 2), (311, 2)], FIRST);
    assert_answered(&rt, &half, &[(284, 2)], FIRST);
    assert_answered(&rt, &half, &[(311, 2)], SECOND);
    assert_answered(&rt, &half, &[], "events 8 generation 1\n");
}
