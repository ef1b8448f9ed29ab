//! Fewer objects than a run or a restart needs.

use super::runs::{counters, run_anew, script_of};
use charmlet_cli::{RestartError, Restarted, RunError, find_blanks, restart_script};
use charmlet_disk::MemDisk;
use charmlet_kinds::Counter;
use charmlet_model::{Kind, Refusal};
use charmlet_script::{Runner, read_restart_script};
use std::process::Abort;
use std::thread::Threads;

// A script supplies three objects, and there are two: they come back, nothing is written, and no
// call of the disk is made.
fn lacks_one(rt: &(impl AllocGlobal + Abort), text: &str) {
    let script = script_of(rt, text);
    assert_eq!(rt; script.blanks(Kind::Counter), 3);
    let mut output = Vec::new(rt.alloc());
    let ran = run_anew(rt.alloc(), &script, counters(rt, 2), &mut output);
    match &ran.result {
        Err(RunError::TooFewBlanks(blanks)) => assert_eq!(rt; blanks.len(), 2),
        _ => panic!(rt; "three blanks are wanted"),
    }
    assert!(rt; output.is_empty());
    assert!(rt; ran.disk.calls().is_empty());
}

// The same holds if there could be no store.
#[test]
fn too_few_objects_come_back(rt: HostRuntime) {
    lacks_one(&rt, "array 0 1\nsupply 1 2\nsupply 1 1\n");
    lacks_one(&rt, "pes 65\narray 0 1\nsupply 1 3\n");
}

// A script that leaves a store of one counter.
const ONE: &str = "array 0 1\nsupply 1 1\nreq 7 1 0 0 65535 5\ndeliver 0 c7.1\nflush\n";

// A script that also asks this counter something, and leaves two more to be constructed.
const TWO_MORE: &str = "array 0 1\nsupply 1 1\nreq 7 1 0 0 65535 5\ndeliver 0 c7.1\n\
                        req 7 2 0 0 0 3\nreq 8 1 0 1 65535\nreq 9 1 0 2 65535\nflush\n";

// A disk in memory with the store that a script leaves, for which there is one blank counter.
fn stored(rt: &(impl AllocGlobal + Abort), text: &str) -> MemDisk {
    let script = script_of(rt, text);
    let mut output = Vec::new(rt.alloc());
    let ran = run_anew(rt.alloc(), &script, counters(rt, 1), &mut output);
    assert!(rt; ran.result.is_ok());
    ran.disk
}

// That store comes back with this many counters for a script, which may supply two.
fn restart_with<R: Threads + Sync + AllocGlobal + Abort>(
    rt: &R,
    left: &str,
    count: usize,
    text: &str,
    output: &mut Vec<u8>,
) -> Restarted<MemDisk, Counter> {
    let script = read_restart_script(rt.alloc(), &mut text.as_bytes(), Runner::Engine).expect(
        rt, "a script",
    );
    let disk = stored(rt, left);
    let blanks = counters(rt, count);
    let supplies = counters(rt, 2);
    restart_script(rt, rt.alloc(), disk, 1, &script, blanks, supplies, output)
}

// If there are fewer objects than the script supplies, they come back, with those for the restart,
// and nothing is written.
#[test]
fn too_few_supplies_come_back(rt: HostRuntime) {
    let mut output = Vec::new(rt.alloc());
    let ended = restart_with(&rt, ONE, 1, "supply 1 2\nsupply 1 1\n", &mut output);
    match &ended.result {
        Err(RestartError::TooFewBlanks(blanks, supplies)) => {
            assert_eq!(rt; (blanks.len(), supplies.len()), (1, 2));
        }
        _ => panic!(rt; "three blanks are wanted"),
    }
    assert!(rt; output.is_empty());
    assert!(rt; ended.constructions.is_none());
}

// Why no store came back.
fn refusal_of(ended: &Restarted<MemDisk, Counter>) -> Option<Refusal> {
    match &ended.result {
        Err(RestartError::NotRestarted(refusal)) => Some(*refusal),
        _ => None,
    }
}

// A restart from this disk needs one counter.
fn wants_one(rt: &(impl AllocGlobal + Abort), disk: MemDisk) {
    let mut disk = disk;
    let mut output = Vec::new(rt.alloc());
    let found = find_blanks(rt.alloc(), &mut disk, 1, &mut output);
    let wanted = found.ok().expect(rt, "there is a store");
    assert_eq!(rt; wanted.of(Kind::Counter), 1);
    assert!(rt; output.is_empty());
}

// The store with a missing blank can still come back.
#[test]
fn blanks_that_lack_are_named(rt: HostRuntime) {
    let mut output = Vec::new(rt.alloc());
    let ended = restart_with(&rt, ONE, 0, "status 7 1\n", &mut output);
    let kind = Kind::Counter;
    let wanted = Refusal::BlanksWanted { kind, count: 1 };
    assert_eq!(rt; refusal_of(&ended), Some(wanted));
    let line = b"refused 16 BlanksWanted 1 1\n".as_slice();
    assert_eq!(rt; output.as_slice(), line);
    assert!(rt; ended.constructions.is_none());
    wants_one(&rt, ended.disk);
}

// The messages that were pending at the restart are counted before the script's lines: both
// elements are there in the end.
#[test]
fn pending_constructions_are_counted(rt: HostRuntime) {
    let mut output = Vec::new(rt.alloc());
    let ended = restart_with(&rt, TWO_MORE, 1, "supply 1 2\ndrain 9\n", &mut output);
    assert!(rt; ended.result.is_ok());
    let pending = ended.constructions.expect(&rt, "a store came back");
    assert_eq!(rt; [pending.of(Kind::Counter), pending.of(Kind::Ring)], [2, 0]);
    let lines =
        b"restarted generation 1 events 5 on 1\nsupplied 1 2\ndrained 3 left 0\n".as_slice();
    assert_eq!(rt; output.as_slice(), lines);
    let ended = restart_with(&rt, ONE, 1, "drain 9\n", &mut output);
    let none = ended.constructions.expect(&rt, "a store came back");
    assert_eq!(rt; none.of(Kind::Counter), 0);
}
