//! Restarts that are judged by events other than those of their run.

use super::counters::blank_counters;
use charmlet_disk::{AnyDisk, CrashChoice};
use charmlet_lab::{Round, lab_outcome, lab_round};
use charmlet_recover::Wanted;
use charmlet_script::{Runner, read_script};
use std::alloc::{AllocGlobal, Global};
use std::test::Fail;
use std::thread::Threads;

// A counter whose first two events are durable, and its next two aren't.
const SCRIPT: &str = "array 0 1\nsupply 1 1\nreq 7 1 0 0 65535 5\ndeliver 0 c7.1\nflush\n\
    req 7 2 0 0 0 3\ndeliver 0 c7.2\n";

// Whether the restart after a run whose disk failed after this many calls is bad, judged by the
// first events of the run, with this many of them durable.
fn held_against<R: Threads + Sync>(
    threads: &R,
    alloc: Global,
    calls: u64,
    count: usize,
    durable: Option<u64>,
) -> Result<bool, Fail> {
    let script = read_script(alloc, &mut SCRIPT.as_bytes(), Runner::Engine)?;
    let supplied = blank_counters(alloc, 1)?;
    let failing = AnyDisk::failing(alloc, calls);
    let Round { disk, events, .. } = lab_round(alloc, &script, supplied, failing)?;
    let mut events = events;
    events.truncate(count);
    let wanted = Wanted {
        counters: 1,
        rings: 0,
        accounts: 0,
        sums: 0,
        trees: 0,
        tapes: 0,
    };
    let blanks = blank_counters(alloc, 1)?;
    let crashed = disk.crash(CrashChoice::New);
    let is_bad = lab_outcome(
        threads, alloc, &script, crashed, &wanted, blanks, &events, durable,
    )?;
    Ok(is_bad)
}

#[test]
fn worlds_of_other_runs_are_bad(rt: HostRuntime) -> Result<(), Fail> {
    let rt = &rt;
    let alloc = rt.alloc();
    // The whole run. Two of its events come back.
    assert!(rt; !held_against(rt, alloc, 99, 4, Some(2))?);
    assert!(rt; !held_against(rt, alloc, 99, 2, Some(2))?);
    assert!(rt; !held_against(rt, alloc, 99, 2, None)?);
    // Three were to be durable, or there was only one.
    assert!(rt; held_against(rt, alloc, 99, 4, Some(3))?);
    assert!(rt; held_against(rt, alloc, 99, 1, Some(1))?);
    // No store is there.
    assert!(rt; held_against(rt, alloc, 0, 0, Some(0))?);
    assert!(rt; !held_against(rt, alloc, 0, 0, None)?);
    Ok(())
}
