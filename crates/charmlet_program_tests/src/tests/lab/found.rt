//! The laboratory's findings over an honest disk, and over one that forgets.

use super::counters::{Counters, blank_counters};
use super::forgetful::ForgetfulDisk;
use charmlet_disk::{AnyDisk, Disk};
use charmlet_lab::{LabLine, Watch, lab_round, try_crashes};
use charmlet_script::{Runner, read_script};
use std::alloc::{AllocGlobal, Global};
use std::test::Fail;

// A counter, whose events are made durable twice.
const SCRIPT: &str = "array 0 1\nsupply 1 1\nreq 7 1 0 0 65535 5\ndeliver 0 c7.1\nflush\n\
    status 7 1\nreq 7 2 0 0 0 3\ndeliver 0 c7.2\nstatus 7 2\nflush\nstatus 7 2\nstatus 7 1\n";

// Two counters are asked for, and drained at once.
const DRAINED: &str = "array 0 1\nsupply 1 2\nreq 7 1 0 0 65535 5\nreq 8 1 0 1 65535 5\n\
    drain 9\nflush\n";

// Each kind of line. It makes two events durable by an image, and three more by a flush.
const EACH_LINE: &str = "array 0 1\npes 2\nhandler make 0 65535\nhandler bump 0 0\nsupply 1 2\n\
    call 7 1 make 0 5\ndrain 9\nmove 0 0 1\ncheckpoint\ncall 7 2 bump 0 3\nstate 0 0\npending\n\
    census\ndeliver 1 c7.2\nreq 8 1 0 0 0 2\nflush\nstatus 7 2\n";

// The counts that it was told last, and how often it was told.
#[derive(Drop)]
struct Told {
    times: u64,
    first: Option<LabLine>,
    last: Option<LabLine>,
}

impl Told {
    fn nothing() -> Self {
        Told {
            times: 0,
            first: None,
            last: None,
        }
    }
}

impl Watch for Told {
    fn tell(&mut self, line: &LabLine) {
        self.times = self.times.saturating_add(1);
        self.first = Some(self.first.unwrap_or(*line));
        self.last = Some(*line);
    }
}

#[test]
fn an_honest_disk_is_found_good(rt: HostRuntime) -> Result<(), Fail> {
    let rt = &rt;
    let alloc = rt.alloc();
    let script = read_script(alloc, &mut SCRIPT.as_bytes(), Runner::Engine)?;
    let mut told = Told::nothing();
    let counters = Counters::new(rt);
    let found = try_crashes::<AnyDisk, Counters<'_, HostRuntime>, Told>(
        alloc, &script, &counters, &mut told,
    )?;
    let good = LabLine {
        stops: 14,
        outcomes: 84,
        bad: 0,
    };
    assert_eq!(rt; found, good);
    // It is told the counts so far, after each stop.
    assert_eq!(rt; told.times, 14);
    let first = LabLine {
        stops: 1,
        outcomes: 6,
        bad: 0,
    };
    assert_eq!(rt; told.first, Some(first));
    assert_eq!(rt; told.last, Some(good));
    // Each of the six crashes of a stop has a run and a restart of its own, and one run isn't
    // stopped.
    assert_eq!(rt; counters.counts(), [85, 84]);
    Ok(())
}

// The number of bad restarts was counted separately, by a model of the same files and crashes.
#[test]
fn a_disk_that_forgets_is_found_bad(rt: HostRuntime) -> Result<(), Fail> {
    let rt = &rt;
    let alloc = rt.alloc();
    let script = read_script(alloc, &mut SCRIPT.as_bytes(), Runner::Engine)?;
    let mut told = Told::nothing();
    let counters = Counters::new(rt);
    let found = try_crashes::<ForgetfulDisk, Counters<'_, HostRuntime>, Told>(
        alloc, &script, &counters, &mut told,
    )?;
    assert_eq!(rt; (found.stops, found.outcomes), (14, 84));
    assert_eq!(rt; found.bad, 43);
    Ok(())
}

// How many events were durable, as the run was told, if the disk fails after `calls` calls; `None`
// if no store was made.
fn durable_after(alloc: Global, calls: u64) -> Result<Option<u64>, Fail> {
    let script = read_script(alloc, &mut SCRIPT.as_bytes(), Runner::Engine)?;
    let disk = AnyDisk::failing(alloc, calls);
    let round = lab_round(alloc, &script, blank_counters(alloc, 1)?, disk)?;
    Ok(round.durable)
}

// How many writes and syncs failed in a run whose disk fails from some call on.
fn failures_after(alloc: Global, calls: u64) -> Result<u64, Fail> {
    let script = read_script(alloc, &mut SCRIPT.as_bytes(), Runner::Engine)?;
    let disk = AnyDisk::failing(alloc, calls);
    let round = lab_round(alloc, &script, blank_counters(alloc, 1)?, disk)?;
    Ok(round.disk.failures())
}

#[test]
fn no_call_comes_after_one_that_failed(rt: HostRuntime) -> Result<(), Fail> {
    let rt = &rt;
    for calls in 0..14 {
        assert_eq!(rt; failures_after(rt.alloc(), calls)?, 1);
    }
    assert_eq!(rt; failures_after(rt.alloc(), 14)?, 0);
    Ok(())
}

// A drain delivers as many messages as wait.
#[test]
fn a_drain_of_the_laboratory_delivers_all(rt: HostRuntime) -> Result<(), Fail> {
    let rt = &rt;
    let alloc = rt.alloc();
    let script = read_script(alloc, &mut DRAINED.as_bytes(), Runner::Engine)?;
    let blanks = blank_counters(alloc, 2)?;
    let round = lab_round(alloc, &script, blanks, AnyDisk::memory(alloc))?;
    assert_eq!(rt; round.durable, Some(4));
    Ok(())
}

// No line is refused memory, since there is enough.
#[test]
fn each_line_of_the_laboratory_is_run(rt: HostRuntime) -> Result<(), Fail> {
    let rt = &rt;
    let alloc = rt.alloc();
    let script = read_script(alloc, &mut EACH_LINE.as_bytes(), Runner::Engine)?;
    let blanks = blank_counters(alloc, 2)?;
    let round = lab_round(alloc, &script, blanks, AnyDisk::memory(alloc))?;
    assert_eq!(rt; round.durable, Some(5));
    assert_eq!(rt; round.events.len(), 5);
    assert!(rt; !round.is_stopped);
    Ok(())
}

// The creation makes six calls, and each flush four.
#[test]
fn durable_numbers_are_those_that_were_told(rt: HostRuntime) -> Result<(), Fail> {
    let rt = &rt;
    let alloc = rt.alloc();
    for (calls, durable) in [
        (0, None),
        (5, None),
        (6, Some(0)),
        (9, Some(0)),
        (10, Some(2)),
        (13, Some(2)),
        (14, Some(4)),
    ] {
        assert_eq!(rt; durable_after(alloc, calls)?, durable);
    }
    Ok(())
}
