//! Counters for the laboratory, over either disk.

ghost use Rattle.std.specs.Prelude.{◌≡◌, true, IfErr, IfOk};
ghost use Rattle.std.specs.Thread.{IsSync};
ghost use Rattle.charmlet_model.specs.Core.{Blanks};
ghost use Rattle.charmlet_model.specs.Sound.{new_world};
ghost use Rattle.charmlet_model.specs.World.{IsLegal};
ghost use Rattle.charmlet_disk.specs.Disk.{IsSettled};
ghost use Rattle.charmlet_locate.specs.Locations.{is_processor_count};
ghost use Rattle.charmlet_recovery.specs.RestartLaws.{IsEnough};
ghost use Rattle.charmlet_recover.specs.Wanted.{blanks_in};
ghost use Rattle.charmlet_script.specs.Script.{processors_of};
ghost use Rattle.charmlet_lab.specs.Lines.{IsRunOf};
ghost use Rattle.charmlet_lab.specs.Restarts.{IsJudged, IsNotTried};
ghost use Rattle.charmlet_lab.specs.Rounds.{IsNotRun, IsRound, arrays_of};

use super::forgetful::ForgetfulDisk;
use charmlet_disk::{AnyDisk, Disk};
use charmlet_kinds::Counter;
use charmlet_lab::{Round, Supplier, lab_outcome, lab_round};
use charmlet_model::{Event, Kind, Refusal};
use charmlet_recover::Wanted;
use charmlet_script::Script;
use std::alloc::{AllocError, Global};
use std::sync::atomic::{AtomicU64, Ordering};
use std::thread::Threads;

// Has as many counters as are wanted, and counts the runs and the restarts.
#[derive(Drop)]
pub(super) struct Counters<'a, R: Threads + Sync> {
    threads: &'a R,
    runs: AtomicU64,
    restarts: AtomicU64,
}

impl<'a, R: Threads + Sync> Counters<'a, R> {
    // Nothing was run or restarted yet.
    pub(super) fn new(threads: &'a R) -> Counters<'a, R> {
        Counters {
            threads,
            runs: AtomicU64::new(0),
            restarts: AtomicU64::new(0),
        }
    }

    // How many runs and restarts there were.
    pub(super) fn counts(&self) -> [u64; 2] {
        [
            self.runs.load(Ordering::SeqCst),
            self.restarts.load(Ordering::SeqCst),
        ]
    }
}

// `count` blank counters.
pub(super) fn blank_counters(alloc: Global, count: u64) -> Result<Vec<Counter>, AllocError> {
    let mut blanks = Vec::new(alloc);
    for _ in 0..count {
        blanks.push(Counter::blank())?;
    }
    Ok(blanks)
}

// A run of the script with as many counters as its lines supply.
fn run_counters<D: Disk>(alloc: Global, script: &Script, disk: D) -> Result<Round<D>, Refusal>
    requires settled { D.honest disk → IsSettled (D.file disk) }
    ensures ok { IfOk result (IsRound D.Disk (arrays_of script.now) disk) }
    ensures ran { IfOk result (IsRunOf script.now) }
    ensures processors { IfOk result (λ _.
        is_processor_count (processors_of script.now) ≡ true) }
    ensures err { IfErr result (λ refusal. (given : Blanks)
        × IsNotRun D.Disk given script.now disk refusal) }
{
    let blanks = blank_counters(alloc, script.blanks(Kind::Counter))?;
    lab_round(alloc, script, blanks, disk)
}

// Whether a restart from this disk after a run's crash is bad, with as many counters as are wanted.
fn restart_counters<R: Threads + Sync, D: Disk>(
    threads: &R,
    alloc: Global,
    script: &Script,
    disk: D,
    wanted: &Wanted,
    events: &[Event],
    durable: Option<u64>,
) -> Result<bool, Refusal>
    requires legal { IsLegal (new_world (arrays_of script.now)) 0 events.now }
    ensures ok { IfOk result (λ bad. (given : Blanks) × IsEnough given (blanks_in wanted.now)
        × IsJudged D.Disk script.now given disk events.now durable bad) }
    ensures err { IfErr result (λ refusal. (given : Blanks)
        × IsNotTried D.Disk script.now given (blanks_in wanted.now) disk refusal) }
{
    let blanks = blank_counters(alloc, wanted.of(Kind::Counter))?;
    lab_outcome(
        threads, alloc, script, disk, wanted, blanks, events, durable,
    )
}

impl<R: Threads + Sync> Supplier<AnyDisk> for Counters<'_, R> {
    ghost may_restart = { λ _. IsSync R.row };

    fn run(
        &self,
        alloc: Global,
        script: &Script,
        disk: AnyDisk,
    ) -> Result<Round<AnyDisk>, Refusal> {
        self.runs.fetch_add(1, Ordering::SeqCst);
        run_counters(alloc, script, disk)
    }

    fn restart(
        &self,
        alloc: Global,
        script: &Script,
        disk: AnyDisk,
        wanted: &Wanted,
        events: &[Event],
        durable: Option<u64>,
    ) -> Result<bool, Refusal> {
        self.restarts.fetch_add(1, Ordering::SeqCst);
        restart_counters(self.threads, alloc, script, disk, wanted, events, durable)
    }
}

impl<R: Threads + Sync> Supplier<ForgetfulDisk> for Counters<'_, R> {
    ghost may_restart = { λ _. IsSync R.row };

    fn run(
        &self,
        alloc: Global,
        script: &Script,
        disk: ForgetfulDisk,
    ) -> Result<Round<ForgetfulDisk>, Refusal> {
        self.runs.fetch_add(1, Ordering::SeqCst);
        run_counters(alloc, script, disk)
    }

    fn restart(
        &self,
        alloc: Global,
        script: &Script,
        disk: ForgetfulDisk,
        wanted: &Wanted,
        events: &[Event],
        durable: Option<u64>,
    ) -> Result<bool, Refusal> {
        self.restarts.fetch_add(1, Ordering::SeqCst);
        restart_counters(self.threads, alloc, script, disk, wanted, events, durable)
    }
}
