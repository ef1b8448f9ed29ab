//! The laboratory's runs and restarts, with objects of all kinds.

ghost use Rattle.std.specs.Prelude.{◌≡◌, true, IfErr, IfOk};
ghost use Rattle.std.specs.Thread.{IsSync};
ghost use Rattle.charmlet_model.specs.Core.{Blanks};
ghost use Rattle.charmlet_model.specs.Sound.{new_world};
ghost use Rattle.charmlet_model.specs.World.{IsLegal};
ghost use Rattle.charmlet_disk.specs.AnyDisk.AnyDisk.{files_of, is_honest};
ghost use Rattle.charmlet_disk.specs.Disk.{IsSettled};
ghost use Rattle.charmlet_locate.specs.Locations.{is_processor_count};
ghost use Rattle.charmlet_recovery.specs.RestartLaws.{IsEnough};
ghost use Rattle.charmlet_cli.specs.Wanted.{blanks_in};
ghost use Rattle.charmlet_script.specs.Script.{processors_of};
ghost use Rattle.charmlet_lab.specs.Lines.{IsRunOf};
ghost use Rattle.charmlet_lab.specs.Restarts.{IsJudged, IsNotTried};
ghost use Rattle.charmlet_lab.specs.Rounds.{IsNotRun, IsRound, arrays_of};
ghost use Rattle.charmlet.specs.Tried.{IsRestartTried, IsRunTried};

use crate::blanks::{Object, Task, with_blanks};
use charmlet_cli::Wanted;
use charmlet_disk::{AnyDisk, Disk};
use charmlet_lab::{Round, Supplier, lab_outcome, lab_round};
use charmlet_model::{Event, Kind, Refusal};
use charmlet_script::Script;
use std::alloc::{AllocError, Global};
use std::thread::Threads;

/// A run of a script on this disk.
#[derive(Drop)]
struct LabRun<'a> {
    alloc: Global,
    script: &'a Script,
    disk: AnyDisk,
}

impl Task for LabRun<'_> {
    type Answer = Result<Round<AnyDisk>, Refusal>;

    ghost may_begin = { λ run. is_honest run.disk → IsSettled (files_of run.disk) };

    ghost answers = { λ run. IsRunTried ⟦<AnyDisk as Disk>⟧ run.script.now run.disk };

    fn blanks(&self, kind: Kind) -> u64 {
        self.script.blanks(kind)
    }

    fn supplies(&self, _kind: Kind) -> u64 {
        0
    }

    fn begin(self, blanks: Vec<Object>, _supplies: Vec<Object>) -> Result<Round<AnyDisk>, Refusal> {
        let LabRun {
            alloc,
            script,
            disk,
        } = self;
        lab_round(alloc, script, blanks, disk)
    }
}

/// A restart after a run's crash, which replays in threads of `threads`.
#[derive(Drop)]
struct LabRestart<'a, R: Threads + Sync> {
    threads: &'a R,
    alloc: Global,
    script: &'a Script,
    disk: AnyDisk,
    wanted: &'a Wanted,
    events: &'a [Event],
    durable: Option<u64>,
}

impl<R: Threads + Sync> Task for LabRestart<'_, R> {
    type Answer = Result<bool, Refusal>;

    ghost may_begin = { λ restart. IsSync R.row
        × IsLegal (new_world (arrays_of restart.script.now)) 0 restart.events.now };

    ghost answers = { λ restart. IsRestartTried ⟦<AnyDisk as Disk>⟧ restart.script.now
        (blanks_in restart.wanted.now) restart.disk restart.events.now restart.durable };

    fn blanks(&self, kind: Kind) -> u64 {
        self.wanted.of(kind)
    }

    fn supplies(&self, _kind: Kind) -> u64 {
        0
    }

    fn begin(self, blanks: Vec<Object>, _supplies: Vec<Object>) -> Result<bool, Refusal> {
        let LabRestart {
            threads,
            alloc,
            script,
            disk,
            wanted,
            events,
            durable,
        } = self;
        lab_outcome(
            threads, alloc, script, disk, wanted, blanks, events, durable,
        )
    }
}

/// Objects of all kinds, for the runs and the restarts of the laboratory, which replay in threads
/// of `threads`.
#[derive(Drop)]
pub(crate) struct AllKinds<'a, R: Threads + Sync> {
    pub(crate) threads: &'a R,
}

impl<R: Threads + Sync> Supplier<AnyDisk> for AllKinds<'_, R> {
    ghost may_restart = { λ _. IsSync R.row };

    fn run(&self, alloc: Global, script: &Script, disk: AnyDisk) -> Result<Round<AnyDisk>, Refusal>
        requires settled { is_honest disk → IsSettled (files_of disk) }
        ensures ok { IfOk result (IsRound ⟦<AnyDisk as Disk>⟧ (arrays_of script.now) disk) }
        ensures ran { IfOk result (IsRunOf script.now) }
        ensures processors { IfOk result (λ _.
            is_processor_count (processors_of script.now) ≡ true) }
        ensures err { IfErr result (λ refusal. (given : Blanks)
            × IsNotRun ⟦<AnyDisk as Disk>⟧ given script.now disk refusal) }
    {
        let run = LabRun {
            alloc,
            script,
            disk,
        };
        match with_blanks(alloc, run) {
            Ok(answer) => answer,
            Err(AllocError) => Err(Refusal::Memory),
        }
    }

    fn restart(
        &self,
        alloc: Global,
        script: &Script,
        disk: AnyDisk,
        wanted: &Wanted,
        events: &[Event],
        durable: Option<u64>,
    ) -> Result<bool, Refusal>
        requires may { IsSync R.row }
        requires legal { IsLegal (new_world (arrays_of script.now)) 0 events.now }
        ensures ok { IfOk result (λ bad. (given : Blanks) × IsEnough given (blanks_in wanted.now)
            × IsJudged ⟦<AnyDisk as Disk>⟧ script.now given disk events.now durable bad) }
        ensures err { IfErr result (λ refusal. (given : Blanks)
            × IsNotTried ⟦<AnyDisk as Disk>⟧ script.now given (blanks_in wanted.now) disk refusal) }
    {
        let restart = LabRestart {
            threads: self.threads,
            alloc,
            script,
            disk,
            wanted,
            events,
            durable,
        };
        match with_blanks(alloc, restart) {
            Ok(answer) => answer,
            Err(AllocError) => Err(Refusal::Memory),
        }
    }
}
