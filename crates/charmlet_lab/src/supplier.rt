//! Suppliers of the objects for runs and restarts.

ghost use Rattle.std.specs.Prelude.{◌≡◌, true, IfErr, IfOk};
ghost use Rattle.charmlet_model.specs.Core.{Blanks};
ghost use Rattle.charmlet_model.specs.Sound.{new_world};
ghost use Rattle.charmlet_model.specs.World.{IsLegal};
ghost use Rattle.charmlet_disk.specs.Disk.{IsSettled};
ghost use Rattle.charmlet_locate.specs.Locations.{is_processor_count};
ghost use Rattle.charmlet_recovery.specs.RestartLaws.{IsEnough};
ghost use Rattle.charmlet_engine.specs.Wanted.{blanks_in};
ghost use Rattle.charmlet_script.specs.Script.{processors_of};
ghost use Rattle.charmlet_lab.specs.Lines.{IsRunOf};
ghost use Rattle.charmlet_lab.specs.Restarts.{IsJudged, IsNotTried};
ghost use Rattle.charmlet_lab.specs.Rounds.{IsNotRun, IsRound, arrays_of};

use crate::disks::LabDisk;
use crate::round::Round;
use charmlet_engine::Wanted;
use charmlet_model::{Event, Refusal};
use charmlet_script::Script;
use std::alloc::Global;

/// A supplier of blank objects, of any type: it makes as many as a run or a restart needs, and
/// starts the run or restart with them. So a supplier of mixed kinds can box them in one function,
/// which keeps them.
pub trait Supplier<D: LabDisk> {
    /// The condition for a restart, which starts threads.
    ghost may_restart: { Self → Type 0 };

    /// Runs the script on this disk, with the blanks that its lines supply, as [`crate::lab_round`]
    /// does.
    fn run(&self, alloc: Global, script: &Script, disk: D) -> Result<Round<D>, Refusal>
        requires settled { D.honest disk → IsSettled (D.file disk) }
        ensures ok { IfOk result (IsRound D.Disk (arrays_of script.now) disk) }
        ensures ran { IfOk result (IsRunOf script.now) }
        ensures processors { IfOk result (λ _.
            is_processor_count (processors_of script.now) ≡ true) }
        ensures err { IfErr result (λ refusal. (given : Blanks)
            × IsNotRun D.Disk given script.now disk refusal) };

    /// Restarts from this disk after a crash of such a run, with the blanks that are wanted, and
    /// returns whether that was bad, as [`crate::lab_outcome`] does.
    fn restart(
        &self,
        alloc: Global,
        script: &Script,
        disk: D,
        wanted: &Wanted,
        events: &[Event],
        durable: Option<u64>,
    ) -> Result<bool, Refusal>
        requires may { may_restart self.now }
        requires legal { IsLegal (new_world (arrays_of script.now)) 0 events.now }
        ensures ok { IfOk result (λ bad. (given : Blanks) × IsEnough given (blanks_in wanted.now)
            × IsJudged D.Disk script.now given disk events.now durable bad) }
        ensures err { IfErr result (λ refusal. (given : Blanks)
            × IsNotTried D.Disk script.now given (blanks_in wanted.now) disk refusal) };
}
