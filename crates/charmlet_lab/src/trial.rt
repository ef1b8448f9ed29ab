//! A restart after a crash, and whether it was bad.

ghost use Rattle.std.specs.Prelude.{◌≡◌, ◌↔◌, ℕ, Some, None, false, true, IfErr, IfOk};
ghost use Rattle.charmlet_model.specs.Shelves.{count_of};
ghost use Rattle.charmlet_model.specs.Sound.{new_world};
ghost use Rattle.charmlet_model.specs.World.{IsLegal};
ghost use Rattle.charmlet_recovery.specs.Outcomes.{IsLawful};
ghost use Rattle.charmlet_recovery.specs.RestartLaws.{IsEnough};
ghost use Rattle.charmlet_locate.specs.Locations.{is_processor_count};
ghost use Rattle.charmlet_engine.specs.Restart.{bytes_on};
ghost use Rattle.charmlet_engine.specs.Wanted.{blanks_in};
ghost use Rattle.charmlet_script.specs.Script.{processors_of};
ghost use Rattle.charmlet_lab.specs.Judged.{AreGood, IsNothingOrLawful};
ghost use Rattle.charmlet_lab.specs.Restarts.{IsJudged, IsNotTried};
ghost use Rattle.charmlet_lab.specs.Rounds.{arrays_of};

use crate::verdict::lab_bad;
use charmlet_chare::Chare;
use charmlet_disk::Disk;
use charmlet_engine::{Engine, Wanted, lacking, stock_from_objects};
use charmlet_model::{Event, Refusal};
use charmlet_script::Script;
use std::alloc::Global;
use std::thread::Threads;

/// Restarts from a disk after a run's crash, on as many processors as the script has and with these
/// blanks, and returns whether that was bad, as [`lab_bad`] judges it. Disk and objects are
/// dropped.
///
/// If the restart wasn't bad, the files of an honest disk recover to the world after some of the
/// events, including all that were durable; if no store was reported as made, to that or to
/// nothing. If it was bad, they don't, or a restart from them is refused for a cause that they
/// give.
///
/// `BlanksWanted` if there are fewer blanks of a kind than are wanted, with the lowest such kind
/// and all that are wanted of it: so missing blanks never make a restart bad. `Memory` and
/// `ImageFull` as for [`lab_bad`], and `Device` if the disk failed in the restart, and counted
/// that: so neither memory nor the device ever makes a restart bad.
pub fn lab_outcome<R: Threads + Sync, D: Disk, C: Chare>(
    rt: &R,
    alloc: Global,
    script: &Script,
    disk: D,
    wanted: &Wanted,
    blanks: Vec<C>,
    events: &[Event],
    durable: Option<u64>,
) -> Result<bool, Refusal>
    requires legal { IsLegal (new_world (arrays_of script.now)) 0 events.now }
    ensures ok { IfOk result (IsJudged D.Disk script.now (count_of C.state blanks.items) disk
        events.now durable) }
    ensures enough { IfOk result (λ _.
        IsEnough (count_of C.state blanks.items) (blanks_in wanted.now)) }
    ensures sound { D.honest disk → IfOk result (λ bad. bad ≡ false → (n : ℕ) → durable ≡ Some n
        → IsLawful (new_world (arrays_of script.now)) 0 events.now n (bytes_on (D.file disk))) }
    ensures unmade { D.honest disk → IfOk result (λ bad. bad ≡ false → durable ≡ None →
        IsNothingOrLawful (arrays_of script.now) events.now (bytes_on (D.file disk))) }
    ensures files { D.honest disk → is_processor_count (processors_of script.now) ≡ true →
        IfOk result (λ bad. (bad ≡ false) ↔ AreGood (arrays_of script.now) events.now durable
        (count_of C.state blanks.items) (bytes_on (D.file disk))) }
    ensures err { IfErr result (IsNotTried D.Disk script.now (count_of C.state blanks.items)
        (blanks_in wanted.now) disk) }
{
    let Ok(stock) = stock_from_objects(alloc, blanks) else {
        return Err(Refusal::Memory);
    };
    if let Some(lack) = lacking(&stock, wanted) {
        return Err(lack);
    }
    let mut answer = Engine::restart(rt, alloc, disk, stock, script.processors());
    lab_bad(alloc, script, &mut answer, events, durable)
}
