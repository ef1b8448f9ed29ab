//! Trials of all crashes of a script.

ghost use Rattle.std.specs.Prelude.{◌≡◌, ◌≤◌, ◌<◌, ◌+◌, ◌*◌, false, true, IfErr, IfOk};
ghost use Rattle.charmlet_lab.specs.Trials.{AreTried, ComesTo, Finds, IsNotFound, most_stops, places};

use crate::disks::LabDisk;
use crate::line::LabLine;
use crate::round::Round;
use crate::supplier::Supplier;
use crate::wanted::wanted_on;
use charmlet_disk::CrashChoice;
use charmlet_model::Refusal;
use charmlet_script::Script;
use std::alloc::Global;

/// The most stops that are tried.
const MOST_STOPS: u64 = 1 << 60;

/// An observer that is told the counts so far after each stop.
pub trait Watch {
    /// Is told the counts so far.
    fn tell(&mut self, line: &LabLine);
}

/// Tries the crashes of a script. It runs the script on new disks: the first fails at its first
/// write or sync, and each other one fails one call later than the one before, until a run isn't
/// stopped. For each stop and each choice there is a run of its own, then a crash, and a restart
/// from what the crash left, on the script's processors and with the blanks that are wanted.
/// Returns how many stops there were, how many restarts, and how many of these were bad: they gave
/// no world of the run with all durable events, or were refused, unless by `NothingHere` if the
/// store wasn't reported as made.
///
/// `BadPes` if the script's number of processors isn't 1 to 64; `BlanksWanted` if the supplier
/// brings too few blanks; `AlreadyHere` if a new disk isn't empty; `Device` if a disk fails after
/// its crash, and counts that failure; `ImageFull` if an image of a restarted store would pass a
/// limit; `Memory`. So a lack of memory counts neither as a run nor as a bad restart.
pub fn try_crashes<D: LabDisk, S: Supplier<D>, W: Watch>(
    alloc: Global,
    script: &Script,
    supplier: &S,
    watch: &mut W,
) -> Result<LabLine, Refusal>
    requires may { S.may_restart supplier.now }
    ensures ok { IfOk result (Finds D.Disk D.calls_left script.now) }
    ensures err { IfErr result (IsNotFound D.Disk script.now) }
{
    let mut line = LabLine {
        stops: 0,
        outcomes: 0,
        bad: 0,
    };
    for calls in 0..MOST_STOPS {
        if !try_stop::<D, S>(alloc, script, supplier, calls, &mut line)? {
            return Ok(line);
        }
        watch.tell(&line);
    }
    Ok(line)
}

/// Tries the crashes of one stop, and counts them. Returns `false` if a run isn't stopped, and then
/// tries no more.
fn try_stop<D: LabDisk, S: Supplier<D>>(
    alloc: Global,
    script: &Script,
    supplier: &S,
    calls: u64,
    line: &mut LabLine,
) -> Result<bool, Refusal>
    requires may { S.may_restart supplier.now }
    requires before { AreTried D.Disk D.calls_left script.now (places calls) line.old }
    requires stops { line.old.stops ≡ calls }
    requires few { calls < most_stops }
    requires room { line.old.outcomes ≤ 6 * calls }
    ensures stopped { IfOk result (λ stopped. stopped ≡ true →
        AreTried D.Disk D.calls_left script.now (places (calls + 1)) line.new
        × (line.new.stops ≡ calls + 1) × (line.new.outcomes ≤ 6 * (calls + 1))) }
    ensures ended { IfOk result (λ stopped. stopped ≡ false →
        Finds D.Disk D.calls_left script.now line.new) }
    ensures err { IfErr result (IsNotFound D.Disk script.now) }
{
    for choice in &CrashChoice::ALL {
        let Some(is_bad) = try_crash::<D, S>(alloc, script, supplier, calls, *choice)? else {
            return Ok(false);
        };
        line.count(is_bad);
    }
    line.stops += 1;
    Ok(true)
}

/// Whether the restart after a run and a crash is bad, if the disk of the run fails after `calls`
/// calls; `None` if the run isn't stopped.
fn try_crash<D: LabDisk, S: Supplier<D>>(
    alloc: Global,
    script: &Script,
    supplier: &S,
    calls: u64,
    choice: CrashChoice,
) -> Result<Option<bool>, Refusal>
    requires may { S.may_restart supplier.now }
    ensures ok { IfOk result (ComesTo D.Disk D.calls_left script.now (calls, choice)) }
    ensures err { IfErr result (IsNotFound D.Disk script.now) }
{
    let round = supplier.run(alloc, script, D::failing(alloc, calls))?;
    if !round.is_stopped {
        return Ok(None);
    }
    let Round {
        disk,
        events,
        durable,
        ..
    } = round;
    let mut disk = disk.crash(choice);
    let wanted = wanted_on(alloc, &mut disk)?;
    let is_bad = supplier.restart(alloc, script, disk, &wanted, &events, durable)?;
    Ok(Some(is_bad))
}
