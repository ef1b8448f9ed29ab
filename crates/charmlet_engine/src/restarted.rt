//! Restarts of engines.

ghost use Rattle.std.specs.Prelude.{◌≡◌, ℕ, List, false, true, IfErr, IfOk};
ghost use Rattle.charmlet_model.specs.declared.event.Event.{Event};
ghost use Rattle.charmlet_model.specs.Core.{Core};
ghost use Rattle.charmlet_model.specs.Sound.{IsSound};
ghost use Rattle.charmlet_model.specs.World.{World};
ghost use Rattle.charmlet_disk.specs.Calls.{AfterCall};
ghost use Rattle.charmlet_halves.specs.Answers.{is_no_failure};
ghost use Rattle.charmlet_locate.specs.Locations.{is_processor_count};
ghost use Rattle.charmlet_recovery.specs.Outcomes.{IsLawful};
ghost use Rattle.charmlet_recovery.specs.Restarts.{engine_refusal};
ghost use Rattle.charmlet_stock.specs.Stock.{blanks_in, supplied_to};
ghost use Rattle.charmlet_replay.specs.Unused.{IsUnused};
ghost use Rattle.charmlet_recover.specs.Restart.{AnswersBy, bytes_on};
ghost use Rattle.charmlet_engine.specs.Engine.{core_of};
ghost use Rattle.charmlet_engine.specs.Lives.{ComesBack, Past, Remembers};
ghost use Rattle.charmlet_engine.specs.Outcomes.{Onward, is_lawful_since};
ghost use Rattle.charmlet_engine.specs.Restarted.{AnswersAfterCrash, CameBack, CameFromFiles, IsHandedBack, IsRefused, LeavesTaken, core_or_refusal, disk_after};

use crate::engine::Engine;
use crate::reopened::Reopened;
use charmlet_chare::Chare;
use charmlet_disk::Disk;
use charmlet_recover::NotRestarted;
use charmlet_stock::Stock;
use std::alloc::Global;
use std::thread::Threads;

impl<D: Disk, C: Chare> Engine<D, C> {
    /// Restarts the store of a disk, whatever a crash left there, on this number of processors:
    /// each element is on its home, nothing has happened since, and each event is durable. Its
    /// objects are made of these blanks, of which none may have been used yet; blanks that it
    /// doesn't need are its stock, which drops retired objects. Both halves are synced before they
    /// are read. The log is replayed by as many workers as there are processors, in threads.
    ///
    /// If the taken half has its kinds only in their newest versions, nothing is written. Otherwise
    /// the store goes on in the newest versions: an image of it, of the next generation, is written
    /// to the other half and replaces the store, as the image of a checkpoint does. Before its gate
    /// is opened a crash leaves the half that was read, and afterwards the image. The files recover
    /// to the same world either way, so nothing is lost at any moment. It can be undone only from a
    /// copy of the folder.
    ///
    /// The call is [`Reopened::from_disk`] and then [`Reopened::resume`].
    ///
    /// After a crash at any moment of an earlier engine on this disk, the store opens with the
    /// world after some of what had happened, including everything that was durable. What clients
    /// were told before the crash, in any life of the store, is true of it.
    ///
    /// The refusals are in their order those of [`charmlet_recover::restart`], which are `BadPes`,
    /// `Device`, `Damaged`, `NothingHere`, `BlanksWanted` and `Memory`; and then, if an image is
    /// wanted, `Memory`, `ImageFull` if its generation would be past 2^40 or its file past 2^31
    /// bytes, and `Device`. Each hands the disk and all blanks back, these in whatever state, so
    /// that the caller may try again. Except for `Device` nothing is written. After a crash of an
    /// earlier engine the files alone are never the cause of a refusal, except of `ImageFull`.
    pub fn restart<R: Threads + Sync>(
        rt: &R,
        alloc: Global,
        disk: D,
        blanks: Stock<C>,
        processors: u16,
    ) -> Result<Self, NotRestarted<D, C>>
        requires unused { IsUnused blanks }
        ensures ok { IfOk result (CameBack processors (blanks_in blanks) (supplied_to blanks)) }
        ensures files { D.honest disk → IfOk result
            (CameFromFiles D.Disk (blanks_in blanks) (bytes_on (D.file disk))) }
        ensures remembers { D.honest disk → (past : Past) (old new : Core) →
            Remembers past old → Onward old new → IsSound new →
            is_lawful_since old new (bytes_on (D.file disk)) →
            IfOk result (λ engine. ComesBack past old new (core_of engine)) }
        ensures lawful { D.honest disk → (w : World) (before : ℕ) (history : List Event)
            (durable : ℕ) → IsLawful w before history durable (bytes_on (D.file disk)) →
            AnswersAfterCrash w before history durable (bytes_on (D.file disk))
            (core_or_refusal result) }
        ensures answer { D.honest disk → is_processor_count processors ≡ true →
            AnswersBy (engine_refusal (blanks_in blanks) (bytes_on (D.file disk)))
            (core_or_refusal result) }
        ensures bad { is_processor_count processors ≡ false → IsHandedBack disk blanks result }
        ensures err { IfErr result (IsRefused processors blanks) }
        ensures leaves { D.honest disk → LeavesTaken D.Disk disk result }
        ensures disk { AfterCall D.Disk disk (disk_after result)
            (is_no_failure (core_or_refusal result)) }
    {
        match Reopened::from_disk(rt, alloc, disk, blanks, processors) {
            Ok(reopened) => reopened.resume(),
            Err(refused) => Err(refused),
        }
    }
}
