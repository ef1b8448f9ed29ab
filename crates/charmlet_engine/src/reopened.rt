//! Restored stores that don't go on in their files yet.

ghost use Rattle.std.specs.Prelude.{◌≡◌, ◌≢◌, ℕ, true, Err, IfErr, IfOk};
ghost use Rattle.charmlet_model.specs.declared.refusal.Refusal.TheVariants as refusals;
ghost use Rattle.charmlet_disk.specs.Calls.{AfterCall, IsUnwritten};
ghost use Rattle.charmlet_halves.specs.Answers.{is_no_failure};
ghost use Rattle.charmlet_stock.specs.declared.stock.Stock as stocks;
ghost use Rattle.charmlet_replay.specs.Unused.{IsUnused};
ghost use Rattle.charmlet_recover.specs.Restart.{is_restart_refusal};
ghost use Rattle.charmlet_engine.specs.Constructions.{AreConstructions};
ghost use Rattle.charmlet_engine.specs.Engine.{core_of};
ghost use Rattle.charmlet_engine.specs.Restarted.{IsOpenedOn, core_or_refusal, disk_after};
ghost use Rattle.charmlet_engine.specs.Reopened.{IsReopened, IsRestart, core_to_be, is_going_refusal};

use crate::constructions::constructions_in;
use crate::engine::Engine;
use crate::resumption::resume;
use charmlet_chare::Chare;
use charmlet_disk::Disk;
use charmlet_model::Refusal;
use charmlet_recover::{NotRestarted, Recovered, Wanted, restart};
use charmlet_replay::take_back;
use charmlet_stock::Stock;
use std::alloc::Global;
use std::marker::Model;
use std::thread::Threads;

/// A restored store that doesn't go on in its files yet: the first half of [`Engine::restart`],
/// which writes nothing. So a caller may take memory, or pick what depends on the store, between
/// this and [`Reopened::resume`]; if that is refused, the files are unchanged. A contract sees the
/// restored store.
#[derive(Drop)]
pub struct Reopened<D: Disk, C: Chare> {
    back: Recovered<D, C>,
}

impl<D: Disk, C: Chare> Model for Reopened<D, C> {
    ghost use Rattle.charmlet_engine.specs.Reopened.{IsWaiting, ReopenedShown, shown_in};

    ghost Value = { ReopenedShown D };

    ghost view = { λ r. shown_in r.back };

    ghost invariant = { λ r. IsWaiting r.back };
}

impl<D: Disk, C: Chare> Reopened<D, C> {
    /// Reads the store of a disk, whatever a crash left there, for this number of processors, with
    /// objects made of these blanks, of which none may have been used yet. Both halves are synced
    /// before they are read, and nothing is written.
    ///
    /// The refusals are in their order those of [`charmlet_recover::restart`]: `BadPes`, `Device`,
    /// `Damaged`, `NothingHere`, `BlanksWanted` and `Memory`. Each has all the promises of the same
    /// refusal of [`Engine::restart`], and hands the disk and all blanks back, these in whatever
    /// state.
    pub fn from_disk<R: Threads + Sync>(
        rt: &R,
        alloc: Global,
        disk: D,
        blanks: Stock<C>,
        processors: u16,
    ) -> Result<Self, NotRestarted<D, C>>
        requires unused { IsUnused blanks }
        ensures ok { IfOk result (IsReopened D.Disk processors blanks disk) }
        ensures err { IfErr result (λ refused. is_restart_refusal refused.refusal ≡ true) }
        ensures refused { IfErr result (λ refused.
            IsRestart D.Disk processors blanks disk (Err refused)) }
        ensures unwritten { D.honest disk → IfErr result (λ refused.
            IsUnwritten D.Disk disk refused.disk) }
    {
        match restart(rt, alloc, disk, blanks, processors) {
            Ok(back) => Ok(Reopened { back }),
            Err(refused) => Err(refused),
        }
    }

    /// The generation at which the store goes on: that of its half, or the next one if an image is
    /// wanted.
    pub fn generation(&self) -> u64
        ensures { result ≡ (core_to_be self.now).generation }
    {
        let history = &self.back.store.history;
        history.facts();
        let generation = history.generation();
        if self.back.is_current {
            generation
        } else {
            generation + 1
        }
    }

    /// How many events the restored store has.
    pub fn event_count(&self) -> u64
        ensures { result ≡ (core_to_be self.now).before }
    {
        self.back.store.history.event_count()
    }

    /// How many blanks of each kind the pending messages want: those that construct an element that
    /// isn't there. It takes no memory.
    pub fn constructions(&self) -> Wanted
        ensures { AreConstructions (core_to_be self.now) result }
    {
        constructions_in(&self.back.store.history)
    }

    /// How many processors there are, 1 to 64.
    pub fn processors(&self) -> u16
        ensures { result ≡ (core_to_be self.now).processors }
    {
        self.back.store.history.facts();
        self.back.store.shelves.len() as u16
    }

    /// Goes on with the store in its files: the second half of [`Engine::restart`], with all
    /// promises of a restart from the disk from which it was read. If its half is current, nothing
    /// is written; otherwise an image of it is written, and replaces it.
    ///
    /// `Memory`; `ImageFull` if the image's generation would be past 2^40 or its file past 2^31
    /// bytes; and `Device`. Each hands the disk and all blanks back, and except for `Device` the
    /// disk is unchanged.
    pub fn resume(self) -> Result<Engine<D, C>, NotRestarted<D, C>>
        ensures core { IfOk result (λ engine. core_of engine ≡ core_to_be self) }
        ensures opens { IfOk result (λ engine.
            IsOpenedOn (core_of engine).processors (core_of engine)) }
        ensures err { IfErr result (λ refused. is_going_refusal refused.refusal ≡ true) }
        ensures same { IfErr result (λ refused. refused.refusal ≢ refusals.Device →
            refused.disk ≡ self.disk) }
        ensures restarts { (processors : ℕ) (blanks : stocks.Stock C C.Chare) (first : D) →
            IsReopened D.Disk processors blanks first self →
            IsRestart D.Disk processors blanks first result }
        ensures disk { AfterCall D.Disk self.disk (disk_after result)
            (is_no_failure (core_or_refusal result)) }
    {
        let Recovered {
            store,
            halves,
            is_current,
        } = self.back;
        resume(store, halves, is_current)
    }

    /// Gives the store up if memory is lacking for something else, as a restart that is refused
    /// `Memory`. The disk comes back unchanged, and all blanks come back, in whatever state.
    pub fn into_refused(self) -> NotRestarted<D, C>
        ensures memory { result.refusal ≡ refusals.Memory }
        ensures same { result.disk ≡ self.disk }
        ensures restarts { (processors : ℕ) (blanks : stocks.Stock C C.Chare) (first : D) →
            IsReopened D.Disk processors blanks first self →
            IsRestart D.Disk processors blanks first (Err result) }
    {
        let Recovered { store, halves, .. } = self.back;
        NotRestarted {
            refusal: Refusal::Memory,
            disk: halves.into_disk(),
            blanks: take_back(store),
        }
    }
}
