//! Resumption of restored stores in their halves.

ghost use Rattle.std.specs.Prelude.{◌≡◌, ◌≢◌, false, true, IfErr, IfOk};
ghost use Rattle.charmlet_model.specs.declared.refusal.Refusal.TheVariants as refusals;
ghost use Rattle.charmlet_disk.specs.Calls.{AfterCall};
ghost use Rattle.charmlet_disk.specs.Disk.{IsSettled, LeavesOnly};
ghost use Rattle.charmlet_disk.specs.File.{MayLeave, CrashBytes};
ghost use Rattle.charmlet_halves.specs.Answers.{is_no_failure};
ghost use Rattle.charmlet_halves.specs.Halves.{disk_of};
ghost use Rattle.charmlet_history.specs.Kept.{core_in};
ghost use Rattle.charmlet_persist.specs.Writes.Rest.{GoesOn, HasOldOrSealed, IsCurrent, IsKept};
ghost use Rattle.charmlet_stock.specs.ByKind.{for_all};
ghost use Rattle.charmlet_stock.specs.Stock.{supplied_to};
ghost use Rattle.charmlet_store.specs.Store.{blanks_of, supplied_in};
ghost use Rattle.charmlet_replay.specs.Unused.{IsUnused};
ghost use Rattle.charmlet_recover.specs.Restart.{AnswersBy};
ghost use Rattle.charmlet_engine.specs.Engine.{HasImage, core_of, supplied_of, view_of};
ghost use Rattle.charmlet_engine.specs.Outcomes.{is_lawful_now};
ghost use Rattle.charmlet_engine.specs.Restarted.{CameBackOn, IsOpenedOn, core_or_refusal, disk_after, going_refusal, gone_on};

use crate::engine::Engine;
use charmlet_chare::Chare;
use charmlet_disk::Disk;
use charmlet_halves::Halves;
use charmlet_persist::checkpoint;
use charmlet_recover::NotRestarted;
use charmlet_replay::take_back;
use charmlet_store::Store;

/// Resumes a store that was just restored in its halves; from now on its stock drops retired
/// objects. If the taken half is current, nothing is written; otherwise an image of the store is
/// written, and replaces it as that of [`checkpoint`] does.
///
/// Then the refusals are `Memory`, `ImageFull` and `Device` as there; and the disk comes back, with
/// all objects as blanks, in whatever state.
pub(crate) fn resume<D: Disk, C: Chare>(
    mut store: Store<C>,
    halves: Halves<D>,
    is_current: bool,
) -> Result<Engine<D, C>, NotRestarted<D, C>>
    requires opens { IsOpenedOn (core_in store.history).processors (core_in store.history) }
    requires keeping { store.keeping ≡ for_all true }
    requires goes_on { GoesOn (core_in store.history) halves }
    requires keeps { D.honest (disk_of halves) → IsKept (core_in store.history) halves }
    requires current { D.honest (disk_of halves) → is_current ≡ true → IsCurrent halves }
    ensures core { IfOk result (λ engine. core_of engine
        ≡ gone_on is_current (core_in store.history)) }
    ensures blanks { IfOk result (λ engine. (view_of engine).blanks ≡ blanks_of store) }
    ensures supplied { IfOk result (λ engine. supplied_of engine ≡ supplied_in store) }
    ensures stays { is_current ≡ true → CameBackOn halves result }
    ensures image { D.honest (disk_of halves) → is_current ≡ false →
        IfOk result (λ engine. HasImage D.Disk engine) }
    ensures now { D.honest (disk_of halves) → IfOk result (λ engine. (outcome : CrashBytes) →
        MayLeave (D.file engine.disk) outcome → is_lawful_now (core_of engine) outcome) }
    ensures settled { D.honest (disk_of halves) → IfOk result (λ engine.
        IsSettled (D.file engine.disk)) }
    ensures answer { AnswersBy (going_refusal is_current (core_in store.history))
        (core_or_refusal result) }
    ensures back { IfErr result (λ refused. IsUnused refused.blanks) }
    ensures kept { IfErr result (λ refused. supplied_to refused.blanks ≡ supplied_in store) }
    ensures refused { IfErr result (λ refused. refused.refusal ≢ refusals.Device →
        refused.disk ≡ disk_of halves) }
    ensures stored { D.honest (disk_of halves) → is_current ≡ false → LeavesOnly D.moment D.since
        (disk_of halves) (disk_after result) (HasOldOrSealed (core_in store.history)) }
    ensures disk { AfterCall D.Disk (disk_of halves) (disk_after result)
        (is_no_failure (core_or_refusal result)) }
{
    if is_current {
        store.drop_retired();
        return Ok(Engine { store, halves });
    }
    renew(store, halves)
}

/// Resumes a store in an image of itself, of the next generation, which is written to the spare
/// half and replaces it. The refusals, and what comes back then, are those of [`resume`].
fn renew<D: Disk, C: Chare>(
    mut store: Store<C>,
    mut halves: Halves<D>,
) -> Result<Engine<D, C>, NotRestarted<D, C>>
    requires opens { IsOpenedOn (core_in store.history).processors (core_in store.history) }
    requires keeping { store.keeping ≡ for_all true }
    requires goes_on { GoesOn (core_in store.history) halves }
    requires keeps { D.honest (disk_of halves) → IsKept (core_in store.history) halves }
    ensures core { IfOk result (λ engine. core_of engine
        ≡ gone_on false (core_in store.history)) }
    ensures blanks { IfOk result (λ engine. (view_of engine).blanks ≡ blanks_of store) }
    ensures supplied { IfOk result (λ engine. supplied_of engine ≡ supplied_in store) }
    ensures image { D.honest (disk_of halves) → IfOk result (λ engine. HasImage D.Disk engine) }
    ensures now { D.honest (disk_of halves) → IfOk result (λ engine. (outcome : CrashBytes) →
        MayLeave (D.file engine.disk) outcome → is_lawful_now (core_of engine) outcome) }
    ensures settled { D.honest (disk_of halves) → IfOk result (λ engine.
        IsSettled (D.file engine.disk)) }
    ensures answer { AnswersBy (going_refusal false (core_in store.history))
        (core_or_refusal result) }
    ensures back { IfErr result (λ refused. IsUnused refused.blanks) }
    ensures kept { IfErr result (λ refused. supplied_to refused.blanks ≡ supplied_in store) }
    ensures refused { IfErr result (λ refused. refused.refusal ≢ refusals.Device →
        refused.disk ≡ disk_of halves) }
    ensures stored { D.honest (disk_of halves) → LeavesOnly D.moment D.since (disk_of halves)
        (disk_after result) (HasOldOrSealed (core_in store.history)) }
    ensures disk { AfterCall D.Disk (disk_of halves) (disk_after result)
        (is_no_failure (core_or_refusal result)) }
{
    let shelves = store.shelves.as_mut_slice();
    let taken = checkpoint(store.alloc, &mut store.history, &mut halves, shelves);
    match taken {
        Ok(_) => {
            store.drop_retired();
            Ok(Engine { store, halves })
        }
        Err(refusal) => Err(NotRestarted {
            refusal,
            disk: halves.into_disk(),
            blanks: take_back(store),
        }),
    }
}
