//! Restarts from two halves.

ghost use Rattle.std.specs.Prelude.{◌≡◌, ℕ, List, true, false, IfErr, IfOk};
ghost use Rattle.charmlet_model.specs.declared.event.Event.{Event};
ghost use Rattle.charmlet_model.specs.World.{World};
ghost use Rattle.charmlet_image.specs.Halves.{Open, Takes, found};
ghost use Rattle.charmlet_image.specs.Images.{Saved};
ghost use Rattle.charmlet_recovery.specs.Outcomes.{IsLawful};
ghost use Rattle.charmlet_recovery.specs.Restarts.{restart_refusal, taken_refusal};
ghost use Rattle.charmlet_disk.specs.Calls.{AfterCall};
ghost use Rattle.charmlet_halves.specs.Answers.{is_no_failure};
ghost use Rattle.charmlet_halves.specs.Found.{Reads};
ghost use Rattle.charmlet_halves.specs.Halves.{disk_of};
ghost use Rattle.charmlet_locate.specs.Locations.{is_processor_count};
ghost use Rattle.charmlet_stock.specs.ByKind.{for_all};
ghost use Rattle.charmlet_stock.specs.Stock.{blanks_in, keeping_of, supplied_to};
ghost use Rattle.charmlet_store.specs.Store.{supplied_in};
ghost use Rattle.charmlet_replay.specs.Replayed.{IsReplayed};
ghost use Rattle.charmlet_replay.specs.Unused.{IsUnused};
ghost use Rattle.charmlet_recover.specs.Restart.{AnswersAfterCrash, AnswersBy, CameBack, CameFromFiles, IsHandedBack, IsRefused, IsSameStock, LeavesSynced, are_counts, bytes_on, disk_after, is_after_sync, is_half_refusal, replayed_in, restarted_or_refused};

use crate::half_replay::{NotReopened, replay_half};
use crate::settled::open_settled;
use charmlet_chare::Chare;
use charmlet_disk::Disk;
use charmlet_halves::{Halves, Opened, Refused};
use charmlet_locate::is_processor_count;
use charmlet_model::Refusal;
use charmlet_replay::Replayed;
use charmlet_stock::Stock;
use charmlet_store::Store;
use std::alloc::Global;
use std::error::Error;
use std::fmt;
use std::thread::Threads;

/// A restored store, and the two halves of its disk.
#[derive(Drop)]
pub struct Recovered<D: Disk, C: Chare> {
    pub store: Store<C>,
    pub halves: Halves<D>,
    /// Whether the taken half has its kinds only in their newest versions, so that events may be
    /// appended to its log. Otherwise an image of the store has to replace it first.
    pub is_current: bool,
}

/// Why no store was restored, with the disk and the blanks that were handed in, these in whatever
/// state.
#[derive(Drop)]
pub struct NotRestarted<D: Drop, C: Chare> {
    pub refusal: Refusal,
    pub disk: D,
    pub blanks: Stock<C>,
}

/// Writes the refusal.
impl<D: Drop, C: Chare> fmt::Display for NotRestarted<D, C> {
    ghost use Rattle.std.specs.Prelude.{Some};
    ghost use Rattle.charmlet_model.specs.Texts.{refusal_text};

    ghost output = { λ refused. Some (refusal_text refused.refusal) };

    fn fmt<W: fmt::Write>(&self, f: &mut fmt::Formatter<W>) -> fmt::Result {
        let refusal = self.refusal;
        write!(f, "{refusal}")
    }
}

impl<D: Drop, C: Chare> fmt::Debug for NotRestarted<D, C> {
    fn fmt<W: fmt::Write>(&self, f: &mut fmt::Formatter<W>) -> fmt::Result {
        let refusal = self.refusal;
        write!(f, "NotRestarted {refusal}")
    }
}

/// An error with the refusal's text, so that `?` works for callers that want the text alone.
impl<D: Drop, C: Chare> Error for NotRestarted<D, C> {}

/// Reopens the store of two halves, on this number of processors, as [`restart_by`] does with as
/// many workers.
pub fn restart<R: Threads + Sync, D: Disk, C: Chare>(
    rt: &R,
    alloc: Global,
    disk: D,
    blanks: Stock<C>,
    processors: u16,
) -> Result<Recovered<D, C>, NotRestarted<D, C>>
    requires unused { IsUnused blanks }
    ensures ok { IfOk result (CameBack processors (blanks_in blanks) (supplied_to blanks)) }
    ensures files { D.honest disk → IfOk result
        (CameFromFiles (blanks_in blanks) (bytes_on (D.file disk))) }
    ensures lawful { D.honest disk → (w : World) (before : ℕ) (history : List Event)
        (durable : ℕ) → IsLawful w before history durable (bytes_on (D.file disk)) →
        AnswersAfterCrash w before history durable (restarted_or_refused result) }
    ensures answer { D.honest disk → is_processor_count processors ≡ true →
        AnswersBy (restart_refusal (blanks_in blanks) (bytes_on (D.file disk)))
        (restarted_or_refused result) }
    ensures bad { is_processor_count processors ≡ false → IsHandedBack disk blanks result }
    ensures err { IfErr result (IsRefused (is_processor_count processors) blanks) }
    ensures leaves { D.honest disk → LeavesSynced D.Disk disk (disk_after result)
        (is_after_sync (restarted_or_refused result)) }
    ensures disk { AfterCall D.Disk disk (disk_after result)
        (is_no_failure (restarted_or_refused result)) }
{
    restart_by(rt, alloc, disk, blanks, processors, processors)
}

/// Reopens the store of two halves, on this number of processors, by `workers` workers, with
/// objects made of these blanks. None of the blanks may have been used yet: they are a stock to
/// which they were supplied, or one that was handed back here. The workers replay the log object by
/// object, in threads; the result is the same whatever their number. Both halves are synced before
/// they are read, and nothing is written. The store goes on in the newest versions of its kinds,
/// whichever versions the half has. Blanks that it doesn't need are its stock, which keeps retired
/// objects until it is told to drop them.
///
/// The refusals, in their order: `BadPes` if there aren't 1 to 64 processors and 1 to 64 workers,
/// before anything is synced or read; `Device`; `Damaged` at the first field that breaks the
/// format, and `NothingHere` if neither half is open; `BlanksWanted` with the least kind that has
/// too few blanks, and how many of it are wanted in all; `Damaged` at the first byte of the first
/// record that can't be; `Memory`, wherever a growth is refused. Each hands the disk and all blanks
/// back, these in whatever state, so that the caller may try again.
pub fn restart_by<R: Threads + Sync, D: Disk, C: Chare>(
    rt: &R,
    alloc: Global,
    disk: D,
    blanks: Stock<C>,
    processors: u16,
    workers: u16,
) -> Result<Recovered<D, C>, NotRestarted<D, C>>
    requires unused { IsUnused blanks }
    ensures ok { IfOk result (CameBack processors (blanks_in blanks) (supplied_to blanks)) }
    ensures files { D.honest disk → IfOk result
        (CameFromFiles (blanks_in blanks) (bytes_on (D.file disk))) }
    ensures lawful { D.honest disk → (w : World) (before : ℕ) (history : List Event)
        (durable : ℕ) → IsLawful w before history durable (bytes_on (D.file disk)) →
        AnswersAfterCrash w before history durable (restarted_or_refused result) }
    ensures answer { D.honest disk → are_counts processors workers ≡ true →
        AnswersBy (restart_refusal (blanks_in blanks) (bytes_on (D.file disk)))
        (restarted_or_refused result) }
    ensures bad { are_counts processors workers ≡ false → IsHandedBack disk blanks result }
    ensures err { IfErr result (IsRefused (are_counts processors workers) blanks) }
    ensures leaves { D.honest disk → LeavesSynced D.Disk disk (disk_after result)
        (is_after_sync (restarted_or_refused result)) }
    ensures disk { AfterCall D.Disk disk (disk_after result)
        (is_no_failure (restarted_or_refused result)) }
{
    if !are_counts(processors, workers) {
        let refusal = Refusal::BadPes;
        return Err(NotRestarted {
            refusal,
            disk,
            blanks,
        });
    }
    match open_settled(alloc, disk) {
        Ok(opened) => restart_from(rt, alloc, opened, blanks, processors, workers),
        Err(Refused { refusal, disk }) => Err(NotRestarted {
            refusal,
            disk,
            blanks,
        }),
    }
}

/// Whether a store can have this many processors, and be restored by this many workers.
fn are_counts(processors: u16, workers: u16) -> bool
    ensures { result ≡ are_counts processors workers }
{
    is_processor_count(processors) && is_processor_count(workers)
}

/// Reopens the store of opened halves. The refusals are those of [`replay_half`].
fn restart_from<R: Threads + Sync, D: Disk, C: Chare>(
    rt: &R,
    alloc: Global,
    opened: Opened<D>,
    blanks: Stock<C>,
    processors: u16,
    workers: u16,
) -> Result<Recovered<D, C>, NotRestarted<D, C>>
    requires reads { Reads opened.survey }
    requires processors { is_processor_count processors ≡ true }
    requires workers { is_processor_count workers ≡ true }
    requires unused { IsUnused blanks }
    ensures disk { disk_after result ≡ disk_of opened.halves }
    ensures halves { IfOk result (λ back. back.halves ≡ opened.halves) }
    ensures answer { (s : Saved) → found opened.survey.bytes.items ≡ Open s → AnswersBy
        (taken_refusal (blanks_in blanks) (Takes opened.survey.half s))
        (restarted_or_refused result) }
    ensures ok { (s : Saved) → found opened.survey.bytes.items ≡ Open s → IfOk result
        (λ back. IsReplayed processors (blanks_in blanks) s (replayed_in back)) }
    ensures supplied { IfOk result (λ back. supplied_in back.store ≡ supplied_to blanks) }
    ensures keeping { IfOk result (λ back. back.store.keeping ≡ for_all true) }
    ensures err { IfErr result (λ refused. is_half_refusal refused.refusal ≡ true) }
    ensures back { IfErr result (λ refused. IsSameStock blanks refused.blanks) }
{
    let Opened { halves, survey } = opened;
    match replay_half(rt, alloc, &survey, blanks, processors, workers) {
        Ok(Replayed { store, is_current }) => Ok(Recovered {
            store,
            halves,
            is_current,
        }),
        Err(NotReopened { refusal, blanks }) => Err(NotRestarted {
            refusal,
            disk: halves.into_disk(),
            blanks,
        }),
    }
}
