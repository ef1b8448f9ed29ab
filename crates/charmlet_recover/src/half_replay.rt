//! The replay of a half, by one worker or by several.

ghost use Rattle.std.specs.Prelude.{◌≡◌, ◌-◌, [], Err, IfErr, IfOk, length, true};
ghost use Rattle.charmlet_image.specs.Halves.{Open, Takes, found};
ghost use Rattle.charmlet_image.specs.Images.{Saved};
ghost use Rattle.charmlet_image.specs.Views.{HalfIs};
ghost use Rattle.charmlet_image.specs.declared.half.HalfView.TheVariants as views;
ghost use Rattle.charmlet_locate.specs.Locations.{is_processor_count};
ghost use Rattle.charmlet_record.specs.declared.reader.Fault as faults;
ghost use Rattle.charmlet_record.specs.declared.reader.ReadError.TheVariants.{Damaged};
ghost use Rattle.charmlet_recovery.specs.Blanks.{wanted};
ghost use Rattle.charmlet_recovery.specs.RestartLaws.{IsEnough};
ghost use Rattle.charmlet_recovery.specs.Restarts.{taken_refusal, wanted_of};
ghost use Rattle.charmlet_halves.specs.Found as surveys;
ghost use Rattle.charmlet_parallel_replay.specs.declared.log.replay_error.ReplayError.TheVariants.{OutOfBlanks, Read};
ghost use Rattle.charmlet_stock.specs.ByKind.{for_all};
ghost use Rattle.charmlet_stock.specs.Stock.{blanks_in, supplied_to};
ghost use Rattle.charmlet_store.specs.Store.{supplied_in};
ghost use Rattle.charmlet_replay.specs.Replayed.{IsFaultAt, IsOpenIn, IsReplayed};
ghost use Rattle.charmlet_replay.specs.Unused.{IsUnused};
ghost use Rattle.charmlet_recover.specs.Restart.{AnswersBy, IsSameStock, is_half_refusal, reopened_or_refused};

use crate::half::wanted_by_image;
use crate::lack::lacking;
use crate::readable::{refusal_of, replayable_half, test_blanks};
use charmlet_chare::Chare;
use charmlet_halves::Surveyed;
use charmlet_image::OpenHalf;
use charmlet_model::Refusal;
use charmlet_parallel_replay::{NotRepeated, ReplayError, replay_by};
use charmlet_record::ReadError;
use charmlet_replay::{NotReplayed, Replayed, replay};
use charmlet_stock::Stock;
use std::alloc::{AllocError, Global};
use std::thread::Threads;

/// Why a half didn't become a store again, and all blanks, in whatever state.
#[derive(Drop)]
pub(crate) struct NotReopened<C: Chare> {
    pub(crate) refusal: Refusal,
    pub(crate) blanks: Stock<C>,
}

/// Opens the store of a surveyed half, by one worker or by several: by several if [`is_shared`]
/// says so.
///
/// `BlanksWanted` with the least kind that has too few blanks, and how many of it the half needs in
/// all; `Damaged` at the first byte of the first record that can't be; `Memory`.
pub(crate) fn replay_half<R: Threads + Sync, C: Chare>(
    rt: &R,
    alloc: Global,
    survey: &Surveyed,
    blanks: Stock<C>,
    processors: u16,
    workers: u16,
) -> Result<Replayed<C>, NotReopened<C>>
    requires reads { surveys.Reads survey.now }
    requires processors { is_processor_count processors ≡ true }
    requires workers { is_processor_count workers ≡ true }
    requires unused { IsUnused blanks }
    ensures answer { (s : Saved) → found survey.now.bytes.items ≡ Open s → AnswersBy
        (taken_refusal (blanks_in blanks) (Takes survey.now.half s))
        (reopened_or_refused result) }
    ensures ok { (s : Saved) → found survey.now.bytes.items ≡ Open s →
        IfOk result (IsReplayed processors (blanks_in blanks) s) }
    ensures supplied { IfOk result (λ back. supplied_in back.store ≡ supplied_to blanks) }
    ensures keeping { IfOk result (λ back. back.store.keeping ≡ for_all true) }
    ensures err { IfErr result (λ refused. is_half_refusal refused.refusal ≡ true) }
    ensures back { IfErr result (λ refused. IsSameStock blanks refused.blanks) }
{
    let Ok(half) = survey.reread(alloc) else {
        let refusal = Refusal::Memory;
        return Err(NotReopened { refusal, blanks });
    };
    match is_shared(alloc, survey.bytes.as_slice(), &half, &blanks, workers) {
        Ok(true) => replay_shared(rt, alloc, survey, half, blanks, processors, workers),
        Ok(false) => replay_alone(alloc, survey, half, blanks, processors),
        Err(AllocError) => {
            let refusal = Refusal::Memory;
            Err(NotReopened { refusal, blanks })
        }
    }
}

/// Whether several workers are to restore a half with these bytes: there are several, there is a
/// delivery to repeat, and the blanks suffice for its image. It fails only when out of memory.
fn is_shared<C: Chare>(
    alloc: Global,
    bytes: &[u8],
    half: &OpenHalf<'_>,
    blanks: &Stock<C>,
    workers: u16,
) -> Result<bool, AllocError>
    requires { HalfIs bytes.now (views.Open half.now) }
    ensures half { (s : Saved) → found bytes.now ≡ Open s → IsOpenIn bytes.now s half.now }
    ensures enough { (s : Saved) → found bytes.now ≡ Open s → IfOk result (λ is_shared.
        is_shared ≡ true → IsEnough (blanks_in blanks.now) (wanted s.image [])) }
{
    if workers == 1 || half.log.events == 0 && half.image.caught_up.is_empty() {
        return Ok(false);
    }
    let by_image = wanted_by_image(alloc, bytes, half)?;
    Ok(lacking(blanks, &by_image).is_none())
}

/// Opens the store of a half, by one worker, as [`replay`] does, which keeps no event until the
/// others are read. It counts the blanks that the half needs before. The refusals are those of
/// [`replay_half`].
fn replay_alone<C: Chare>(
    alloc: Global,
    survey: &Surveyed,
    half: OpenHalf<'_>,
    blanks: Stock<C>,
    processors: u16,
) -> Result<Replayed<C>, NotReopened<C>>
    requires reads { surveys.Reads survey.now }
    requires half { HalfIs survey.now.bytes.items (views.Open half) }
    requires processors { is_processor_count processors ≡ true }
    requires unused { IsUnused blanks }
    ensures answer { (s : Saved) → found survey.now.bytes.items ≡ Open s → AnswersBy
        (taken_refusal (blanks_in blanks) (Takes survey.now.half s))
        (reopened_or_refused result) }
    ensures ok { (s : Saved) → found survey.now.bytes.items ≡ Open s →
        IfOk result (IsReplayed processors (blanks_in blanks) s) }
    ensures supplied { IfOk result (λ back. supplied_in back.store ≡ supplied_to blanks) }
    ensures keeping { IfOk result (λ back. back.store.keeping ≡ for_all true) }
    ensures err { IfErr result (λ refused. is_half_refusal refused.refusal ≡ true) }
    ensures back { IfErr result (λ refused. IsSameStock blanks refused.blanks) }
{
    if let Err(refusal) = test_blanks(alloc, survey.bytes.as_slice(), &half, &blanks) {
        return Err(NotReopened { refusal, blanks });
    }
    match replay(alloc, half, blanks, processors) {
        Ok(replayed) => Ok(replayed),
        Err(NotReplayed { why, blanks }) => Err(NotReopened {
            refusal: refusal_of(survey.half, survey.bytes.as_slice(), why),
            blanks,
        }),
    }
}

/// Opens the store of a half, by several workers, as [`replay_by`] does. There have to be enough
/// blanks for its image. Those that its log needs are counted only if the workers don't reach its
/// end. The refusals are those of [`replay_half`].
fn replay_shared<R: Threads + Sync, C: Chare>(
    rt: &R,
    alloc: Global,
    survey: &Surveyed,
    half: OpenHalf<'_>,
    blanks: Stock<C>,
    processors: u16,
    workers: u16,
) -> Result<Replayed<C>, NotReopened<C>>
    requires reads { surveys.Reads survey.now }
    requires half { (s : Saved) → found survey.now.bytes.items ≡ Open s →
        IsOpenIn survey.now.bytes.items s half
        × IsEnough (blanks_in blanks) (wanted s.image []) }
    requires processors { is_processor_count processors ≡ true }
    requires workers { is_processor_count workers ≡ true }
    requires unused { IsUnused blanks }
    ensures answer { (s : Saved) → found survey.now.bytes.items ≡ Open s → AnswersBy
        (taken_refusal (blanks_in blanks) (Takes survey.now.half s))
        (reopened_or_refused result) }
    ensures ok { (s : Saved) → found survey.now.bytes.items ≡ Open s →
        IfOk result (IsReplayed processors (blanks_in blanks) s) }
    ensures supplied { IfOk result (λ back. supplied_in back.store ≡ supplied_to blanks) }
    ensures keeping { IfOk result (λ back. back.store.keeping ≡ for_all true) }
    ensures err { IfErr result (λ refused. is_half_refusal refused.refusal ≡ true) }
    ensures back { IfErr result (λ refused. IsSameStock blanks refused.blanks) }
{
    match replay_by(rt, alloc, half, blanks, processors, workers) {
        Ok(replayed) => Ok(replayed),
        Err(NotRepeated { why, blanks }) => {
            let refusal = refusal_after(alloc, survey, &blanks, why);
            Err(NotReopened { refusal, blanks })
        }
    }
}

/// The refusal of a half that workers didn't restore with these blanks: `BlanksWanted` if they
/// don't suffice for it, since that comes before a faulty record; `Damaged`; `Memory`.
fn refusal_after<C: Chare>(
    alloc: Global,
    survey: &Surveyed,
    blanks: &Stock<C>,
    why: ReplayError,
) -> Refusal
    requires reads { surveys.Reads survey.now }
    requires fault { (s : Saved) → found survey.now.bytes.items ≡ Open s →
        (fault : faults.Fault) → why ≡ Read (Damaged fault) →
        IsFaultAt s (length survey.now.bytes.items - fault.bytes_left) }
    requires lack { (s : Saved) → found survey.now.bytes.items ≡ Open s → why ≡ OutOfBlanks →
        IsEnough (blanks_in blanks.now) (wanted_of s) → ⊥ }
    ensures answer { (s : Saved) → found survey.now.bytes.items ≡ Open s →
        AnswersBy {X = Unit {0}} (taken_refusal (blanks_in blanks.now)
        (Takes survey.now.half s)) (Err result) }
    ensures known { is_half_refusal result ≡ true }
{
    if let ReplayError::Read(ReadError::Memory) = why {
        return Refusal::Memory;
    }
    match replayable_half(alloc, survey, blanks) {
        Err(refusal) => refusal,
        Ok(_enough) => match why {
            ReplayError::Read(why) => refusal_of(survey.half, survey.bytes.as_slice(), why),
            ReplayError::OutOfBlanks => unreachable!(),
        },
    }
}
