//! Halves with enough blanks for a restart, and refusals of others.

ghost use Rattle.std.specs.Prelude.{◌≡◌, true, None, IfErr, IfOk, length};
ghost use Rattle.charmlet_image.specs.Halves.{Open, found};
ghost use Rattle.charmlet_image.specs.Images.{Saved};
ghost use Rattle.charmlet_image.specs.Views.{HalfIs};
ghost use Rattle.charmlet_image.specs.declared.half.HalfView.TheVariants as views;
ghost use Rattle.charmlet_recovery.specs.Blanks.{least_short};
ghost use Rattle.charmlet_recovery.specs.Restarts.{short_refusal, wanted_of};
ghost use Rattle.charmlet_halves.specs.Found as surveys;
ghost use Rattle.charmlet_stock.specs.Stock.{blanks_in};
ghost use Rattle.charmlet_replay.specs.Replayed.{IsOpenIn};
ghost use Rattle.charmlet_recover.specs.Restart.{AnswersBy, FaultIs, is_half_refusal};

use crate::half::wanted_in;
use crate::lack::lacking;
use charmlet_chare::Chare;
use charmlet_halves::Surveyed;
use charmlet_image::OpenHalf;
use charmlet_model::{Half, Refusal};
use charmlet_record::{Fault, ReadError};
use charmlet_stock::Stock;
use std::alloc::Global;

/// Tests whether these blanks suffice for an open half with these bytes. `BlanksWanted` names the
/// least kind that has too few, and how many of it the half needs in all; `Memory`.
pub(crate) fn test_blanks<C: Chare>(
    alloc: Global,
    bytes: &[u8],
    half: &OpenHalf<'_>,
    blanks: &Stock<C>,
) -> Result<(), Refusal>
    requires { HalfIs bytes.now (views.Open half.now) }
    ensures half { (s : Saved) → found bytes.now ≡ Open s → IsOpenIn bytes.now s half.now }
    ensures answer { (s : Saved) → found bytes.now ≡ Open s → AnswersBy
        (short_refusal (least_short (blanks_in blanks.now) (wanted_of s)) None) result }
    ensures err { IfErr result (λ refusal. is_half_refusal refusal ≡ true) }
{
    let wanted = wanted_in(alloc, bytes, half)?;
    match lacking(blanks, &wanted) {
        Some(refusal) => Err(refusal),
        None => Ok(()),
    }
}

/// The surveyed half, if these blanks suffice for it. `BlanksWanted` names the least kind that has
/// too few, and how many of it the half needs in all; `Memory`.
pub fn replayable_half<'a, C: Chare>(
    alloc: Global,
    survey: &'a Surveyed,
    blanks: &Stock<C>,
) -> Result<OpenHalf<'a>, Refusal>
    requires { surveys.Reads survey.now }
    ensures half { (s : Saved) → found survey.now.bytes.items ≡ Open s →
        IfOk result (IsOpenIn survey.now.bytes.items s) }
    ensures answer { (s : Saved) → found survey.now.bytes.items ≡ Open s → AnswersBy
        (short_refusal (least_short (blanks_in blanks.now) (wanted_of s)) None) result }
    ensures err { IfErr result (λ refusal. is_half_refusal refusal ≡ true) }
{
    let half = survey.reread(alloc)?;
    test_blanks(alloc, survey.bytes.as_slice(), &half, blanks)?;
    Ok(half)
}

/// The refusal of a half with these bytes whose records can't be read: `Damaged` at the offset of
/// the fault; `Memory`.
pub(crate) fn refusal_of(half: Half, bytes: &[u8], why: ReadError) -> Refusal
    ensures { FaultIs half (length bytes.now) why result }
{
    match why {
        ReadError::Memory => Refusal::Memory,
        ReadError::Damaged(Fault { bytes_left: left }) => Refusal::Damaged {
            half,
            offset: bytes.len().saturating_sub(left) as u64,
        },
    }
}
