//! The three rounds of a recovery, by several replayers.

ghost use Rattle.std.specs.Prelude.{◌≡◌, ◌-◌, ◌<◌, ℕ, [], List, Err, IfOk, length, true};
ghost use Rattle.std.specs.List.{All};
ghost use Rattle.charmlet_locate.specs.Locations.{is_processor_count};
ghost use Rattle.charmlet_record.specs.declared.reader.Fault as faults;
ghost use Rattle.charmlet_record.specs.declared.reader.ReadError.TheVariants.{Damaged};
ghost use Rattle.charmlet_record.specs.Reading.{read_log};
ghost use Rattle.charmlet_image.specs.Images.{Saved};
ghost use Rattle.charmlet_image.specs.Views.{image_said};
ghost use Rattle.charmlet_recovery.specs.Blanks.{wanted};
ghost use Rattle.charmlet_recovery.specs.RestartLaws.{IsEnough};
ghost use Rattle.charmlet_recovery.specs.Restarts.{wanted_of};
ghost use Rattle.charmlet_stock.specs.Stock.{blanks_in};
ghost use Rattle.charmlet_replay.specs.Places.{places_in};
ghost use Rattle.charmlet_replay.specs.Replayed.{IsFaultAt, IsOpenIn};
ghost use Rattle.charmlet_replayers.specs.Dispatch.Keeping.{KeepsAll};
ghost use Rattle.charmlet_parallel_replay.specs.declared.log.replay_error.ReplayError.TheVariants.{OutOfBlanks, Read};
ghost use Rattle.charmlet_parallel_replay.specs.Image.Filled.{IsEmptyReplayer};
ghost use Rattle.charmlet_parallel_replay.specs.Redone.{IsRedone};

use crate::image::restore_image_parallel;
use crate::log::{ReplayError, replay_log_parallel};
use charmlet_chare::Chare;
use charmlet_image::{Header, ImageView, LogView};
use charmlet_log_scan::ReplayWorld;
use charmlet_model::Manifest;
use charmlet_replayers::Replayer;
use charmlet_stock::Stock;
use std::alloc::Global;
use std::thread::Threads;

/// Restores a half by several replayers, which have nothing yet: its image, its pending messages
/// and clients, and the events of its log. Answers its arrays, and the world after the log without
/// the replayers' part.
///
/// `Damaged` has the place of the first faulty record, in the catch-up list, otherwise among the
/// pending messages, otherwise in the log; `Memory`. `OutOfBlanks` if the stock has no blank for an
/// event that, as the log says, constructs its receiver. Whatever it answers, no object is lost.
pub(crate) fn redo_half<R: Threads + Sync, C: Chare>(
    rt: &R,
    alloc: Global,
    stock: &mut Stock<C>,
    replayers: &mut [Replayer<C>],
    header: &Header,
    image: ImageView<'_>,
    log: &LogView<'_>,
    processors: u16,
) -> Result<(Manifest, ReplayWorld), ReplayError>
    requires half { (bytes : List ℕ) × (s : Saved)
        × IsOpenIn bytes s (record { header = header.now; image = image; log = log.now })
        × IsEnough (blanks_in stock.old) (wanted s.image []) }
    requires processors { is_processor_count processors ≡ true }
    requires some { 0 < length replayers.old }
    requires empty { All (IsEmptyReplayer processors) replayers.old }
    ensures keeps { KeepsAll stock.old stock.new replayers.old replayers.new }
    ensures manifest { IfOk result (λ back. back.0 ≡ image.entry.manifest) }
    ensures ok { IfOk result (λ back. IsRedone (image_said image.entry) header.now.events
        (places_in (read_log image.entry.manifest log.now.rest.now)) processors
        (blanks_in stock.old) (blanks_in stock.new) back.1 replayers.new) }
    ensures fault { (bytes : List ℕ) (s : Saved) →
        IsOpenIn bytes s (record { header = header.now; image = image.entry; log = log.now }) →
        (fault : faults.Fault) → result ≡ Err (Read (Damaged fault)) →
        IsFaultAt s (length bytes - fault.bytes_left) }
    ensures lack { (bytes : List ℕ) (s : Saved) →
        IsOpenIn bytes s (record { header = header.now; image = image.entry; log = log.now }) →
        result ≡ Err OutOfBlanks → IsEnough (blanks_in stock.old) (wanted_of s) → ⊥ }
{
    let (manifest, mut world) = restore_image_parallel(
        rt, alloc, stock, replayers, image, processors,
    )?;
    replay_log_parallel(rt, alloc, &mut world, header.events, log, stock, replayers)?;
    Ok((manifest, world))
}
