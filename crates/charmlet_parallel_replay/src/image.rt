//! The restoring of an image by several replayers, each with its own elements and deliveries, and
//! the test of its pending messages.

ghost use Rattle.std.specs.Prelude.{◌≡◌, ◌<◌, Err, IfOk, OnOk, length, map, true};
ghost use Rattle.std.specs.List.{All};
ghost use Rattle.charmlet_locate.specs.Locations.{is_processor_count};
ghost use Rattle.charmlet_record.specs.declared.reader.Fault as faults;
ghost use Rattle.charmlet_record.specs.declared.reader.ReadError.TheVariants.{Damaged};
ghost use Rattle.charmlet_image.specs.Positioned.{items_of};
ghost use Rattle.charmlet_image.specs.Views.{ArePacked, entry_said, image_said};
ghost use Rattle.charmlet_recovery.specs.Bases.{redelivered_all};
ghost use Rattle.charmlet_recovery.specs.Faults.{catch_up_tests};
ghost use Rattle.charmlet_history.specs.Opened.{opened_elements};
ghost use Rattle.charmlet_stock.specs.Stock.{blanks_in};
ghost use Rattle.charmlet_log_scan.specs.Partition.Parts.{Falls};
ghost use Rattle.charmlet_replay.specs.Images.{AreOfImage};
ghost use Rattle.charmlet_replay.specs.Places.{IsFirstFault};
ghost use Rattle.charmlet_replay.specs.Replayed.{HasBlanksForImage, IsFaultInImage};
ghost use Rattle.charmlet_replayers.specs.Dispatch.Keeping.{KeepsAll};
ghost use Rattle.charmlet_replayers.specs.Dispatch.Sharing.{worker_of};
ghost use Rattle.charmlet_parallel_replay.specs.Image.Filled.{AreFilled, IsEmptyReplayer};
ghost use Rattle.charmlet_parallel_replay.specs.Image.ImageRestored.{AreCaughtUp, IsImageRestored};

mod blanks;
mod counts;
mod deliveries;
mod entries;
mod fill;
mod replayers;
mod world;

use crate::image::deliveries::give_deliveries;
use crate::image::fill::fill_replayers;
pub use crate::image::replayers::empty_replayers;
use crate::image::world::world_of;
use charmlet_chare::Chare;
use charmlet_image::{Entry, ImageView};
use charmlet_log_scan::ReplayWorld;
use charmlet_merge::elements_of;
use charmlet_model::{CatchUpEntry, Elem, Manifest};
use charmlet_record::{Positioned, ReadError};
use charmlet_replayers::{Replayer, catch_up_by_workers};
use charmlet_stock::Stock;
use charmlet_world::Element;
use std::alloc::{AllocError, Global};
use std::collections::BTreeMap;
use std::thread::Threads;

/// Gives each replayer, which has nothing yet, its elements of an image, its deliveries of the
/// catch-up list, and the blanks for both. It fails only when out of memory. Whatever it answers,
/// no object is lost.
fn give_all<C: Chare>(
    alloc: Global,
    manifest: &Manifest,
    stock: &mut Stock<C>,
    replayers: &mut [Replayer<C>],
    entries: &[Entry<'_>],
    caught_up: Vec<Positioned<CatchUpEntry>>,
    processors: u16,
) -> Result<(), AllocError>
    requires processors { is_processor_count processors ≡ true }
    requires some { 0 < length replayers.old }
    requires empty { All (IsEmptyReplayer processors) replayers.old }
    requires packed { ArePacked manifest.now entries.now }
    requires image { AreOfImage manifest.now (map (entry_said manifest.now) entries.now)
        (items_of caught_up.items) (blanks_in stock.old) }
    ensures keeps { KeepsAll stock.old stock.new replayers.old replayers.new }
    ensures ok { OnOk result (AreFilled (worker_of processors (length replayers.old)) manifest.now
        (map (entry_said manifest.now) entries.now) caught_up.items processors
        (blanks_in stock.old) (blanks_in stock.new) replayers.new) }
{
    give_deliveries(replayers, caught_up, processors)?;
    fill_replayers(alloc, manifest, stock, replayers, entries)
}

/// Restores the elements of an image, and repeats the deliveries of its catch-up list, by several
/// replayers, each for its own elements, in as many threads as can be started. Answers each
/// element's place and counts afterwards, whichever replayer has it. `Damaged` has the place of the
/// first faulty delivery, whichever replayer finds it; `Memory`.
fn bring_back<R: Threads + Sync, C: Chare>(
    rt: &R,
    alloc: Global,
    manifest: &Manifest,
    stock: &mut Stock<C>,
    replayers: &mut [Replayer<C>],
    entries: &[Entry<'_>],
    caught_up: Vec<Positioned<CatchUpEntry>>,
    processors: u16,
) -> Result<BTreeMap<Elem, Element>, ReadError>
    requires processors { is_processor_count processors ≡ true }
    requires some { 0 < length replayers.old }
    requires empty { All (IsEmptyReplayer processors) replayers.old }
    requires packed { ArePacked manifest.now entries.now }
    requires falls { Falls caught_up.items }
    requires image { AreOfImage manifest.now (map (entry_said manifest.now) entries.now)
        (items_of caught_up.items) (blanks_in stock.old) }
    ensures keeps { KeepsAll stock.old stock.new replayers.old replayers.new }
    ensures ok { OnOk result (AreCaughtUp (worker_of processors (length replayers.old)) manifest.now
        (map (entry_said manifest.now) entries.now) (items_of caught_up.items) processors
        (blanks_in stock.old) (blanks_in stock.new) replayers.new) }
    ensures elements { IfOk result (λ elements. elements.entries ≡ opened_elements processors
        (redelivered_all manifest.now (map (entry_said manifest.now) entries.now)
        (items_of caught_up.items))) }
    ensures fault { (fault : faults.Fault) → result ≡ Err (Damaged fault) → IsFirstFault
        (catch_up_tests manifest.now (map (entry_said manifest.now) entries.now)
        (items_of caught_up.items)) caught_up.items fault.bytes_left }
{
    give_all(
        alloc, manifest, stock, replayers, entries, caught_up, processors,
    )?;
    catch_up_by_workers(rt, manifest, replayers)?;
    let elements = elements_of(alloc, replayers)?;
    Ok(elements)
}

/// Restores an image by several replayers, which have nothing yet: its elements, its catch-up list,
/// its pending messages and its clients. The deliveries of the list are repeated in as many threads
/// as can be started. Answers its arrays, and its world without the states of its elements, which
/// the replayers have. The stock gives each replayer the blanks for its objects.
///
/// `Damaged` has the place of the first faulty record, in the catch-up list before the pending
/// messages, whichever replayer finds it; `Memory`. Whatever it answers, no object is lost.
pub fn restore_image_parallel<R: Threads + Sync, C: Chare>(
    rt: &R,
    alloc: Global,
    stock: &mut Stock<C>,
    replayers: &mut [Replayer<C>],
    image: ImageView<'_>,
    processors: u16,
) -> Result<(Manifest, ReplayWorld), ReadError>
    requires processors { is_processor_count processors ≡ true }
    requires some { 0 < length replayers.old }
    requires empty { All (IsEmptyReplayer processors) replayers.old }
    requires packed { ArePacked image.manifest image.entries.items }
    requires falls { Falls image.caught_up.items }
    requires blanks { HasBlanksForImage (image_said image) (blanks_in stock.old) }
    ensures keeps { KeepsAll stock.old stock.new replayers.old replayers.new }
    ensures manifest { IfOk result (λ back. back.0 ≡ image.entry.manifest) }
    ensures ok { IfOk result (λ back. IsImageRestored (worker_of processors (length replayers.old))
        (image_said image.entry) processors (blanks_in stock.old) (blanks_in stock.new)
        back.1 replayers.new) }
    ensures fault { (fault : faults.Fault) → result ≡ Err (Damaged fault) →
        IsFaultInImage image.entry fault.bytes_left }
{
    let ImageView {
        manifest,
        clients,
        pending,
        entries,
        caught_up,
    } = image;
    let elements = bring_back(
        rt,
        alloc,
        &manifest,
        stock,
        replayers,
        entries.as_slice(),
        caught_up,
        processors,
    )?;
    let world = world_of(alloc, &manifest, elements, clients, pending, processors)?;
    Ok((manifest, world))
}
