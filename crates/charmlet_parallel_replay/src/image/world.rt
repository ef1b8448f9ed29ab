//! The world of an image, with its pending messages and its clients.

ghost use Rattle.std.specs.Prelude.{◌≡◌, List, Err, IfOk, None, OnOk, true};
ghost use Rattle.std.specs.List.Sorted.{IsStrictlySortedBy};
ghost use Rattle.std.specs.Map.{keys_of};
ghost use Rattle.std.specs.Ordering.{nat_cmp};
ghost use Rattle.charmlet_model.specs.declared.names.Elem as names;
ghost use Rattle.charmlet_model.specs.declared.state.Record.{Record};
ghost use Rattle.charmlet_model.specs.Fit.{AreDistinct};
ghost use Rattle.charmlet_locate.specs.Locations.{is_processor_count};
ghost use Rattle.charmlet_record.specs.declared.reader.Fault as faults;
ghost use Rattle.charmlet_record.specs.declared.reader.ReadError.TheVariants.{Damaged};
ghost use Rattle.charmlet_image.specs.Positioned.{items_of};
ghost use Rattle.charmlet_recovery.specs.Faults.{first_failure, pending_tests};
ghost use Rattle.charmlet_world.specs.Seen.{Shows};
ghost use Rattle.charmlet_history.specs.Opened.{opened_elements};
ghost use Rattle.charmlet_replay.specs.Places.{IsFirstFault};
ghost use Rattle.charmlet_parallel_replay.specs.Image.ImageRestored.{world_with};

use charmlet_log_scan::ReplayWorld;
use charmlet_model::{ClientRow, Elem, Manifest, Message};
use charmlet_record::{Positioned, ReadError};
use charmlet_replay::{Waiting, waiting_of};
use charmlet_world::Element;
use std::alloc::{AllocError, Global};
use std::collections::BTreeMap;

/// A copy of a manifest. It fails only when out of memory.
fn copy_of(alloc: Global, manifest: &Manifest) -> Result<Manifest, AllocError>
    ensures { IfOk result (λ copy. copy ≡ manifest.now) }
{
    manifest.facts();
    let arrays = manifest.arrays(alloc)?;
    Manifest::of_rising(alloc, arrays.as_slice())
}

/// The world of these elements, with their places and counts, these clients' rows, which rise, and
/// these pending messages, after a test that each message was sent.
///
/// `Damaged` has the place of the first message that was never sent; `Memory`.
pub(crate) fn world_of(
    alloc: Global,
    manifest: &Manifest,
    elements: BTreeMap<Elem, Element>,
    rows: Vec<(u32, ClientRow)>,
    pending: Vec<Positioned<Message>>,
    processors: u16,
) -> Result<ReplayWorld, ReadError>
    requires processors { is_processor_count processors ≡ true }
    requires rising { IsStrictlySortedBy nat_cmp (keys_of rows.items) }
    requires distinct { AreDistinct (items_of pending.items) }
    ensures shows { (records : List (names.Elem × Record)) →
        elements.entries ≡ opened_elements processors records →
        IfOk result (λ world. Shows world
        (world_with manifest.now records (items_of pending.items) rows.items)) }
    ensures on { IfOk result (λ world. world.processors ≡ processors) }
    ensures ok { (records : List (names.Elem × Record)) →
        elements.entries ≡ opened_elements processors records →
        OnOk result (first_failure (pending_tests
        (world_with manifest.now records (items_of pending.items) rows.items)
        (items_of pending.items)) ≡ None) }
    ensures fault { (records : List (names.Elem × Record)) →
        elements.entries ≡ opened_elements processors records →
        (fault : faults.Fault) → result ≡ Err (Damaged fault) → IsFirstFault (pending_tests
        (world_with manifest.now records (items_of pending.items) rows.items)
        (items_of pending.items)) pending.items fault.bytes_left }
{
    let waiting = waiting_of(alloc, &elements, rows, pending)?;
    let manifest = copy_of(alloc, manifest)?;
    let Waiting { pending, clients } = waiting;
    let world = ReplayWorld::of(alloc, manifest, processors, elements, pending, clients)?;
    Ok(world)
}
