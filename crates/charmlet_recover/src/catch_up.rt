//! The blanks that a catch-up list needs: one for each construction that isn't skipped.

ghost use Rattle.std.specs.Prelude.{◌≡◌, ◌&&◌, not, IfOk, OnOk};
ghost use Rattle.charmlet_model.specs.declared.kind.Kind.{Kind};
ghost use Rattle.charmlet_model.specs.declared.logged.Effect.TheVariants.{Constructed};
ghost use Rattle.charmlet_model.specs.World.{record_at};
ghost use Rattle.charmlet_image.specs.Positioned.{items_of};
ghost use Rattle.charmlet_recovery.specs.Bases.{is_skipped};
ghost use Rattle.charmlet_recovery.specs.Blanks.{array_is, is_of, wanted_by_catch_up, with_count};
ghost use Rattle.charmlet_recovery.specs.Faults.{same_effect};
ghost use Rattle.charmlet_recover.specs.Maps.{records_with};
ghost use Rattle.charmlet_recover.specs.Wanted.{blanks_in};

use crate::wanted::Wanted;
use charmlet_model::{CatchUpEntry, Effect, Elem, KindVersion, Manifest};
use charmlet_record::Positioned;
use std::alloc::AllocError;
use std::collections::BTreeMap;

/// Whether a delivery constructs its receiver.
pub(crate) fn is_constructed(effect: Effect) -> bool
    ensures { result ≡ same_effect effect Constructed }
{
    matches!(effect, Effect::Constructed)
}

/// Notes how many messages the receiver of a delivery has received, and returns whether the
/// delivery isn't skipped: its count is above its receiver's count so far. It fails only when out
/// of memory.
fn note_received(
    received: &mut BTreeMap<Elem, u64>,
    delivery: &CatchUpEntry,
) -> Result<bool, AllocError>
    ensures new { IfOk result (λ is_new. is_new ≡ not (is_skipped
        (record_at (records_with received.old.entries) delivery.now.message.to) delivery.now)) }
    ensures noted { OnOk result (records_with received.new.entries ≡
        with_count (records_with received.old.entries) delivery.now) }
{
    let element = delivery.message.to;
    let before = received.get(&element).copied().unwrap_or(0);
    received.insert(element, before.max(delivery.received))?;
    Ok(delivery.received > before)
}

/// The kind version of the object that a delivery constructs, if it constructs one and isn't
/// skipped.
fn kind_version_made(
    manifest: &Manifest,
    delivery: &CatchUpEntry,
    is_new: bool,
) -> Option<KindVersion>
    ensures { (kind : Kind) → is_of kind result ≡ (is_new
        && same_effect delivery.now.effect Constructed
        && array_is manifest.now kind delivery.now.message.to.array) }
{
    if is_new && is_constructed(delivery.effect) {
        manifest.kind_version_of(delivery.message.to.array)
    } else {
        None
    }
}

/// The blanks that a catch-up list needs, if each element had received `received` messages before.
/// It fails only when out of memory.
pub(crate) fn count_catch_up(
    manifest: &Manifest,
    received: &mut BTreeMap<Elem, u64>,
    caught_up: &[Positioned<CatchUpEntry>],
) -> Result<Wanted, AllocError>
    ensures { IfOk result (λ wanted. (kind : Kind) → blanks_in wanted kind
        ≡ wanted_by_catch_up manifest.now kind (records_with received.old.entries)
        (items_of caught_up.now)) }
{
    let mut wanted = Wanted::none();
    for placed in caught_up {
        let is_new = note_received(received, &placed.item)?;
        wanted.count(kind_version_made(manifest, &placed.item, is_new));
    }
    Ok(wanted)
}
