//! The blanks for a replayer's deliveries: one for each construction that isn't skipped.

ghost use Rattle.std.specs.Prelude.{◌≡◌, ◌+◌, ◌≤◌, ◌&&◌, ◌∷◌, List, [], IfOk, OnOk, not};
ghost use Rattle.std.specs.List.{AllByRecursion};
ghost use Rattle.charmlet_model.specs.declared.kind.Kind as kinds;
ghost use Rattle.charmlet_model.specs.declared.logged.Effect.TheVariants.{Constructed};
ghost use Rattle.charmlet_model.specs.declared.names.Elem as names;
ghost use Rattle.charmlet_model.specs.declared.state.Record.{Record};
ghost use Rattle.charmlet_model.specs.World.{record_at};
ghost use Rattle.charmlet_record.specs.Written.{IsCaughtUp};
ghost use Rattle.charmlet_image.specs.Positioned.{items_of};
ghost use Rattle.charmlet_recovery.specs.Bases.{is_skipped};
ghost use Rattle.charmlet_recovery.specs.Blanks.{wanted_by_catch_up, with_count};
ghost use Rattle.charmlet_recovery.specs.Faults.{same_effect};
ghost use Rattle.charmlet_stock.specs.Stock.{blanks_in};
ghost use Rattle.charmlet_replay.specs.RestoredShard.{IsHeld};
ghost use Rattle.charmlet_parallel_replay.specs.Image.Counts.{AreCountsOf, count_at};
ghost use Rattle.charmlet_parallel_replay.specs.Image.Keeping.{KeepsOne};

use crate::image::blanks::draw_if;
use charmlet_chare::Chare;
use charmlet_model::{CatchUpEntry, Effect, Elem, Manifest};
use charmlet_record::Positioned;
use charmlet_replay::RestoredShard;
use charmlet_stock::Stock;
use charmlet_world::Element;
use std::alloc::{AllocError, Global};
use std::collections::BTreeMap;

/// How many messages an element has received, by the deliveries read so far, or otherwise by its
/// restored counts.
fn received_by(counts: &BTreeMap<Elem, u64>, elements: &BTreeMap<Elem, Element>, elem: Elem) -> u64
    ensures { result ≡ count_at counts.now.entries elements.now.entries elem }
{
    if let Some(count) = counts.get(&elem) {
        return *count;
    }
    match elements.get(&elem) {
        Some(element) => element.received,
        None => 0,
    }
}

/// Notes how many messages the receiver of a delivery has received, and returns whether the
/// delivery isn't skipped. It fails only when out of memory.
fn note_received(
    counts: &mut BTreeMap<Elem, u64>,
    elements: &BTreeMap<Elem, Element>,
    delivery: &CatchUpEntry,
) -> Result<bool, AllocError>
    ensures new { (records : List (names.Elem × Record)) →
        AreCountsOf counts.old.entries elements.now.entries records →
        IfOk result (λ is_new. is_new
        ≡ not (is_skipped (record_at records delivery.now.message.to) delivery.now)) }
    ensures noted { (records : List (names.Elem × Record)) →
        AreCountsOf counts.old.entries elements.now.entries records →
        OnOk result (AreCountsOf counts.new.entries elements.now.entries
        (with_count records delivery.now)) }
{
    let elem = delivery.message.to;
    if delivery.received <= received_by(counts, elements, elem) {
        return Ok(false);
    }
    counts.insert(elem, delivery.received)?;
    Ok(true)
}

/// Whether a delivery with this effect wants a blank: it constructs its receiver, and isn't
/// skipped.
fn wants_blank(is_new: bool, effect: Effect) -> bool
    ensures { result ≡ (is_new && same_effect effect Constructed) }
{
    is_new && matches!(effect, Effect::Constructed)
}

/// Gives a replayer a blank for a delivery, if it constructs its receiver and isn't skipped by the
/// counts so far. The counts then include the delivery. It fails only when out of memory.
fn draw_for_one<C: Chare>(
    manifest: &Manifest,
    stock: &mut Stock<C>,
    restored: &mut RestoredShard<C>,
    counts: &mut BTreeMap<Elem, u64>,
    delivery: &CatchUpEntry,
) -> Result<(), AllocError>
    requires held { IsHeld restored.old }
    requires typed { IsCaughtUp manifest.now delivery.now }
    requires enough { (records : List (names.Elem × Record))
        × AreCountsOf counts.old.entries restored.old.elements.entries records
        × ((kind : kinds.Kind) → wanted_by_catch_up manifest.now kind records
        (delivery.now ∷ []) ≤ blanks_in stock.old kind) }
    ensures keeps { KeepsOne stock.old stock.new restored.old restored.new }
    ensures rest { restored.new ≡ record restored.old { stock = restored.new.stock } }
    ensures counted { (records : List (names.Elem × Record)) →
        AreCountsOf counts.old.entries restored.old.elements.entries records →
        OnOk result (AreCountsOf counts.new.entries restored.old.elements.entries
        (with_count records delivery.now)) }
    ensures own { (records : List (names.Elem × Record)) →
        AreCountsOf counts.old.entries restored.old.elements.entries records →
        OnOk result ((kind : kinds.Kind) → blanks_in restored.new.stock kind
        ≡ blanks_in restored.old.stock kind
        + wanted_by_catch_up manifest.now kind records (delivery.now ∷ [])) }
    ensures given { (records : List (names.Elem × Record)) →
        AreCountsOf counts.old.entries restored.old.elements.entries records →
        OnOk result ((kind : kinds.Kind) → blanks_in stock.new kind
        + wanted_by_catch_up manifest.now kind records (delivery.now ∷ [])
        ≡ blanks_in stock.old kind) }
{
    let is_new = note_received(counts, &restored.elements, delivery)?;
    let is_wanted = wants_blank(is_new, delivery.effect);
    draw_if(
        is_wanted,
        manifest,
        stock,
        restored,
        delivery.message.to.array,
    )
}

/// Gives a replayer the blanks for its deliveries, one for each construction that isn't skipped. It
/// fails only when out of memory.
pub(crate) fn draw_for_all<C: Chare>(
    alloc: Global,
    manifest: &Manifest,
    stock: &mut Stock<C>,
    restored: &mut RestoredShard<C>,
    deliveries: &[Positioned<CatchUpEntry>],
) -> Result<(), AllocError>
    requires held { IsHeld restored.old }
    requires typed { AllByRecursion (IsCaughtUp manifest.now) (items_of deliveries.now) }
    requires enough { (records : List (names.Elem × Record))
        × AreCountsOf [] restored.old.elements.entries records
        × ((kind : kinds.Kind) → wanted_by_catch_up manifest.now kind records
        (items_of deliveries.now) ≤ blanks_in stock.old kind) }
    ensures keeps { KeepsOne stock.old stock.new restored.old restored.new }
    ensures rest { restored.new ≡ record restored.old { stock = restored.new.stock } }
    ensures own { (records : List (names.Elem × Record)) →
        AreCountsOf [] restored.old.elements.entries records →
        OnOk result ((kind : kinds.Kind) → blanks_in restored.new.stock kind
        ≡ blanks_in restored.old.stock kind
        + wanted_by_catch_up manifest.now kind records (items_of deliveries.now)) }
    ensures given { (records : List (names.Elem × Record)) →
        AreCountsOf [] restored.old.elements.entries records →
        OnOk result ((kind : kinds.Kind) → blanks_in stock.new kind
        + wanted_by_catch_up manifest.now kind records (items_of deliveries.now)
        ≡ blanks_in stock.old kind) }
{
    let mut counts = BTreeMap::new(alloc);
    for placed in deliveries {
        draw_for_one(manifest, stock, restored, &mut counts, &placed.item)?;
    }
    Ok(())
}
