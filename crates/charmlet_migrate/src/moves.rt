//! Moves: an element goes to another processor.

ghost use Rattle.std.specs.Prelude.{◌≡◌, ◌≢◌, None, Some, IfErr, OnErr, OnOk};
ghost use Rattle.std.specs.BTreeMap.{is_at};
ghost use Rattle.std.specs.List.Sorted.{IsStrictlySortedBy};
ghost use Rattle.std.specs.Map.{keys_of, lookup};
ghost use Rattle.charmlet_model.specs.Core as core;
ghost use Rattle.charmlet_model.specs.Core.{checks, first_refusal, next_core, place_of};
ghost use Rattle.charmlet_model.specs.Names.{elem_cmp};
ghost use Rattle.charmlet_model.specs.Reaction.{kind_version_of};
ghost use Rattle.charmlet_model.specs.Run.{Goes};
ghost use Rattle.charmlet_delivery.specs.Kept.{core_in, plenty};
ghost use Rattle.charmlet_stock.specs.Stock.{census_of, keeping_of, supplied_to};
ghost use Rattle.charmlet_delivery.specs.Workplace.{done_or_refused, store_with};
ghost use Rattle.charmlet_migrate.specs.Copying.{IsHereAs, PlacesCopy, copy_refusal};
ghost use Rattle.charmlet_migrate.specs.Moving.{IsShelfOf, held_in_both};

use crate::copies::place_copy;
use charmlet_chare::Chare;
use charmlet_delivery::History;
use charmlet_model::{Elem, Refusal};
use charmlet_shelf::Shelf;
use charmlet_stock::Stock;

/// Moves an element from its shelf to another processor's. A blank of its kind is taken from the
/// stock, is set to its version, gets its state, and stands on the other shelf, with the element's
/// two counts. Then the element's place changes. Only then its old object leaves its shelf and is
/// retired.
///
/// `Halted`; otherwise `Uncommitted` if one of the two processors has an assigned message;
/// otherwise `NoBlank` if the stock lacks a blank of the element's kind; otherwise `Memory`. Then
/// the blank is in the stock again, and nothing has changed.
pub fn move_between<C: Chare>(
    history: &mut History,
    source: &mut Shelf<C>,
    destination: &mut Shelf<C>,
    stock: &mut Stock<C>,
    elem: Elem,
) -> Result<(), Refusal>
    requires place { place_of (core_in history.old) elem ≡ Some source.old.number }
    requires apart { source.old.number ≢ destination.old.number }
    requires source { IsShelfOf history.old source.old }
    requires destination { IsShelfOf history.old destination.old }
    ensures goes { Goes (store_with history.old stock.old)
        (core.Move elem destination.old.number) (done_or_refused result)
        (store_with history.new stock.new) }
    ensures source { IsShelfOf history.new source.new }
    ensures destination { IsShelfOf history.new destination.new }
    ensures source_others { source.new ≡ record source.old { records = source.new.records } }
    ensures destination_others { destination.new ≡ record destination.old {
      records = destination.new.records;
    } }
    ensures held { held_in_both source.new destination.new stock.new
        ≡ held_in_both source.old destination.old stock.old }
    ensures supplied { supplied_to stock.new ≡ supplied_to stock.old }
    ensures keeping { keeping_of stock.new ≡ keeping_of stock.old }
    ensures err { OnErr result ((source.new ≡ source.old) × (destination.new ≡ destination.old)
        × (census_of stock.new ≡ census_of stock.old)) }
{
    history.facts();
    let processor = destination.number();
    let Some(kind_version) = history.test_move(elem, processor)? else {
        unreachable!()
    };
    let Some(blank) = stock.take_as(kind_version) else {
        return Err(Refusal::NoBlank(kind_version.kind()));
    };
    if let Err((refusal, blank)) = carry(history, source, destination, elem, blank) {
        stock.give_back(blank);
        return Err(refusal);
    }
    let Ok(old) = source.lift(elem) else {
        unreachable!()
    };
    stock.retire(old.object);
    Ok(())
}

/// Places a copy of an element on another processor's shelf, which is the element's place from then
/// on. Its old object stays on its shelf.
///
/// `Uncommitted` if a delivery is under way on one of the two shelves; otherwise `Memory`. Then
/// nothing changes, and the blank comes back, in whatever state.
fn carry<C: Chare>(
    history: &mut History,
    source: &mut Shelf<C>,
    destination: &mut Shelf<C>,
    elem: Elem,
    blank: C,
) -> Result<(), (Refusal, C)>
    requires can { first_refusal
        (checks (core_in history.old) plenty (core.Move elem destination.old.number)) ≡ None }
    requires here { IsHereAs (kind_version_of (C.state blank))
        (lookup (is_at (elem_cmp elem)) source.old.records) }
    requires absent { lookup (is_at (elem_cmp elem)) destination.old.records ≡ None }
    requires rising { IsStrictlySortedBy elem_cmp (keys_of destination.old.records) }
    ensures source { source.new ≡ source.old }
    ensures copy { OnOk result (PlacesCopy elem source.old destination.old destination.new) }
    ensures place { OnOk result (core_in history.new
        ≡ next_core (core_in history.old) (core.Move elem destination.old.number)) }
    ensures err { IfErr result (λ back. (back.0 ≡ copy_refusal source.old destination.old)
        × (kind_version_of (C.state back.1) ≡ kind_version_of (C.state blank))) }
    ensures same { OnErr result ((destination.new ≡ destination.old)
        × (history.new ≡ history.old)) }
{
    place_copy(source, destination, elem, blank)?;
    if history.relocate(elem, destination.number()).is_err() {
        let Ok(copy) = destination.lift(elem) else {
            unreachable!()
        };
        return Err((Refusal::Memory, copy.object));
    }
    Ok(())
}
