//! Moves between two of a store's shelves.

ghost use Rattle.std.specs.Prelude.{◌≡◌, ◌≢◌, ◌<◌, Some, length};
ghost use Rattle.charmlet_model.specs.Core as core;
ghost use Rattle.charmlet_model.specs.Core.{place_of};
ghost use Rattle.charmlet_model.specs.Run.{Goes};
ghost use Rattle.charmlet_delivery.specs.Kept.{core_in};
ghost use Rattle.charmlet_stock.specs.Stock.{keeping_of, supplied_to};
ghost use Rattle.charmlet_delivery.specs.Workplace.{done_or_refused, store_with};
ghost use Rattle.charmlet_migrate.specs.StoreParts.{FitTogether};

use crate::moves::move_between;
use charmlet_chare::Chare;
use charmlet_delivery::History;
use charmlet_model::{Elem, Refusal};
use charmlet_shelf::Shelf;
use charmlet_stock::Stock;

/// Moves an element from its place, which is this processor, to another one. If refused, nothing
/// changes.
pub fn move_among<C: Chare>(
    history: &mut History,
    shelves: &mut [Shelf<C>],
    stock: &mut Stock<C>,
    elem: Elem,
    place: u16,
    processor: u16,
) -> Result<(), Refusal>
    requires together { FitTogether history.old shelves.old stock.old }
    requires place { place_of (core_in history.old) elem ≡ Some place }
    requires apart { place ≢ processor }
    requires within { processor < length shelves.old }
    ensures together { FitTogether history.new shelves.new stock.new }
    ensures goes { Goes (store_with history.old stock.old) (core.Move elem processor)
        (done_or_refused result) (store_with history.new stock.new) }
    ensures supplied { supplied_to stock.new ≡ supplied_to stock.old }
    ensures keeping { keeping_of stock.new ≡ keeping_of stock.old }
{
    history.facts();
    let source = usize::from(place);
    let destination = usize::from(processor);
    if source < destination {
        let (front, back) = shelves.split_at_mut(destination);
        move_between(history, &mut front[source], &mut back[0], stock, elem)
    } else {
        let (front, back) = shelves.split_at_mut(source);
        move_between(history, &mut back[0], &mut front[destination], stock, elem)
    }
}
