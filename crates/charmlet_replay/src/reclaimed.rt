//! Objects that return to the stock.

ghost use Rattle.std.specs.Prelude.{◌≡◌, true, false, []};
ghost use Rattle.std.specs.List.{All};
ghost use Rattle.charmlet_model.specs.declared.kind.Kind.{Kind};
ghost use Rattle.charmlet_store.specs.Moving.{IsCountedAmong, IsIdle};
ghost use Rattle.charmlet_stock.specs.ByKind.{for_all};
ghost use Rattle.charmlet_stock.specs.Pile.{nothing, supplied_more};
ghost use Rattle.charmlet_stock.specs.Stock.{keeping_of, supplied_to, tally_in};
ghost use Rattle.charmlet_delivery.specs.Workplace.{IsWithin, held_in};

use charmlet_chare::Chare;
use charmlet_shelf::Shelf;
use charmlet_stock::Stock;

/// Takes all objects from shelves on which no delivery is under way, and puts them into the stock,
/// which kept the retired ones. Each supplied object is a blank of the stock again, in whatever
/// state, and from now on the stock drops retired objects. It takes no memory.
pub(crate) fn reclaim<C: Chare>(shelves: Vec<Shelf<C>>, mut stock: Stock<C>) -> Stock<C>
    requires idle { All IsIdle shelves.items }
    requires counted { IsCountedAmong shelves.items stock }
    requires keeping { keeping_of stock ≡ for_all true }
    ensures tally { (kind : Kind) → tally_in result kind
        ≡ supplied_more nothing (supplied_to stock kind) }
    ensures keeping { keeping_of result ≡ for_all false }
{
    for mut shelf in shelves {
        clear_shelf(&mut shelf, &mut stock);
    }
    stock.take_back();
    stock.drop_retired();
    stock
}

/// Puts all objects of a shelf, on which no delivery is under way, into the stock, so that none is
/// left there. It takes no memory.
pub fn clear_shelf<C: Chare>(shelf: &mut Shelf<C>, stock: &mut Stock<C>)
    requires idle { IsIdle shelf.old }
    requires supply { IsWithin shelf.old stock.old }
    ensures shelf { shelf.new ≡ record shelf.old { records = [] } }
    ensures held { held_in shelf.new stock.new ≡ held_in shelf.old stock.old }
    ensures supplied { supplied_to stock.new ≡ supplied_to stock.old }
    ensures keeping { keeping_of stock.new ≡ keeping_of stock.old }
{
    'objects: while let Some((_, resident)) = shelf.lift_any() {
        stock.give_back(resident.object);
    }
}
