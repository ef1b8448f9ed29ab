//! The census of a store.

ghost use Rattle.std.specs.Prelude.{◌≡◌, ◌+◌, ◌≤◌};
ghost use Rattle.charmlet_model.specs.Reaction.{greatest};
ghost use Rattle.charmlet_migrate.specs.Moving.{objects_among};
ghost use Rattle.charmlet_store.specs.Census.{census_in};

use crate::store::Store;
use charmlet_chare::Chare;
use charmlet_model::Kind;
use charmlet_shelf::Shelf;

/// How many objects of one kind were supplied, are on the shelves, are in the stock, and were
/// retired.
#[derive(Clone, Copy, Debug, PartialEq, Eq)]
pub struct Census {
    pub supplied: u64,
    pub on_shelves: u64,
    pub in_stock: u64,
    pub retired: u64,
}

impl<C: Chare> Store<C> {
    /// How many objects of the kind were supplied, are on the shelves, are in the stock, and were
    /// retired. The objects on the shelves are counted one by one. Each supplied object is on a
    /// shelf, in the stock, or retired.
    pub fn census(&self, kind: Kind) -> Census
        ensures counts { result ≡ census_in self.now kind }
        ensures adds_up { result.supplied ≡ result.on_shelves + result.in_stock + result.retired }
    {
        self.history.facts();
        let stock = self.stock.census();
        let tally = stock.get(kind);
        Census {
            supplied: tally.supplied,
            on_shelves: count_all(self.shelves.as_slice(), kind),
            in_stock: tally.in_stock,
            retired: tally.retired,
        }
    }
}

/// How many objects of the kind are on the shelves.
fn count_all<C: Chare>(shelves: &[Shelf<C>], kind: Kind) -> u64
    requires { objects_among shelves.now kind ≤ greatest }
    ensures { result ≡ objects_among shelves.now kind }
{
    let mut count = 0;
    for shelf in shelves {
        count += shelf.count(kind);
    }
    count
}
