//! Parts of a store that is taken apart.

ghost use Rattle.std.specs.Prelude.{◌≡◌, ◌++◌, ◌<◌, ◌≤◌, ◌+◌, [], ◌∷◌, length, IfErr, IfOk, IsOk, Some};
ghost use Rattle.std.specs.List.{All};
ghost use Rattle.std.specs.BTreeMap.{is_at};
ghost use Rattle.std.specs.Map.{lookup};
ghost use Rattle.std.specs.Vec.{vec_capacity, vec_len};
ghost use Rattle.charmlet_model.specs.Core.{present};
ghost use Rattle.charmlet_model.specs.Names.{elem_cmp};
ghost use Rattle.charmlet_model.specs.Shelves.{ShowsAll, record_in, records_of};
ghost use Rattle.charmlet_history.specs.Kept.{core_in};
ghost use Rattle.charmlet_migrate.specs.Copying.{shelf_at};
ghost use Rattle.charmlet_migrate.specs.Moving.{IsIdle, ShowsPresent};
ghost use Rattle.charmlet_store.specs.Dismantled.{IsCountedIn, IsOnShelf, standing, without};
ghost use Rattle.charmlet_stock.specs.Stock.{census_of, keeping_of};
ghost use Rattle.charmlet_store.specs.Store.{world_in};

use charmlet_chare::Chare;
use charmlet_history::History;
use charmlet_model::{Elem, Resident};
use charmlet_shelf::Shelf;
use charmlet_stock::Stock;
use std::collections::BTreeMap;

/// The parts of a store: each present element with its object and its counts, in rising order, and
/// the stock.
#[derive(Drop)]
pub struct Dismantled<C: Chare> {
    pub residents: Vec<(Elem, Resident<C>)>,
    pub stock: Stock<C>,
}

/// Takes each present element from its shelf into the list, in rising order; `places` are the
/// places in the history. The list has room for them.
pub(crate) fn lift_all<C: Chare>(
    residents: &mut Vec<(Elem, Resident<C>)>,
    history: &History,
    places: &BTreeMap<Elem, u16>,
    shelves: &mut [Shelf<C>],
)
    requires empty { residents.old.items ≡ [] }
    requires places { places.now.entries ≡ (core_in history.now).places }
    requires room { length (core_in history.now).places ≤ vec_capacity residents.old }
    requires count { length shelves.old ≡ (core_in history.now).processors }
    requires idle { All IsIdle shelves.old }
    requires shows { ShowsPresent shelves.old history.now }
    ensures { records_of C.state residents.new.items
        ≡ standing (present (core_in history.now)) (core_in history.now).places }
{
    history.facts();
    for (elem, place) in places {
        let resident = lift_from(shelves, *place, *elem);
        push_within(residents, (*elem, resident));
    }
}

/// Takes an element from its shelf. All others stay.
fn lift_from<C: Chare>(shelves: &mut [Shelf<C>], place: u16, elem: Elem) -> Resident<C>
    requires idle { All IsIdle shelves.old }
    requires here { IsOnShelf shelves.old elem place }
    ensures record { lookup (is_at (elem_cmp elem)) (shelf_at shelves.old place).records
        ≡ Some (record_in C.state result) }
    ensures rest { shelves.new ≡ without shelves.old elem place }
{
    let source = place as usize;
    let Ok(resident) = shelves[source].lift(elem) else {
        unreachable!()
    };
    resident
}

/// Adds an element. There has to be room for it.
fn push_within<C: Chare>(residents: &mut Vec<(Elem, Resident<C>)>, resident: (Elem, Resident<C>))
    requires { vec_len residents.old < vec_capacity residents.old }
    ensures items { residents.new.items ≡ residents.old.items ++ resident ∷ [] }
    ensures len { vec_len residents.new ≡ vec_len residents.old + 1 }
    ensures capacity { vec_capacity residents.old ≤ vec_capacity residents.new }
{
    let Ok(()) = residents.push(resident) else {
        unreachable!()
    };
}
