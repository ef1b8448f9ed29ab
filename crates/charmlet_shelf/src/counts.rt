//! Counts of the objects on a shelf, by kind.

ghost use Rattle.std.specs.Prelude.{◌≡◌};
ghost use Rattle.std.specs.List.Sorted.{IsStrictlySortedBy};
ghost use Rattle.std.specs.Map.{keys_of};
ghost use Rattle.charmlet_model.specs.Names.{elem_cmp};
ghost use Rattle.charmlet_model.specs.Shelves.{count_of, objects_of};
ghost use Rattle.charmlet_shelf.specs.Risen.{risen};

use charmlet_chare::Chare;
use charmlet_model::{Elem, Kind, Resident};
use indexmap::IndexMap;

/// How many of the residents' objects are of the kind.
pub(crate) fn count_residents<C: Chare>(residents: &IndexMap<Elem, Resident<C>>, kind: Kind) -> u64
    ensures count { result ≡ count_of C.state (objects_of (risen residents.now.entries)) kind }
    ensures ordered { IsStrictlySortedBy elem_cmp (keys_of (risen residents.now.entries)) }
{
    // The length tells the prover that no element stands there twice.
    let _len = residents.len();
    let mut count = 0;
    for resident in residents.values() {
        if resident.object.kind() == kind.number() {
            count += 1;
        }
    }
    count
}
