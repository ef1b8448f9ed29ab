//! The residents of a shelf, in a table by element.

ghost use Rattle.std.specs.Prelude.{◌≡◌, true, None, IfSome, IfNone, IfErr, OnOk, OnErr};
ghost use Rattle.std.specs.BTreeMap.{insert_entry, is_at};
ghost use Rattle.std.specs.Map.{lookup, remove_entry};
ghost use Rattle.charmlet_model.specs.Names.{elem_cmp};
ghost use Rattle.charmlet_shelf.specs.Risen.{StandsAt, risen};

use charmlet_chare::Chare;
use charmlet_model::{Elem, Resident};
use indexmap::IndexMap;

/// The index of an element in the table, if it is there.
#[inline(never)]
pub(crate) fn index_of<C: Chare>(
    residents: &IndexMap<Elem, Resident<C>>,
    elem: Elem,
) -> Option<usize>
    ensures some { IfSome result (StandsAt residents.now.entries elem) }
    ensures none { result ≡ None → lookup (is_at (elem_cmp elem)) (risen residents.now.entries)
        ≡ None }
{
    residents.get_index_of(&elem)
}

/// The index of an element in the table, if it is there. If it is `index` or the next one, one or
/// two comparisons find it: elements that came one after another are often looked for one after
/// another.
pub(crate) fn index_from<C: Chare>(
    residents: &IndexMap<Elem, Resident<C>>,
    index: usize,
    elem: Elem,
) -> Option<usize>
    ensures some { IfSome result (StandsAt residents.now.entries elem) }
    ensures none { result ≡ None → lookup (is_at (elem_cmp elem)) (risen residents.now.entries)
        ≡ None }
{
    if stands_at(residents, index, elem) {
        return Some(index);
    }
    let after = index.saturating_add(1);
    if stands_at(residents, after, elem) {
        return Some(after);
    }
    index_of(residents, elem)
}

/// Whether an element stands at the index.
fn stands_at<C: Chare>(residents: &IndexMap<Elem, Resident<C>>, index: usize, elem: Elem) -> bool
    ensures { result ≡ true → StandsAt residents.now.entries elem index }
{
    // The length tells the prover that no element stands there twice.
    let _len = residents.len();
    match residents.get_index(index) {
        Some((key, _)) => *key == elem,
        None => false,
    }
}

/// Puts an element's resident into the table, and replaces an earlier one. When out of memory, the
/// resident comes back, and the table is unchanged.
pub(crate) fn put<C: Chare>(
    residents: &mut IndexMap<Elem, Resident<C>>,
    elem: Elem,
    resident: Resident<C>,
) -> Result<(), Resident<C>>
    ensures ok { OnOk result (risen residents.new.entries
        ≡ insert_entry elem_cmp (risen residents.old.entries) elem resident) }
    ensures err { IfErr result (λ back. back ≡ resident) }
    ensures same { OnErr result (residents.new.entries ≡ residents.old.entries) }
{
    match residents.insert(elem, resident) {
        Ok(_) => Ok(()),
        Err(refused) => Err(refused.value.1),
    }
}

/// Takes an element's resident out of the table, if it is there. It takes no memory.
pub(crate) fn take<C: Chare>(
    residents: &mut IndexMap<Elem, Resident<C>>,
    elem: Elem,
) -> Option<Resident<C>>
    ensures value { result ≡ lookup (is_at (elem_cmp elem)) (risen residents.old.entries) }
    ensures entries { risen residents.new.entries
        ≡ remove_entry (is_at (elem_cmp elem)) (risen residents.old.entries) }
    ensures unchanged { IfNone result (residents.new.entries ≡ residents.old.entries) }
{
    residents.swap_remove(&elem)
}
