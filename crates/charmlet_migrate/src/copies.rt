//! Copies of elements on other shelves.

ghost use Rattle.std.specs.Prelude.{◌≡◌, None, Some, true, IfErr, IfOk, OnErr, OnOk};
ghost use Rattle.std.specs.BTreeMap.{is_at};
ghost use Rattle.std.specs.Map.{lookup};
ghost use Rattle.charmlet_model.specs.Names.{elem_cmp};
ghost use Rattle.charmlet_model.specs.Reaction.{kind_version_of};
ghost use Rattle.charmlet_model.specs.Shelves.{record_in};
ghost use Rattle.charmlet_shelf.specs.Shelf.{is_idle};
ghost use Rattle.charmlet_migrate.specs.Copying.{IsHereAs, PlacesCopy, copy_refusal};

use charmlet_chare::Chare;
use charmlet_model::{Elem, Refusal, Resident};
use charmlet_shelf::Shelf;

/// Places a copy of an element on another shelf, where it isn't yet. Its state goes into a blank of
/// its kind and version, and the blank stands on the other shelf, with the element's two counts.
/// The element stays where it was.
///
/// `Uncommitted` if a delivery is under way on one of the two shelves; otherwise `Memory`. Then the
/// other shelf is unchanged too, and the blank comes back, in whatever state.
pub fn place_copy<C: Chare>(
    source: &mut Shelf<C>,
    destination: &mut Shelf<C>,
    elem: Elem,
    blank: C,
) -> Result<(), (Refusal, C)>
    requires here { IsHereAs (kind_version_of (C.state blank))
        (lookup (is_at (elem_cmp elem)) source.old.records) }
    requires absent { lookup (is_at (elem_cmp elem)) destination.old.records ≡ None }
    ensures source { source.new ≡ source.old }
    ensures ok { OnOk result (PlacesCopy elem source.old destination.old destination.new) }
    ensures idle { OnOk result ((is_idle source.old.phase ≡ true)
        × (is_idle destination.old.phase ≡ true)) }
    ensures err { IfErr result (λ back. (back.0 ≡ copy_refusal source.old destination.old)
        × (kind_version_of (C.state back.1) ≡ kind_version_of (C.state blank))) }
    ensures same { OnErr result (destination.new ≡ destination.old) }
{
    if !source.is_idle() || !destination.is_idle() {
        return Err((Refusal::Uncommitted, blank));
    }
    let copy = match become_copy(source, elem, blank) {
        Ok(copy) => copy,
        Err(blank) => return Err((Refusal::Memory, blank)),
    };
    if let Err((_, copy)) = destination.place(elem, copy) {
        return Err((Refusal::Memory, copy.object));
    }
    Ok(())
}

/// Turns a blank of an element's kind and version into a copy of the element, which is on the
/// shelf, with its counts. If memory is refused, the blank comes back, in whatever state. The shelf
/// is unchanged.
pub fn become_copy<C: Chare>(
    shelf: &mut Shelf<C>,
    elem: Elem,
    mut blank: C,
) -> Result<Resident<C>, C>
    requires idle { is_idle shelf.old.phase ≡ true }
    requires here { IsHereAs (kind_version_of (C.state blank))
        (lookup (is_at (elem_cmp elem)) shelf.old.records) }
    ensures ok { IfOk result (λ copy. lookup (is_at (elem_cmp elem)) shelf.old.records
        ≡ Some (record_in C.state copy)) }
    ensures kind_version { IfOk result (λ copy.
        kind_version_of (C.state copy.object) ≡ kind_version_of (C.state blank)) }
    ensures err { IfErr result
        (λ back. kind_version_of (C.state back) ≡ kind_version_of (C.state blank)) }
    ensures same { shelf.new ≡ shelf.old }
{
    let Ok(image) = shelf.image(elem) else {
        return Err(blank);
    };
    let Some(image) = image else { unreachable!() };
    if blank.unpack(image.packed.as_slice()).is_err() {
        return Err(blank);
    }
    Ok(Resident {
        object: blank,
        sent: image.sent,
        received: image.received,
    })
}
