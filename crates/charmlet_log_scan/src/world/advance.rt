//! The advance of an element by one received message.

ghost use Rattle.std.specs.Prelude.{◌≡◌, ◌+◌, ◌≤◌, None, Some, if◌then◌else◌, true, unwrap_or};
ghost use Rattle.std.specs.BTreeMap.{insert_entry};
ghost use Rattle.charmlet_locate.specs.Locations.{is_processor_count};
ghost use Rattle.charmlet_model.specs.Core.{home};
ghost use Rattle.charmlet_model.specs.Names.{elem_cmp};
ghost use Rattle.charmlet_model.specs.Reaction.{greatest};
ghost use Rattle.charmlet_world.specs.Changed.{counted};
ghost use Rattle.charmlet_world.specs.Seen.{IsSlot};
ghost use Rattle.charmlet_world.specs.Standing.{element_in, risen};

use charmlet_locate::home;
use charmlet_model::Elem;
use charmlet_world::{Element, Elements, Slot};

/// Advances the element in this slot by one received message and this many sends, and by its
/// destruction, if it is destroyed. Returns how many messages it had sent before. It takes no
/// memory.
pub(crate) fn advance(
    elements: &mut Elements,
    processors: u16,
    slot: Slot,
    elem: Elem,
    sends: u64,
    is_destroyed: bool,
) -> u64
    requires processors { is_processor_count processors ≡ true }
    requires receiver { IsSlot elements.old.entries slot elem }
    requires sent { (element_in elements.old.entries elem).sent + sends ≤ greatest }
    requires received { (element_in elements.old.entries elem).received + 1 ≤ greatest }
    ensures sent { result ≡ (element_in elements.old.entries elem).sent }
    ensures risen { risen elements.new.entries
        ≡ insert_entry elem_cmp (risen elements.old.entries) elem
        (counted (element_in elements.old.entries elem) (if is_destroyed then None
        else Some (unwrap_or (element_in elements.old.entries elem).place (home elem processors)))
        sends) }
{
    let element = elements.at(slot);
    let place = place_after(processors, elem, element.place, is_destroyed);
    let mut advanced = element;
    advanced.advance(place, sends);
    elements.set(slot, advanced);
    element.sent
}

/// An element's place after a delivery that may have destroyed it, given its place before: its
/// home, if it is new.
fn place_after(processors: u16, elem: Elem, place: Option<u16>, is_destroyed: bool) -> Option<u16>
    requires { is_processor_count processors ≡ true }
    ensures { result ≡ (if is_destroyed then None
        else Some (unwrap_or place (home elem processors))) }
{
    if is_destroyed {
        return None;
    }
    match place {
        Some(place) => Some(place),
        None => {
            let Ok(home) = home(elem, processors) else {
                unreachable!()
            };
            Some(home)
        }
    }
}
