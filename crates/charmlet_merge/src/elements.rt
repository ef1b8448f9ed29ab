//! Merge of the elements of all replayers.

ghost use Rattle.std.specs.Prelude.{◌≡◌, ℕ, List, IfOk, OnOk};
ghost use Rattle.charmlet_model.specs.declared.names.Elem as names;
ghost use Rattle.charmlet_model.specs.declared.state.Record.{Record};
ghost use Rattle.charmlet_model.specs.Names.{elem_cmp};
ghost use Rattle.charmlet_world.specs.Made.{as_it_is, with_made};
ghost use Rattle.charmlet_history.specs.Opened.{opened_elements};
ghost use Rattle.charmlet_merge.specs.Merged.{ArePartsOn};

use charmlet_chare::Chare;
use charmlet_model::Elem;
use charmlet_replayers::Replayer;
use charmlet_world::Element;
use std::alloc::{AllocError, Global};
use std::collections::BTreeMap;

/// A copy of the place and counts of each replayer's elements, as a history keeps them for a world
/// with all their records. It fails only when out of memory.
pub fn elements_of<C: Chare>(
    alloc: Global,
    replayers: &[Replayer<C>],
) -> Result<BTreeMap<Elem, Element>, AllocError>
    ensures { (worker : names.Elem → ℕ) (processors : ℕ) (records : List (names.Elem × Record)) →
        ArePartsOn worker processors records replayers.now →
        IfOk result (λ elements. elements.entries ≡ opened_elements processors records) }
{
    let mut elements = BTreeMap::new(alloc);
    for replayer in replayers {
        add_all(&mut elements, &replayer.restored.elements)?;
    }
    Ok(elements)
}

/// Adds a copy of each of these elements. It fails only when out of memory.
fn add_all(
    elements: &mut BTreeMap<Elem, Element>,
    more: &BTreeMap<Elem, Element>,
) -> Result<(), AllocError>
    ensures { OnOk result (elements.new.entries
        ≡ with_made elem_cmp as_it_is elements.old.entries more.now.entries) }
{
    for (elem, element) in more {
        elements.insert(*elem, *element)?;
    }
    Ok(())
}
