//! The elements of an image.

ghost use Rattle.std.specs.Prelude.{◌≡◌, ◌<◌, ◌^◌, ◌++◌, IfErr, option_copied, IfSome, OnOk, Option, length, option_map};
ghost use Rattle.charmlet_model.specs.declared.names.Elem as elems;
ghost use Rattle.charmlet_model.specs.declared.state.State.{State};
ghost use Rattle.charmlet_model.specs.declared.refusal.Refusal.TheVariants as refusals;
ghost use Rattle.charmlet_model.specs.Core.{present};
ghost use Rattle.charmlet_model.specs.Packed.{pupped};
ghost use Rattle.charmlet_model.specs.Spelling.{spell_list};
ghost use Rattle.charmlet_image.specs.Images.{spell_entry};
ghost use Rattle.charmlet_history.specs.Kept.{core_in};
ghost use Rattle.charmlet_world.specs.Seen.{element_at};
ghost use Rattle.charmlet_history.specs.Records.{record_with, records_from};
ghost use Rattle.charmlet_world.specs.Seen.{has_record};
ghost use Rattle.charmlet_persist.specs.Snapshot.Showing.{IsShown, state_in};

use charmlet_chare::Chare;
use charmlet_history::History;
use charmlet_image::{Entry, entry_size, write_entry};
use charmlet_model::{Elem, Refusal};
use charmlet_record::write_u32;
use charmlet_shelf::Shelf;
use charmlet_world::Element;
use std::alloc::AllocError;
use std::collections::BTreeMap;

/// How many of the elements have a record.
pub(crate) fn count_records(elements: &BTreeMap<Elem, Element>) -> usize
    ensures { (state : elems.Elem → Option State) →
        result ≡ length (records_from state elements.now.entries) }
{
    let mut count = 0;
    for (_elem, element) in elements {
        let is_counted = element.has_record();
        if is_counted {
            count += 1;
        }
    }
    count
}

/// Appends the number of records, and each record, in rising order of elements. It fails only when
/// out of memory. The shelves are unchanged.
pub(crate) fn append_records<C: Chare>(
    out: &mut Vec<u8>,
    count: u32,
    history: &History,
    elements: &BTreeMap<Elem, Element>,
    shelves: &mut [Shelf<C>],
) -> Result<(), Refusal>
    requires shown { IsShown history.now shelves.old }
    requires elements { elements.now.entries ≡ history.now.elements }
    requires count { count ≡ length (present (core_in history.now)).records }
    ensures ok { OnOk result (out.new.items ≡ out.old.items
        ++ spell_list spell_entry (present (core_in history.now)).records) }
    ensures err { IfErr result (λ refusal. refusal ≡ refusals.Memory) }
    ensures same { shelves.new ≡ shelves.old }
{
    history.facts();
    out.reserve(4)?;
    write_u32(out, count);
    for (elem, element) in elements {
        let is_written = element.has_record();
        if !is_written {
            continue;
        }
        append_record(out, history, shelves, *elem, element)?;
    }
    Ok(())
}

/// Appends an element with its counts, and with its packed state if it is there. It fails only when
/// out of memory. The shelves are unchanged.
fn append_record<C: Chare>(
    out: &mut Vec<u8>,
    history: &History,
    shelves: &mut [Shelf<C>],
    elem: Elem,
    element: &Element,
) -> Result<(), Refusal>
    requires shown { IsShown history.now shelves.old }
    requires element { element.now ≡ element_at history.now.elements elem }
    ensures ok { OnOk result (out.new.items ≡ out.old.items
        ++ spell_entry (elem, record_with (state_in history.now elem) element.now)) }
    ensures err { IfErr result (λ refusal. refusal ≡ refusals.Memory) }
    ensures same { shelves.new ≡ shelves.old }
{
    history.facts();
    let Some(place) = element.place else {
        append_entry(out, elem, element, None)?;
        return Ok(());
    };
    let image = shelves[place as usize].image(elem)?;
    let Some(image) = image else { unreachable!() };
    append_entry(out, elem, element, Some(&image.packed))?;
    Ok(())
}

/// Appends an element with its counts, and with this packed state if there is one. It fails only
/// when out of memory.
fn append_entry(
    out: &mut Vec<u8>,
    elem: Elem,
    element: &Element,
    packed: Option<&[u8]>,
) -> Result<(), AllocError>
    requires { IfSome (option_copied packed) (λ bytes. length bytes < 2 ^ 32) }
    ensures { OnOk result ((state : Option State) →
        option_copied packed.entry ≡ option_map pupped state →
        out.new.items ≡ out.old.items ++ spell_entry (elem, record_with state element.now)) }
{
    let entry = Entry {
        element: elem,
        sent: element.sent,
        received: element.received,
        packed,
    };
    out.reserve(entry_size(&entry))?;
    write_entry(out, &entry);
    Ok(())
}
