//! Places after a restart.

ghost use Rattle.std.specs.Prelude.{◌≡◌, true, if◌then◌else◌, IfOk, IfErr};
ghost use Rattle.std.specs.List.Sorted.{IsStrictlySortedBy};
ghost use Rattle.std.specs.Map.{keys_of};
ghost use Rattle.charmlet_model.specs.Names.{elem_cmp};
ghost use Rattle.charmlet_model.specs.declared.refusal.Refusal.TheVariants as refusals;
ghost use Rattle.charmlet_locate.specs.Locations.{AreAtHome, is_processor_count};

use crate::homes::{home_of, is_processor_count};
use crate::locations::Locations;
use charmlet_model::{Elem, Refusal};
use std::alloc::Global;

/// Places each of these elements at its home, for a restart on `processors` processors, and no
/// other element. An element that is named twice stands there once. `BadPes` if `processors` isn't
/// 1 to 64; otherwise `Memory`.
pub fn restart_map(alloc: Global, elems: &[Elem], processors: u16) -> Result<Locations, Refusal>
    ensures ok { IfOk result (λ locations. (is_processor_count processors ≡ true)
        × AreAtHome processors elems.now locations) }
    ensures rising { IfOk result (λ locations. IsStrictlySortedBy elem_cmp (keys_of locations)) }
    ensures err { IfErr result (λ refusal. refusal
        ≡ (if is_processor_count processors then refusals.Memory else refusals.BadPes)) }
{
    if !is_processor_count(processors) {
        return Err(Refusal::BadPes);
    }
    let mut locations = Locations::new(alloc);
    for elem in elems {
        locations.place(*elem, home_of(*elem, processors))?;
    }
    Ok(locations)
}
